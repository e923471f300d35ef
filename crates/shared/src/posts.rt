//! The requests of callers of `commit`, and what became of each.
use crate::naming::Opening;
use crate::served::{Request, Served};
use crate::signals::Signals;
use std::alloc::{AllocError, Global};
use std::collections::VecDeque;
use std::mem;

/// The members of a full group.
const FULL_GROUP: u64 = 16;

/// How often a committer goes through the posts before it begins a group, as long as requests come.
const MOST_ROUNDS: u64 = 64;

/// What a committer is to do.
#[derive(Clone, Copy, Debug, PartialEq, Eq)]
pub(crate) enum Doing {
    /// It works for the requests.
    Serves,
    /// It makes a step of a group.
    Steps,
    Sleeps,
}

// What came of a request.
#[derive(Drop)]
enum Post<L: Opening> {
    // Nothing yet, or there is no request.
    Empty,
    // Its commit is queued.
    Queued(Served<L>),
    // Its caller is to take the answer.
    Answered(Served<L>),
}

/// The posts of all callers. The counts wrap.
#[derive(Drop)]
pub(crate) struct Posts<L: Opening> {
    posts: Vec<Post<L>>,
    // The numbers of the posts that have no request, with room for those of all.
    free: Vec<usize>,
    // The requests that are to be worked for, in turn, each with the number of its post.
    asked: VecDeque<(usize, Request<L>)>,
    // The callers that were answered and have not told yet that they know it.
    due: u64,
    // How often a committer went through the posts since its last step.
    rounds: u64,
    // The loops of committers that run.
    committers: u64,
    // Up to this time commits are published, in microseconds since 1970.
    upto: u64,
    failed: bool,
    // Whether a committer sleeps, or did, that would have made a step if no answered caller were on its way.
    held: bool,
}

impl<L: Opening> Post<L> {
    // The answer, if there is one.
    fn take_answer(&mut self) -> Option<Served<L>> {
        if !matches!(self, Post::Answered(_)) {
            return None;
        }
        match mem::replace(self, Post::Empty) {
            Post::Answered(served) => Some(served),
            _ => None,
        }
    }

    // A commit that is queued becomes an answer, where it is published up to this time or the store has
    // failed. Whether it did.
    fn settle(&mut self, upto: u64, failed: bool) -> bool {
        match self {
            Post::Queued(served) if failed || is_upto(served.time(), upto) => {}
            _ => return false,
        }
        match mem::replace(self, Post::Empty) {
            Post::Queued(served) => {
                *self = Post::Answered(served);
                true
            }
            _ => false,
        }
    }
}

impl<L: Opening> Posts<L> {
    pub(crate) fn new(alloc: Global) -> Posts<L> {
        Posts {
            posts: Vec::new(alloc),
            free: Vec::new(alloc),
            asked: VecDeque::new(alloc),
            due: 0,
            rounds: 0,
            committers: 0,
            upto: 0,
            failed: false,
            held: false,
        }
    }

    /// Posts a request, and gives the number of its post. Where there is no memory for it the request
    /// is gone.
    pub(crate) fn ask(&mut self, request: Request<L>) -> Result<usize, AllocError> {
        let number = self.take_free()?;
        if self.asked.push_back((number, request)).is_err() {
            self.set_free(number);
            return Err(AllocError);
        }
        Ok(number)
    }

    // The number of a post that has no request.
    fn take_free(&mut self) -> Result<usize, AllocError> {
        if let Some(number) = self.free.pop() {
            return Ok(number);
        }
        let number = self.posts.len();
        self.free.reserve(number.saturating_add(1))?;
        self.posts.push(Post::Empty)?;
        Ok(number)
    }

    // There is room for the number since there is the post.
    fn set_free(&mut self, number: usize) {
        let _ = self.free.push(number);
    }

    /// How many posts there are: as many as callers were on their way at once, at most.
    pub(crate) fn count(&self) -> usize {
        self.posts.len()
    }

    /// How many requests are to be worked for.
    pub(crate) fn asked(&self) -> usize {
        self.asked.len()
    }

    /// The first of the requests that are to be worked for, with the number of its post.
    pub(crate) fn take_asked(&mut self) -> Option<(usize, Request<L>)> {
        self.asked.pop_front()
    }

    /// What came of a request. Whether its caller is to be woken.
    pub(crate) fn put(&mut self, number: usize, served: Served<L>) -> bool {
        let waits = match served.time() {
            Some(time) => !self.failed && self.upto < time,
            None => false,
        };
        let Some(post) = self.posts.get_mut(number) else {
            return false;
        };
        if waits {
            *post = Post::Queued(served);
            return false;
        }
        *post = Post::Answered(served);
        self.due = self.due.wrapping_add(1);
        true
    }

    /// Commits are published up to this time, or the store has failed. Whether callers are to be woken.
    pub(crate) fn settle(&mut self, after: Signals) -> bool {
        self.upto = self.upto.max(after.last());
        self.failed = self.failed || after.has_failed();
        let mut answered = 0u64;
        for post in &mut self.posts {
            if post.settle(self.upto, self.failed) {
                answered = answered.wrapping_add(1);
            }
        }
        self.due = self.due.wrapping_add(answered);
        answered != 0
    }

    /// The answer at the caller's post, which is free then.
    pub(crate) fn take_answer(&mut self, number: usize) -> Option<Served<L>> {
        let served = self.posts.get_mut(number)?.take_answer()?;
        self.set_free(number);
        Some(served)
    }

    /// A caller knows its answer. Whether a committer sleeps that is to go on.
    pub(crate) fn note_told(&mut self) -> bool {
        self.due = self.due.wrapping_sub(1);
        self.due == 0 && mem::replace(&mut self.held, false)
    }

    /// Whether a committer works for the requests.
    pub(crate) fn is_attended(&self) -> bool {
        self.committers != 0
    }

    /// A committer begins to work for the requests.
    pub(crate) fn attend(&mut self) {
        self.committers = self.committers.wrapping_add(1);
    }

    /// A committer ends, unless there are requests and the store works. Whether it does.
    pub(crate) fn leave(&mut self) -> bool {
        if !self.asked.is_empty() && !self.failed {
            return false;
        }
        self.committers = self.committers.wrapping_sub(1);
        true
    }

    /// What a committer is to do. It begins no group as long as requests come, or a caller that was
    /// answered does not know it yet, since it may be on its way with the next request, unless a full
    /// group waits.
    pub(crate) fn next(&mut self, signals: Signals, waits: bool) -> Doing {
        let urgent = signals.is_urgent() || signals.queued() >= FULL_GROUP;
        let has_work = signals.is_urgent() || signals.queued() != 0;
        let lets_step = has_work && !waits && (urgent || self.rounds >= MOST_ROUNDS);
        if !self.asked.is_empty() && !lets_step {
            self.rounds = self.rounds.wrapping_add(1);
            return Doing::Serves;
        }
        self.rounds = 0;
        if waits || !has_work {
            return Doing::Sleeps;
        }
        if self.due != 0 && !lets_step {
            self.held = true;
            return Doing::Sleeps;
        }
        Doing::Steps
    }
}

// Whether a commit of this time is published, where there is one.
fn is_upto(time: Option<u64>, upto: u64) -> bool {
    match time {
        Some(time) => time <= upto,
        None => false,
    }
}
