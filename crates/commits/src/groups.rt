//! The group: commits that wait and are published together.
ghost use Rattle.std.specs.Prelude.{◌≡◌, ◌<◌, ◌≤◌, length, take, drop};
ghost use Rattle.commits.specs.Values.{versions_after};
ghost use Rattle.commits.specs.Steps.{group_last, grouped, published};

use crate::commits::Commits;
use crate::waiting::Waiting;
use chains::Frozen;
use std::collections::VecDeque;

/// At most so many commits are in a group.
pub const MOST_IN_GROUP: usize = 1024;

impl Commits {
    /// How many commits wait.
    pub fn waiting(&self) -> usize
        ensures { result ≡ length self.now.queue }
    {
        self.queue.len()
    }

    /// How many of those that wait the group has, 0 where there is none.
    pub fn group(&self) -> usize
        ensures is { result ≡ self.now.group }
        ensures within { result ≤ length self.now.queue }
        ensures few { result ≤ 1024 }
    {
        self.group
    }

    /// The time of the last commit of the group, in microseconds since 1970.
    pub fn group_last(&self) -> u64
        requires { 0 < self.now.group }
        ensures { result ≡ group_last self.now }
    {
        match self.queue.get(self.group - 1) {
            None => unreachable!(),
            Some(waiting) => waiting.time(),
        }
    }

    /// Where there is no group and commits wait, one begins: of the first `most`, or of all of
    /// them.
    pub fn begin_group(&mut self, most: usize)
        requires { most ≤ 1024 }
        ensures { self.new ≡ grouped most self.old }
    {
        if self.group == 0 && !self.queue.is_empty() {
            self.group = most.min(self.queue.len());
        }
    }

    /// The commits of the group are published, and there is no group. Says how many they are. It
    /// takes no memory.
    pub fn publish(&mut self) -> u32
        ensures count { result ≡ self.old.group }
        ensures new { self.new ≡ published self.old }
    {
        let count = self.group;
        publish_first(&mut self.queue, &mut self.versions, count);
        self.order.publish(count);
        self.group = 0;
        count as u32
    }
}

// The first commits that wait do so no longer: the versions after them stand.
fn publish_first(queue: &mut VecDeque<Waiting>, versions: &mut Frozen, count: usize)
    requires { count ≤ length queue.old.items }
    ensures queue { queue.new.items ≡ drop count queue.old.items }
    ensures versions { versions.new ≡ versions_after versions.old (take count queue.old.items) }
{
    for _ in 0..count {
        match queue.pop_front() {
            None => unreachable!(),
            Some(waiting) => *versions = waiting.into_after(),
        }
    }
}
