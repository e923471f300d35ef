//! The view that readers share without the lock.
ghost use Rattle.std.specs.Prelude.{◌≡◌, ◌≤◌, IfOk, IfSome, OnErr, OnOk};
ghost use Rattle.history.specs.Histories.{last};
ghost use Rattle.shared.specs.Moments.{HoldsSeen};
ghost use Rattle.shared.specs.Seen.{IsLater};

use crate::cell::PublishedCell;
use crate::naming::Opening;
use crate::observer::Observer;
use crate::shared::SharedStore;
use crate::shared_view::SharedView;
use disk::Disk;
use std::alloc::AllocError;
use std::mem;
use std::sync::Wait;
use std::sync::atomic::Ordering;

/// A view that readers share, and a pass that has seen as much.
pub(crate) struct KeptView<L: Opening> {
    view: SharedView<L>,
    seen: Observer<L>,
    ghost same: { seen ≡ view.seen },
}

impl<L: Opening> KeptView<L> {
    pub(crate) fn of(view: SharedView<L>, seen: Observer<L>) -> KeptView<L>
        requires { seen ≡ view.seen }
    {
        KeptView { view, seen }
    }

    // When its last commit was made, in microseconds since 1970.
    fn last(&self) -> u64
        ensures { result ≡ last self.now.view.seen.published }
    {
        let _ = &self.seen;
        self.view.last()
    }

    // One more view of its moment, for a caller that has seen no later commit published.
    fn another<R: Wait>(
        &mut self,
        rt: &R,
        cell: &PublishedCell,
        me: &mut Observer<L>,
    ) -> Result<SharedView<L>, AllocError>
        requires cell { cell.now.table.shared.table_id ≡ L.table }
        requires earlier { last me.old.published ≤ last self.old.view.seen.published }
        ensures holds { IfOk result (HoldsSeen me.old me.new) }
        ensures later { IsLater me.old me.new }
    {
        let view = self.view.another(cell)?;
        let seen = self.seen.another(cell);
        me.learn(rt, cell, seen);
        me.legal();
        Ok(view)
    }
}

/// A view is spent, as each is.
impl<L: Opening> Drop for KeptView<L> {
    fn drop(self) {
        let KeptView { view, seen: _ } = self;
        view.spend().spend();
    }
}

/// The view that readers share, where there is one, and how often it was let go since what it shows had
/// changed: a view that was taken before is not shared then.
#[derive(Drop)]
pub(crate) struct Latest<L: Opening> {
    kept: Option<KeptView<L>>,
    renewals: u64,
}

impl<L: Opening> Latest<L> {
    pub(crate) fn new() -> Self {
        Latest {
            kept: None,
            renewals: 0,
        }
    }

    // Another view is kept from now on, or none. What was kept is handed out, to be let go without the lock.
    fn renew(&mut self, next: Option<KeptView<L>>) -> Option<KeptView<L>> {
        self.renewals = self.renewals.wrapping_add(1);
        mem::replace(&mut self.kept, next)
    }

    // Keeps a view that was taken since so many renewals, unless there was another. What is not kept is handed
    // out.
    fn keep(&mut self, next: KeptView<L>, renewals: u64) -> Option<KeptView<L>> {
        if self.renewals != renewals {
            return Some(next);
        }
        mem::replace(&mut self.kept, Some(next))
    }
}

// One more view of the moment of the one that is kept, where it has all commits that the caller has seen
// published, and those that the cell tells of.
fn another_of<L: Opening, R: Wait>(
    rt: &R,
    cell: &PublishedCell,
    kept: &mut Option<KeptView<L>>,
    me: &mut Observer<L>,
) -> Result<Option<SharedView<L>>, AllocError>
    requires { cell.now.table.shared.table_id ≡ L.table }
    ensures holds { IfOk result (λ found. IfSome found (HoldsSeen me.old me.new)) }
    ensures later { IsLater me.old me.new }
{
    let time = me.load(rt, cell);
    match kept {
        Some(kept) if time <= kept.last() => Ok(Some(kept.another(rt, cell, me)?)),
        _ => Ok(None),
    }
}

impl<D: Disk, L: Opening> SharedStore<D, L> {
    /// A view of what is published, or was a moment ago, with every commit that the caller has seen
    /// published. Those who ask again and again share it: the store's lock is taken only where none is
    /// kept yet that is late enough, so that they do not wait for the device, nor hold up those who write.
    /// One that nobody asked for between two groups is not kept, so that the next may change in its place
    /// what no view shows. Its floors are those of its moment.
    pub fn latest_view<R: Wait>(
        &self,
        rt: &R,
        me: &mut Observer<L>,
    ) -> Result<SharedView<L>, AllocError>
        ensures holds { IfOk result (HoldsSeen me.old me.new) }
        ensures later { IsLater me.old me.new }
    {
        // Readers of a flag that none of them changes do not wait for one another.
        if !self.is_asked.load(Ordering::SeqCst) {
            self.is_asked.store(true, Ordering::SeqCst);
        }
        let mut latest = self.latest.lock(rt);
        let renewals = latest.renewals;
        let found = another_of(rt, &self.cell, &mut latest.kept, me)?;
        drop(latest);
        match found {
            Some(view) => Ok(view),
            None => self.view_to_keep(rt, renewals, me),
        }
    }

    /// Makes a view one of what is published, or was a moment ago, with every commit that the caller has seen
    /// published. Where nothing was published since the view's moment it stays as it is: so a reader that asks
    /// again and again, and has a view of its own, takes no lock and counts no holder, and waits for no other
    /// reader. A floor that was raised since is no reason to renew it: who needs the floors of now asks for
    /// `view`.
    ///
    /// # Errors
    ///
    /// Where there is no memory for another view. The one that was given stays.
    pub fn renew<R: Wait>(
        &self,
        rt: &R,
        view: &mut SharedView<L>,
        me: &mut Observer<L>,
    ) -> Result<(), AllocError>
        ensures ok { OnOk result (HoldsSeen me.old me.new view.new) }
        ensures err { OnErr result (view.new ≡ view.old) }
        ensures later { IsLater me.old me.new }
    {
        if view.last() < me.load(rt, &self.cell) {
            let next = self.latest_view(rt, me)?;
            let old = mem::replace(view, next);
            self.end(old);
            return Ok(());
        }
        let moment = view.tell(&self.cell);
        me.hear(rt, &self.cell, moment.into_pass());
        me.legal();
        Ok(())
    }

    // A view of all that is published, which is kept too, unless memory is refused or something was published
    // since so many renewals. What was kept is let go without the lock.
    fn view_to_keep<R: Wait>(
        &self,
        rt: &R,
        renewals: u64,
        me: &mut Observer<L>,
    ) -> Result<SharedView<L>, AllocError>
        ensures holds { IfOk result (HoldsSeen me.old me.new) }
        ensures later { IsLater me.old me.new }
    {
        let mut view = self.view(rt, me)?;
        let seen = me.another(&self.cell);
        if let Ok(again) = view.another(&self.cell) {
            let next = KeptView::of(again, seen);
            let old = self.latest.lock(rt).keep(next, renewals);
            drop(old);
        }
        Ok(view)
    }

    // Once commits were published or a job was done, a view of now is kept where a reader asked for one
    // since the last was, and else none. The kept view's lock is taken before the store's is given up, so
    // that a view of before never takes the place of a later one. What was kept is let go without a lock.
    pub(crate) fn show<R: Wait>(&self, rt: &R) {
        if !self.is_asked.swap(false, Ordering::SeqCst) {
            let old = self.latest.lock(rt).renew(None);
            drop(old);
            return;
        }
        let mut locked = self.locked.lock(rt);
        let next = locked.kept_view(rt, &self.cell);
        let mut latest = self.latest.lock(rt);
        drop(locked);
        let old = latest.renew(next);
        drop(latest);
        drop(old);
    }
}
