ghost use Rattle.std.specs.Prelude.{◌≡◌, ◌++◌, IfOk, OnOk};

use std::alloc::AllocError;

/// What several holders may have.
pub(crate) trait Share: Drop + Sized {
    /// One more holder of the same.
    fn share(&self) -> Result<Self, AllocError>
        ensures { IfOk result (λ s. s ≡ self.now) };
}

/// Appends to others one more holder of each of these.
pub(crate) fn add_shared<T: Share>(found: &mut Vec<T>, items: &[T]) -> Result<(), AllocError>
    ensures { OnOk result (found.new.items ≡ found.old.items ++ items.now) }
{
    for item in items {
        found.push(item.share()?)?;
    }
    Ok(())
}
