//! Values in boxes.

ghost use Rattle.std.specs.Prelude.{◌≡◌, IfOk};

use bk_num::name::NoMem;
use std::alloc::Global;

/// A box with a value.
pub(crate) fn boxed<T: Drop>(alloc: Global, value: T) -> Result<Box<T>, NoMem>
    ensures { IfOk result (λ b. b.value ≡ value) }
{
    match Box::new(alloc, value) {
        Ok(boxed) => Ok(boxed),
        Err(_) => Err(NoMem),
    }
}
