ghost use Rattle.std.specs.Prelude.{◌≡◌, ℕ, false, length, IfOk};
ghost use Rattle.plain.specs.Marks.{is_marked};

use crate::Memory;
use std::alloc::Global;

/// Marks for so many numbers, of which none is marked.
pub fn no_marks(alloc: Global, len: usize) -> Result<Vec<bool>, Memory>
    ensures long { IfOk result (λ marks. length marks.items ≡ len) }
    ensures none { IfOk result (λ marks. (k : ℕ) → is_marked marks.items k ≡ false) }
{
    let mut marks = Vec::new(alloc);
    for _at in 0..len {
        marks.push(false)?;
    }
    Ok(marks)
}
