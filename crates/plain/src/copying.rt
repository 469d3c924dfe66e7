ghost use Rattle.std.specs.Prelude.{◌≡◌, IfOk};

use crate::exact::Exact;
use crate::memory::Memory;
use std::alloc::Global;

/// What was copied so far, and a copy of the next part beside it.
///
/// A value of several parts is copied so: at each `?` of its `copy` no other part is left to be let go, which the proof would walk
/// through there, part by part.
pub fn with_copy<A: Drop, B: Exact>(alloc: Global, copied: A, next: &B) -> Result<(A, B), Memory>
    ensures { IfOk result (λ both. both ≡ (copied, next.now)) }
{
    match next.copy(alloc) {
        Ok(next) => Ok((copied, next)),
        Err(memory) => {
            drop(copied);
            Err(memory)
        }
    }
}
