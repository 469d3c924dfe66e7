ghost use Rattle.std.specs.Prelude.{◌≡◌, IfOk};

use plain::Memory;
use std::alloc::Global;

/// Where a value stands: in the place itself, or in a cell that it knows.
pub trait Place<T>: Drop {
    ghost stands: { Self → T };

    /// The value that stands there.
    fn value(&self) -> &T
        ensures { result.now ≡ stands self.now };

    /// A place where the same value stands.
    fn again(&mut self, alloc: Global) -> Result<Self, Memory>
        ensures same { self.new ≡ self.old }
        ensures again { IfOk result (λ place. stands place ≡ stands self.old) };
}
