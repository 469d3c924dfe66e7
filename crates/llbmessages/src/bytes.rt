ghost use Rattle.std.specs.Prelude.{◌≡◌, Some, IfOk};
ghost use Rattle.llbmessages.specs.Op.{op_bytes, read_op};
ghost use Rattle.llbmessages.specs.Definition.{definition_bytes, read_definition};

use crate::fits::look_at_op;
use crate::{Definition, Op};
use plain::{Bytes, Memory};
use std::alloc::Global;
use wire::Encode;

impl Op {
    /// The operation's bytes, of which its digest is made. They are read as this operation and no other.
    pub fn to_bytes(&self, alloc: Global) -> Result<Bytes, Memory>
        ensures written { IfOk result (λ bytes. bytes ≡ op_bytes self.now) }
        ensures back { IfOk result (λ bytes. read_op bytes ≡ Some self.now) }
    {
        look_at_op(self);
        Ok(self.encode(alloc)?.into_bytes())
    }
}

impl Definition {
    /// The definition's bytes. They are read as this definition and no other.
    pub fn to_bytes(&self, alloc: Global) -> Result<Bytes, Memory>
        ensures written { IfOk result (λ bytes. bytes ≡ definition_bytes self.now) }
        ensures back { IfOk result (λ bytes. read_definition bytes ≡ Some self.now) }
    {
        Ok(self.encode(alloc)?.into_bytes())
    }
}
