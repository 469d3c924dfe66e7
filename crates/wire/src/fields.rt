ghost use Rattle.std.specs.Prelude.{◌≡◌, ◌++◌, IfOk};
ghost use Rattle.wire.specs.Fields.{number, block, field_bytes};

use crate::varint::push_varint;
use std::alloc::AllocError;

/// Writes the field of a number after some bytes.
#[tactic(auto, using(crate::proofs::FieldLemmas::number_joined))]
pub(crate) fn push_number(out: &mut Vec<u8>, field: u32, value: u64) -> Result<(), AllocError>
    ensures { IfOk result (λ _. out.new.items ≡ out.old.items ++ field_bytes (number field value)) }
{
    push_varint(out, field as u64 * 8)?;
    push_varint(out, value)?;
    Ok(())
}

/// Writes the field of some bytes after others.
#[tactic(auto, using(crate::proofs::FieldLemmas::block_joined))]
pub(crate) fn push_block(out: &mut Vec<u8>, field: u32, bytes: &[u8]) -> Result<(), AllocError>
    ensures { IfOk result (λ _. out.new.items ≡ out.old.items ++ field_bytes (block field bytes.now)) }
{
    push_varint(out, field as u64 * 8 + 2)?;
    push_varint(out, bytes.len() as u64)?;
    out.extend_from_slice(bytes)?;
    Ok(())
}
