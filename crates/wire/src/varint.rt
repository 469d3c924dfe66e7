ghost use Rattle.std.specs.Prelude.{◌≡◌, ◌++◌, IfOk};
ghost use Rattle.wire.specs.Varint.{varint};

use std::alloc::AllocError;

/// Writes a number after some bytes.
pub(crate) fn push_varint(out: &mut Vec<u8>, value: u64) -> Result<(), AllocError>
    ensures { IfOk result (λ _. out.new.items ≡ out.old.items ++ varint value) }
{
    let mut rest = value;
    'bytes: while rest >= 128 {
        out.push((128 + rest % 128) as u8)?;
        rest /= 128;
    }
    out.push(rest as u8)?;
    Ok(())
}
