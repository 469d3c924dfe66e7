ghost use Rattle.std.specs.Prelude.{◌≡◌, ◌<◌, ◌≤◌, vec_len, IfOk, IfErr, OnOk, OnErr};
ghost use Rattle.std.specs.Io.KnownBytes.{Appends};
ghost use Rattle.counted.specs.Edges.{AppendsBeginning, LosesBeginning, ReadsFirst, IsDevice, CountsFault};

use crate::{CountedRead, CountedWrite, Device, EdgeFault};
use plain::Fault;
use std::alloc::Global;

/// How many bytes one read asks for, at most.
const PIECE: usize = 65536;

/// Reads up to the end, or up to `limit` bytes, whichever comes first. At `limit` bytes nothing is said of the end: who has to know
/// whether there is more asks for one byte more than it takes.
///
/// It answers `Device` at the first read that fails, and tries none again. It answers `Memory` where there
/// was no memory for what was read. After either of them what was read, `limit` bytes at most, is lost.
pub fn read_all<R: CountedRead>(
    alloc: Global,
    input: &mut R,
    limit: usize,
) -> Result<Vec<u8>, EdgeFault>
    requires { R.failures input.old < u64.MAX }
    ensures bytes { IfOk result (λ bytes.
        ReadsFirst limit (R.remaining input.old) (R.remaining input.new) bytes.items) }
    ensures short { IfOk result (λ bytes. vec_len bytes ≤ limit) }
    ensures lost { OnErr result (LosesBeginning limit (R.remaining input.old) (R.remaining input.new)) }
    ensures count { CountsFault (R.failures input.old) (R.failures input.new) result }
{
    let mut bytes = Vec::new(alloc);
    let mut buffer = [0u8; PIECE];
    'reading: while bytes.len() < limit {
        let room = (limit - bytes.len()).min(PIECE);
        match input.read(&mut buffer[..room]) {
            Ok(0) => return Ok(bytes),
            Ok(n) => bytes.extend_from_slice(&buffer[..n])?,
            Err(_) => return Err(Fault::Because(Device)),
        }
    }
    Ok(bytes)
}

/// Writes all bytes, in order. It takes no memory.
///
/// It answers `Device` at the first write that fails or takes no byte, and tries none again; a beginning
/// of the bytes was then written. It never answers `Memory`.
pub fn write_all<W: CountedWrite>(output: &mut W, bytes: &[u8]) -> Result<(), EdgeFault>
    requires { W.failures output.old < u64.MAX }
    ensures whole { OnOk result (Appends (W.contents output.old) (W.contents output.new) bytes.now) }
    ensures beginning { OnErr result
        (AppendsBeginning (W.contents output.old) (W.contents output.new) bytes.now) }
    ensures device { IfErr result IsDevice }
    ensures count { CountsFault (W.failures output.old) (W.failures output.new) result }
{
    let mut rest = bytes;
    'writing: while !rest.is_empty() {
        match output.write(rest) {
            Ok(n) if n > 0 => rest = &rest[n..],
            _ => return Err(Fault::Because(Device)),
        }
    }
    Ok(())
}
