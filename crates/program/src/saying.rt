ghost use Rattle.std.specs.Prelude.{◌≡◌, ◌<◌, ◌⊎◌, ◌++◌, [], ℕ, List, IfOk, codes};
ghost use Rattle.counted.specs.Edges.{line_of};
ghost use Rattle.program.specs.Runs.{SaysBecause};
ghost use Rattle.program.specs.Saying.{Says, stream};

use counted::{CountedWrite, write_all};
use plain::Text;
use std::alloc::{AllocError, Global};

/// What is said where there was no memory.
pub(crate) const NO_MEMORY_LINE: &str = "out of memory\n";

/// Writes a text, or as much of it as the device takes. That it fails changes nothing: there is nowhere left to say so.
pub(crate) fn say<S: CountedWrite>(device: &mut S, text: &str)
    requires room { S.failures device.old < u64.MAX }
    ensures { Says text.now (stream (S.contents device.old) (S.failures device.old)) (stream (S.contents device.new) (S.failures device.new)) }
{
    let _ = write_all(device, text.as_bytes());
}

/// Says why something isn't done: a text, and after it why, if that is known and there is memory to say it. `line` is the text as a line.
pub(crate) fn say_because<S: CountedWrite>(
    alloc: Global,
    device: &mut S,
    text: &str,
    line: &str,
    why: &str,
)
    requires line { line.now ≡ line_of text.now }
    requires room { S.failures device.old < u64.MAX }
    ensures { SaysBecause text.now why.now (stream (S.contents device.old) (S.failures device.old)) (stream (S.contents device.new) (S.failures device.new)) }
{
    match because_line(alloc, text, why) {
        Ok(whole) => say(device, whole.as_str()),
        Err(AllocError) => say(device, line),
    }
}

/// A text and why, as a line.
fn because_line(alloc: Global, text: &str, why: &str) -> Result<Text, AllocError>
    ensures { IfOk result (λ line. (told : List ℕ) × ((told ≡ []) ⊎ (told ≡ codes ": " ++ why.now)) × (line ≡ line_of (text.now ++ told))) }
{
    let mut line = String::from_str(alloc, text)?;
    if !why.is_empty() {
        line.push_str(": ")?;
        line.push_str(why)?;
    }
    line.push('\n')?;
    Ok(Text::from_string(line))
}
