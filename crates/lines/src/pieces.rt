ghost use Rattle.std.specs.Prelude.{◌≡◌, ◌<◌, ◌≤◌, ◌+◌, ◌-◌, ◌==◌, ◌++◌, [], ℕ, Bool, List, Some, IfOk, IfErr, IsUtf8, length, take, drop, count_by, get_or};
ghost use Rattle.std.specs.Str.{IsValidUpTo};
ghost use Rattle.std.specs.Str.Lossy.{utf8_error_len};
ghost use Rattle.plain.specs.Limits.{most_dockerfile_bytes};
ghost use Rattle.lines.specs.PrivateRead.{IsReadFrom, IsNextLf, IsAt, IsTail, StopsAt};
ghost use Rattle.lines.specs.PrivateScan.{state_at};
ghost use Rattle.lines.specs.Ready.{HasNoLf};
ghost use Rattle.lines.specs.declared.state.FileState.{FileState};

use crate::Mark;
use crate::blocks::take_line;
use crate::scan::{Progress, Scan, Stop};
use memchr::{memchr, memchr_iter};
use plain::Items;
use std::alloc::Global;

/// How many bytes are an LF.
pub fn line_feeds(bytes: &[u8]) -> usize
    ensures { result ≡ count_by (λ b. b == 10) bytes.now }
{
    // The iterator's own `count` looks at each byte by itself. This one goes from LF to LF.
    Iterator::count(memchr_iter(b'\n', bytes))
}

/// Where the next LF of these bytes stands from an offset on, if there is one.
fn next_line_feed(bytes: &[u8], from: usize) -> Option<usize>
    requires { from ≤ length bytes.now }
    ensures { IsNextLf bytes.now from result }
{
    match memchr(b'\n', &bytes[from..]) {
        Some(far) => Some(from + far),
        None => None,
    }
}

/// Up to where bytes are whole characters, of which those before `valid` are known to be, or where a bad byte stands. Bytes at the
/// end that begin a character are not bad.
pub fn whole_characters(bytes: &[u8], valid: usize) -> Result<usize, usize>
    requires { valid ≤ length bytes.now }
    ensures whole { IfOk result (λ n. (valid ≤ n) × (n ≤ length bytes.now) × IsUtf8 (take (n - valid) (drop valid bytes.now)) × IsTail (drop n bytes.now)) }
    ensures bad { IfErr result (λ n. (valid ≤ n) × (n ≤ length bytes.now) × IsValidUpTo (drop valid bytes.now) (n - valid)
        × ((j : ℕ) × (utf8_error_len (drop n bytes.now) ≡ Some j))) }
{
    match str::from_utf8(&bytes[valid..]) {
        Ok(_) => Ok(bytes.len()),
        Err(fault) => {
            let at = valid + fault.valid_up_to();
            match fault.error_len() {
                None => Ok(at),
                Some(_) => Err(at),
            }
        }
    }
}

/// Takes the line that the LF at `end` ends, which begins at `at`.
#[tactic(auto, unfolding(plain::specs::Limits::most_dockerfile_bytes))]
fn take_ended(
    alloc: Global,
    scan: Scan,
    kept: &[Mark],
    bytes: &[u8],
    at: usize,
    end: usize,
) -> Result<Scan, Stop>
    requires utf8 { IsUtf8 bytes.now }
    requires within { end < length bytes.now }
    requires ends { get_or bytes.now end 0 ≡ 10 }
    requires known { (from : FileState) × (begins : Bool) × (from.count + length bytes.now ≤ most_dockerfile_bytes) × IsAt from begins kept.now scan bytes.now at end }
    ensures ok { IfOk result (λ next. (from : FileState) (begins : Bool) → IsAt from begins kept.now scan bytes.now at end
        → IsAt from begins kept.now next bytes.now (end + 1) (end + 1)) }
    ensures err { IfErr result (λ stop. (from : FileState) (begins : Bool) → IsAt from begins kept.now scan bytes.now at end → StopsAt from begins bytes.now stop) }
{
    let block = &bytes[scan.start..end + 1];
    let line = &bytes[at..end];
    take_line(alloc, scan, kept, block, line)
}

/// Takes the complete lines of these bytes, which begin where the block in progress does. Of them `looked` bytes are lines that were
/// taken, and no LF stands after them before `from`. Also gives how many bytes are taken now.
#[tactic(auto, unfolding(plain::specs::Limits::most_dockerfile_bytes))]
pub fn take_lines(
    alloc: Global,
    progress: Progress,
    kept: &[Mark],
    bytes: &[u8],
    looked: usize,
    from: usize,
) -> Result<(Scan, usize), Stop>
    requires utf8 { IsUtf8 bytes.now }
    requires size { progress.place.count + length bytes.now ≤ most_dockerfile_bytes }
    requires cut { (own : List ℕ) × (line : List ℕ) × (rest : List ℕ) × (bytes.now ≡ own ++ (line ++ rest)) × (length own ≡ looked) × (looked + length line ≡ from)
        × HasNoLf line × IsReadFrom (state_at progress.place progress.room) progress.is_first [] progress kept.now [] own }
    ensures ok { IfOk result (λ taken. IsAt (state_at progress.place progress.room) progress.is_first kept.now taken.0 bytes.now taken.1 (length bytes.now)) }
    ensures err { IfErr result (λ stop. StopsAt (state_at progress.place progress.room) progress.is_first bytes.now stop) }
{
    let mut scan = Scan {
        progress,
        start: 0,
        marks: None,
        lines: Items::new(alloc),
    };
    let mut at = looked;
    let mut from = from;
    while let Some(end) = next_line_feed(bytes, from) {
        match take_ended(alloc, scan, kept, bytes, at, end) {
            Ok(next) => {
                scan = next;
                at = end + 1;
                from = at;
            }
            Err(stop) => return Err(stop),
        }
    }
    Ok((scan, at))
}
