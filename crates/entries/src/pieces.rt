ghost use Rattle.std.specs.Prelude.{◌≡◌, ◌+◌, ◌≤◌, ◌++◌, length, take, decimal};
ghost use Rattle.serde_json.specs.Written.{comma_if};
ghost use Rattle.entries.specs.PrivatePrinting.{mode_and_key};

use crate::writing::octal_digit;
use counted::Piece;
use itoa::Buffer;
use plain::Mode;

/// How many bytes are written at once where a text of unknown length is short: a constant number of bytes is a few stores, and no call.
const SHORT: usize = 64;

/// What a directory's text has before its mode, and the comma before a later one.
#[derive(Drop)]
pub(crate) struct DirectoryStart {
    pub(crate) later: bool,
    pub(crate) gid: u32,
}

impl Piece for DirectoryStart {
    ghost use Rattle.entries.specs.PrivatePrinting.{directory_start};

    ghost text = { λ start. directory_start start.later start.gid };

    #[inline(always)]
    fn write(self, room: &mut [u8]) -> usize {
        let at = write_comma(room, self.later);
        let at = write_at(room, at, b"{\"dir\":true,\"gid\":");
        let at = write_number(room, at, self.gid);
        write_at(room, at, b",\"mode\":\"")
    }
}

/// What a file's text has before its bytes, and the comma before a later one.
#[derive(Drop)]
pub(crate) struct FileStart {
    pub(crate) later: bool,
    pub(crate) gid: u32,
}

impl Piece for FileStart {
    ghost use Rattle.entries.specs.PrivatePrinting.{file_start};

    ghost text = { λ start. file_start start.later start.gid };

    #[inline(always)]
    fn write(self, room: &mut [u8]) -> usize {
        let at = write_comma(room, self.later);
        let at = write_at(room, at, b"{\"gid\":");
        let at = write_number(room, at, self.gid);
        write_at(room, at, b",\"hex\":\"")
    }
}

/// Bytes in hexadecimal.
#[derive(Drop)]
pub(crate) struct Digits<'a> {
    pub(crate) bytes: &'a [u8],
    ghost few: { length bytes.now ≤ 4096 },
}

impl<'a> Piece for Digits<'a> {
    ghost use Rattle.hex.specs.Hex.{encode_lower};

    ghost text = { λ digits. encode_lower digits.bytes.now };

    #[inline(always)]
    fn write(self, room: &mut [u8]) -> usize {
        let size = 2 * self.bytes.len();
        hex::encode_to_slice(self.bytes, &mut room[..size]).unwrap();
        size
    }
}

/// A mode's four octal digits, what stands between them and the path, and the front of the path that is held.
#[derive(Drop)]
pub(crate) struct ModeAndFront<'a> {
    pub(crate) mode: Mode,
    /// The front is this text's first bytes.
    pub(crate) text: &'a [u8],
    /// So many of them.
    pub(crate) size: usize,
    ghost inside: { size ≤ length text.now },
    ghost few: { size ≤ 4096 },
}

impl<'a> Piece for ModeAndFront<'a> {
    ghost use Rattle.entries.specs.PrivatePrinting.{mode_and_key};

    ghost text = { λ m. mode_and_key m.mode ++ take m.size m.text.now };

    #[inline(always)]
    fn write(self, room: &mut [u8]) -> usize {
        let at = write_mode_and_path_key(room, self.mode);
        write_front(room, at, self.text, self.size)
    }
}

/// What stands behind a path.
#[derive(Drop)]
pub(crate) struct UserEnd {
    pub(crate) uid: u32,
}

impl Piece for UserEnd {
    ghost use Rattle.entries.specs.PrivatePrinting.{user_end};

    ghost text = { λ end. user_end end.uid };

    #[inline(always)]
    fn write(self, room: &mut [u8]) -> usize {
        let at = write_at(room, 0, b"\",\"uid\":");
        let at = write_number(room, at, self.uid);
        write_at(room, at, b"}")
    }
}

/// Writes bytes over those at a place of a text, and tells where they end.
#[inline(always)]
pub(crate) fn write_at(text: &mut [u8], at: usize, bytes: &[u8]) -> usize
    requires { at + length bytes.now ≤ length text.old }
    ensures end { result ≡ at + length bytes.now }
    ensures front { take (at + length bytes.now) text.new ≡ take at text.old ++ bytes.now }
    ensures long { length text.new ≡ length text.old }
{
    let end = at + bytes.len();
    text[at..end].copy_from_slice(bytes);
    end
}

/// Writes the comma before a later entry.
#[inline(always)]
fn write_comma(text: &mut [u8], later: bool) -> usize
    requires { 1 ≤ length text.old }
    ensures size { result ≤ 1 }
    ensures front { take result text.new ≡ comma_if later }
    ensures long { length text.new ≡ length text.old }
{
    if later { write_at(text, 0, b",") } else { 0 }
}

/// Writes a mode as four octal digits, and what stands between them and the path: one part costs less than two.
#[inline(always)]
fn write_mode_and_path_key(text: &mut [u8], mode: Mode) -> usize
    requires { 14 ≤ length text.old }
    ensures end { result ≡ 14 }
    ensures front { take result text.new ≡ mode_and_key mode }
    ensures long { length text.new ≡ length text.old }
{
    let bits = mode.bits();
    let part = [
        octal_digit(bits / 512),
        octal_digit(bits / 64 % 8),
        octal_digit(bits / 8 % 8),
        octal_digit(bits % 8),
        b'"',
        b',',
        b'"',
        b'p',
        b'a',
        b't',
        b'h',
        b'"',
        b':',
        b'"',
    ];
    write_at(text, 0, &part)
}

/// Writes a number in decimal. Most are owners and groups of one digit.
#[inline(always)]
fn write_number(text: &mut [u8], at: usize, number: u32) -> usize
    requires { at + 10 ≤ length text.old }
    ensures end { result ≤ at + 10 }
    ensures front { take result text.new ≡ take at text.old ++ decimal number }
    ensures long { length text.new ≡ length text.old }
{
    if number < 10 {
        return write_at(text, at, &[b'0' + number as u8]);
    }
    let mut buffer = Buffer::new();
    write_at(text, at, buffer.format(number).as_bytes())
}

/// Writes the first bytes of a text, so many of them, at a place of another.
#[inline(always)]
fn write_front(text: &mut [u8], at: usize, bytes: &[u8], size: usize) -> usize
    requires inside { size ≤ length bytes.now }
    requires room { at + size ≤ length text.old }
    ensures end { result ≡ at + size }
    ensures front { take (at + size) text.new ≡ take at text.old ++ take size bytes.now }
    ensures long { length text.new ≡ length text.old }
{
    if size <= SHORT && SHORT <= bytes.len() && SHORT <= text.len() - at {
        write_at(text, at, &bytes[..SHORT]);
        return at + size;
    }
    write_at(text, at, &bytes[..size])
}
