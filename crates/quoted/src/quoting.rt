ghost use Rattle.std.specs.Prelude.{◌≡◌, ◌<◌, ◌≤◌, true, length, take, drop};
ghost use Rattle.std.specs.Char.{digit_char};
ghost use Rattle.std.specs.List.{list_all};
ghost use Rattle.json.specs.Print.{escape, escape_byte, escape_letter, quoted};
ghost use Rattle.counted.specs.Gathering.{sink, Says, HasRoom};
ghost use Rattle.quoted.specs.Plain.{is_plain};

use counted::{CountedWrite, Gathered, gather};

/// Says a text as a JSON string, with its quotes. It takes no memory.
pub fn put_quoted<W: CountedWrite>(output: &mut W, gathered: &mut Gathered, bytes: &[u8])
    requires room { HasRoom (W.failures output.old) gathered.old }
    ensures says { Says
        (sink (W.contents output.old) (W.failures output.old) gathered.old)
        (sink (W.contents output.new) (W.failures output.new) gathered.new)
        (quoted bytes.now) }
    ensures room { HasRoom (W.failures output.new) gathered.new }
{
    gather(output, gathered, b"\"");
    put_text(output, gathered, bytes);
    gather(output, gathered, b"\"");
}

/// Says bytes as they stand in a JSON string. It takes no memory.
///
/// Those that stand for themselves are said at once, up to the next that doesn't: most texts have no other.
pub fn put_text<W: CountedWrite>(output: &mut W, gathered: &mut Gathered, bytes: &[u8])
    requires room { HasRoom (W.failures output.old) gathered.old }
    ensures says { Says
        (sink (W.contents output.old) (W.failures output.old) gathered.old)
        (sink (W.contents output.new) (W.failures output.new) gathered.new)
        (escape bytes.now) }
    ensures room { HasRoom (W.failures output.new) gathered.new }
{
    let mut rest = bytes;
    while !rest.is_empty() {
        let (front, behind) = rest.split_at(plain_front(rest));
        gather(output, gathered, front);
        rest = put_first(output, gathered, behind);
    }
}

/// How many bytes at the front stand for themselves in a JSON string.
fn plain_front(bytes: &[u8]) -> usize
    ensures inside { result ≤ length bytes.now }
    ensures plain { list_all is_plain (take result bytes.now) ≡ true }
{
    for i in 0..bytes.len() {
        if !is_plain(bytes[i]) {
            return i;
        }
    }
    bytes.len()
}

/// Says the first of some bytes, if there is one, as it stands in a JSON string, and gives those behind it.
fn put_first<'a, W: CountedWrite>(
    output: &mut W,
    gathered: &mut Gathered,
    bytes: &'a [u8],
) -> &'a [u8]
    requires room { HasRoom (W.failures output.old) gathered.old }
    ensures says { Says
        (sink (W.contents output.old) (W.failures output.old) gathered.old)
        (sink (W.contents output.new) (W.failures output.new) gathered.new)
        (escape (take 1 bytes.now)) }
    ensures rest { result.now ≡ drop 1 bytes.now }
    ensures room { HasRoom (W.failures output.new) gathered.new }
{
    if bytes.is_empty() {
        return bytes;
    }
    put_byte(output, gathered, bytes[0]);
    &bytes[1..]
}

/// Says a byte as it stands in a JSON string.
#[tactic(auto, unfolding(json::specs::Print::escape_byte))]
fn put_byte<W: CountedWrite>(output: &mut W, gathered: &mut Gathered, byte: u8)
    requires room { HasRoom (W.failures output.old) gathered.old }
    ensures says { Says
        (sink (W.contents output.old) (W.failures output.old) gathered.old)
        (sink (W.contents output.new) (W.failures output.new) gathered.new)
        (escape_byte byte) }
    ensures room { HasRoom (W.failures output.new) gathered.new }
{
    let letter = escape_letter(byte);
    if letter > 0 {
        gather(output, gathered, &[b'\\', letter]);
    } else if byte < 32 {
        let high = hex_digit(byte / 16);
        let low = hex_digit(byte % 16);
        gather(output, gathered, &[b'\\', b'u', b'0', b'0', high, low]);
    } else {
        gather(output, gathered, &[byte]);
    }
}

/// The letter that stands for a byte behind a `\` in a JSON string; 0 where none does.
fn escape_letter(byte: u8) -> u8
    ensures { result ≡ escape_letter byte }
{
    match byte {
        b'"' | b'\\' => byte,
        8 => b'b',
        12 => b'f',
        b'\n' => b'n',
        b'\r' => b'r',
        b'\t' => b't',
        _ => 0,
    }
}

/// The character of a hexadecimal digit.
fn hex_digit(digit: u8) -> u8
    requires { digit < 16 }
    ensures { result ≡ digit_char digit }
{
    if digit < 10 {
        b'0' + digit
    } else {
        b'a' - 10 + digit
    }
}

/// Whether a byte stands for itself in a JSON string.
#[inline(always)]
pub fn is_plain(byte: u8) -> bool
    ensures { result ≡ is_plain byte }
{
    byte >= 32 && byte != b'"' && byte != b'\\'
}
