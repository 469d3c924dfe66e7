ghost use Rattle.std.specs.Prelude.{◌≡◌, map};
ghost use Rattle.std.specs.List.{list_any};
ghost use Rattle.pointed.specs.Word.{may_join, is_plain, plain_words, has_bad_name, has_dollar, is_no_port, is_wrong, first_wrong, first_of, after_as, stage_name, bad_name, only_piece, bad_port, word_number};

use crate::spot::may_escape;
use ascii::is_name;
use imageconfig::names_port;
use plain::Code;
use sentences::Subject;
use words::pair;

/// Whether a word may hold a blank by this byte, or go on in the next line.
fn may_join(byte: u8) -> bool
    ensures { result ≡ may_join byte }
{
    may_escape(byte) || byte == b'"' || byte == b'\''
}

/// Whether one of the bytes may do that.
fn has_joint(bytes: &[u8]) -> bool
    ensures { result ≡ list_any may_join bytes.now }
{
    bytes.iter().any(|byte| may_join(*byte))
}

/// Whether a piece is a word as it stands.
fn is_plain(piece: &str) -> bool
    ensures { result ≡ is_plain piece.now }
{
    !has_joint(piece.as_bytes())
}

/// The pieces up to the first one that may be a part of a word.
fn plain_words<'a>(pieces: &'a [&'a str]) -> &'a [&'a str]
    ensures { map (λ word. word.now) result.now ≡ plain_words (map (λ piece. piece.now) pieces.now) }
{
    for (index, piece) in pieces.iter().enumerate() {
        if !is_plain(piece) {
            return &pieces[..index];
        }
    }
    pieces
}

/// Whether the name that a word of ARG or ENV gives a value is none.
fn has_bad_name(word: &str) -> bool
    ensures { result ≡ has_bad_name word.now }
{
    match pair(word) {
        Some((name, _)) => !is_name(name.as_bytes()),
        None => !is_name(word.as_bytes()),
    }
}

/// Whether one of the bytes is a `$`.
fn has_dollar(bytes: &[u8]) -> bool
    ensures { result ≡ has_dollar bytes.now }
{
    bytes.iter().any(|byte| *byte == b'$')
}

/// Whether a word is no port, whatever values variables have.
fn is_no_port(word: &str) -> bool
    ensures { result ≡ is_no_port word.now }
{
    !has_dollar(word.as_bytes()) && !names_port(word)
}

/// Whether a word isn't what an instruction wants there.
fn is_wrong(subject: Subject, word: &str) -> bool
    ensures { result ≡ is_wrong subject word.now }
{
    match subject {
        Subject::Expose => is_no_port(word),
        _ => has_bad_name(word),
    }
}

/// The number of the first such word.
fn first_wrong(subject: Subject, words: &[&str]) -> Option<usize>
    ensures { result ≡ first_wrong subject (map (λ word. word.now) words.now) }
{
    for (index, word) in words.iter().enumerate() {
        if is_wrong(subject, word) {
            return Some(index);
        }
    }
    None
}

/// The number of the first word, if there is one.
fn first_of(words: &[&str]) -> Option<usize>
    ensures { result ≡ first_of (map (λ word. word.now) words.now) }
{
    match words {
        [] => None,
        [_, ..] => Some(0),
    }
}

/// The number of a stage's name after this word, if it is AS.
fn after_as(second: &str) -> Option<usize>
    ensures { result ≡ after_as second.now }
{
    if second.eq_ignore_ascii_case("as") {
        Some(2)
    } else {
        None
    }
}

/// The number of a stage's name, which stands after AS.
fn stage_name(words: &[&str]) -> Option<usize>
    ensures { result ≡ stage_name (map (λ word. word.now) words.now) }
{
    match words {
        [_, second, _, ..] => after_as(second),
        _ => None,
    }
}

/// The number of a name that is none, of a stage or of a variable.
fn bad_name(subject: Subject, words: &[&str]) -> Option<usize>
    ensures { result ≡ bad_name subject (map (λ word. word.now) words.now) }
{
    match subject {
        Subject::From => stage_name(words),
        Subject::Arg | Subject::Env => first_wrong(subject, words),
        _ => None,
    }
}

/// The number of a piece that is the only one.
fn only_piece(pieces: &[&str]) -> Option<usize>
    ensures { result ≡ only_piece (map (λ piece. piece.now) pieces.now) }
{
    match pieces {
        [_] => Some(0),
        _ => None,
    }
}

/// The number of what is no port.
fn bad_port(pieces: &[&str]) -> Option<usize>
    ensures { result ≡ bad_port (map (λ piece. piece.now) pieces.now) }
{
    match first_wrong(Subject::Expose, plain_words(pieces)) {
        Some(number) => Some(number),
        None => only_piece(pieces),
    }
}

/// The number of the word that a code is about, of the pieces after the name of a line's instruction.
#[tactic(auto, unfolding(crate::specs::Word::word_number))]
pub(crate) fn word_number(code: Code, subject: Subject, pieces: &[&str]) -> Option<usize>
    ensures { result ≡ word_number code subject (map (λ piece. piece.now) pieces.now) }
{
    match code {
        Code::R10 => bad_name(subject, plain_words(pieces)),
        Code::R11 => stage_name(plain_words(pieces)),
        Code::R12 => first_of(plain_words(pieces)),
        Code::R16 => bad_port(pieces),
        _ => None,
    }
}
