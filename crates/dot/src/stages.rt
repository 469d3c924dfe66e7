// The stage that a vertex is in.
ghost use Rattle.std.specs.Prelude.{◌≡◌, ◌==◌, option_map};
ghost use Rattle.std.specs.List.{list_any};
ghost use Rattle.dot.specs.Labels.{stage_of_piece, stage_in, is_source};

use ascii::first_piece;
use llb::Op;

/// Whether a `]` is among some bytes.
fn has_bracket(bytes: &[u8]) -> bool
    ensures { result ≡ list_any (λ c. c == 93) bytes.now }
{
    for byte in bytes {
        if *byte == b']' {
            return true;
        }
    }
    false
}

/// The stage that a first piece of a title names.
fn stage_of_piece(piece: &str) -> &str
    ensures { result.now ≡ stage_of_piece piece.now }
{
    match piece.strip_prefix("[") {
        Some(name) => {
            if has_bracket(name.as_bytes()) {
                ""
            } else {
                name
            }
        }
        None => "",
    }
}

/// The stage that a title names, or the empty name.
pub(crate) fn stage_in<'a>(title: Option<&'a str>) -> &'a str
    ensures { result.now ≡ stage_in (option_map (λ title. title.now) title.entry) }
{
    match title {
        None => "",
        Some(title) => stage_of_piece(first_piece(title).0),
    }
}

/// Whether an operation is a source.
pub(crate) fn is_source(op: &Op) -> bool
    ensures { result ≡ is_source op.now }
{
    match op {
        Op::Source(_) => true,
        Op::Exec(_) | Op::Copy(_) | Op::MakeDirs(_) | Op::Merge => false,
    }
}
