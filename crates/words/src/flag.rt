ghost use Rattle.std.specs.Prelude.{◌≡◌, true, IfOk};
ghost use Rattle.lines.specs.Marks.{is_flag};
ghost use Rattle.words.specs.Flag.{flag_of, flags, behind_flags};

use crate::pairs::pair;
use ascii::{after_blanks, first_piece};
use lines::is_flag;
use plain::{Items, Memory, Text};
use std::alloc::Global;

/// A flag of an instruction, as `--from=build`.
#[derive(Debug, Drop)]
pub struct Flag {
    /// What follows the two dashes, up to the first `=`. Of `--` alone it is empty.
    pub name: Text,
    /// What follows that `=`, with any further ones; none where there is no `=`. It may be empty.
    pub value: Option<Text>,
}

/// The flags with which a text begins, and what is left from the first piece on that is none.
///
/// Flags are the leading pieces that begin with `--`. They know no quotes and no escape character, and a piece `--`
/// alone is a flag too, which no instruction knows (Dockerfile reference, `--name=value`; the rest own).
pub fn flags<'a>(alloc: Global, text: &'a str) -> Result<(Items<Flag>, &'a str), Memory>
    ensures flags { IfOk result (λ found. found.0 ≡ flags text.now) }
    ensures rest { IfOk result (λ found. found.1.now ≡ behind_flags text.now) }
{
    let mut found = Items::new(alloc);
    let mut rest = after_blanks(text);
    while is_flag(rest) {
        let (piece, behind) = first_piece(rest);
        found.push(read_flag(alloc, piece)?)?;
        rest = behind;
    }
    Ok((found, rest))
}

/// The flag that a piece is.
fn read_flag(alloc: Global, piece: &str) -> Result<Flag, Memory>
    requires { is_flag piece.now ≡ true }
    ensures { IfOk result (λ flag. flag ≡ flag_of piece.now) }
{
    let text = &piece[2..];
    match pair(text) {
        None => {
            let name = Text::from_str(alloc, text)?;
            Ok(Flag { name, value: None })
        }
        Some((name, value)) => {
            let name = Text::from_str(alloc, name)?;
            let value = Text::from_str(alloc, value)?;
            Ok(Flag {
                name,
                value: Some(value),
            })
        }
    }
}
