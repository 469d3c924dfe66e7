// Where an instruction stands in its stage.
ghost use Rattle.std.specs.Prelude.{◌≡◌};
ghost use Rattle.warnings.specs.Place.{before_colon, is_root, first_place, place_after};

use ascii::first_piece;
use instructions::{Instruction, InstructionKind};
use lines::Line;

/// Where an instruction stands.
#[derive(Clone, Copy)]
pub(crate) struct Place {
    /// The line of the FROM of its stage, and 0 before the first one.
    pub(crate) stage: u32,
    /// Whether the last USER above it in its stage is another one than root.
    pub(crate) is_users: bool,
}

/// A user's text up to the first colon, after which its group stands.
fn before_colon(text: &str) -> &str
    ensures { result.now ≡ before_colon text.now }
{
    let (before, _) = text.split_once(':').unwrap_or((text, ""));
    before
}

/// Whether the text of a USER, as it is written, is root's.
fn is_root(text: &str) -> bool
    ensures { result ≡ is_root text.now }
{
    let user = before_colon(text);
    user == "root" || user == "0"
}

impl Place {
    /// Before the first instruction.
    pub(crate) fn first() -> Place
        ensures { result ≡ first_place }
    {
        Place {
            stage: 0,
            is_users: false,
        }
    }

    /// After an instruction, which this line spells.
    pub(crate) fn after(self, line: &Line, instruction: &Instruction) -> Place
        ensures { result ≡ place_after self line.now instruction.now }
    {
        match instruction.kind() {
            InstructionKind::From { .. } => Place {
                stage: instruction.line(),
                is_users: false,
            },
            InstructionKind::User { .. } => Place {
                stage: self.stage,
                is_users: !is_root(first_piece(line.text.as_str()).1),
            },
            _ => self,
        }
    }
}
