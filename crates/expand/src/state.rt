ghost use Rattle.std.specs.Prelude.{◌≡◌, ◌+◌, ◌≤◌};
ghost use Rattle.expand.specs.PrivateState.{opening};
ghost use Rattle.expand.specs.Syntax.{most_nested};

use plain::Text;

/// How many `${` may stand within one another at most.
pub const MOST_NESTED: u8 = 32;

/// What is begun where the next character comes.
#[derive(Drop)]
pub enum Begun {
    Nothing,
    /// A `$`.
    AfterDollar,
    /// `$` and a name so far.
    InName(Text),
    /// `${`.
    AfterBrace,
    /// `${` and a name so far.
    InBracedName(Text),
    /// `${`, a name and `:`.
    AfterColon(Text),
}

/// How far a word is read.
#[derive(Drop)]
pub struct Reading {
    /// How many words are open.
    pub depth: u8,
    pub begun: Begun,
    ghost within: { depth + opening begun ≤ most_nested },
}

impl Reading {
    /// So many words are open, and this is begun.
    pub fn new(depth: u8, begun: Begun) -> Reading
        requires { depth + opening begun ≤ most_nested }
        ensures depth { result.depth ≡ depth }
        ensures begun { result.begun ≡ begun }
    {
        Reading { depth, begun }
    }
}
