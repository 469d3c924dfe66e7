ghost use Rattle.std.specs.Prelude.{◌≡◌};
ghost use Rattle.plain.specs.Codes.{number_of};

use std::fmt;
use thiserror::Error;

/// Why a build's input is refused, as the `07` of `R07`. Where an input has several faults, the crates that find them say which one is
/// answered.
#[derive(Clone, Copy, Debug, PartialEq, Eq, Error)]
pub enum Code {
    /// The text is not UTF-8.
    R01,
    /// A directive is there twice.
    R02,
    /// An escape directive has a bad value.
    R03,
    /// An instruction is unknown.
    R04,
    /// The first instruction other than ARG isn't FROM.
    R05,
    /// An instruction has a wrong number of arguments, or an argument is empty.
    R06,
    /// A flag is unknown, repeated or malformed.
    R07,
    /// A heredoc is unclosed, or not allowed.
    R08,
    /// A substitution is malformed, or a quote is open.
    R09,
    /// A name is bad, or a label's key empty.
    R10,
    /// Two stages have one name.
    R11,
    /// An image is unknown, or a stage isn't before.
    R12,
    /// The target is unknown.
    R13,
    /// Several sources, and a destination that doesn't end in a slash.
    R14,
    /// A pattern is malformed.
    R15,
    /// An owner, a mode or a port is bad.
    R16,
    /// A mount is bad, or mounts clash.
    R17,
    /// A limit is passed.
    R18,
    /// The ignore file is bad.
    R19,
    /// The bundle can't be read.
    R20,
}

impl Code {
    /// The code's number, 1 to 20: that of `R07` is 7.
    pub fn number(self) -> u8
        ensures { result ≡ number_of self }
    {
        match self {
            Code::R01 => 1,
            Code::R02 => 2,
            Code::R03 => 3,
            Code::R04 => 4,
            Code::R05 => 5,
            Code::R06 => 6,
            Code::R07 => 7,
            Code::R08 => 8,
            Code::R09 => 9,
            Code::R10 => 10,
            Code::R11 => 11,
            Code::R12 => 12,
            Code::R13 => 13,
            Code::R14 => 14,
            Code::R15 => 15,
            Code::R16 => 16,
            Code::R17 => 17,
            Code::R18 => 18,
            Code::R19 => 19,
            Code::R20 => 20,
        }
    }
}

impl fmt::Display for Code {
    ghost use Rattle.std.specs.Prelude.{Some};
    ghost use Rattle.plain.specs.Codes.{code_text};

    ghost output = { λ code. Some (code_text code) };

    fn fmt<W: fmt::Write>(&self, f: &mut fmt::Formatter<W>) -> fmt::Result {
        write!(f, "R{:02}", self.number())
    }
}

/// A refusal of an input: its code, and the line that it is about, counted from 1; line 0 where it is about none.
#[derive(Clone, Copy, Debug, PartialEq, Eq, Error)]
#[error("{code}, line {line}")]
pub struct Refusal {
    pub code: Code,
    pub line: u32,
}
