ghost use Rattle.std.specs.Prelude.{◌≡◌};
ghost use Rattle.instructions.specs.Instruction.{IsInstruction};

use expand::Word;
use options::{CopyFlags, Mount};
use plain::{Items, Text, VariableName};
use std::marker::Model;

/// An instruction of a Dockerfile, as a logical line spells it: only `parse` makes one.
///
/// Contracts see its line's number and its kind, which is whole: `IsInstruction` in specs/Instruction.antt says what each kind keeps.
#[derive(Debug)]
pub struct Instruction {
    line: u32,
    kind: InstructionKind,
}

/// An instruction ends by a call, so that no proof above goes by which kind it is at each place where one is let go.
impl Drop for Instruction {
    fn drop(self) {
        let Instruction { line: _, kind: _ } = self;
    }
}

impl Model for Instruction {
    ghost use Rattle.instructions.specs.Instruction.{Instruction, IsInstruction};
    ghost use Rattle.instructions.specs.PrivateInstruction.{instruction_code};

    ghost Value = { Instruction };

    ghost coded = { instruction_code };

    ghost view = { λ i. record { line = i.line; kind = i.kind } };

    ghost invariant = { λ i. IsInstruction i.kind };
}

impl Instruction {
    /// The instruction of a line, whose kind is whole.
    pub(crate) fn new(line: u32, kind: InstructionKind) -> Instruction
        requires { IsInstruction kind }
        ensures { result ≡ record { line = line; kind = kind } }
    {
        Instruction { line, kind }
    }

    /// The logical line's number: that of its first line in the file, from 1 on.
    pub fn line(&self) -> u32
        ensures { result ≡ self.now.line }
    {
        self.line
    }

    /// Which instruction it is, lent.
    pub fn kind(&self) -> &InstructionKind
        ensures kind { result.now ≡ self.now.kind }
        ensures whole { IsInstruction self.now.kind }
    {
        &self.kind
    }

    /// Which instruction it is. It takes no memory.
    pub fn into_kind(self) -> InstructionKind
        ensures kind { result ≡ self.kind }
        ensures whole { IsInstruction result }
    {
        let Instruction { line: _, kind } = self;
        kind
    }
}

/// Which instruction it is, with its arguments.
///
/// A text that is expanded where the instruction is evaluated is a `Word`; a `Text` is never expanded.
#[derive(Debug, Drop)]
pub enum InstructionKind {
    /// `FROM image` or `FROM image AS name`: a stage begins.
    From {
        image: Word,
        /// A letter followed by letters, digits, `-`, `_` and `.`, and not `scratch` in any case.
        name: Option<Text>,
    },
    /// `ARG name` or `ARG name=default`, one or more of them.
    Arg {
        arguments: Items<Argument>,
    },
    /// `ENV name=value`, one or more of them, or `ENV name value`.
    Env {
        assignments: Items<Assignment>,
    },
    /// `LABEL key=value`, one or more of them.
    Label {
        labels: Items<Label>,
    },
    /// `EXPOSE port` or `EXPOSE port/protocol`, one or more of them.
    Expose {
        ports: Items<Word>,
    },
    /// `USER user`.
    User {
        user: Word,
    },
    /// `WORKDIR path`.
    Workdir {
        path: Word,
    },
    /// `STOPSIGNAL signal`.
    StopSignal {
        signal: Word,
    },
    /// `VOLUME path`, one or more of them, or a list in JSON.
    Volume {
        paths: Items<Word>,
    },
    /// `SHELL ["word", ..]`, with a word at least.
    Shell {
        words: Items<Text>,
    },
    /// `CMD`.
    Cmd {
        command: Command,
    },
    /// `ENTRYPOINT`.
    Entrypoint {
        command: Command,
    },
    /// `RUN`, with its mounts in the order of the line.
    Run {
        mounts: Items<Mount>,
        command: Command,
    },
    /// `COPY source .. destination`, with at least one source.
    Copy {
        sources: Items<Source>,
        destination: Word,
        flags: CopyFlags,
    },
}

/// A variable that ARG declares, and the word of its default.
#[derive(Debug, Drop)]
pub struct Argument {
    /// A letter or `_` followed by letters, digits and `_`.
    pub name: VariableName,
    pub default: Option<Word>,
}

/// A variable that ENV sets, and the word of its value.
#[derive(Debug, Drop)]
pub struct Assignment {
    /// A letter or `_` followed by letters, digits and `_`.
    pub name: VariableName,
    pub value: Word,
}

/// A label that LABEL sets.
#[derive(Debug, Drop)]
pub struct Label {
    pub key: Word,
    pub value: Word,
}

/// A command, which is never expanded here.
#[derive(Debug, Drop)]
pub enum Command {
    /// A list in JSON: the program and its arguments.
    Exec(Items<Text>),
    /// A text for the shell: the rest of the line, or the body of a heredoc with its last LF.
    Shell(Text),
}

/// A source of a COPY.
#[derive(Debug, Drop)]
pub enum Source {
    /// A pattern of files and folders.
    Files(Word),
    /// A heredoc: a file of this name with this body.
    Document { name: Text, body: Body },
}

/// The body of a heredoc that COPY makes a file of.
#[derive(Debug, Drop)]
pub enum Body {
    /// The mark's name is bare: the body is expanded.
    Expanded(Word),
    /// The mark's name stands in quotes: the body is its own value.
    Literal(Text),
}
