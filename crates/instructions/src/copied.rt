// Instructions are copied part by part.

use crate::{Argument, Assignment, Body, Command, Instruction, InstructionKind, Label, Source};
use expand::Copied;
use plain::{Exact, Memory};
use std::alloc::Global;

impl Copied for Argument {
    fn copied(&self, alloc: Global) -> Result<Argument, Memory> {
        let name = self.name.copy(alloc)?;
        let default = Copied::copied(&self.default, alloc)?;
        Ok(Argument { name, default })
    }
}

impl Copied for Assignment {
    fn copied(&self, alloc: Global) -> Result<Assignment, Memory> {
        let name = self.name.copy(alloc)?;
        let value = self.value.copied(alloc)?;
        Ok(Assignment { name, value })
    }
}

impl Copied for Label {
    fn copied(&self, alloc: Global) -> Result<Label, Memory> {
        let key = self.key.copied(alloc)?;
        let value = self.value.copied(alloc)?;
        Ok(Label { key, value })
    }
}

impl Copied for Command {
    fn copied(&self, alloc: Global) -> Result<Command, Memory> {
        match self {
            Command::Exec(words) => Ok(Command::Exec(words.copy(alloc)?)),
            Command::Shell(text) => Ok(Command::Shell(text.copy(alloc)?)),
        }
    }
}

impl Copied for Body {
    fn copied(&self, alloc: Global) -> Result<Body, Memory> {
        match self {
            Body::Expanded(word) => Ok(Body::Expanded(word.copied(alloc)?)),
            Body::Literal(text) => Ok(Body::Literal(text.copy(alloc)?)),
        }
    }
}

impl Copied for Source {
    fn copied(&self, alloc: Global) -> Result<Source, Memory> {
        match self {
            Source::Files(pattern) => Ok(Source::Files(pattern.copied(alloc)?)),
            Source::Document { name, body } => {
                let name = name.copy(alloc)?;
                let body = body.copied(alloc)?;
                Ok(Source::Document { name, body })
            }
        }
    }
}

impl Copied for InstructionKind {
    fn copied(&self, alloc: Global) -> Result<InstructionKind, Memory> {
        match self {
            InstructionKind::From { image, name } => {
                let image = image.copied(alloc)?;
                let name = name.copy(alloc)?;
                Ok(InstructionKind::From { image, name })
            }
            InstructionKind::Arg { arguments } => Ok(InstructionKind::Arg {
                arguments: arguments.copied(alloc)?,
            }),
            InstructionKind::Env { assignments } => Ok(InstructionKind::Env {
                assignments: assignments.copied(alloc)?,
            }),
            InstructionKind::Label { labels } => Ok(InstructionKind::Label {
                labels: labels.copied(alloc)?,
            }),
            InstructionKind::Expose { ports } => Ok(InstructionKind::Expose {
                ports: ports.copied(alloc)?,
            }),
            InstructionKind::User { user } => Ok(InstructionKind::User {
                user: user.copied(alloc)?,
            }),
            InstructionKind::Workdir { path } => Ok(InstructionKind::Workdir {
                path: path.copied(alloc)?,
            }),
            InstructionKind::StopSignal { signal } => Ok(InstructionKind::StopSignal {
                signal: signal.copied(alloc)?,
            }),
            InstructionKind::Volume { paths } => Ok(InstructionKind::Volume {
                paths: paths.copied(alloc)?,
            }),
            InstructionKind::Shell { words } => Ok(InstructionKind::Shell {
                words: words.copy(alloc)?,
            }),
            InstructionKind::Cmd { command } => Ok(InstructionKind::Cmd {
                command: command.copied(alloc)?,
            }),
            InstructionKind::Entrypoint { command } => Ok(InstructionKind::Entrypoint {
                command: command.copied(alloc)?,
            }),
            InstructionKind::Run { mounts, command } => {
                let mounts = mounts.copy(alloc)?;
                let command = command.copied(alloc)?;
                Ok(InstructionKind::Run { mounts, command })
            }
            InstructionKind::Copy {
                sources,
                destination,
                flags,
            } => {
                let sources = sources.copied(alloc)?;
                let destination = destination.copied(alloc)?;
                let flags = flags.copy(alloc)?;
                Ok(InstructionKind::Copy {
                    sources,
                    destination,
                    flags,
                })
            }
        }
    }
}

impl Copied for Instruction {
    fn copied(&self, alloc: Global) -> Result<Instruction, Memory> {
        let kind = self.kind().copied(alloc)?;
        Ok(Instruction::new(self.line(), kind))
    }
}
