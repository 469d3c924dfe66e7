ghost use Rattle.std.specs.Prelude.{◌≡◌};
ghost use Rattle.std.specs.Str.{str_eq_ignore_ascii_case};
ghost use Rattle.sentences.specs.Subject.{name_of, found, subject_of};

use ascii::first_piece;

/// The instruction of a line that is refused, which may be written so badly that no instruction is read from it.
#[derive(Clone, Copy, Debug, PartialEq, Eq)]
pub enum Subject {
    From,
    Arg,
    Env,
    Label,
    Expose,
    User,
    Workdir,
    StopSignal,
    Volume,
    Shell,
    Cmd,
    Entrypoint,
    Run,
    Copy,
    /// Left out of the language on purpose, as the next three are.
    Add,
    Onbuild,
    Healthcheck,
    Maintainer,
    /// Another name, or no line at all.
    Other,
}

impl Subject {
    /// All that have a name.
    const NAMED: [Subject; 18] = [
        Subject::From,
        Subject::Arg,
        Subject::Env,
        Subject::Label,
        Subject::Expose,
        Subject::User,
        Subject::Workdir,
        Subject::StopSignal,
        Subject::Volume,
        Subject::Shell,
        Subject::Cmd,
        Subject::Entrypoint,
        Subject::Run,
        Subject::Copy,
        Subject::Add,
        Subject::Onbuild,
        Subject::Healthcheck,
        Subject::Maintainer,
    ];

    /// The name of the instruction, in lower case.
    fn name(self) -> &'static str
        ensures { result.now ≡ name_of self }
    {
        match self {
            Subject::From => "from",
            Subject::Arg => "arg",
            Subject::Env => "env",
            Subject::Label => "label",
            Subject::Expose => "expose",
            Subject::User => "user",
            Subject::Workdir => "workdir",
            Subject::StopSignal => "stopsignal",
            Subject::Volume => "volume",
            Subject::Shell => "shell",
            Subject::Cmd => "cmd",
            Subject::Entrypoint => "entrypoint",
            Subject::Run => "run",
            Subject::Copy => "copy",
            Subject::Add => "add",
            Subject::Onbuild => "onbuild",
            Subject::Healthcheck => "healthcheck",
            Subject::Maintainer => "maintainer",
            Subject::Other => "",
        }
    }

    /// The instruction of a line, by its first piece, in any case of letters.
    pub fn of_line(line: &str) -> Subject
        ensures { result ≡ subject_of line.now }
    {
        let (name, _) = first_piece(line);
        match found(name) {
            Some(subject) => subject,
            None => Subject::Other,
        }
    }
}

/// Whether two names differ in the case of their letters at most.
fn is_same_name(one: &str, other: &str) -> bool
    ensures { result ≡ str_eq_ignore_ascii_case one.now other.now }
{
    one.eq_ignore_ascii_case(other)
}

/// The instruction of this name, in any case of letters.
fn found(name: &str) -> Option<Subject>
    ensures { result ≡ found name.now }
{
    for subject in Subject::NAMED {
        if is_same_name(name, subject.name()) {
            return Some(subject);
        }
    }
    None
}
