ghost use Rattle.std.specs.Prelude.{◌≡◌, map};
ghost use Rattle.instructions.specs.Keyword.{name_of, keyword_of, keywords};

use crate::names::is_same_name;

/// The name of an instruction.
#[derive(Clone, Copy, Debug, PartialEq, Eq)]
pub enum Keyword {
    From,
    Arg,
    Env,
    Label,
    Expose,
    User,
    Workdir,
    StopSignal,
    Volume,
    Shell,
    Cmd,
    Entrypoint,
    Run,
    Copy,
}

impl Keyword {
    /// All of them.
    const ALL: [Keyword; 14] = [
        Keyword::From,
        Keyword::Arg,
        Keyword::Env,
        Keyword::Label,
        Keyword::Expose,
        Keyword::User,
        Keyword::Workdir,
        Keyword::StopSignal,
        Keyword::Volume,
        Keyword::Shell,
        Keyword::Cmd,
        Keyword::Entrypoint,
        Keyword::Run,
        Keyword::Copy,
    ];

    /// The name, as it is shown.
    fn name(self) -> &'static str
        ensures { result.now ≡ name_of self }
    {
        match self {
            Keyword::From => "FROM",
            Keyword::Arg => "ARG",
            Keyword::Env => "ENV",
            Keyword::Label => "LABEL",
            Keyword::Expose => "EXPOSE",
            Keyword::User => "USER",
            Keyword::Workdir => "WORKDIR",
            Keyword::StopSignal => "STOPSIGNAL",
            Keyword::Volume => "VOLUME",
            Keyword::Shell => "SHELL",
            Keyword::Cmd => "CMD",
            Keyword::Entrypoint => "ENTRYPOINT",
            Keyword::Run => "RUN",
            Keyword::Copy => "COPY",
        }
    }
}

/// The names of the instructions that are known, as they are shown.
pub fn keywords() -> [&'static str; 14]
    ensures { map (λ name. name.now) result ≡ map name_of keywords }
{
    Keyword::ALL.map(Keyword::name)
}

/// The instruction of a name, in any case of letters.
pub(crate) fn keyword_of(name: &str) -> Option<Keyword>
    ensures { result ≡ keyword_of name.now }
{
    for keyword in Keyword::ALL {
        if is_same_name(name, keyword.name()) {
            return Some(keyword);
        }
    }
    None
}
