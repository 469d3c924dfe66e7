// What is said of each kind of warning.
ghost use Rattle.std.specs.Prelude.{◌≡◌};
ghost use Rattle.warnings.specs.Table.{code_text, sentence, remedy};

use crate::WarningKind;

impl WarningKind {
    /// The code, as it is shown.
    pub fn code(self) -> &'static str
        ensures { result.now ≡ code_text self }
    {
        match self {
            WarningKind::MountVariable => "W01",
            WarningKind::HeredocEscape => "W02",
            WarningKind::LaterStage => "W03",
            WarningKind::PlatformArgument => "W04",
            WarningKind::FolderOwner => "W05",
        }
    }

    /// What is otherwise here, in one sentence.
    pub fn sentence(self) -> &'static str
        ensures { result.now ≡ sentence self }
    {
        match self {
            WarningKind::MountVariable =>
                "a variable in a mount stays as it is written here, and BuildKit replaces it",
            WarningKind::HeredocEscape =>
                "an escape character in this heredoc stays here, and BuildKit takes it away",
            WarningKind::LaterStage =>
                "no stage above has this name, so it is an image's here, and BuildKit refuses it",
            WarningKind::PlatformArgument =>
                "this ARG has no value here, and BuildKit gives it that of the platform",
            WarningKind::FolderOwner =>
                "the folder of this WORKDIR is root's here, and BuildKit gives it to the user",
        }
    }

    /// What helps, so that both mean the same.
    pub fn remedy(self) -> &'static str
        ensures { result.now ≡ remedy self }
    {
        match self {
            WarningKind::MountVariable => "write the variable's value",
            WarningKind::HeredocEscape =>
                "quote the heredoc's name, or write the escape character twice",
            WarningKind::LaterStage => "put that stage above this one, or give it another name",
            WarningKind::PlatformArgument =>
                "give it a default, or a value by a build argument of its name",
            WarningKind::FolderOwner =>
                "make the folder above the WORKDIR, by a RUN or by a COPY with --chown",
        }
    }
}
