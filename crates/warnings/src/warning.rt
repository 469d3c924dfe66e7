use plain::Text;

/// What means one thing here and another in BuildKit.
#[derive(Clone, Copy, Debug, PartialEq, Eq)]
pub enum WarningKind {
    /// W01: a variable in a mount of a RUN. It stays as it is written here.
    MountVariable,
    /// W02: an escape character in a heredoc of a COPY, before what it doesn't act on here. It stays here.
    HeredocEscape,
    /// W03: the name of a stage that doesn't stand above. It is an image's name here.
    LaterStage,
    /// W04: an ARG that has the name of a platform's and no value. It is unset here.
    PlatformArgument,
    /// W05: a WORKDIR under a USER. Its folder is root's here.
    FolderOwner,
}

/// A warning of a line.
#[derive(Drop)]
pub struct Warning {
    pub kind: WarningKind,
    /// The number of the first line of its instruction.
    pub line: u32,
    /// What it is about, as it is written: the flag of a mount; the mark of a heredoc; what names a stage, with its
    /// `--from=` or `from=`; the name of an ARG; the path of a WORKDIR.
    pub word: Text,
}
