use paths::Path;
use plain::Text;
use scopes::Scope;

/// What a stage has set so far where an instruction stands.
#[derive(Clone, Copy)]
pub struct Surroundings<'a> {
    /// What ENV and ARG declared.
    pub scope: &'a Scope,
    /// The working directory.
    pub dir: &'a Path,
    /// The user, as USER wrote it.
    pub user: &'a Text,
    /// The words before a text for the shell.
    pub shell: &'a [Text],
}
