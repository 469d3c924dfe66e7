use crate::LentEntry;

/// What one walk down to a path finds: whether a file stands on the way, and what stands at the path.
#[derive(Clone, Copy)]
pub(crate) enum Landing<'a> {
    /// A file stands on the way.
    Blocked,
    /// No file stands on the way, and nothing at the path.
    Free,
    /// No file stands on the way, and this entry at the path.
    At(LentEntry<'a>),
}
