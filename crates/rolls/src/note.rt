use plain::Items;
use trees::Tree;

/// What a worker did.
#[derive(Clone, Copy, Debug, PartialEq, Eq)]
pub enum Note {
    /// It claimed a vertex, after so many events.
    Claimed { vertex: u32, at: usize },
    /// It settled a vertex, which it had claimed.
    Settled(u32),
    /// It gave up the vertex that it had claimed.
    Abandoned,
}

/// A note as it stands on a roll, with the trees that were lent with it. No value of it is made.
pub struct Told {
    pub note: Note,
    pub lent: Items<Tree>,
}
