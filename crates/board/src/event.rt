use llb::VertexId;
use plain::Items;
use trees::Tree;

/// What a caller asks of a board: that a worker, by its number, claims, settles or abandons.
#[derive(Clone, Copy, Debug, PartialEq, Eq)]
pub enum Event {
    /// The worker claims the ready vertex of least id.
    Claim(u32),
    /// The worker settles the vertex that it has claimed, with its value.
    Settle(u32),
    /// The worker gives up the vertex that it has claimed.
    Abandon(u32),
}

/// What happened on a board.
#[derive(Drop)]
pub enum Happened {
    /// The worker claimed the vertex.
    Claimed {
        worker: u32,
        vertex: VertexId,
    },
    /// The worker settled the vertex with its value, and gave these trees back to the caches that the vertex uses, in the order of its uses.
    Settled {
        worker: u32,
        vertex: VertexId,
        given: Items<Tree>,
    },
    /// The worker gave the vertex up, and it may be claimed again.
    Abandoned {
        worker: u32,
        vertex: VertexId,
    },
}
