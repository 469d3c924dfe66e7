use plain::Fault;
use plain::limits::MOST_VERTICES;
use thiserror::Error;

/// The graph has as many vertices as a graph may have, and the vertex that was to be added is none of them.
#[derive(Clone, Copy, Debug, PartialEq, Eq, Error)]
#[error("a graph would have more than {MOST_VERTICES} vertices")]
pub struct Full;

/// Why a vertex wasn't added to a graph.
pub type GraphFault = Fault<Full>;
