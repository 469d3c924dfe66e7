use plain::Fault;
use thiserror::Error;

/// Why a plan has no definition, and at which vertex: its place is the number of vertices before it.
#[derive(Clone, Copy, Debug, PartialEq, Eq, Error)]
pub enum Obstacle {
    /// BuildKit can't be told of the vertex: it is the files of the build, and the patterns of those that it isn't given, or that it alone is,
    /// have control characters, or others beyond ASCII.
    #[error("a pattern of vertex {0} isn't printable ASCII")]
    Unspeakable(usize),
    /// Its operation has the digest of a different one before it. The place of the operation that makes the root of an empty result is that
    /// after all vertices.
    #[error("address clash at vertex {0}")]
    Clash(usize),
}

/// Why a plan isn't exported.
pub type ExportFault = Fault<Obstacle>;
