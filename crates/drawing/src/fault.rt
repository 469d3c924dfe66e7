use plain::Fault;
use thiserror::Error;

/// Two different operations have the same address.
#[derive(Clone, Copy, Debug, PartialEq, Eq, Error)]
#[error("address clash")]
pub struct Clash;

/// Why a plan isn't drawn.
pub type DrawFault = Fault<Clash>;
