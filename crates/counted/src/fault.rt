use plain::Fault;
use thiserror::Error;

/// A call of a device failed, or a write took no byte, as a write to a full disk does.
#[derive(Clone, Copy, Debug, PartialEq, Eq, Error)]
#[error("device failed")]
pub struct Device;

/// Why bytes were not read or not written: the device, or want of memory for what was read, and then no call of the device failed.
pub type EdgeFault = Fault<Device>;
