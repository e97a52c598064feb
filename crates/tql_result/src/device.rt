//! The failure of a device.
use thiserror::Error;

/// A device failed: the operation was not carried out, or only in part.
#[derive(Clone, Copy, PartialEq, Eq, Debug, Error)]
#[error("the device failed")]
pub struct DeviceFault;
