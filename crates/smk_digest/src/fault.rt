/// Why files have no digests.
#[derive(Clone, Copy, PartialEq, Eq)]
pub enum SumFault {
    /// A call of the device failed.
    Device,
    OutOfMemory,
}
