use smk_base::PathText;

/// Why a call on the store failed.
#[derive(Drop)]
pub enum StoreFault {
    /// A record holds the time that the file at this path has.
    StampSeen(PathText),
    /// The device failed.
    Device,
    OutOfMemory,
}
