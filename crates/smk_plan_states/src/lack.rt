//! What is lacking for an answer.

use smk_base::OutOfMemory;
use std::alloc::{AllocError, AllocFailed};

/// What is lacking for an answer on ranks.
#[derive(Clone, Copy)]
pub enum Lack {
    /// Whether the job of this number has reasons of its own: its rank hangs on them.
    Own(usize),
    /// Memory.
    Memory,
}

impl From<OutOfMemory> for Lack {
    fn from(_: OutOfMemory) -> Self {
        Lack::Memory
    }
}

impl From<AllocError> for Lack {
    fn from(_: AllocError) -> Self {
        Lack::Memory
    }
}

impl<T: Drop> From<AllocFailed<T>> for Lack {
    fn from(_: AllocFailed<T>) -> Self {
        Lack::Memory
    }
}
