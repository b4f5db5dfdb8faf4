use std::alloc::{AllocError, AllocFailed};
use thiserror::Error;

/// Memory was wanting: the one answer that is free to come, and that is merged with no other.
#[derive(Clone, Copy, Debug, PartialEq, Eq, Drop, Error)]
#[error("want of memory")]
pub struct NoMemory;

impl From<AllocError> for NoMemory {
    fn from(_: AllocError) -> NoMemory {
        NoMemory
    }
}

impl<T: Drop> From<AllocFailed<T>> for NoMemory {
    fn from(_: AllocFailed<T>) -> NoMemory {
        NoMemory
    }
}

/// A write failed outside: it comes only where the sink's count of faults rose.
#[derive(Clone, Copy, Debug, PartialEq, Eq, Drop, Error)]
#[error("write failed")]
pub struct Failed;

/// Why a read of a store gave nothing.
#[derive(Clone, Copy, Debug, PartialEq, Eq, Drop, Error)]
pub enum StoreFault {
    /// The read failed outside: only where the asked name's count of faults rose.
    #[error("read failed")]
    Failed,
    /// Memory was wanting.
    #[error("want of memory")]
    Memory,
}
