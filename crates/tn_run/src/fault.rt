// Why a run gave no output, or not all of it.
use thiserror::Error;
use tn_pool::PoolFault;

/// Why a run ended before its output was written and flushed (own).
#[derive(Clone, Copy, Debug, PartialEq, Eq, Drop, Error)]
pub enum RunFault {
    /// 18: a read failed. Nothing was written.
    #[error("fault 18 read")]
    Read,
    /// 19: a write failed or took no byte, or the flush failed, after so many bytes were taken.
    #[error("fault 19 write after {written} bytes")]
    Write { written: usize },
    /// The allocator refused memory. Nothing was written.
    #[error("fault memory")]
    OutOfMemory,
}

/// Why a run by workers ended before its output was written and flushed (own).
#[derive(Clone, Copy, Debug, PartialEq, Eq, Drop, Error)]
pub enum LiveFault {
    /// The reader or the writer failed, or memory was refused before the workers began or after they ended.
    #[error("{0}")]
    Run(RunFault),
    /// A worker's step was answered a fault, or a worker was refused memory. Nothing was written.
    #[error("fault workers")]
    Pool(PoolFault),
}
