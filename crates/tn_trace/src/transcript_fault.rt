// Why a run gave no transcript.
use thiserror::Error;

/// Why a run ended before its transcript was whole.
#[derive(Clone, Copy, Debug, PartialEq, Eq, Drop, Error)]
pub enum TranscriptFault {
    /// The listings together have more bytes than they may have. The picks after the move that made them so aren't
    /// taken.
    #[error("fault output")]
    TooLong,
    /// The allocator refused memory.
    #[error("fault memory")]
    OutOfMemory,
}
