// Why the output of a job wasn't written, or not all of it.
use std::fmt::Display;
use thiserror::Error;

/// Why a job that may write so many bytes ended before its output was written and flushed (own).
#[derive(Clone, Copy, Drop, Error)]
#[error_bound(F: Display)]
pub enum OutputFault<F> {
    /// A fault of the job itself.
    #[error("{0}")]
    Job(F),
    /// The output has more bytes than it may have. Nothing was written.
    #[error("fault output: the output has {bytes} bytes, and --max-output is {most}")]
    TooLong { bytes: usize, most: usize },
    /// The run was ended once its listings alone had more bytes than the output may have. Nothing was written.
    #[error("fault output: the output has more than {most} bytes, and --max-output is {most}")]
    ListingsTooLong { most: usize },
}
