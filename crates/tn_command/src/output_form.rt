// In which form an output is written.
use tn_formats::Format;

/// How many bytes an output may have where the command line doesn't say it: a GiB.
pub const MAX_OUTPUT: usize = 1_073_741_824;

/// How many bytes of memory a run may take where the command line doesn't say it: a GiB.
pub const MAX_MEMORY: u64 = 1_073_741_824;

/// In which form an output is written, and what its run may take (own).
#[derive(Clone, Copy)]
pub struct OutputForm {
    /// The format; the plain output where there is none.
    pub format: Option<Format>,
    /// How many bytes the output has at most.
    pub most: usize,
    /// How many bytes of memory the run takes at most.
    pub memory: u64,
}
