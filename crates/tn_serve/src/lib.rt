//! The requests and the answers of `serve`, and the runtime in which one command line is done.
//!
//! Depends on def_serve, and on the kit's `json`, which reads and writes each JSON value. Promises that a line is read
//! as the request or the fault that is defined for it, that the lines of answers and of errors are the defined ones,
//! and that what was appended to a capture is had whole or not at all. That the next line of a reader is its first
//! line, cut after 8 MiB and a byte, is tested. So is that a command writes to its runtime what the program writes to
//! its streams: the kit's handles have no contract of what is printed.
#![tactic(auto)]

mod answer;
mod capture;
mod fault;
mod line;
mod request;
mod runtime;
mod stream;

pub use answer::{serve_answer, status_number};
pub use capture::Capture;
pub use fault::{RequestFault, serve_error};
pub use line::{Line, next_line};
pub use request::{MAX_LINE, ServeRequest, read_request};
pub use runtime::{CommandRuntime, OutputRuntime, ServeRuntime, TextInput};
pub use stream::Stream;
