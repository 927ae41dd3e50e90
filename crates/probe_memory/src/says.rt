// What is printed: the lines of answers, and texts of the layers.
ghost use Rattle.std.specs.Prelude.{◌≡◌};
ghost use Rattle.std.specs.Result.{result_ok};

use std::alloc::{AllocError, Global};
use std::fmt::Debug;
use std::io;
use tn_run::write_output;
use tn_text::Watched;

/// How many bytes a text has room for before a layer is called, so that no growth is needed later.
const ROOM: usize = 1 << 20;

/// A text that the layers append to, with room for all that they do.
#[derive(Drop)]
pub struct Buffer {
    pub text: Vec<u8>,
}

impl Buffer {
    /// An empty text with its room.
    pub fn with_room(alloc: Global) -> Result<Buffer, AllocError> {
        Ok(Buffer {
            text: Vec::with_capacity(alloc, ROOM)?,
        })
    }

    /// Prints the text where it was appended whole, and else why it wasn't; then it is empty.
    pub fn print<R: Print>(&mut self, rt: &R, done: Result<(), AllocError>) {
        if or_say(rt, "text", done).is_some() {
            print_bytes(rt, &self.text);
        }
        self.text.clear();
    }
}

/// Prints the bytes.
pub fn print_bytes<R: Print>(rt: &R, bytes: &[u8]) {
    let _ = write_output(&mut Watched::of(io::writer(rt)), bytes);
}

/// Prints a line.
pub fn say<R: Print>(rt: &R, line: &str) {
    let _ = rt.println(line);
}

/// What a call answers. A fault is printed by its name, after that of the call.
pub fn or_say<R: Print, T, E: Debug + Drop>(rt: &R, name: &str, answer: Result<T, E>) -> Option<T>
    ensures { result ≡ result_ok answer }
{
    match answer {
        Ok(value) => Some(value),
        Err(fault) => {
            let _ = println!(rt; "{name} {fault:?}");
            None
        }
    }
}
