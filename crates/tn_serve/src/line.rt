// The lines of a reader.
use crate::request::MAX_LINE;
use std::alloc::Global;
use std::io;
use std::io::{BufRead, ErrorKind, Read};

/// A line that was read.
#[derive(Drop)]
pub enum Line {
    /// Its bytes without its line feed. Of a line that is longer than `MAX_LINE` the first `MAX_LINE` and one more.
    Bytes(Vec<u8>),
    /// The system refused memory for it.
    NoMemory,
}

/// The bytes up to a line feed and with it, where they are no more than a line may have.
fn read_front<R: BufRead>(alloc: Global, reader: &mut R) -> io::Result<Vec<u8>> {
    let mut line = Vec::new(alloc);
    let mut front = reader.take(MAX_LINE as u64 + 1);
    front.read_until(b'\n', &mut line)?;
    Ok(line)
}

/// The line whose front this is. What is left of it is read and dropped.
fn whole_line<R: BufRead>(reader: &mut R, front: Vec<u8>) -> io::Result<Line> {
    let mut line = front;
    if line.last() == Some(&b'\n') {
        line.pop();
    } else if line.len() > MAX_LINE {
        reader.skip_until(b'\n')?;
    }
    Ok(Line::Bytes(line))
}

/// The next line of a reader; None at its end. What is after the last line feed is a line where it isn't empty.
///
/// # Errors
///
/// The reader's error.
pub fn next_line<R: BufRead>(alloc: Global, reader: &mut R) -> io::Result<Option<Line>> {
    match read_front(alloc, &mut *reader) {
        Ok(front) if front.is_empty() => Ok(None),
        Ok(front) => Ok(Some(whole_line(reader, front)?)),
        Err(error) if error.kind() == ErrorKind::OutOfMemory => {
            reader.skip_until(b'\n')?;
            Ok(Some(Line::NoMemory))
        }
        Err(error) => Err(error),
    }
}
