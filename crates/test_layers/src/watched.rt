// An end that is watched: a call is passed on once, and one that fails is not the last.
use std::io;
use std::io::{ErrorKind, Read, Write};
use std::test::Fail;
use tn_text::Watched;

/// An end whose first call of each kind fails with an error of its own, and whose other calls work.
#[derive(Drop)]
struct Late {
    reads: u32,
    writes: u32,
    flushes: u32,
}

/// Counts a call. The first one fails with this error.
fn count(calls: &mut u32, kind: ErrorKind) -> io::Result<()> {
    *calls = calls.saturating_add(1);
    if *calls == 1 {
        return Err(io::Error::from(kind));
    }
    Ok(())
}

impl Read for Late {
    fn read(&mut self, _buf: &mut [u8]) -> io::Result<usize> {
        count(&mut self.reads, ErrorKind::TimedOut)?;
        Ok(0)
    }
}

impl Write for Late {
    fn write(&mut self, buf: &[u8]) -> io::Result<usize> {
        count(&mut self.writes, ErrorKind::BrokenPipe)?;
        Ok(buf.len())
    }

    fn flush(&mut self) -> io::Result<()> {
        count(&mut self.flushes, ErrorKind::Interrupted)
    }
}

/// The kind of the error, if there is one.
fn fault<T: Drop>(answer: io::Result<T>) -> Option<ErrorKind> {
    answer.err().map(|error| error.kind())
}

/// The error of each call is handed on, and later calls reach the end too.
#[test]
fn an_end_that_fails_once(rt: HostRuntime) -> Result<(), Fail> {
    let mut end = Watched::of(Late {
        reads: 0,
        writes: 0,
        flushes: 0,
    });
    let mut bytes = [0u8; 2];
    assert!(rt; fault(end.read(&mut bytes)) == Some(ErrorKind::TimedOut));
    assert!(rt; fault(end.write(b"xy")) == Some(ErrorKind::BrokenPipe));
    assert!(rt; fault(end.flush()) == Some(ErrorKind::Interrupted));
    assert!(rt; end.read(&mut bytes)? == 0);
    assert!(rt; end.write(b"xy")? == 2);
    end.flush()?;
    assert!(rt; end.failed());
    let late = end.into_inner();
    assert!(rt; (late.reads, late.writes, late.flushes) == (2, 2, 2));
    Ok(())
}
