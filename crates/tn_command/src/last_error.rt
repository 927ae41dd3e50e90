// A reader or a writer that keeps why a call of it failed.
ghost use Rattle.std.specs.Prelude.{◌≡◌, None};
ghost use Rattle.std.specs.Io.{ReadsAtMost, WritesAtMost};
ghost use Rattle.std.specs.Io.KnownBytes.{Keeps};
ghost use Rattle.tn_command.specs.Ends.{ReadsInside, WritesInside, last_error_inner, last_error_of, latest};

use std::io::{Error, Read, Result, Write};

/// A reader or a writer that keeps the error of its last call that failed (own). It passes each call on as it
/// is.
#[derive(Drop)]
pub struct LastError<T> {
    inner: T,
    error: Option<Error>,
}

impl<T> LastError<T> {
    /// None of its calls has failed yet.
    pub fn of(inner: T) -> Self
        ensures inner { last_error_inner result ≡ inner }
        ensures none { last_error_of result ≡ None }
    {
        LastError { inner, error: None }
    }

    /// Keeps the error of a call that failed.
    fn keep<X>(&mut self, answer: &Result<X>)
        ensures inner { last_error_inner self.new ≡ last_error_inner self.old }
        ensures kept { last_error_of self.new ≡ latest answer.now (last_error_of self.old) }
    {
        if let Err(error) = answer {
            self.error = Some(*error);
        }
    }

    /// The reader or writer itself, and the error that was kept.
    pub fn into_parts(self) -> (T, Option<Error>)
        ensures inner { result.0 ≡ last_error_inner self }
        ensures error { result.1 ≡ last_error_of self }
    {
        let LastError { inner, error } = self;
        (inner, error)
    }
}

impl<R: Read> Read for LastError<R> {
    ghost remaining = { λ n. R.remaining (last_error_inner n) };

    fn read(&mut self, buf: &mut [u8]) -> Result<usize>
        ensures bound { ReadsAtMost result buf.new }
        ensures bytes { ReadsInside R.remaining last_error_inner self.old self.new result buf.new }
        ensures kept { last_error_of self.new ≡ latest result (last_error_of self.old) }
    {
        let result = self.inner.read(buf);
        self.keep(&result);
        result
    }
}

impl<W: Write> Write for LastError<W> {
    ghost contents = { λ n. W.contents (last_error_inner n) };

    fn write(&mut self, buf: &[u8]) -> Result<usize>
        ensures bound { WritesAtMost result buf.now }
        ensures bytes { WritesInside W.contents last_error_inner self.old self.new result buf.now }
        ensures kept { last_error_of self.new ≡ latest result (last_error_of self.old) }
    {
        let result = self.inner.write(buf);
        self.keep(&result);
        result
    }

    fn flush(&mut self) -> Result<()>
        ensures bytes { Keeps (W.contents (last_error_inner self.old)) (W.contents (last_error_inner self.new)) }
        ensures kept { last_error_of self.new ≡ latest result (last_error_of self.old) }
    {
        let result = self.inner.flush();
        self.keep(&result);
        result
    }
}
