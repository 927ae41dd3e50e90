// A reader or a writer that remembers whether one of its calls failed.
ghost use Rattle.std.specs.Prelude.{◌≡◌, ◌||◌, ◌&&◌, not, true, false, is_err, is_ok};
ghost use Rattle.std.specs.Io.{ReadsAtMost, WritesAtMost};
ghost use Rattle.std.specs.Io.KnownBytes.{Keeps, ReadConsumes, WriteAppends};
ghost use Rattle.tn_text.specs.Watch.{watched_inner, has_failed, failed_write, is_flushed, took_bytes};

use std::io::{Read, Result, Write};

/// A reader or a writer that remembers whether a call of it failed (own). A write of one byte or more
/// that takes none counts as failed. It passes each call on as it is.
#[derive(Drop)]
pub struct Watched<T> {
    inner: T,
    failed: bool,
    flushed: bool,
}

impl<T> Watched<T> {
    /// None of its calls has failed yet, and nothing is left to flush.
    pub fn of(inner: T) -> Self
        ensures inner { watched_inner result ≡ inner }
        ensures unfailed { has_failed result ≡ false }
        ensures flushed { is_flushed result ≡ true }
    {
        Watched {
            inner,
            failed: false,
            flushed: true,
        }
    }

    /// The reader or writer itself.
    pub fn into_inner(self) -> T
        ensures { result ≡ watched_inner self }
    {
        let Watched {
            inner,
            failed: _,
            flushed: _,
        } = self;
        inner
    }

    /// Whether a call has failed, at any time.
    pub fn failed(&self) -> bool
        ensures { result ≡ has_failed self.now }
    {
        let Self { failed, .. } = self;
        *failed
    }
}

impl<R: Read> Read for Watched<R> {
    ghost remaining = { λ w. R.remaining (watched_inner w) };

    fn read(&mut self, buf: &mut [u8]) -> Result<usize>
        ensures bound { ReadsAtMost result buf.new }
        ensures bytes { ReadConsumes (R.remaining (watched_inner self.old))
            (R.remaining (watched_inner self.new)) result buf.new }
        ensures watch { has_failed self.new ≡ (has_failed self.old || is_err result) }
    {
        let result = self.inner.read(buf);
        if result.is_err() {
            self.failed = true;
        }
        result
    }
}

impl<W: Write> Write for Watched<W> {
    ghost contents = { λ w. W.contents (watched_inner w) };

    fn write(&mut self, buf: &[u8]) -> Result<usize>
        ensures bound { WritesAtMost result buf.now }
        ensures bytes { WriteAppends (W.contents (watched_inner self.old))
            (W.contents (watched_inner self.new)) result buf.now }
        ensures watch { has_failed self.new ≡ (has_failed self.old || failed_write result buf.now) }
        ensures flushed { is_flushed self.new ≡ (is_flushed self.old && not (took_bytes result)) }
    {
        let result = self.inner.write(buf);
        match &result {
            Ok(0) => {
                if !buf.is_empty() {
                    self.failed = true;
                }
            }
            Ok(_) => self.flushed = false,
            Err(_) => self.failed = true,
        }
        result
    }

    fn flush(&mut self) -> Result<()>
        ensures bytes { Keeps (W.contents (watched_inner self.old)) (W.contents (watched_inner self.new)) }
        ensures watch { has_failed self.new ≡ (has_failed self.old || is_err result) }
        ensures flushed { is_flushed self.new ≡ (is_flushed self.old || is_ok result) }
    {
        let result = self.inner.flush();
        match &result {
            Ok(()) => self.flushed = true,
            Err(_) => self.failed = true,
        }
        result
    }
}
