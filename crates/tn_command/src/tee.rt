// A reader that keeps what was read, or a writer that keeps what was written.
ghost use Rattle.std.specs.Prelude.{◌≡◌, [], Some};
ghost use Rattle.std.specs.Io.{ReadsAtMost, WritesAtMost};
ghost use Rattle.std.specs.Io.KnownBytes.{Keeps};
ghost use Rattle.tn_command.specs.Ends.{ReadsInside, WritesInside, tee_inner, tee_text, Records};

use std::alloc::Allocator;
use std::io::{Error, Read, Result, Write};

/// A reader or a writer that keeps the bytes that were read or written (own), so that what is wrong with them can
/// be told. It passes each call on as it is.
#[derive(Drop)]
pub struct Tee<R, A: Allocator> {
    inner: R,
    text: Vec<u8, A>,
}

impl<R, A: Allocator> Tee<R, A> {
    /// Nothing was read or written yet.
    pub fn of(alloc: A, inner: R) -> Self
        ensures inner { tee_inner result ≡ inner }
        ensures text { tee_text result ≡ [] }
    {
        Tee {
            inner,
            text: Vec::new(alloc),
        }
    }

    /// The reader or writer itself, and the bytes that were read or written.
    pub fn into_parts(self) -> (R, Vec<u8, A>)
        ensures inner { result.0 ≡ tee_inner self }
        ensures text { result.1.items ≡ tee_text self }
    {
        let Tee { inner, text } = self;
        (inner, text)
    }
}

impl<R: Read, A: Allocator> Read for Tee<R, A> {
    ghost remaining = { λ r. R.remaining (tee_inner r) };

    /// Where memory for the bytes is refused it reads nothing, and answers OutOfMemory.
    fn read(&mut self, buf: &mut [u8]) -> Result<usize>
        ensures bound { ReadsAtMost result buf.new }
        ensures bytes { ReadsInside R.remaining tee_inner self.old self.new result buf.new }
        ensures text { Records (tee_text self.old) (tee_text self.new) result buf.new }
    {
        if let Err(refused) = self.text.reserve(buf.len()) {
            return Err(Error::from(refused));
        }
        let result = self.inner.read(buf);
        if let Ok(length) = result {
            let _ = self.text.extend_from_slice(&buf[..length]);
        }
        result
    }
}

impl<W: Write, A: Allocator> Write for Tee<W, A> {
    ghost contents = { λ w. Some (tee_text w) };

    /// Where memory for the bytes is refused it writes nothing, and answers OutOfMemory.
    fn write(&mut self, buf: &[u8]) -> Result<usize>
        ensures bound { WritesAtMost result buf.now }
        ensures bytes { Records (tee_text self.old) (tee_text self.new) result buf.now }
        ensures inner { WritesInside W.contents tee_inner self.old self.new result buf.now }
    {
        if let Err(refused) = self.text.reserve(buf.len()) {
            return Err(Error::from(refused));
        }
        let result = self.inner.write(buf);
        if let Ok(length) = result {
            let _ = self.text.extend_from_slice(&buf[..length]);
        }
        result
    }

    fn flush(&mut self) -> Result<()>
        ensures bytes { tee_text self.new ≡ tee_text self.old }
        ensures inner { Keeps (W.contents (tee_inner self.old)) (W.contents (tee_inner self.new)) }
    {
        self.inner.flush()
    }
}
