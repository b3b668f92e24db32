//! A writer with a header before the text.

ghost use Rattle.std.specs.Prelude.{◌≡◌, [], OnOk};
ghost use Rattle.std.specs.Io.KnownBytes.{Keeps, append_known};
ghost use Rattle.run_io.specs.Headers.{headed_contents, headed_out, header_left};

use std::io::{self, ErrorKind, Write};

/// A writer that writes a header before the first byte of a text. An empty text gets it when it is flushed. What this
/// writer holds begins with the header from the start: it is what the other one holds, and what is left of the header.
#[derive(Drop)]
pub struct Headed<'a, W> {
    out: W,
    /// What is still to be written of the header.
    rest: &'a [u8],
}

impl<'a, W: Write> Headed<'a, W> {
    pub fn new(out: W, header: &'a str) -> Headed<'a, W>
        ensures out { headed_out result ≡ out }
        ensures held { headed_contents W.contents result ≡ append_known (W.contents out) header.now }
    {
        Headed {
            out,
            rest: header.as_bytes(),
        }
    }

    /// Writes what is left of the header.
    fn write_header(&mut self) -> io::Result<()>
        ensures kept { Keeps (headed_contents W.contents self.old) (headed_contents W.contents self.new) }
        ensures done { OnOk result (header_left self.new ≡ []) }
    {
        for _ in 0..u64::MAX {
            if self.rest.is_empty() {
                return Ok(());
            }
            match self.out.write(self.rest) {
                Ok(0) => return Err(io::Error::from(ErrorKind::WriteZero)),
                Ok(count) => self.rest = &self.rest[count..],
                Err(error) if error.kind() == ErrorKind::Interrupted => {}
                Err(error) => return Err(error),
            }
        }
        Err(io::Error::from(ErrorKind::WriteZero))
    }
}

impl<W: Write> Write for Headed<'_, W> {
    ghost contents = { headed_contents W.contents };

    fn write(&mut self, buf: &[u8]) -> io::Result<usize> {
        self.write_header()?;
        self.out.write(buf)
    }

    fn flush(&mut self) -> io::Result<()> {
        self.write_header()?;
        self.out.flush()
    }
}

impl<'a, W: Write> Headed<'a, W> {
    /// What is known of the bytes held: what the other writer holds, and what is left of the header.
    pub fn holds_its_bytes(&self)
        ensures { ⟦<Headed<'a, W> as Write>⟧.contents self.now ≡ headed_contents W.contents self.now }
    {}
}
