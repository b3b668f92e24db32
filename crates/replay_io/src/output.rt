//! The report's way to standard output.

ghost use Rattle.std.specs.Prelude.{◌≡◌};
ghost use Rattle.std.specs.Io.KnownBytes.{append_known};
ghost use Rattle.replay_io.specs.Devices.{report_contents};

use crate::progress::Board;
use bgp_update::{AttributeSet, KeptAttribute};
use mrt_frame::Counted;
use report_request::{Request, attribute_name, columns};
use run_io::Headed;
use std::alloc::{AllocError, Global};
use std::io::{self, Stdout, Write};

/// Whether the lines of a report have the columns of further attributes.
fn lists_routes<A>(request: &Request<A>) -> bool {
    matches!(
        request,
        Request::Tables | Request::Match(_) | Request::History { since: _, same: _ }
    )
}

/// Returns the names of a report's columns, as a line.
pub fn header_of<A>(
    alloc: Global,
    request: &Request<A>,
    attributes: AttributeSet,
) -> Result<String, AllocError> {
    let mut header = String::new(alloc);
    for column in columns(request) {
        if !header.is_empty() {
            header.push('|')?;
        }
        header.push_str(column.name())?;
    }
    if lists_routes(request) {
        for attribute in &KeptAttribute::ALL {
            if attributes.has(*attribute) {
                header.push('|')?;
                header.push_str(attribute_name(*attribute))?;
            }
        }
    }
    header.push('\n')?;
    Ok(header)
}

/// A writer with a header, perhaps an empty one, that precedes the first byte of the report. An empty report gets it
/// when it is flushed. Any progress shown is cleared before it.
#[derive(Drop)]
pub struct Report<'a, W> {
    out: Headed<'a, W>,
    board: Option<&'a Board>,
    error: Option<io::Error>,
}

/// Standard output as the report's writer, with a count of its failures.
pub type Output<'a> = Counted<Report<'a, Stdout>>;

impl<'a, W: Write> Report<'a, W> {
    pub fn new(out: W, header: &'a str, board: Option<&'a Board>) -> Report<'a, W>
        ensures { report_contents W.contents result ≡ append_known (W.contents out) header.now }
    {
        Report {
            out: Headed::new(out, header),
            board,
            error: None,
        }
    }

    /// Why it couldn't be written, after a failure.
    pub fn error(&self) -> Option<io::Error> {
        self.error
    }

    /// Clears the progress, if it is still shown.
    fn clear(&mut self)
        ensures { report_contents W.contents self.new ≡ report_contents W.contents self.old }
    {
        if let Some(board) = self.board.take() {
            board.clear();
        }
    }

    /// Keeps why it failed.
    fn keep(&mut self, error: io::Error) -> io::Error
        ensures { report_contents W.contents self.new ≡ report_contents W.contents self.old }
    {
        self.error = Some(error);
        error
    }
}

impl<W: Write> Write for Report<'_, W> {
    ghost contents = { report_contents W.contents };

    fn write(&mut self, buf: &[u8]) -> io::Result<usize> {
        self.clear();
        match self.out.write(buf) {
            Ok(count) => Ok(count),
            Err(error) => Err(self.keep(error)),
        }
    }

    fn flush(&mut self) -> io::Result<()> {
        self.clear();
        match self.out.flush() {
            Ok(()) => Ok(()),
            Err(error) => Err(self.keep(error)),
        }
    }
}

impl<'a, W: Write> Report<'a, W> {
    /// What is known of the bytes held: what the device holds, and what is left of the header.
    pub fn holds_its_bytes(&self)
        ensures { ⟦<Report<'a, W> as Write>⟧.contents self.now ≡ report_contents W.contents self.now }
    {}
}
