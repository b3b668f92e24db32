// A reader that keeps what its reads return.
ghost use Rattle.std.specs.Prelude.{◌≡◌, ◌++◌, ℕ, List, Bool};
ghost use Rattle.mrt_frame.specs.Logged.{ReadsLogged, logged_none, logged_more, logged_source, log_of, log_ends, logged_failures};
ghost use Rattle.mrt_frame.specs.Devices.{one_more};
ghost use Rattle.mrt_frame.specs.declared.logged.Logged.{Logged};

use crate::device::{Failed, Failures, Source};
use std::alloc::Global;

/// A reader with a log of all bytes that its reads returned, which notes too whether the last one saw the end.
#[derive(Drop)]
pub struct Logged<S> {
    source: S,
    log: Vec<u8>,
    at_end: bool,
    failures: u64,
}

impl<S> Failures for Logged<S> {
    ghost failure_count = { logged_failures };

    fn failures(&self) -> u64 {
        self.failures
    }
}

impl<S: Source> Source for Logged<S> {
    ghost remaining = { λ r. S.remaining (logged_source r) };

    ghost reads = { λ a bytes ended b.
        ReadsLogged (log_of a) (log_of b) (log_ends b) bytes ended × S.reads (logged_source a) bytes ended (logged_source b) };

    ghost reads_none = { λ a. (logged_none (log_of a) (log_ends a), S.reads_none (logged_source a)) };

    ghost reads_more = { λ a b c bytes more ended p q. (
      logged_more (log_of a) (log_of b) (log_of c) (log_ends b) (log_ends c) bytes more ended p.0 q.0,
      S.reads_more (logged_source a) (logged_source b) (logged_source c) bytes more ended p.1 q.1,
    ) };

    ghost reads_known = { λ a c bytes ended p. S.reads_known (logged_source a) (logged_source c) bytes ended p.1 };

    fn read_some(&mut self, buf: &mut [u8]) -> Result<usize, Failed> {
        let Ok(()) = self.log.reserve(buf.len()) else {
            return Err(self.fail());
        };
        match self.source.read_some(buf) {
            Ok(count) => {
                self.log.extend_from_slice(&buf[..count]).unwrap();
                self.at_end = count == 0 && !buf.is_empty();
                Ok(count)
            }
            Err(_) => Err(self.fail()),
        }
    }
}

impl<S> Logged<S> {
    /// The bytes that reads returned so far.
    pub fn log(&self) -> &[u8]
        ensures { result.now ≡ log_of self.now }
    {
        self.log.as_slice()
    }

    fn fail(&mut self) -> Failed
        ensures source { logged_source self.new ≡ logged_source self.old }
        ensures log { log_of self.new ≡ log_of self.old }
        ensures counted { logged_failures self.new ≡ one_more (logged_failures self.old) }
    {
        self.failures = self.failures.saturating_add(1);
        Failed
    }

    pub fn new(alloc: Global, source: S) -> Logged<S> {
        Logged {
            source,
            log: Vec::new(alloc),
            at_end: false,
            failures: 0,
        }
    }
}

impl<S: Source> Logged<S> {
    /// What its reads returned is what its log grew by, whatever its source makes known.
    pub fn logs_what_it_reads(&self)
        ensures { (old new : Logged S) (bytes : List ℕ) (ended : Bool) →
            ⟦<Logged<S> as Source>⟧.reads old bytes ended new → log_of new ≡ log_of old ++ bytes }
    {}
}
