//! How threads that unpack, and the one that reads what they unpack, wait for one another: they sleep and look again.

use crate::files::Files;
use packed_io::Pace;
use std::thread::sleep;
use std::time::Duration;

/// How long a thread that unpacks sleeps at first, and how often that doubles at most.
const FIRST_REST_MICROS: u64 = 100;

const MOST_REST_DOUBLINGS: u32 = 4;

/// How long the thread that reads sleeps at first, and how often that doubles at most.
const FIRST_WAIT_MICROS: u64 = 20;

const MOST_WAIT_DOUBLINGS: u32 = 4;

/// After this many sleeps a thread sleeps twice as long.
const ALIKE: u32 = 8;

/// Sleeps, while these files are read.
#[derive(Clone, Copy)]
pub struct Naps<'a> {
    rt: HostRuntime,
    files: &'a Files,
}

impl<'a> Naps<'a> {
    pub fn new(rt: &HostRuntime, files: &'a Files) -> Naps<'a> {
        Naps { rt: *rt, files }
    }
}

impl Pace for Naps<'_> {
    fn has_begun(&self) -> bool {
        self.files.has_begun()
    }

    fn rest(&self, looks: u32) {
        let doublings = (looks / ALIKE).min(MOST_REST_DOUBLINGS);
        sleep(
            &self.rt,
            Duration::from_micros(FIRST_REST_MICROS << doublings),
        );
    }

    fn wait(&self, looks: u32) {
        let doublings = (looks / ALIKE).min(MOST_WAIT_DOUBLINGS);
        sleep(
            &self.rt,
            Duration::from_micros(FIRST_WAIT_MICROS << doublings),
        );
    }
}
