//! What threads of a test tell each other.

use std::sync::atomic::{AtomicU64, Ordering};
use std::thread::yield_now;

/// So many turns a thread waits for a sign at most.
const TURNS: u64 = 20_000_000;

/// What a thread waits for.
#[derive(Clone, Copy)]
pub(crate) enum Sign {
    /// Nothing: it is there from the beginning.
    Start,
    /// Two connections have begun to read.
    BothBegun,
    /// The keeper was asked to commit, while connections were served.
    CommitBegun,
    /// A connection has written.
    Answered,
}

/// What the connections and the keeper of a test have done. Threads share it.
#[derive(Drop)]
pub(crate) struct Notes {
    begun: AtomicU64,
    commits: AtomicU64,
    written: AtomicU64,
}

impl Notes {
    pub(crate) fn new() -> Notes {
        Notes {
            begun: AtomicU64::new(0),
            commits: AtomicU64::new(0),
            written: AtomicU64::new(0),
        }
    }

    /// Takes note that a connection has begun to read.
    pub(crate) fn note_begun(&self) {
        self.begun.fetch_add(1, Ordering::SeqCst);
    }

    /// Takes note that a commit has begun.
    pub(crate) fn note_commit(&self) {
        self.commits.fetch_add(1, Ordering::SeqCst);
    }

    /// Takes note that a connection has written so many bytes.
    pub(crate) fn note_written(&self, bytes: usize) {
        self.written.fetch_add(bytes as u64, Ordering::SeqCst);
    }

    /// How many bytes the connections have written.
    pub(crate) fn written(&self) -> u64 {
        self.written.load(Ordering::SeqCst)
    }

    /// Whether a connection has begun to read.
    pub(crate) fn has_begun(&self) -> bool {
        self.begun.load(Ordering::SeqCst) > 0
    }

    fn is_shown(&self, sign: Sign) -> bool {
        match sign {
            Sign::Start => true,
            Sign::BothBegun => self.begun.load(Ordering::SeqCst) > 1,
            Sign::CommitBegun => self.commits.load(Ordering::SeqCst) > 0,
            Sign::Answered => self.written() > 0,
        }
    }

    /// Waits for the sign, and tells whether it came within so many turns.
    pub(crate) fn waits_for(&self, sign: Sign) -> bool {
        for _ in 0..TURNS {
            if self.is_shown(sign) {
                return true;
            }
            yield_now();
        }
        false
    }
}
