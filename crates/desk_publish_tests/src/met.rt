use std::sync::atomic::{AtomicU64, Ordering};

/// What the looks of all seats met that may not be. Threads share it.
#[derive(Drop)]
pub struct Met {
    not_entered: AtomicU64,
    fell: AtomicU64,
}

impl Met {
    pub fn new() -> Met {
        Met {
            not_entered: AtomicU64::new(0),
            fell: AtomicU64::new(0),
        }
    }

    /// Takes note of a look of a seat that knew so many entries before.
    pub fn note(&self, known: u64, seen: Option<u64>) {
        match seen {
            None => {
                self.not_entered.fetch_add(1, Ordering::SeqCst);
            }
            Some(count) => {
                if count < known {
                    self.fell.fetch_add(1, Ordering::SeqCst);
                }
            }
        }
    }

    /// How many looks weren't let in.
    pub fn not_entered(&self) -> u64 {
        self.not_entered.load(Ordering::SeqCst)
    }

    /// How many looks saw less than the seat knew.
    pub fn fell(&self) -> u64 {
        self.fell.load(Ordering::SeqCst)
    }
}
