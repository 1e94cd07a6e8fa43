// A gate at which workers wait for one another.
use cns_terms::{Gate, Worker};
use std::sync::Wait;
use std::sync::atomic::AtomicU64;
use std::sync::atomic::Ordering::SeqCst;
use std::thread;
use std::time::{Clock, Duration};

// The most turns of a millisecond that a worker is held.
pub(crate) const MOST_TURNS: u32 = 10_000;

// Holds what each worker does first, a command or a statement, until so many workers have come to it.
#[derive(Drop)]
pub(crate) struct Meeting<C> {
    clock: C,
    wanted: u64,
    came: AtomicU64,
    // How many workers waited in vain.
    late: AtomicU64,
}

impl<C> Meeting<C> {
    pub(crate) fn new(clock: C, wanted: u64) -> Meeting<C> {
        Meeting {
            clock,
            wanted,
            came: AtomicU64::new(0),
            late: AtomicU64::new(0),
        }
    }

    // Whether no worker waited in vain.
    pub(crate) fn is_in_time(&self) -> bool {
        self.late.load(SeqCst) == 0
    }
}

impl<C: Clock> Gate for Meeting<C> {
    fn before<R: Wait>(&self, _rt: &R, _worker: Worker, seq: u32) {
        if seq != 1 {
            return;
        }
        self.came.fetch_add(1, SeqCst);
        for _turn in 0..MOST_TURNS {
            if self.came.load(SeqCst) >= self.wanted {
                return;
            }
            thread::sleep(&self.clock, Duration::from_millis(1));
        }
        self.late.fetch_add(1, SeqCst);
    }

    fn answered<R: Wait>(&self, _rt: &R, _worker: Worker, _seq: u32) {}
}
