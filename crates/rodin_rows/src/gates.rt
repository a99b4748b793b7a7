//! A gate that may hold the first ticket, and the source beside it.

use outside::{Failed, Gate, MemorySource, Source};
use std::sync::atomic::{AtomicBool, AtomicU32, Ordering};

/// The looks for which a ticket or a read waits at most.
const MOST_LOOKS: u32 = 100_000_000;

/// What the first ticket waits for.
#[derive(Clone, Copy, PartialEq, Eq)]
pub enum Until {
    /// Nothing.
    Open,
    /// The finish of the second ticket.
    SecondTicket,
    /// The third read, where the second one waits for the ticket.
    ThirdRead,
}

/// A gate that lets every ticket pass at once, but the first one where it waits for something.
#[derive(Drop)]
pub struct Holding {
    until: Until,
    reads: AtomicU32,
    is_asked: AtomicBool,
    is_over: AtomicBool,
    is_passed: AtomicBool,
}

// Looks until the flag is set. False where it never was.
fn await_flag(flag: &AtomicBool) -> bool {
    for _ in 0..MOST_LOOKS {
        if flag.load(Ordering::SeqCst) {
            return true;
        }
    }
    false
}

impl Holding {
    /// A gate at which the first ticket waits for this.
    pub fn new(until: Until) -> Holding {
        Holding {
            until,
            reads: AtomicU32::new(0),
            is_asked: AtomicBool::new(false),
            is_over: AtomicBool::new(false),
            is_passed: AtomicBool::new(false),
        }
    }

    /// Whether the first ticket passed because what it waited for came.
    pub fn is_passed(&self) -> bool {
        self.is_passed.load(Ordering::SeqCst)
    }

    // A read is about to be made.
    fn before_read(&self) {
        let reads = self.reads.fetch_add(1, Ordering::SeqCst);
        if self.until == Until::ThirdRead {
            if reads == 1 {
                await_flag(&self.is_asked);
            } else if reads == 2 {
                self.is_over.store(true, Ordering::SeqCst);
            }
        }
    }
}

impl Gate for Holding {
    fn before_finish(&self, ticket: u64) {
        if self.until != Until::Open && ticket == 1 {
            self.is_asked.store(true, Ordering::SeqCst);
            let is_over = await_flag(&self.is_over);
            self.is_passed.store(is_over, Ordering::SeqCst);
        }
    }

    fn after_finish(&self, ticket: u64) {
        if self.until == Until::SecondTicket && ticket == 2 {
            self.is_over.store(true, Ordering::SeqCst);
        }
    }
}

/// A source in memory, whose reads the gate knows of.
#[derive(Drop)]
pub struct Watched<'a> {
    source: MemorySource,
    gate: &'a Holding,
}

impl<'a> Watched<'a> {
    /// This source beside this gate.
    pub fn new(source: MemorySource, gate: &'a Holding) -> Watched<'a> {
        Watched { source, gate }
    }
}

impl Source for Watched<'_> {
    ghost use Rattle.std.specs.Prelude.{Some};

    ghost left = { λ s. Some s.source.left };

    ghost faults = { λ s. s.source.faults };

    fn faults(&self) -> u64 {
        self.source.faults()
    }

    fn read(&mut self, into: &mut [u8]) -> Result<usize, Failed> {
        self.gate.before_read();
        self.source.read(into)
    }
}
