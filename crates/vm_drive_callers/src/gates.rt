//! Gates for two workers: one counts their calls, one holds a call until another was answered.

use std::sync::atomic::{AtomicBool, AtomicU64, Ordering};
use std::thread;
use vm_serve::drive::Gate;

/// How many calls of a worker came to a gate, and how many left it.
#[derive(Drop)]
pub struct Turns {
    pub begun: AtomicU64,
    pub ended: AtomicU64,
}

impl Turns {
    fn new() -> Turns {
        Turns {
            begun: AtomicU64::new(0),
            ended: AtomicU64::new(0),
        }
    }
}

/// A gate for two workers, which counts their calls, and those that come or leave out of turn.
#[derive(Drop)]
pub struct CallCounts {
    pub first: Turns,
    pub second: Turns,
    pub odd: AtomicU64,
}

impl CallCounts {
    /// No call has come.
    pub fn new() -> CallCounts {
        CallCounts {
            first: Turns::new(),
            second: Turns::new(),
            odd: AtomicU64::new(0),
        }
    }

    // Where a worker's calls are counted.
    fn turns(&self, worker: u32) -> &Turns {
        if worker == 0 {
            &self.first
        } else {
            &self.second
        }
    }

    fn note(&self, is_in_turn: bool) {
        if !is_in_turn {
            self.odd.fetch_add(1, Ordering::SeqCst);
        }
    }
}

impl Gate for CallCounts {
    fn before(&self, worker: u32, call: u32) {
        let turns = self.turns(worker);
        let begun = turns.begun.fetch_add(1, Ordering::SeqCst);
        let ended = turns.ended.load(Ordering::SeqCst);
        self.note(worker < 2 && ended == begun && u64::from(call) == begun.wrapping_add(1));
    }

    fn after(&self, worker: u32, call: u32) {
        let turns = self.turns(worker);
        let ended = turns.ended.fetch_add(1, Ordering::SeqCst);
        let begun = turns.begun.load(Ordering::SeqCst);
        self.note(worker < 2 && begun == u64::from(call) && begun == ended.wrapping_add(1));
    }
}

/// How often a wait looks again.
const TURNS: u32 = 1_000_000;

/// Waits for a flag, and sets another where it was seen.
pub fn wait_for(flag: &AtomicBool, saw: &AtomicBool) {
    for _ in 0..TURNS {
        if flag.load(Ordering::SeqCst) {
            saw.store(true, Ordering::SeqCst);
            return;
        }
        thread::yield_now();
    }
}

/// A gate that holds call 1 of worker 0 until call 1 of worker 1 was answered, and that one until the first has come.
#[derive(Drop)]
pub struct HeldCall {
    has_come: AtomicBool,
    is_answered: AtomicBool,
    first_saw: AtomicBool,
    second_saw: AtomicBool,
}

impl HeldCall {
    /// No call has come.
    pub fn new() -> HeldCall {
        HeldCall {
            has_come: AtomicBool::new(false),
            is_answered: AtomicBool::new(false),
            first_saw: AtomicBool::new(false),
            second_saw: AtomicBool::new(false),
        }
    }

    /// Whether each call saw what it waited for before its turns ended.
    pub fn saw_the_other(&self) -> bool {
        self.first_saw.load(Ordering::SeqCst) && self.second_saw.load(Ordering::SeqCst)
    }
}

impl Gate for HeldCall {
    fn before(&self, worker: u32, call: u32) {
        if worker == 0 && call == 1 {
            self.has_come.store(true, Ordering::SeqCst);
            wait_for(&self.is_answered, &self.first_saw);
        }
        if worker == 1 && call == 1 {
            wait_for(&self.has_come, &self.second_saw);
        }
    }

    fn after(&self, worker: u32, call: u32) {
        if worker == 1 && call == 1 {
            self.is_answered.store(true, Ordering::SeqCst);
        }
    }
}
