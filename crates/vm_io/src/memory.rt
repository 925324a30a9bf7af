// A host in memory for tests: it fails exactly where its plan, a missing file or its room says so.
ghost use Rattle.std.specs.Prelude.{◌≡◌, ◌+◌, ◌-◌, ◌≤◌, ◌<◌, ◌++◌, ◌⊎◌, min, max, take, drop, map, length, Some, IfOk, is_ok, if◌then◌else◌, option_map, string_bytes};
ghost use Rattle.vm_page.specs.Counts.{count_more};
ghost use Rattle.vm_io.specs.Causes.{HasCause, HasStuckCause, HasTakeCause, SameTakes, more_failed, more_stuck};
ghost use Rattle.vm_io.specs.Shown.{Takes, Replaces, Says};
ghost use Rattle.vm_io.specs.Planned.{shown_of, failed_takes, failed_gives, last_failed, next_call, is_planned, can_take, can_replace, can_say, IsNext, IsFresh, IsMostTaken};
ghost use Rattle.vm_io.specs.Planned.{piece_of, front_of, moves_some, limited_to};

use crate::faults::Faults;
use crate::host::{Failed, Host};
use crate::store::Store;
use std::alloc::{AllocError, Global};

/// Files and standard output in memory, each with room that is taken when the host is made, and a plan of the calls that fail.
#[derive(Drop)]
pub struct MemHost {
    store: Store,
    plan: Vec<u64>,
    calls: u64,
    piece: usize,
    faults: Faults,
}

impl MemHost {
    /// A host with these files (of two with one name, only the first is seen), with room for `room` bytes in each file and of what is said.
    /// The plan has the numbers of the calls that fail; `take`, `replace` and `say` are numbered together, from 1.
    /// It fails only for want of memory, and no later call takes any.
    pub fn new(
        alloc: Global,
        files: Vec<(String, Vec<u8>)>,
        room: usize,
        plan: &[u64],
    ) -> Result<MemHost, AllocError>
        ensures { IfOk result (λ host. IsFresh host (map (λ file. (string_bytes file.0, file.1.items)) files.items) room plan.now) }
    {
        Ok(MemHost {
            store: Store::new(alloc, files, room)?,
            plan: Vec::from_slice(alloc, plan)?,
            calls: 0,
            piece: usize::MAX,
            faults: Faults::new(),
        })
    }

    /// The same host, each of whose takes and says moves at most `piece` bytes; but a take moves one at least, where there is one and room for it.
    /// Where that is none, a say of a piece that is not empty answers 0, and is counted as a fault. A file is replaced whole, or not at all.
    pub fn with_piece(self, piece: usize) -> MemHost
        ensures { result ≡ limited_to self piece }
    {
        MemHost { piece, ..self }
    }

    /// The bytes said.
    pub fn said(&self) -> &[u8]
        ensures { result.now ≡ (shown_of self.now).said }
    {
        self.store.said.as_slice()
    }

    /// The bytes of a file.
    pub fn file(&self, name: &str) -> Option<&[u8]>
        ensures { option_map (λ b. b.now) result ≡ (shown_of self.now).files name.now }
    {
        self.store.file(name)
    }

    // Counts a call, and says whether the plan lets it fail.
    #[tactic(auto, unfolding(vm_page::specs::Counts::count_more))]
    fn is_planned(&mut self) -> bool
        ensures planned { result ≡ is_planned self.old }
        ensures keeps { self.new ≡ record self.old { calls = next_call self.old } }
    {
        self.calls = self.calls.saturating_add(1);
        self.plan.contains(&self.calls)
    }

    // The bytes of a piece that a say moves.
    fn front<'a>(&self, piece: &'a [u8]) -> &'a [u8]
        ensures { result.now ≡ front_of self.now piece.now }
    {
        &piece[..self.piece.min(piece.len())]
    }
}

impl Host for MemHost {
    ghost shown = { λ host. Some (shown_of host) };

    ghost takes = { λ host. failed_takes host };

    ghost gives = { λ host. failed_gives host };

    ghost last = { λ host. last_failed host };

    fn take(&mut self, name: &str, at: u64, into: &mut [u8]) -> Result<usize, Failed>
        ensures bound { IfOk result (λ n. n ≤ length into.new) }
        ensures bytes { Takes (Some (shown_of self.old)) name.now at into.old into.new result }
        ensures keeps { shown_of self.new ≡ shown_of self.old }
        ensures cause { HasTakeCause (failed_takes self.old) (failed_takes self.new) (last_failed self.old) (last_failed self.new) name.now result }
        ensures apart { failed_gives self.new ≡ failed_gives self.old }
        ensures exact { is_ok result ≡ can_take self.old name.now }
        ensures counted { failed_takes self.new ≡ (if is_ok result then failed_takes self.old else count_more (failed_takes self.old)) }
        ensures most { IfOk result (λ n. IsMostTaken self.old name.now at (length into.old) n) }
        ensures next { IsNext self.old self.new }
    {
        if self.is_planned() {
            return Err(self.faults.fail_take(name));
        }
        let Some(bytes) = self.store.file(name) else {
            return Err(self.faults.fail_take(name));
        };
        Ok(copy_from(bytes, at as usize, self.piece.max(1), into))
    }

    fn replace(&mut self, name: &str, bytes: &[u8]) -> Result<(), Failed>
        ensures held { Replaces (Some (shown_of self.old)) (Some (shown_of self.new)) name.now bytes.now result }
        ensures cause { HasCause (failed_gives self.old).failed (failed_gives self.new).failed result }
        ensures moves { (failed_gives self.new).stuck ≡ (failed_gives self.old).stuck }
        ensures apart { SameTakes (failed_takes self.old) (failed_takes self.new) (last_failed self.old) (last_failed self.new) }
        ensures exact { is_ok result ≡ can_replace self.old name.now bytes.now }
        ensures counted { failed_gives self.new ≡ (if is_ok result then failed_gives self.old else more_failed (failed_gives self.old)) }
        ensures next { IsNext self.old self.new }
    {
        if self.is_planned() {
            return Err(self.faults.fail_give());
        }
        if !self.store.replace(name, bytes) {
            return Err(self.faults.fail_give());
        }
        Ok(())
    }

    fn say(&mut self, piece: &[u8]) -> Result<usize, Failed>
        ensures bound { IfOk result (λ n. n ≤ length piece.now) }
        ensures bytes { Says (Some (shown_of self.old)) (Some (shown_of self.new)) piece.now result }
        ensures cause { HasCause (failed_gives self.old).failed (failed_gives self.new).failed result }
        ensures stuck { HasStuckCause (failed_gives self.old).stuck (failed_gives self.new).stuck (length piece.now) result }
        ensures apart { SameTakes (failed_takes self.old) (failed_takes self.new) (last_failed self.old) (last_failed self.new) }
        ensures exact { is_ok result ≡ can_say self.old piece.now }
        ensures counted { failed_gives
            self.new ≡ (if is_ok result then (if moves_some self.old piece.now then failed_gives self.old else more_stuck (failed_gives self.old))
            else more_failed (failed_gives self.old)) }
        ensures most { IfOk result (λ n. n ≡ min (piece_of self.old) (length piece.now)) }
        ensures next { IsNext self.old self.new }
    {
        if self.is_planned() {
            return Err(self.faults.fail_give());
        }
        let front = self.front(piece);
        if !self.store.say(front) {
            return Err(self.faults.fail_give());
        }
        Ok(self.faults.taken(front.len(), piece.len()))
    }

    fn faults(&self) -> u64 {
        self.faults.total()
    }
}

// Copies bytes from an offset on, as many as there are and as fit, but at most so many.
fn copy_from(bytes: &[u8], at: usize, most: usize, into: &mut [u8]) -> usize
    requires { 0 < most }
    ensures count { result ≡ min most (min (length into.old) (length bytes.now - at)) }
    ensures copied { into.new ≡ take result (drop at bytes.now) ++ drop result into.old }
    ensures end { result ≡ 0 → (length into.old ≡ 0) ⊎ (length bytes.now ≤ at) }
{
    let at = at.min(bytes.len());
    let count = most.min(into.len().min(bytes.len() - at));
    into[..count].copy_from_slice(&bytes[at..at + count]);
    count
}
