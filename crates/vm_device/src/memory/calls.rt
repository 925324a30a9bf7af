//! The calls of devices in memory, which fail exactly where their plan says so, and whose blocks fail where those of theirs do.

ghost use Rattle.std.specs.Prelude.{◌≡◌, ◌*◌, ◌/◌, ◌&&◌, length, is_ok, is_some, not, true, IfOk, IfSome, IsErr, MatchOption, None, option_map, slice_get, slice_set, string_bytes};
ghost use Rattle.std.specs.Str.{bytes_eq};
ghost use Rattle.vm_page.specs.Sizes.{IsSize};
ghost use Rattle.vm_device.specs.Devices.{Measures, TakesOut, file_of, words_at};
ghost use Rattle.vm_device.specs.Held.{IsUntouched, StandsFirst};
ghost use Rattle.vm_device.specs.Memory.{IsAfterCall, IsNewPage, device_state, files_in, is_planned_call, next_call_number, numbers_at, page_stored, stored_file};

use crate::device::Devices;
use crate::ledger::Ledger;
use crate::memory::{BlockFault, MemDevices, PagesFile};
use crate::page::MemPage;
use std::alloc::{AllocError, Global};
use vm_block::Block;
use vm_page::{Failed, PageBuf};

impl<const N: usize> PagesFile<N> {
    /// A file of so many bytes, with as many pages as are whole in it.
    pub fn new(name: String, size: u64, pages: Vec<PageBuf<N>>) -> PagesFile<N>
        requires { length pages.items ≡ size / (8 * N) }
        ensures { stored_file result ≡ record { name = string_bytes name; size = size; pages = pages.entry.items } }
    {
        PagesFile { name, size, pages }
    }

    // Page `p`, if the file has it.
    #[tactic(auto, using(crate::proofs::First::got, crate::proofs::First::got_none))]
    fn page(&self, p: u32) -> Option<&PageBuf<N>>
        ensures { option_map (λ page. page.now) result ≡ slice_get self.now.pages.items p }
    {
        let p = p as usize;
        if p < self.pages.len() {
            Some(&self.pages[p])
        } else {
            None
        }
    }

    // Page `p` has these words, if the file has the page.
    fn put(&mut self, p: u32, words: &PageBuf<N>)
        ensures { stored_file self.new ≡ record (stored_file self.old) { pages = slice_set (stored_file self.old).pages p words.now } }
    {
        let p = p as usize;
        if p < self.pages.len() {
            self.pages[p].copy_from(words);
        }
    }
}

// The place of the first file with a name.
fn place_of<const N: usize>(files: &[PagesFile<N>], name: &str) -> Option<usize>
    ensures { MatchOption result (file_of (files_in files.now) name.now ≡ None) (StandsFirst (λ file. bytes_eq (stored_file file).name name.now) files.now) }
{
    'looking: for (i, file) in files.iter().enumerate() {
        if file.name.as_str() == name {
            return Some(i);
        }
    }
    None
}

// The numbers of a page's entries.
fn numbers_at(alloc: Global, plan: &[BlockFault], page: u32) -> Result<Vec<u64>, AllocError>
    ensures { IfOk result (λ numbers. numbers.items ≡ numbers_at plan.now page) }
{
    let mut numbers = Vec::new(alloc);
    for fault in plan {
        if fault.page == page {
            numbers.push(fault.number)?;
        }
    }
    Ok(numbers)
}

impl<const N: usize> MemDevices<N> {
    /// Devices with these files. The plan has the numbers of the calls that fail: `length` and `get` are numbered together, from 1. `block_calls` has
    /// those of a page's reads and writes, which are numbered together, and `block_syncs` those of its syncs, each from 1 for a block taken out.
    pub fn new(
        alloc: Global,
        files: Vec<PagesFile<N>>,
        plan: &[u64],
        block_calls: &[BlockFault],
        block_syncs: &[BlockFault],
    ) -> Result<MemDevices<N>, AllocError>
        requires { IsSize N }
        ensures files { IfOk result (λ devices. (device_state devices).files ≡ files_in files.entry.items) }
        ensures unused { IfOk result (λ devices. IsUntouched (device_state devices)) }
        ensures plan { IfOk result (λ devices. devices.plan.items ≡ plan.now) }
        ensures block_calls { IfOk result (λ devices. devices.block_calls.items ≡ block_calls.now) }
        ensures block_syncs { IfOk result (λ devices. devices.block_syncs.items ≡ block_syncs.now) }
    {
        Ok(MemDevices {
            alloc,
            files,
            plan: Vec::from_slice(alloc, plan)?,
            calls: 0,
            block_calls: Vec::from_slice(alloc, block_calls)?,
            block_syncs: Vec::from_slice(alloc, block_syncs)?,
            ledger: Ledger::new(alloc),
        })
    }

    // Counts a call, and says whether the plan lets it fail.
    #[tactic(auto, unfolding(vm_page::specs::Counts::count_more))]
    fn is_planned_call(&mut self) -> bool
        ensures planned { result ≡ is_planned_call self.old }
        ensures keeps { self.new ≡ record self.old { calls = next_call_number self.old } }
    {
        self.calls = self.calls.saturating_add(1);
        self.plan.contains(&self.calls)
    }

    // A new block of a page, and none where no file has the page, or memory is wanting.
    fn block_of(&self, name: &str, p: u32) -> Option<MemPage<N>>
        ensures words { IfSome result (λ block. words_at (files_in self.now.files.items) name.now p ≡ Some (page_stored block).words) }
        ensures fresh { IfSome result (λ block. IsNewPage block (page_stored block).words (numbers_at self.now.block_calls.items p) (numbers_at self.now.block_syncs.items p)) }
    {
        let file = &self.files[place_of(&self.files, name)?];
        let mut words = PageBuf::zero();
        words.copy_from(file.page(p)?);
        let calls = numbers_at(self.alloc, &self.block_calls, p).ok()?;
        let syncs = numbers_at(self.alloc, &self.block_syncs, p).ok()?;
        let made = MemPage::new(self.alloc, words, calls.as_slice(), syncs.as_slice());
        let Ok(block) = made else {
            return None;
        };
        Some(block)
    }
}

#[tactic(auto, unfolding(vm_page::specs::Counts::count_more))]
impl<const N: usize> Devices<N> for MemDevices<N> {
    ghost use Rattle.std.specs.Prelude.{true};
    ghost use Rattle.std.proofs.Common.{refl};
    ghost use Rattle.vm_device.specs.Memory.{all_whole, device_state};

    type B = MemPage<N>;

    ghost tells = { true };

    ghost state = { device_state };

    fn length(&mut self, name: &str) -> Result<u64, Failed>
        ensures state { Measures true (device_state self.old) (device_state self.new) name.now result }
        ensures exact { is_ok result ≡ (not (is_planned_call self.old) && is_some (file_of (device_state self.old).files name.now)) }
        ensures next { IsAfterCall self.old self.new }
    {
        if self.is_planned_call() {
            return Err(self.ledger.fail());
        }
        let Some(i) = place_of(&self.files, name) else {
            return Err(self.ledger.fail());
        };
        let size = self.files[i].size;
        Ok(self.ledger.answer(size))
    }

    fn get(&mut self, name: &str, p: u32) -> Result<MemPage<N>, Failed>
        ensures state { TakesOut true page_stored (device_state self.old) (device_state self.new) name.now p result }
        ensures planned { is_planned_call self.old ≡ true → IsErr result }
        ensures fresh { IfOk result (λ block. IsNewPage block (page_stored block).words (numbers_at self.old.block_calls.items p) (numbers_at self.old.block_syncs.items p)) }
        ensures next { IsAfterCall self.old self.new }
    {
        if self.is_planned_call() {
            return Err(self.ledger.fail());
        }
        if self.ledger.outs.count(name, p).is_some() {
            return Err(self.ledger.fail());
        }
        let Some(block) = self.block_of(name, p) else {
            return Err(self.ledger.fail());
        };
        self.ledger.take_out(self.alloc, name, p, block.faults())?;
        Ok(block)
    }

    fn back(&mut self, name: &str, p: u32, block: MemPage<N>) {
        if self.ledger.bring_home(name, p, block.faults()) {
            if let Some(i) = place_of(&self.files, name) {
                self.files[i].put(p, block.words());
            }
        }
    }

    fn faults(&self) -> u64 {
        self.ledger.faults
    }

    ghost told = { refl };

    ghost whole = { λ devices _. all_whole N devices.files.items };
}
