//! A page that is written: the words of a node whose pairs come one by one, by rising key.

ghost use Rattle.std.specs.Prelude.{[], ◌≡◌, ◌∷◌, ◌+◌, ◌-◌, ◌*◌, ◌<◌, ◌≤◌, length, List, None, slice_index, slice_index_or, Some, ℕ};
ghost use Rattle.vm_bytes_form.specs.Cuts.{words_for};
ghost use Rattle.vm_bytes_form.specs.Forms.{ByteNode, IsFitting, key_block, node_in};
ghost use Rattle.vm_bytes_form.specs.Strings.{IsString};
ghost use Rattle.vm_bytes_edit.specs.Drafts.{empty_node, entries_between, HasNoEmptyHigh, IsDraft, IsInPage, over, with_more};
ghost use Rattle.vm_bytes_node.specs.Limits.{MOST_SLOTS};

use vm_bytes_node::{HEADER, high_at, in_range, key_at, low_at, pair_size, value_at, words_of};
use vm_map::key::Key;
use vm_node::in_buffer;
use vm_page::{LARGE, PageBuf};

/// The words of a node, how many pairs it has, and where its lowest block stands.
#[derive(Drop)]
pub(crate) struct Draft {
    page: PageBuf<512>,
    count: usize,
    end: usize,
}

impl Draft {
    /// A node with this low fence, no high fence and no pair.
    pub(crate) fn new(tag: u64, level: u64, low: &Key) -> Draft
        ensures draft { IsDraft result.page result.count result.end (empty_node tag level low.now None) }
        ensures fits { IsInPage result.count result.end }
    {
        let mut draft = Draft {
            page: PageBuf::zero(),
            count: 0,
            end: LARGE,
        };
        draft.page.set(0, tag);
        draft.page.set(2, level);
        let slot = draft.put_block(low);
        if low.len() > 0 {
            draft.page.set(3, slot);
        }
        draft
    }

    /// The node gets a high fence, before its first pair.
    pub(crate) fn close(&mut self, high: &Key)
        requires fits { IsInPage self.old.count self.old.end }
        ensures draft { (tag level : ℕ) (low : List ℕ) → IsDraft self.old.page self.old.count self.old.end (empty_node tag level low None)
            → 1 ≤ length high.now → IsDraft self.new.page self.new.count self.new.end (empty_node tag level low (Some high.now)) }
        ensures fits { IsInPage self.new.count self.new.end }
    {
        let slot = self.put_block(high);
        self.page.set(4, slot);
    }

    /// The node gets a further pair behind its own. Where there is no room for it nothing happens.
    pub(crate) fn add(&mut self, key: &Key, value: u64)
        requires fits { IsInPage self.old.count self.old.end }
        ensures draft { (n : ByteNode) → IsDraft self.old.page self.old.count self.old.end n → IsFitting 512 (with_more n ((key.now, value) ∷ []))
            → IsDraft self.new.page self.new.count self.new.end (with_more n ((key.now, value) ∷ [])) }
        ensures fits { IsInPage self.new.count self.new.end }
    {
        if HEADER + self.count + pair_size(key) > self.end {
            return;
        }
        self.end -= 1;
        self.page.set(self.end, value);
        let slot = self.put_block(key);
        self.page.set(HEADER + self.count, slot);
        self.count += 1;
        self.page.set(1, self.count as u64);
    }

    /// The pairs of a page from one place on and before another come behind the node's own.
    pub(crate) fn copy(&mut self, page: &PageBuf<512>, from: usize, upto: usize)
        requires fits { IsInPage self.old.count self.old.end }
        requires inside { upto ≤ MOST_SLOTS }
        ensures draft { (n : ByteNode) → IsDraft self.old.page self.old.count self.old.end n
            → upto ≤ length (node_in page.now).entries → from ≤ upto
            → IsFitting 512 (with_more n (entries_between from upto (node_in page.now).entries))
            → IsDraft self.new.page self.new.count self.new.end (with_more n (entries_between from upto (node_in page.now).entries)) }
        ensures fits { IsInPage self.new.count self.new.end }
    {
        for i in from..upto {
            let (key, value) = pair_of(page, i);
            self.add(&key, value);
        }
    }

    /// The page.
    pub(crate) fn into_page(self) -> PageBuf<512>
        ensures { result ≡ self.page }
    {
        self.page
    }

    // Writes a string below the lowest block, where its words have room, and gives its slot.
    fn put_block(&mut self, key: &Key) -> u64
        requires fits { self.old.end ≤ 512 }
        ensures words { self.new.page ≡ over self.old.page self.new.end (key_block key.now) }
        ensures end { self.new.end ≡ self.old.end - words_for (length key.now) }
        ensures count { self.new.count ≡ self.old.count }
        ensures slot { result ≡ self.new.end * 256 + length key.now }
        ensures string { IsString 64 key.now }
    {
        in_range(key);
        self.end = self.end.saturating_sub(words_of(key.len()));
        write_key(&mut self.page, self.end, key);
        (self.end * 256 + key.len()) as u64
    }
}

/// A draft of a node with the page's tag, level and fences, and no pair.
pub(crate) fn begun(page: &PageBuf<512>) -> Draft
    ensures draft { HasNoEmptyHigh (node_in page.now) → IsDraft result.page result.count result.end (record (node_in page.now) { entries = [] }) }
    ensures fits { IsInPage result.count result.end }
{
    let mut place = in_buffer(page);
    let low = low_at(&mut place);
    let mut draft = Draft::new(page.get(0), page.get(2), &low);
    if let Some(high) = high_at(&mut place) {
        draft.close(&high);
    }
    draft
}

/// The pair at place `i` of a page in a buffer.
pub(crate) fn pair_of(page: &PageBuf<512>, i: usize) -> (Key, u64)
    requires { i < MOST_SLOTS }
    ensures { i < length (node_in page.now).entries → (result.0 ≡ (slice_index_or (node_in page.now).entries i ([], 0)).0)
        × (result.1 ≡ (slice_index_or (node_in page.now).entries i ([], 0)).1) }
{
    let mut place = in_buffer(page);
    let key = key_at(&mut place, i);
    (key, value_at(&mut place, i))
}

// Writes the words of a string from a place on.
fn write_key(page: &mut PageBuf<512>, at: usize, key: &Key)
    requires { at + words_for (length key.now) ≤ 512 }
    ensures { page.new ≡ over page.old at (key_block key.now) }
{
    // A page has 512 words.
    let _ = page.get(0);
    for i in 0..words_of(key.len()) {
        let word = key_word(key.as_slice(), i);
        page.set(at + i, word);
    }
}

// Word `i` of a string: its bytes from 8 * i on, the greatest first, and zeros behind its end.
fn key_word(bytes: &[u8], i: usize) -> u64
    requires few { length bytes.now ≤ 64 }
    requires inside { i < words_for (length bytes.now) }
    ensures { result ≡ slice_index (key_block bytes.now) i }
{
    let mut word = [0; 8];
    let from = 8 * i;
    let count = (bytes.len() - from).min(8);
    word[..count].copy_from_slice(&bytes[from..from + count]);
    u64::from_be_bytes(word)
}
