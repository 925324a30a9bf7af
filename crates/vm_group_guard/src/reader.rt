// Optimistic readers of a group: its pages are read without a lock, and a later look at the group's word tells whether all words read were of one version.
ghost use Rattle.std.specs.Prelude.{[], ◌+◌, ◌-◌, ◌<◌, ◌∷◌, ◌≡◌, ◌⊎◌, IfErr, IfOk, length, option_map, slice_index, true};
ghost use Rattle.vm_event.specs.Prelude.{LOCKED, state_of, version_of};
ghost use Rattle.vm_rule.specs.Prelude.{numbers};
ghost use Rattle.vm_step.specs.Prelude.{GoesOn, IsFrameAt, IsKeptNow, IsReadyOn, NoneExpected, NoWord, view};
ghost use Rattle.vm_guard.specs.{Denied.AgainOrNeed, Denied.KeptWord, Guards.Loads, PageWords.LoadsWords, Quiet.LeavesTable};
ghost use Rattle.vm_group_guard.specs.{Denied.IsGroupDenied, Group.IsGroupAt};
ghost use Rattle.vm_group_guard.specs.Reading.{AreReading, AreValid, BeginsGroup, IsGroupUnmarked, ProvesTogether};

use crate::translations::{MOST_PAGES, frames_of, translations};
use arrayvec::ArrayVec;
use vm_block::Block;
use vm_event::StateWord;
use vm_group_step::{look_group, look_group_saying, unmark_group};
use vm_guard::Deny;
use vm_owner::Owner;
use vm_rule::words::{Pass, Words};
use vm_step::{At, Saw, load_at};

/// A group that is read optimistically: the word that the read began at, and the frame of each page. It holds no lock, and may be dropped.
#[derive(Drop)]
pub struct GroupReader {
    pub head: u32,
    pub word: u64,
    pub frames: ArrayVec<u32, MOST_PAGES>,
}

/// Takes the mark of the group away, whose word was found to be this one, where it has one. The group may have another word by now.
fn clear_mark<U: Owner, B: Block>(
    words: &Words<U, B>,
    pass: &mut Pass<U>,
    head: u32,
    size: usize,
    word: u64,
)
    requires ready { IsReadyOn words.now B.tells pass.old }
    requires group { IsGroupAt words.now.table.shared.key head size }
    ensures goes { GoesOn words.now B.tells pass.old pass.new }
    ensures clears { IsGroupUnmarked head size word (view pass.old) (view pass.new) }
{
    if StateWord::state(word) == StateWord::MARKED {
        unmark_group(words, pass, head, word);
    }
}

impl GroupReader {
    /// Begins to read the group of so many pages, and takes a mark of the clock away. One that is Evicted is needed; one that is Locked, or that
    /// another version came to between the two looks, may be tried again.
    pub fn start<U: Owner, B: Block>(
        words: &Words<U, B>,
        pass: &mut Pass<U>,
        head: u32,
        size: usize,
    ) -> Result<GroupReader, Deny>
        requires ready { IsReadyOn words.now B.tells pass.old }
        requires group { IsGroupAt words.now.table.shared.key head size }
        ensures goes { GoesOn words.now B.tells pass.old pass.new }
        ensures ok { IfOk result (λ reader. (reader.head ≡ head)
            × BeginsGroup head size reader.word reader.frames.items (view pass.old) (view pass.new)) }
        ensures err { IfErr result (λ deny. IsGroupDenied AgainOrNeed NoWord NoneExpected head size deny (view pass.old) (view pass.new)) }
    {
        let first = look_group(words, pass, head);
        if StateWord::state(first) == StateWord::EVICTED {
            return Err(Deny::Need(head));
        }
        let at = At::Page(head);
        if StateWord::state(first) == StateWord::LOCKED {
            return Err(Deny::Again(Saw {
                at,
                first,
                seen: first,
            }));
        }
        clear_mark(words, pass, head, size, first);
        let translations = translations(words, pass, head, size);
        let seen = look_group(words, pass, head);
        if StateWord::version(seen) != StateWord::version(first)
            || StateWord::state(seen) == StateWord::LOCKED
        {
            return Err(Deny::Again(Saw { at, first, seen }));
        }
        Ok(GroupReader {
            head,
            word: seen,
            frames: frames_of(translations.as_slice()),
        })
    }

    /// Word `i` of page `k` of the group, through the reader's open read. The place of the frame's first word is known (`vm_step::frame_place`).
    /// Whether it is a word of one version a validation tells.
    pub fn word_at<U: Owner, B: Block>(
        &self,
        words: &Words<U, B>,
        pass: &mut Pass<U>,
        k: usize,
        first: usize,
        i: usize,
    ) -> u64
        requires ready { IsReadyOn words.now B.tells pass.old }
        requires reading { AreReading self.now.head self.now.word self.now.frames.items (view pass.old) }
        requires page { k < length self.now.frames.items }
        requires first { IsFrameAt words.now.table.shared.key words.now.table.shared.table_id.words (slice_index self.now.frames.items k) first }
        requires place { i < words.now.table.shared.key.size }
        ensures goes { GoesOn words.now B.tells pass.old pass.new }
        ensures loads { Loads (self.now.head + k) self.now.word (slice_index self.now.frames.items k) ((i, result) ∷ []) (view pass.old) (view pass.new) }
        ensures words { LoadsWords (result ∷ []) (view pass.old) (view pass.new) }
        ensures reads { AreReading self.now.head self.now.word self.now.frames.items (view pass.new) }
    {
        let frame = self.frames.as_slice()[k];
        load_at(words, pass, self.head + k as u32, frame, first, i)
    }

    /// Validates all that was read through the reader, by one look at the group's word, and makes what is said an entry of the history there.
    /// `Err` where the group is Locked, or has another version than the reader.
    pub fn validate<U: Owner, B: Block>(
        &self,
        words: &Words<U, B>,
        pass: &mut Pass<U>,
        said: Option<&U::Said>,
    ) -> Result<(), Saw>
        requires ready { IsReadyOn words.now B.tells pass.old }
        requires group { IsGroupAt words.now.table.shared.key self.now.head (length self.now.frames.items) }
        requires reading { AreReading self.now.head self.now.word self.now.frames.items (view pass.old) }
        requires owner { ProvesTogether U.tied U.may_hold (numbers self.now.head (length self.now.frames.items)) (version_of self.now.word)
            (option_map (λ b. b.now) said) (view pass.old) }
        ensures goes { GoesOn words.now B.tells pass.old pass.new }
        ensures ok { IfOk result (λ _. AreValid U.tied self.now.head self.now.word self.now.frames.items
            (option_map (λ b. b.now) said.entry) (view pass.old) (view pass.new)) }
        ensures reads { IfOk result (λ _. AreReading self.now.head self.now.word self.now.frames.items (view pass.new)) }
        ensures kept { B.tells ≡ true → IfOk result (λ _. IsKeptNow U.keeps (self.now.head + length self.now.frames.items - 1) (Unit {0}) (view pass.new)) }
        ensures err { IfErr result (λ saw. IsGroupDenied AgainOrNeed (KeptWord self.now.word) NoneExpected
            self.now.head (length self.now.frames.items) (Deny.Again saw) (view pass.old) (view pass.new)) }
        ensures bare { IfErr result (λ _. LeavesTable (view pass.old) (view pass.new)) }
    {
        let seen = look_group_saying(words, pass, self.head, said);
        if StateWord::version(seen) != StateWord::version(self.word)
            || StateWord::state(seen) == StateWord::LOCKED
        {
            return Err(Saw {
                at: At::Page(self.head),
                first: self.word,
                seen,
            });
        }
        Ok(())
    }
}
