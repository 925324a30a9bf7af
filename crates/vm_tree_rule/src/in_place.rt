// A page of the tree that is read where it stands, through an optimistic guard.
ghost use Rattle.std.specs.Prelude.{[], ◌≡◌, map, refl};
ghost use Rattle.std.proofs.Common.{subst, sym, ◌∙◌};
ghost use Rattle.std.proofs.lemmas.List.{map-append};
ghost use Rattle.vm_rule.proofs.Entries.{append-none};
ghost use Rattle.vm_step.specs.Prelude.{IsFrameAt, IsReadyOn, IsSamePass, view};
ghost use Rattle.vm_kind.specs.from_vm_guard.Guards.{IsReading, Loads};
ghost use Rattle.vm_kind.specs.from_vm_guard.PageWords.{LoadsWords};
ghost use Rattle.vm_kind.proofs.from_vm_guard.PageLoads.{words-then};
ghost use Rattle.vm_kind.proofs.from_vm_guard.Reading.{loaded-then, none-loaded};

use vm_block::Block;
use vm_kind::guard::OptGuard;
use vm_node::Place;
use vm_owner::{Owner, Ungrouped};
use vm_rule::words::{Pass, Words};

/// A page under an optimistic guard, with the pass that reads it. Its words may change while they are loaded, which the guard's validation tells.
#[derive(Drop)]
pub struct InPlace<'a, U: Owner, B: Block> {
    pub words: &'a Words<U, B>,
    pub pass: &'a mut Pass<U>,
    pub guard: &'a OptGuard,
    /// Where the words of the guard's frame begin (`vm_step::frame_place`).
    pub first: usize,
}

impl<U: Ungrouped, B: Block> Place for InPlace<'_, U, B> {
    ghost size = { λ p. p.words.now.table.shared.key.size };

    ghost ready = { λ p.
        IsReadyOn p.words.now B.tells p.pass.now
        × IsReading p.guard.now.pid p.guard.now.word p.guard.now.frame (view p.pass.now)
        × IsFrameAt p.words.now.table.shared.key p.words.now.table.shared.table_id.words p.guard.now.frame p.first };

    ghost loads = { λ p loaded q.
        (q.pass.ghost_name ≡ p.pass.ghost_name) × (q.words.now ≡ p.words.now) × (q.guard.now ≡ p.guard.now)
        × IsSamePass p.pass.now q.pass.now
        × Loads p.guard.now.pid p.guard.now.word p.guard.now.frame loaded (view p.pass.now) (view q.pass.now)
        × LoadsWords (map (λ l. l.1) loaded) (view p.pass.now) (view q.pass.now) };

    fn word(&mut self, i: usize) -> u64 {
        self.guard.word_at(self.words, self.pass, self.first, i)
    }

    ghost none = { λ p ready. (refl, refl, refl, (refl, refl), none-loaded _ _ _ _ ready.1, record { done = []; log = sym (append-none _); words = refl }) };

    ghost join = { λ p q r first then a b. (
      b.0 ∙ a.0,
      b.1 ∙ a.1,
      b.2 ∙ a.2,
      (b.3.0 ∙ a.3.0, b.3.1 ∙ a.3.1),
      loaded-then _ _ _ first then _ _ _ a.4 (subst (λ g. Loads g.pid g.word g.frame then (view q.pass.now) (view r.pass.now)) a.2 b.4),
      subst (λ l. LoadsWords l (view p.pass.now) (view r.pass.now)) (sym (map-append (λ l. l.1) first then)) (words-then _ _ _ _ _ a.5 b.5),
    ) };
}
