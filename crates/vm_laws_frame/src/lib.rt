//! Each event on translations, frames and owner words keeps the invariant of the core.
#![tactic(auto)]

ghost use Rattle.std.specs.Prelude.{ℕ};
ghost use Rattle.vm_event.specs.Prelude.{Keeps, World};
ghost use Rattle.vm_event.specs.declared.event.Event.TheVariants.{BLoad, Clean, Clear, Dirty, Disown, Give, Install, Load, OLoad, Own, PBLoad, PGive, PTake, Store, Take, TLoad};
ghost use Rattle.vm_laws_frame.specs.Translations.{TranslationsRead};

/// A translation load keeps the invariant.
#[tactic(auto, using(crate::proofs::Laws::translation_load_law))]
pub fn translation_load_keeps()
    ensures { (w : World) (a p : ℕ) → Keeps w (TLoad a p) }
{}

/// Putting a page into a frame keeps the invariant.
#[tactic(auto, using(crate::proofs::Laws::install_law))]
pub fn install_keeps()
    ensures { (w : World) (a p f : ℕ) → Keeps w (Install a p f) }
{}

/// Taking a page out of its frame keeps the invariant.
#[tactic(auto, using(crate::proofs::Laws::clear_law))]
pub fn clear_keeps()
    ensures { (w : World) (a p : ℕ) → Keeps w (Clear a p) }
{}

/// Making a translation dirty keeps the invariant.
#[tactic(auto, using(crate::proofs::Laws::dirty_law))]
pub fn dirty_keeps()
    ensures { (w : World) (a p : ℕ) → Keeps w (Dirty a p) }
{}

/// Making a translation clean keeps the invariant.
#[tactic(auto, using(crate::proofs::Laws::clean_law))]
pub fn clean_keeps()
    ensures { (w : World) (a p : ℕ) → Keeps w (Clean a p) }
{}

/// A page load keeps the invariant.
#[tactic(auto, using(crate::proofs::Laws::load_law))]
pub fn load_keeps()
    ensures { (w : World) (a p i : ℕ) → Keeps w (Load a p i) }
{}

/// A store keeps the invariant.
#[tactic(auto, using(crate::proofs::Laws::store_law))]
pub fn store_keeps()
    ensures { (w : World) (a f i x : ℕ) → Keeps w (Store a f i x) }
{}

/// A bundle load keeps the invariant.
#[tactic(auto, using(crate::proofs::Laws::bundle_load_law))]
pub fn bundle_load_keeps()
    ensures { (w : World) (a g : ℕ) → Keeps w (BLoad a g) }
{}

/// Taking frames keeps the invariant.
#[tactic(auto, using(crate::proofs::Laws::take_law))]
pub fn take_keeps()
    ensures { (w : World) (a g expects mask : ℕ) → Keeps w (Take a g expects mask) }
{}

/// Giving frames back keeps the invariant.
#[tactic(auto, using(crate::proofs::Laws::give_law))]
pub fn give_keeps()
    ensures { (w : World) (a g mask : ℕ) → Keeps w (Give a g mask) }
{}

/// Writing a page into the owner word of its frame keeps the invariant.
#[tactic(auto, using(crate::proofs::Laws::own_law))]
pub fn own_keeps()
    ensures { (w : World) (a p : ℕ) → Keeps w (Own a p) }
{}

/// Clearing the owner word of a page's frame keeps the invariant.
#[tactic(auto, using(crate::proofs::Laws::disown_law))]
pub fn disown_keeps()
    ensures { (w : World) (a p : ℕ) → Keeps w (Disown a p) }
{}

/// A load of an owner word keeps the invariant.
#[tactic(auto, using(crate::proofs::Laws::owner_load_law))]
pub fn owner_load_keeps()
    ensures { (w : World) (a f : ℕ) → Keeps w (OLoad a f) }
{}

/// A load of a free-number word keeps the invariant.
#[tactic(auto, using(crate::proofs::Laws::spare_load_law))]
pub fn spare_load_keeps()
    ensures { (w : World) (a g : ℕ) → Keeps w (PBLoad a g) }
{}

/// Page numbers that are taken, or a lost exchange, keep the invariant.
#[tactic(auto, using(crate::proofs::Laws::take_numbers_law))]
pub fn take_numbers_keeps()
    ensures { (w : World) (a g expects mask : ℕ) → Keeps w (PTake a g expects mask) }
{}

/// Page numbers that are given keep the invariant.
#[tactic(auto, using(crate::proofs::Laws::give_numbers_law))]
pub fn give_numbers_keeps()
    ensures { (w : World) (a g mask : ℕ) → Keeps w (PGive a g mask) }
{}

/// A translation word says the translation that it was written from; one without a frame says none, dirty or not.
#[tactic(auto, using(crate::proofs::Translations::translations_read))]
pub fn translations_are_read()
    ensures { TranslationsRead }
{}
