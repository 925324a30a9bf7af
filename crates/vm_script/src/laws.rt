// Laws on scripts, event lists, plans and numbers that hold of their definitions, for whoever reads or writes them.
ghost use Rattle.std.specs.Fmt.{decimal};
ghost use Rattle.std.specs.Prelude.{◌<◌, ◌^◌, ◌≡◌, List, ℕ};
ghost use Rattle.vm_map.specs.declared.call.Call.{Call};
ghost use Rattle.vm_image.specs.declared.blocks.PlannedFault.{PlannedFault};
ghost use Rattle.vm_event.specs.declared.event.CoreShape.{CoreShape};
ghost use Rattle.vm_script.specs.{declared.event_line.EventLine.EventLine, declared.script.Order.Order, Events.IsFirstBadEvent, Events.SpellsEvents};
ghost use Rattle.vm_script.specs.{Faults.IsPlan, Faults.plan_text};
ghost use Rattle.vm_script.specs.Scripts.{IsFirstBad, IsScript, Spells};

/// A script has one reading: its bytes spell one list of orders, and so one list of calls for each
/// worker, or they have one first bad line, and never both.
pub fn one_reading()
    ensures one_list { (workers : ℕ) (bytes : List ℕ) (a b : List (Order Call)) → workers < 2 ^ 32
        → Spells workers bytes a → Spells workers bytes b → a ≡ b }
    ensures one_script { (workers : ℕ) (bytes : List ℕ) (a b : List (List Call)) → workers < 2 ^ 32
        → IsScript workers bytes a → IsScript workers bytes b → a ≡ b }
    ensures one_bad_line { (workers : ℕ) (bytes : List ℕ) (m n : ℕ) → workers < 2 ^ 32
        → IsFirstBad workers bytes m → IsFirstBad workers bytes n → m ≡ n }
    ensures not_both { (workers : ℕ) (bytes : List ℕ) (orders : List (Order Call)) (n : ℕ) → workers < 2 ^ 32
        → Spells workers bytes orders → IsFirstBad workers bytes n → ⊥ }
{}

/// An event list has one reading: its bytes spell one shape with one list of groups and one of event lines, or they have
/// one first bad line, and never both.
pub fn one_event_reading()
    ensures one_list { (bytes : List ℕ) (shape other : CoreShape) (groups others : List (ℕ × ℕ)) (a b : List EventLine)
        → SpellsEvents bytes shape groups a → SpellsEvents bytes other others b
        → (shape ≡ other) × (groups ≡ others) × (a ≡ b) }
    ensures one_bad_line { (bytes : List ℕ) (m n : ℕ) → IsFirstBadEvent bytes m → IsFirstBadEvent bytes n → m ≡ n }
    ensures not_both { (bytes : List ℕ) (shape : CoreShape) (groups : List (ℕ × ℕ)) (lines : List EventLine) (n : ℕ)
        → SpellsEvents bytes shape groups lines → IsFirstBadEvent bytes n → ⊥ }
{}

/// A word spells one plan.
pub fn one_plan()
    ensures { (a b : List PlannedFault) → IsPlan a → IsPlan b → plan_text a ≡ plan_text b → a ≡ b }
{}

/// Two numbers with one text are one.
pub fn one_number()
    ensures { (m n : ℕ) → m < 2 ^ 64 → n < 2 ^ 64 → decimal m ≡ decimal n → m ≡ n }
{}
