//! Laws on scripts of calls with byte keys that hold of their definitions, for whoever reads or writes them.

ghost use Rattle.std.specs.Prelude.{◌<◌, ◌^◌, ◌≡◌, List, ℕ};
ghost use Rattle.vm_bytes_form.specs.Strings.{IsString};
ghost use Rattle.vm_bytes_laws.specs.declared.call.KeyCall.{KeyCall};
ghost use Rattle.vm_bytes_text.specs.KeyTexts.{key_text};
ghost use Rattle.vm_script.specs.declared.script.Order.{Order};
ghost use Rattle.vm_bytes_script.specs.KeyScripts.{IsFirstBadKeys, IsKeyScript, SpellsKeys};

/// A script of calls with byte keys has one reading: its bytes spell one list of orders, and so one list of calls for each
/// worker, or they have one first bad line, and never both.
pub fn one_key_reading()
    ensures one_list { (workers : ℕ) (bytes : List ℕ) (a b : List (Order KeyCall)) → workers < 2 ^ 32
        → SpellsKeys workers bytes a → SpellsKeys workers bytes b → a ≡ b }
    ensures one_script { (workers : ℕ) (bytes : List ℕ) (a b : List (List KeyCall)) → workers < 2 ^ 32
        → IsKeyScript workers bytes a → IsKeyScript workers bytes b → a ≡ b }
    ensures one_bad_line { (workers : ℕ) (bytes : List ℕ) (m n : ℕ) → workers < 2 ^ 32
        → IsFirstBadKeys workers bytes m → IsFirstBadKeys workers bytes n → m ≡ n }
    ensures not_both { (workers : ℕ) (bytes : List ℕ) (orders : List (Order KeyCall)) (n : ℕ) → workers < 2 ^ 32
        → SpellsKeys workers bytes orders → IsFirstBadKeys workers bytes n → ⊥ }
{}

/// Two keys with one text are one.
pub fn one_key()
    ensures { (a b : List ℕ) → IsString 64 a → IsString 64 b → key_text a ≡ key_text b → a ≡ b }
{}
