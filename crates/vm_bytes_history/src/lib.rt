//! The history of workers' calls with byte keys, told over strings and not over ranks. Definitions and laws; no code runs.
#![tactic(auto)]

ghost use Rattle.std.specs.Prelude.{List, Result, ℕ};
ghost use Rattle.vm_tree_model.specs.Tree.{map_of};
ghost use Rattle.vm_rule.specs.Prelude.{Entry};
ghost use Rattle.vm_tree_laws.specs.{History.IsLegal, Plain.plain_history};
ghost use Rattle.vm_bytes_form.specs.Bytes.{bytes};
ghost use Rattle.vm_bytes_laws.specs.Plain.{plain_said};
ghost use Rattle.vm_bytes_laws.specs.declared.call.{KeyCall.KeyCall, KeyReply.KeyReply, KeySaid.KeySaid};
ghost use Rattle.vm_bytes_drive.specs.from_vm_bytes_calls.KeyCalls.{key_said};
ghost use Rattle.vm_bytes_drive.specs.{from_vm_drive.Holds.HoldsCalls, from_vm_tree_rule.declared_fault_TreeFault.TreeFault};
ghost use Rattle.vm_bytes_history.specs.Heard.{AskStrings, IsHeard, IsKeyMap, ShowStrings, strings_of};

pub mod drive;

/// The map that pages with byte keys hold is one over strings of at most 64 bytes, whatever their words are.
#[tactic(auto, using(crate::proofs::Starts::map_has_strings))]
pub fn maps_have_strings()
    ensures { (pages : List (List ℕ)) → IsKeyMap (map_of bytes pages) (strings_of (map_of bytes pages)) }
{}

/// What was seen of workers' calls that ask of strings and show strings has a history over strings, which holds these very calls and replies and is right,
/// where what was seen holds the calls over ranks and is legal from the map of the pages on.
#[tactic(auto, using(crate::proofs::Hearing::heard))]
pub fn histories_are_heard()
    ensures { (pages : List (List ℕ)) (seen : List (Entry KeySaid)) (lists : List (List KeyCall)) (replies : List (List (Result KeyReply TreeFault)))
        → AskStrings lists → ShowStrings replies → HoldsCalls plain_said key_said seen lists replies
        → IsLegal (map_of bytes pages) (plain_history plain_said seen) → IsHeard pages seen lists replies }
{}
