//! Reads plans of failures: entries `P:N` joined by commas.

ghost use Rattle.std.specs.Prelude.{IfOk, option_map};
ghost use Rattle.vm_script.specs.EventWords.{ReadsAs};
ghost use Rattle.vm_script.specs.Faults.{fault_text, IsPlan, IsPlanned, plan_text};

use crate::number::number_of;
use crate::script::cut;
use std::alloc::{AllocError, Global};
use vm_image::PlannedFault;

// The entry that `P:N` spells.
fn fault_of(text: &[u8]) -> Option<PlannedFault>
    ensures { ReadsAs IsPlanned fault_text text.now result }
{
    let Some((page, number)) = cut(text, b':') else {
        return None;
    };
    let Some(page) = number_of(page) else {
        return None;
    };
    let Some(number) = number_of(number) else {
        return None;
    };
    Some(PlannedFault { page, number })
}

/// The plan that a word spells: entries `P:N` with commas between them, one at least, each of two canonical decimals below
/// 2^64. All other bytes are `None`. How many entries a plan may have is not asked here.
///
/// # Errors
///
/// `AllocError` where memory was refused.
pub fn faults_of(alloc: Global, word: &[u8]) -> Result<Option<Vec<PlannedFault>>, AllocError>
    ensures { IfOk result (λ plan. ReadsAs IsPlan plan_text word.now (option_map (λ v. v.items) plan)) }
{
    let mut plan = Vec::new(alloc);
    let mut rest = word;
    'entries: while let Some((entry, behind)) = cut(rest, b',') {
        let Some(fault) = fault_of(entry) else {
            return Ok(None);
        };
        plan.push(fault)?;
        rest = behind;
    }
    let Some(last) = fault_of(rest) else {
        return Ok(None);
    };
    plan.push(last)?;
    Ok(Some(plan))
}
