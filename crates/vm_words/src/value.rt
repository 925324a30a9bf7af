//! What a word says, and the values of a form's words, taken one after another.

ghost use Rattle.std.specs.Prelude.{◌≡◌, ◌∷◌, IfOk, option_map, true, false};
ghost use Rattle.std.specs.Vec.Iter.{into_iter_items};
ghost use Rattle.vm_words.specs.Commands.{name_or, number_or, plan_or};
ghost use Rattle.vm_words.specs.Values.{ReadsText, FirstIsMeant, counted, meaning_of, meanings_of, named};

use crate::form::FormKind;
use std::alloc::{AllocError, Global};
use std::vec::IntoIter;
use vm_image::PlannedFault;
use vm_script::faults::faults_of;
use vm_script::number::number_of;

/// What a slot's word says.
#[derive(Drop)]
pub(crate) enum Value<'a> {
    Named(&'a str),
    Counted(u64),
    Planned(Vec<PlannedFault>),
    /// There is no word.
    Absent,
}

// The value of this kind that a text spells.
pub(crate) fn value_of<'a>(
    alloc: Global,
    kind: FormKind,
    text: &'a str,
) -> Result<Option<Value<'a>>, AllocError>
    ensures { IfOk result (λ value. ReadsText kind text.now (option_map meaning_of value)) }
{
    match kind {
        FormKind::Name => Ok(Some(Value::Named(text))),
        FormKind::Number => match number_of(text.as_bytes()) {
            Some(number) => Ok(Some(Value::Counted(number))),
            None => Ok(None),
        },
        FormKind::Faults => match faults_of(alloc, text.as_bytes())? {
            Some(plan) => Ok(Some(Value::Planned(plan))),
            None => Ok(None),
        },
    }
}

// Takes the next value, a name.
pub(crate) fn name<'a>(values: &mut IntoIter<Value<'a>>) -> &'a str
    requires { FirstIsMeant true FormKind.Name (meanings_of (into_iter_items values.old)) }
    ensures { meanings_of (into_iter_items values.old) ≡ named result.now ∷ meanings_of (into_iter_items values.new) }
{
    match values.next() {
        Some(Value::Named(name)) => name,
        _ => unreachable!(),
    }
}

// Takes the next value, a number.
pub(crate) fn number(values: &mut IntoIter<Value<'_>>) -> u64
    requires { FirstIsMeant true FormKind.Number (meanings_of (into_iter_items values.old)) }
    ensures { meanings_of (into_iter_items values.old) ≡ counted result ∷ meanings_of (into_iter_items values.new) }
{
    match values.next() {
        Some(Value::Counted(number)) => number,
        _ => unreachable!(),
    }
}

// Takes the next value, a name where there is one.
pub(crate) fn name_if_given<'a>(values: &mut IntoIter<Value<'a>>) -> Option<&'a str>
    requires { FirstIsMeant false FormKind.Name (meanings_of (into_iter_items values.old)) }
    ensures { meanings_of (into_iter_items values.old) ≡ name_or result ∷ meanings_of (into_iter_items values.new) }
{
    match values.next() {
        Some(Value::Named(name)) => Some(name),
        Some(Value::Absent) => None,
        _ => unreachable!(),
    }
}

// Takes the next value, a number where there is one.
pub(crate) fn number_if_given(values: &mut IntoIter<Value<'_>>) -> Option<u64>
    requires { FirstIsMeant false FormKind.Number (meanings_of (into_iter_items values.old)) }
    ensures { meanings_of (into_iter_items values.old) ≡ number_or result ∷ meanings_of (into_iter_items values.new) }
{
    match values.next() {
        Some(Value::Counted(number)) => Some(number),
        Some(Value::Absent) => None,
        _ => unreachable!(),
    }
}

// Takes the next value, a plan, which has no entry where there is no word.
pub(crate) fn plan(alloc: Global, values: &mut IntoIter<Value<'_>>) -> Vec<PlannedFault>
    requires { FirstIsMeant false FormKind.Faults (meanings_of (into_iter_items values.old)) }
    ensures { meanings_of (into_iter_items values.old) ≡ plan_or result.items ∷ meanings_of (into_iter_items values.new) }
{
    match values.next() {
        Some(Value::Planned(plan)) => plan,
        Some(Value::Absent) => Vec::new(alloc),
        _ => unreachable!(),
    }
}
