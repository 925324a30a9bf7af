//! A value that was given is taken, nothing is taken where nothing was given, and two places do not mix.

ghost use Rattle.std.specs.Prelude.{◌≡◌};

use crate::{Handed, handover};
use std::cell::Cell;
use std::marker::PhantomData;
use std::test::Fail;

/// A number, of which the datum says what it is. It goes to other threads, and is not shared with them.
#[derive(Drop)]
struct Number {
    value: u64,
    marker: PhantomData<Cell<u64>>,
}

fn number_of(value: u64) -> Number
    ensures { result.value ≡ value }
{
    Number {
        value,
        marker: PhantomData,
    }
}

impl Handed for Number {
    type About = u64;

    ghost keeps = { λ about number. number.value ≡ about };
}

/// Whatever may go to another thread.
fn sent<X: Send>(it: X) -> X
    ensures { result ≡ it }
{
    it
}

/// A value comes out where it was given, and not before. Each end may go to another thread.
#[test]
fn a_value_comes_out_once_it_was_given(rt: HostRuntime) -> Result<(), Fail> {
    let (giver, taker) = handover::<Number>(rt.alloc(), &7)?;
    let (giver, taker) = (sent(giver), sent(taker));
    let Err(taker) = taker.take() else {
        return Err(Fail::from("taken before it was given"));
    };
    giver.give(number_of(7));
    let Ok(number) = taker.take() else {
        return Err(Fail::from("not taken"));
    };
    assert_eq!(rt; number.value, 7);
    Ok(())
}

/// Each value comes out of its own place, and nothing out of one whose end that gives is gone.
#[test]
fn two_places_do_not_mix(rt: HostRuntime) -> Result<(), Fail> {
    let (first_in, first_out) = handover::<Number>(rt.alloc(), &7)?;
    let (second_in, second_out) = handover::<Number>(rt.alloc(), &8)?;
    let (third_in, third_out) = handover::<Number>(rt.alloc(), &9)?;
    second_in.give(number_of(8));
    first_in.give(number_of(7));
    drop(third_in);
    let (Ok(first), Ok(second)) = (first_out.take(), second_out.take()) else {
        return Err(Fail::from("not taken"));
    };
    assert_eq!(rt; first.value, 7);
    assert_eq!(rt; second.value, 8);
    assert!(rt; third_out.take().is_err());
    Ok(())
}
