// One call on a desk. A call and a state are values of closed enums, whose every pair the rules answer: a match says so, a table
// of closures would not. The heap is handed on, as to everything that takes memory.
ghost use Rattle.rules.specs.Runs as runs;
ghost use Rattle.calls.specs.Shown.{call_of};
ghost use Rattle.grips.specs.Shown.{gripped_sheet};
ghost use Rattle.sheets.specs.Shown.{numbers};
ghost use Rattle.workings.specs.Shown.{shown};
ghost use Rattle.steps.specs.Steps.{in_use, SteppedIn};
ghost use Rattle.desk.specs.Desks.{Called, use_of};

use crate::desk::Desk;
use calls::{Answer, Call, Given};
use grips::Unproposed;
use kinds::Kind;
use records::{Refusal, Role};
use sheets::Sheet;
use std::alloc::{AllocError, Global};
use steps::{Held, Lists, Offer, State, bind_step, grip_step, keep_step, pull_step, unbind_step};

// A sheet without a grip takes a binding, an unbinding or a grip.
fn free_step<K: Kind>(
    heap: Global,
    lists: &mut Lists<K>,
    sheet: Sheet,
    call: &Call<K, Role>,
) -> Result<(State, Answer<K>), AllocError>
    ensures { SteppedIn K.coords (runs.step K.size (in_use K.coords lists.old (numbers sheet) runs.free) (call_of K.coords call.now)) lists.new result }
{
    match call {
        Call::Bind(coefficients, q) => Ok(bind_step(lists, sheet, coefficients, *q)),
        Call::Unbind(number) => Ok(unbind_step(lists, sheet, *number)),
        Call::Grip(roles) => grip_step(heap, lists, sheet, roles),
        Call::Pull(_) | Call::Keep | Call::Drop => {
            Ok((State::Free(sheet), Err(Refusal::NotOpen)))
        }
    }
}

// A gripped sheet without a proposal takes a pull or a drop.
fn gripped_step<K: Kind>(
    heap: Global,
    lists: &mut Lists<K>,
    held: Held<Unproposed>,
    call: &Call<K, Role>,
) -> Result<(State, Answer<K>), AllocError>
    ensures { SteppedIn K.coords (runs.step K.size (in_use K.coords lists.old (gripped_sheet held.grip) (runs.gripped (shown held.workings.value))) (call_of K.coords call.now)) lists.new result }
{
    match call {
        Call::Pull(wishes) => pull_step(heap, lists, held, wishes),
        Call::Drop => Ok((State::Free(held.release()), Ok(Given::Nothing))),
        Call::Bind(_, _) | Call::Unbind(_) | Call::Grip(_) | Call::Keep => Ok((
            State::Gripped(held),
            Err(Refusal::NotOpen),
        )),
    }
}

// A gripped sheet with a proposal takes a pull, a keep or a drop.
fn proposed_step<K: Kind>(
    heap: Global,
    lists: &mut Lists<K>,
    offer: Offer,
    call: &Call<K, Role>,
) -> Result<(State, Answer<K>), AllocError>
    ensures { SteppedIn K.coords (runs.step K.size (in_use K.coords lists.old (gripped_sheet offer.held.grip) (runs.proposing (shown offer.held.workings.value) offer.denominator)) (call_of K.coords call.now)) lists.new result }
{
    match call {
        Call::Pull(wishes) => {
            let Offer {
                held,
                denominator: _,
            } = offer;
            pull_step(heap, lists, held, wishes)
        }
        Call::Keep => Ok(keep_step(lists, offer)),
        Call::Drop => {
            let Offer {
                held,
                denominator: _,
            } = offer;
            Ok((State::Free(held.release()), Ok(Given::Nothing)))
        }
        Call::Bind(_, _) | Call::Unbind(_) | Call::Grip(_) => Ok((
            State::Proposed(offer),
            Err(Refusal::NotOpen),
        )),
    }
}

impl<K: Kind> Desk<K> {
    // Makes a call, and tells what it gave back. A call that is not open in the present state is refused; without memory for what it gives back there is no desk left.
    pub fn call(
        self,
        heap: Global,
        call: &Call<K, Role>,
    ) -> Result<(Desk<K>, Answer<K>), AllocError>
        ensures { Called K.coords (runs.step K.size (use_of K.coords self) (call_of K.coords call.now)) result }
    {
        let Desk { mut lists, state } = self;
        let stepped = match state {
            State::Free(sheet) => free_step(heap, &mut lists, sheet, call),
            State::Gripped(held) => gripped_step(heap, &mut lists, held, call),
            State::Proposed(offer) => proposed_step(heap, &mut lists, offer, call),
        };
        let (state, answer) = stepped?;
        Ok((Desk { lists, state }, answer))
    }
}
