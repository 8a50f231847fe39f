// Calls on a gripped sheet.
ghost use Rattle.std.specs.Prelude.{map, IfOk, Ok};
ghost use Rattle.rules.specs.Runs as runs;
ghost use Rattle.grips.specs.Shown.{gripped_sheet};
ghost use Rattle.workings.specs.Shown.{shown};
ghost use Rattle.steps.specs.Steps.{in_use, Means, Stepped, SteppedIn};

use crate::held::{Held, Offer};
use crate::lists::Lists;
use crate::state::State;
use calls::{Answer, Given};
use grips::{Proposed, Refused};
use kinds::Kind;
use std::alloc::{AllocError, Global};

// A grip with a proposal over a denominator, and the numerators of the proposal; without memory for them there is no grip, which
// must end before the want of memory is told.
fn proposed<K: Kind>(
    heap: Global,
    offer: Offer,
    numerators: &[K],
) -> Result<(State, Answer<K>), AllocError>
    ensures { IfOk result (Means K.coords (gripped_sheet offer.held.grip) (runs.proposing (shown offer.held.workings.value) offer.denominator) (Ok (runs.placing (record { over = offer.denominator; nums = map K.coords numerators.now })))) }
{
    match Vec::from_slice(heap, numerators) {
        Ok(numerators) => {
            let denominator = offer.denominator;
            Ok((
                State::Proposed(offer),
                Ok(Given::Placing(denominator, numerators)),
            ))
        }
        Err(e) => {
            let Offer {
                held,
                denominator: _,
            } = offer;
            let _ = held.release();
            Err(e)
        }
    }
}

// A pull with a grip, with or without an earlier proposal.
pub fn pull_step<K: Kind, P: Drop>(
    heap: Global,
    lists: &mut Lists<K>,
    held: Held<P>,
    wishes: &[K],
) -> Result<(State, Answer<K>), AllocError>
    ensures { SteppedIn K.coords (runs.pulls K.size (in_use K.coords lists.old (gripped_sheet held.grip) (runs.gripped (shown held.workings.value))) (shown held.workings.value) (map K.coords wishes.now)) lists.new result }
{
    let Held { grip, workings } = held;
    match grip.pull(
        &lists.values,
        &lists.relations,
        &lists.constants,
        &workings,
        wishes,
        &mut lists.proposal,
        &mut lists.working,
    ) {
        Ok((grip, denominator)) => {
            let n = grip.count();
            proposed(
                heap,
                Offer {
                    held: Held { grip, workings },
                    denominator,
                },
                &lists.proposal.as_slice()[0..n],
            )
        }
        Err(Refused { back, refusal }) => Ok((
            State::Gripped(Held {
                grip: back,
                workings,
            }),
            Err(refusal),
        )),
    }
}

// A keep of the proposal.
pub fn keep_step<K: Kind>(lists: &mut Lists<K>, offer: Offer) -> (State, Answer<K>)
    ensures { Stepped K.coords (runs.keeps K.size (in_use K.coords lists.old (gripped_sheet offer.held.grip) (runs.proposing (shown offer.held.workings.value) offer.denominator)) offer.denominator) lists.new result }
{
    let Offer { held, denominator } = offer;
    let Held { grip, workings } = held;
    match grip.keep(
        &mut lists.values,
        &lists.relations,
        &lists.constants,
        &lists.proposal,
        denominator,
    ) {
        Ok(sheet) => (State::Free(sheet), Ok(Given::Nothing)),
        Err(Refused { back, refusal }) => (
            State::Proposed(Offer {
                held: Held {
                    grip: back,
                    workings,
                },
                denominator,
            }),
            Err(refusal),
        ),
    }
}
