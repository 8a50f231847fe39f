// Calls on a sheet without a grip.
ghost use Rattle.std.specs.Prelude.{◌≡◌, IfOk, Ok};
ghost use Rattle.rules.specs.Runs as runs;
ghost use Rattle.calls.specs.Shown.{reply_of};
ghost use Rattle.grips.specs.Shown.{gripped_sheet};
ghost use Rattle.sheets.specs.Shown.{numbers};
ghost use Rattle.workings.specs.Shown.{shown};
ghost use Rattle.steps.specs.Steps.{in_use, Means, Stepped, SteppedIn};

use crate::held::Held;
use crate::lists::Lists;
use crate::state::State;
use calls::{Answer, Given};
use grips::{Grip, Gripped, Refused, Unproposed};
use kinds::Kind;
use records::{Refusal, Role};
use sheets::Sheet;
use std::alloc::{AllocError, Global};
use workings::Workings;

// What a call that gives nothing but its acceptance gave back.
fn done<K: Kind>(r: Result<(), Refusal>) -> Answer<K>
    ensures { reply_of K.coords result ≡ runs.reply_to r }
{
    r.map(|()| Given::Nothing)
}

pub fn bind_step<K: Kind>(
    lists: &mut Lists<K>,
    mut sheet: Sheet,
    coefficients: &[i64],
    q: K,
) -> (State, Answer<K>)
    ensures { Stepped K.coords (runs.binds K.size (in_use K.coords lists.old (numbers sheet) runs.free) coefficients.now (K.coords q)) lists.new result }
{
    let r = sheet.bind(
        &lists.values,
        &mut lists.relations,
        &mut lists.constants,
        coefficients,
        q,
    );
    (State::Free(sheet), done(r))
}

pub fn unbind_step<K: Kind>(
    lists: &mut Lists<K>,
    mut sheet: Sheet,
    number: i64,
) -> (State, Answer<K>)
    ensures { Stepped K.coords (runs.unbinds K.size (in_use K.coords lists.old (numbers sheet) runs.free) number) lists.new result }
{
    let r = sheet.unbind(
        &lists.values,
        &mut lists.relations,
        &mut lists.constants,
        number,
    );
    (State::Free(sheet), done(r))
}

// A grip with its workings and the numbers of the spare relations; without memory for them there is no grip, which must end before
// the want of memory is told.
fn gripped<K: Kind>(
    heap: Global,
    grip: Grip<Unproposed>,
    workings: Workings,
    spares: &[usize],
) -> Result<(State, Answer<K>), AllocError>
    ensures { IfOk result (Means K.coords (gripped_sheet grip) (runs.gripped (shown workings)) (Ok (runs.spares spares.now))) }
{
    let workings = match Box::new(heap, workings) {
        Ok(workings) => workings,
        Err(failed) => {
            let _ = grip.release();
            return Err(failed.into());
        }
    };
    match Vec::from_slice(heap, spares) {
        Ok(numbers) => Ok((
            State::Gripped(Held { grip, workings }),
            Ok(Given::Spares(numbers)),
        )),
        Err(e) => {
            let _ = grip.release();
            Err(e)
        }
    }
}

pub fn grip_step<K: Kind>(
    heap: Global,
    lists: &mut Lists<K>,
    sheet: Sheet,
    roles: &[Role],
) -> Result<(State, Answer<K>), AllocError>
    ensures { SteppedIn K.coords (runs.grips K.size (in_use K.coords lists.old (numbers sheet) runs.free) roles.now) lists.new result }
{
    match Grip::take(
        sheet,
        &lists.values,
        &mut lists.relations,
        &lists.constants,
        roles,
        &mut lists.spare,
    ) {
        Ok(taken) => {
            let Gripped {
                grip,
                workings,
                spares,
            } = taken;
            gripped(heap, grip, workings, &lists.spare.as_slice()[0..spares])
        }
        Err(Refused { back, refusal }) => Ok((State::Free(back), Err(refusal))),
    }
}
