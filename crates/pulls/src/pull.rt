// A pull's steps in their order.
ghost use Rattle.std.specs.Prelude.{◌≡◌, ◌≤◌, false, not, ◌||◌, map, length, ◌==◌, nat_lt};
ghost use Rattle.rules.specs.Calls.{pulling};
ghost use Rattle.rules.specs.Sheets.{unfit, unfit_values};
ghost use Rattle.rules.specs.Pulling.{proposed};
ghost use Rattle.sheets.specs.Shown.{numbers};
ghost use Rattle.workings.specs.Shown.{shown};
ghost use Rattle.residuals.specs.Rows.{chosen, Fine};
ghost use Rattle.pulls.specs.Steps.{placed, exactly};

use crate::finish::finish;
use crate::wishes::far_wish;
use kinds::Kind;
use records::limits::{MOST_COUNTED, WORKING_PLACES};
use records::{Refusal, Relation};
use residuals::Task;
use roles::counted_relations;
use sheets::{Sheet, clear, unfit};
use workings::Workings;

// The denominator of the proposal, whose numerators are then in its list. The working values hold the residuals in their
// first 12 places, and what the rows carry in the next 12.
fn solve<K: Kind>(task: &Task<'_, K>, proposal: &mut [K], working: &mut [K]) -> Result<i64, Refusal>
    requires proposed { length proposal.old ≡ (shown task.now.workings.now).count }
    requires working { length working.old ≡ 24 }
    ensures { let t = task.now in let w = shown t.workings.now in placed result (map K.coords proposal.new) ≡ proposed K.size w.count w.roles w.shares (chosen w.count t.relations.now (map K.coords t.constants.now) t.rows.now) w.table t.d (map K.coords t.values.now) (map K.coords t.wishes.now) }
{
    let m = task.workings.m();
    let (left, right) = working.split_at_mut(MOST_COUNTED);
    let found = &mut left[..m];
    let sums = &mut right[..m];
    // the caller lends places for values alone, so the rows' numbers have a list of their own
    let mut places = [0; MOST_COUNTED];
    let numbers = &mut places[..m];
    task.write_rows(found, numbers, sums)?;
    finish(task, numbers, sums, proposal)
}

// A pull over lists of exactly the places that it writes.
fn pull<K: Kind>(
    d: i64,
    values: &[K],
    relations: &[Relation],
    constants: &[K],
    rows: &[usize],
    workings: &Workings,
    wishes: &[K],
    proposal: &mut [K],
    working: &mut [K],
) -> Result<i64, Refusal>
    requires wished { (shown workings.now).count ≤ length wishes.now }
    requires fit { unfit_values K.size (shown workings.now).count d (map K.coords values.now) ≡ false }
    requires fine { Fine K.size (shown workings.now).count relations.now (map K.coords constants.now) rows.now }
    requires rows { length rows.now ≡ (shown workings.now).m }
    requires proposed { length proposal.old ≡ (shown workings.now).count }
    requires working { length working.old ≡ 24 }
    ensures { let w = shown workings.now in (result, map K.coords proposal.new, map K.coords working.new) ≡ exactly K.size w.count (proposed K.size w.count w.roles w.shares (chosen w.count relations.now (map K.coords constants.now) rows.now) w.table d (map K.coords values.now) (map K.coords wishes.now)) }
{
    let answer = if far_wish(workings.roles(), wishes) {
        Err(Refusal::WishTooFar)
    } else {
        let task = Task {
            d,
            values,
            relations,
            constants,
            rows,
            workings,
            wishes,
        };
        solve(&task, proposal, working)
    };
    clear(working);
    if answer.is_err() {
        clear(proposal);
    }
    answer
}

// Whether a list is short, a number breaks a limit, or the workings are for another count of parameters.
fn unfit_lists<K: Kind>(
    sheet: &Sheet,
    values: &[K],
    relations: &[Relation],
    constants: &[K],
    workings: &Workings,
    wishes: &[K],
    proposal: &[K],
    working: &[K],
) -> bool
    ensures { let s = numbers sheet.now in result ≡ (nat_lt (length wishes.now) s.count || nat_lt (length proposal.now) s.count || nat_lt (length working.now) 24 || unfit K.size s (map K.coords values.now) relations.now (map K.coords constants.now) || not ((shown workings.now).count == s.count)) }
{
    let n = sheet.count();
    wishes.len() < n
        || proposal.len() < n
        || working.len() < WORKING_PLACES
        || unfit(sheet, values, relations, constants)
        || workings.count() != n
}

// The denominator of the proposal, or the refusal; the proposal, and zeros in the working values, are then in their lists.
// The caller lends each list by itself, so they come one by one here and in the two steps before.
pub fn propose<K: Kind>(
    sheet: &Sheet,
    values: &[K],
    relations: &[Relation],
    constants: &[K],
    workings: &Workings,
    wishes: &[K],
    proposal: &mut [K],
    working: &mut [K],
) -> Result<i64, Refusal>
    ensures { (result, map K.coords proposal.new, map K.coords working.new) ≡ pulling K.size (numbers sheet.now) (map K.coords values.now) relations.now (map K.coords constants.now) (shown workings.now) (map K.coords wishes.now) (map K.coords proposal.old) (map K.coords working.old) }
{
    if unfit_lists(
        sheet, values, relations, constants, workings, wishes, proposal, working,
    ) {
        return Err(Refusal::Unfit);
    }
    let n = workings.count();
    let m = workings.m();
    let counted = counted_relations(&relations[..sheet.bound()], workings.roles());
    if counted.m != m {
        return Err(Refusal::Unfit);
    }
    pull(
        sheet.denominator,
        values,
        relations,
        constants,
        &counted.rows[..m],
        workings,
        wishes,
        &mut proposal[..n],
        &mut working[..WORKING_PLACES],
    )
}
