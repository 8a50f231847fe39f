// Gripping a sheet.
ghost use Rattle.std.specs.Prelude.{◌≡◌, map};
ghost use Rattle.records.specs.Outcomes.{image};
ghost use Rattle.rules.specs.Calls.{grip_answer, marks_after};
ghost use Rattle.sheets.specs.Shown.{numbers};
ghost use Rattle.workings.specs.Shown.{shown};
ghost use Rattle.grips.specs.Shown.{handing_back, shown_take, SparesRightly, SparesTold};

use crate::marks::{mark_all, write_spares};
use crate::token::{Grip, Refused, Unproposed};
use kinds::Kind;
use records::limits::MOST_COUNTED;
use records::{Refusal, Relation, Role};
use sheets::{Sheet, unfit};
use workings::Workings;

// What an accepted grip gives: the grip, its workings, and how many places of the spare list, which is the caller's, were written.
pub struct Gripped {
    pub grip: Grip<Unproposed>,
    pub workings: Workings,
    pub spares: usize,
}

// The workings of a grip, or why there is none.
fn workings_of<K: Kind>(
    sheet: &Sheet,
    values: &[K],
    relations: &[Relation],
    constants: &[K],
    roles: &[Role],
    spare: &[usize],
) -> Result<Workings, Refusal>
    ensures { image shown result ≡ grip_answer K.size (numbers sheet.now) (map K.coords values.now) relations.now (map K.coords constants.now) roles.now spare.now }
{
    let n = sheet.count();
    let bound = sheet.bound();
    if roles.len() < n || spare.len() < MOST_COUNTED || unfit(sheet, values, relations, constants) {
        return Err(Refusal::Unfit);
    }
    Workings::make(&relations[..bound], &roles[..n])
}

impl Grip<Unproposed> {
    // Grips the sheet: marks its relations, and lists the spare ones.
    pub fn take<K: Kind>(
        sheet: Sheet,
        values: &[K],
        relations: &mut [Relation],
        constants: &[K],
        roles: &[Role],
        spare: &mut [usize],
    ) -> Result<Gripped, Refused<Sheet>>
        ensures result { shown_take result ≡ handing_back (numbers sheet) (image (λ w. (numbers sheet, w)) (grip_answer K.size (numbers sheet) (map K.coords values.now) relations.old (map K.coords constants.now) roles.now spare.old)) }
        ensures marks { relations.new ≡ marks_after (grip_answer K.size (numbers sheet) (map K.coords values.now) relations.old (map K.coords constants.now) roles.now spare.old) (numbers sheet) relations.old (map K.coords constants.now) }
        ensures implied { SparesRightly result (numbers sheet) relations.old (map K.coords constants.now) roles.now relations.new }
        ensures spares { SparesTold result (numbers sheet) relations.old (map K.coords constants.now) spare.old spare.new }
    {
        // the sheet goes back with the refusal, and on with the workings: no closure of `map_err` can hold it
        let workings = match workings_of(&sheet, values, relations, constants, roles, spare) {
            Ok(workings) => workings,
            Err(refusal) => {
                return Err(Refused {
                    back: sheet,
                    refusal,
                });
            }
        };
        let bound = sheet.bound();
        mark_all(&mut relations[..bound], &workings);
        let spares = write_spares(&relations[..bound], spare);
        Ok(Gripped {
            grip: Grip {
                sheet,
                state: Unproposed {},
            },
            workings,
            spares,
        })
    }
}
