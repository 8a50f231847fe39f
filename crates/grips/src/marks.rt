// What a grip writes of the relations.
ghost use Rattle.std.specs.Prelude.{◌≡◌, ◌≤◌, length, pos, if◌then◌else◌};
ghost use Rattle.whole.specs.Tests.{nonzero};
ghost use Rattle.rules.specs.Values.{written};
ghost use Rattle.rules.specs.Gripping.{marked, is_spare};
ghost use Rattle.workings.specs.Chosen.{bare};
ghost use Rattle.workings.specs.Shown.{shown};
ghost use Rattle.grips.specs.Spares.{spare_marks};

use records::{Mark, Relation};
use roles::relation_counts;
use workings::Workings;

// The mark of a relation by whether it counts, and by its row's diagonal number.
fn mark_of(counts: bool, diagonal: u64) -> Mark
    ensures { result ≡ (if counts then (if nonzero (pos diagonal) then Mark.Needed else Mark.Spare) else Mark.Idle) }
{
    match (counts, diagonal) {
        (false, _) => Mark::Idle,
        (true, 0) => Mark::Spare,
        (true, _) => Mark::Needed,
    }
}

// Marks each relation by the workings of its grip.
pub(crate) fn mark_all(relations: &mut [Relation], workings: &Workings)
    ensures { let w = shown workings.now in
        relations.new ≡ marked w.count w.roles (bare w.count relations.old) w.table relations.old }
{
    let roles = workings.roles();
    // the table has a row for each relation that counts, and none for the others
    let mut row = 0;
    for relation in relations.iter_mut() {
        let counts = relation_counts(&relation.coefficients, roles);
        relation.mark = mark_of(counts, workings.diagonal(row));
        if counts {
            row += 1;
        }
    }
}

fn is_spare(mark: Mark) -> bool
    ensures { result ≡ is_spare mark }
{
    matches!(mark, Mark::Spare)
}

// Writes the numbers of the spare relations, and tells how many there are.
pub(crate) fn write_spares(relations: &[Relation], spare: &mut [usize]) -> usize
    requires { length (spare_marks relations.now (length relations.now)) ≤ length spare.old }
    ensures count { result ≡ length (spare_marks relations.now (length relations.now)) }
    ensures list { spare.new ≡ written result (spare_marks relations.now (length relations.now)) spare.old }
{
    // how many spare relations were found so far
    let mut k = 0;
    for (i, relation) in relations.iter().enumerate() {
        if is_spare(relation.mark) {
            spare[k] = i;
            k += 1;
        }
    }
    k
}
