// What a pull reads, once its wishes are on the sheet.
ghost use Rattle.std.specs.Prelude.{◌≡◌, ◌≤◌, false, map, length};
ghost use Rattle.rules.specs.Sheets.{unfit_values};
ghost use Rattle.rules.specs.Pulling.{far_wish};
ghost use Rattle.workings.specs.Shown.{shown};
ghost use Rattle.residuals.specs.Rows.{Fine};

use kinds::Kind;
use records::Relation;
use workings::Workings;

// The sheet's values over d, its relations and their constants, the numbers of the relations that count, the workings of the
// grip, and the wishes. Who makes one has tested the lists, so what the ghost fields say holds of all there are.
// The lists that a pull writes stand beside it, since they are written while it is read.
#[derive(Drop)]
pub struct Task<'a, K: Kind> {
    pub d: i64,
    pub values: &'a [K],
    pub relations: &'a [Relation],
    pub constants: &'a [K],
    pub rows: &'a [usize],
    pub workings: &'a Workings,
    pub wishes: &'a [K],
    // each parameter has a value, and neither d nor a value is out of its limits
    ghost fit: { unfit_values K.size (shown workings.now).count d (map K.coords values.now) ≡ false },
    // each parameter has a wish
    ghost wished: { (shown workings.now).count ≤ length wishes.now },
    // no wish that is read is off the sheet
    ghost near: { far_wish K.size (shown workings.now).count (shown workings.now).roles (map K.coords wishes.now) ≡ false },
    // the table has a row for each relation that counts
    ghost many: { length rows.now ≡ (shown workings.now).m },
    // the relations that count are in the lists, and none of them has a number out of range
    ghost fine: { Fine K.size (shown workings.now).count relations.now (map K.coords constants.now) rows.now },
}
