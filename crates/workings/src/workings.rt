ghost use Rattle.std.specs.Prelude.{◌≡◌, ℕ, ◌+◌, ◌<◌, ◌≤◌, true, pos, ◌≤ℤ◌, unsigned_abs};
ghost use Rattle.linear.specs.Elimination.{table_limit};
ghost use Rattle.rules.specs.Gripping.{is_loose, role};
ghost use Rattle.table.specs.Tables.{cell};
ghost use Rattle.whole.specs.Lists.{at};

use records::Role;
use table::Table;

// What a grip hands to each pull: the finished table of the m relations that count, and for each of `count` parameters its
// role and its v(s), which is 0 where it is not loose. Only a grip makes workings, so what the ghost fields say holds of all
// there are.
// The two lists stand in the first places of arrays: workings are plain data that may be copied, as no list with a length of its
// own may.
#[derive(Clone, Copy)]
pub struct Workings {
    pub(crate) table: Table,
    pub(crate) roles: [Role; 48],
    pub(crate) shares: [i64; 48],
    pub(crate) m: usize,
    pub(crate) count: usize,
    // at most 12 relations count
    ghost few: { m ≤ 12 },
    // a sheet has at most 48 parameters
    ghost parameters: { count ≤ 48 },
    // no number of the table is beyond the limit
    ghost within: { (i j : ℕ) → i < m → j < m + m → unsigned_abs (cell table i j) ≤ table_limit },
    // no diagonal number is below 0
    ghost upright: { (i : ℕ) → i < m → pos 0 ≤ℤ cell table i i },
    // v(s) is from 1 to 12 where s is loose
    ghost low: { (s : ℕ) → s < count → is_loose (role roles s) ≡ true → pos 1 ≤ℤ at shares s },
    ghost high: { (s : ℕ) → s < count → unsigned_abs (at shares s) ≤ 12 },
}
