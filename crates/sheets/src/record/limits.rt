ghost use Rattle.std.specs.Prelude.{◌≡◌, ◌*◌, false, map, unsigned_abs};
ghost use Rattle.rules.specs.Sheets.{bad_denominator, bad_coefs, bad_constant, bad_relation, unfit_values, unfit_relations, unfit};
ghost use Rattle.sheets.specs.Shown.{numbers};

use super::Sheet;
use kinds::{Kind, value_above, values_above};
use records::Relation;
use records::limits::{
    MOST_COEFFICIENT, MOST_CONSTANT, MOST_DENOMINATOR, MOST_RELATIONS, MOST_STEPS,
};
use whole::some_above;

// Whether a denominator is out of range.
pub fn bad_denominator(d: i64) -> bool
    ensures { result ≡ bad_denominator d }
{
    d < 1 || d > MOST_DENOMINATOR
}

// How large a numerator over d may be.
fn reach(d: i64) -> u64
    requires { bad_denominator d ≡ false }
    ensures { result ≡ 47560 * unsigned_abs d }
{
    MOST_STEPS * d.unsigned_abs()
}

// Whether one of the first n coefficients is out of range.
pub(crate) fn bad_coefficients(n: usize, coefficients: &[i64]) -> bool
    ensures { result ≡ bad_coefs n coefficients.now }
{
    some_above(coefficients, n, MOST_COEFFICIENT)
}

pub(crate) fn bad_constant<K: Kind>(q: K) -> bool
    ensures { result ≡ bad_constant K.size (K.coords q) }
{
    value_above(q, MOST_CONSTANT)
}

fn bad_relation<K: Kind>(n: usize, relation: &Relation, q: K) -> bool
    ensures { result ≡ bad_relation K.size n relation.now (K.coords q) }
{
    bad_coefficients(n, &relation.coefficients) || bad_constant(q)
}

// Whether the list of values is short for n parameters, or a number of theirs, the denominator d included, breaks its limit.
pub fn unfit_values<K: Kind>(n: usize, d: i64, values: &[K]) -> bool
    ensures { result ≡ unfit_values K.size n d (map K.coords values.now) }
{
    if values.len() < n || bad_denominator(d) {
        return true;
    }
    values_above(&values[..n], reach(d))
}

// Whether a list by relation is short, or a number of a bound relation breaks its limit.
fn unfit_relations<K: Kind>(sheet: &Sheet, relations: &[Relation], constants: &[K]) -> bool
    ensures { result ≡ unfit_relations K.size (numbers sheet.now) relations.now (map K.coords constants.now) }
{
    if relations.len() < MOST_RELATIONS || constants.len() < MOST_RELATIONS {
        return true;
    }
    relations[..sheet.bound]
        .iter()
        .zip(constants)
        .any(|(relation, q)| bad_relation(sheet.count, relation, *q))
}

// Whether a list of the sheet is short, or a number of a kept value or of a bound relation breaks its limit.
pub fn unfit<K: Kind>(sheet: &Sheet, values: &[K], relations: &[Relation], constants: &[K]) -> bool
    ensures { result ≡ unfit K.size (numbers sheet.now) (map K.coords values.now) relations.now (map K.coords constants.now) }
{
    unfit_values(sheet.count, sheet.denominator, values)
        || unfit_relations(sheet, relations, constants)
}
