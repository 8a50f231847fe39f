ghost use Rattle.std.specs.Prelude.{◌≡◌, ℕ, ◌≤◌, false, not, map, length};
ghost use Rattle.whole.specs.Lists.{at};
ghost use Rattle.whole.specs.Tests.{any, nonzero};
ghost use Rattle.rules.specs.Sheets.{bond, bad_coefs, bad_constant, unfit_values};
ghost use Rattle.rules.specs.Calls.{untrue, bind_answer, binding, unbinding, recorded};
ghost use Rattle.sheets.specs.Gap.{gap_at};
ghost use Rattle.sheets.specs.Shown.{numbers};

use super::Sheet;
use super::limits::{bad_coefficients, bad_constant, unfit};
use kinds::{Kind, combine, value_above};
use records::limits::{MOST_PARAMETERS, MOST_RELATIONS};
use records::{Mark, Refusal, Relation};

// The sum of coefficient × value over the first n parameters, less d × q.
fn gap<K: Kind>(n: usize, d: i64, values: &[K], coefficients: &[i64], q: K) -> K
    requires few { n ≤ 48 }
    requires room { n ≤ length values.now }
    requires long { n ≤ length coefficients.now }
    requires small { bad_coefs n coefficients.now ≡ false }
    requires values { unfit_values K.size n d (map K.coords values.now) ≡ false }
    requires constant { bad_constant K.size (K.coords q) ≡ false }
    ensures { (c : ℕ) → at (K.coords result) c ≡ gap_at n d (map K.coords values.now) coefficients.now (K.coords q) c }
{
    let mut sum = combine(K::zero(), -d, q);
    for (k, v) in coefficients[..n].iter().zip(values) {
        sum = combine(sum, *k, *v);
    }
    sum
}

// Whether the relation does not hold for the values over d.
fn untrue<K: Kind>(n: usize, d: i64, values: &[K], coefficients: &[i64], q: K) -> bool
    requires few { n ≤ 48 }
    requires room { n ≤ length values.now }
    requires long { n ≤ length coefficients.now }
    requires small { bad_coefs n coefficients.now ≡ false }
    requires values { unfit_values K.size n d (map K.coords values.now) ≡ false }
    requires constant { bad_constant K.size (K.coords q) ≡ false }
    ensures { result ≡ untrue K.size n d (map K.coords values.now) (bond n coefficients.now (K.coords q)) }
{
    value_above(gap(n, d, values, coefficients, q), 0)
}

// Whether all of the first n coefficients are 0; one that the list lacks is 0.
fn all_zero(n: usize, coefficients: &[i64]) -> bool
    ensures { result ≡ not (any n (λ p. nonzero (at coefficients.now p))) }
{
    !coefficients.iter().take(n).any(|k| *k != 0)
}

// The record of a relation with these coefficients.
fn record_of(coefficients: &[i64]) -> Relation
    requires { length coefficients.now ≤ 48 }
    ensures { result ≡ recorded (length coefficients.now) coefficients.now }
{
    let mut row = [0; MOST_PARAMETERS];
    let n = coefficients.len();
    row[..n].copy_from_slice(coefficients);
    Relation {
        coefficients: row,
        mark: Mark::Idle,
    }
}

impl Sheet {
    // Why a relation may not be bound.
    fn bind_answer<K: Kind>(
        &self,
        values: &[K],
        relations: &[Relation],
        constants: &[K],
        coefficients: &[i64],
        q: K,
    ) -> Result<(), Refusal>
        ensures { result ≡ bind_answer K.size (numbers self.now) (map K.coords values.now) relations.now (map K.coords constants.now) coefficients.now (K.coords q) }
    {
        if coefficients.len() < self.count || unfit(self, values, relations, constants) {
            return Err(Refusal::Unfit);
        }
        if self.bound >= MOST_RELATIONS {
            return Err(Refusal::Full);
        }
        if all_zero(self.count, coefficients) || bad_coefficients(self.count, coefficients) {
            return Err(Refusal::Coefficients);
        }
        if bad_constant(q) {
            return Err(Refusal::Constant);
        }
        if untrue(self.count, self.denominator, values, coefficients, q) {
            return Err(Refusal::Untrue);
        }
        Ok(())
    }

    // Binds a relation that holds now, after those that are bound.
    pub fn bind<K: Kind>(
        &mut self,
        values: &[K],
        relations: &mut [Relation],
        constants: &mut [K],
        coefficients: &[i64],
        q: K,
    ) -> Result<(), Refusal>
        ensures { (result, numbers self.new, relations.new, map K.coords constants.new) ≡ binding K.size (numbers self.old) (map K.coords values.now) relations.old (map K.coords constants.old) coefficients.now (K.coords q) }
    {
        self.bind_answer(values, relations, constants, coefficients, q)?;
        let b = self.bound;
        relations[b] = record_of(&coefficients[..self.count]);
        constants[b] = q;
        self.bound = b + 1;
        Ok(())
    }

    // Removes a relation by its number; the later ones move down by one.
    pub fn unbind<K: Kind>(
        &mut self,
        values: &[K],
        relations: &mut [Relation],
        constants: &mut [K],
        number: i64,
    ) -> Result<(), Refusal>
        ensures { (result, numbers self.new, relations.new, map K.coords constants.new) ≡ unbinding K.size (numbers self.old) (map K.coords values.now) relations.old (map K.coords constants.old) number }
    {
        if unfit(self, values, relations, constants) {
            return Err(Refusal::Unfit);
        }
        let b = self.bound;
        if number < 0 || number >= b as i64 {
            return Err(Refusal::NoRelation);
        }
        let i = number as usize;
        relations.copy_within(i + 1..b, i);
        constants.copy_within(i + 1..b, i);
        self.bound = b - 1;
        Ok(())
    }
}
