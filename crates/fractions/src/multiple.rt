// The multipliers of the needed rows, over one common multiple.
ghost use Rattle.std.specs.Prelude.{◌≡◌, ◌≤◌, map, length, Ok, nat_lt};
ghost use Rattle.records.specs.declared.refusal.Refusal.TheVariants.{TooFine};
ghost use Rattle.records.specs.Outcomes.{guard, image};
ghost use Rattle.linear.specs.Elimination.{table_limit};
ghost use Rattle.fractions.specs.Multiple.{taken_up, multiple, strays, multiplied, multiplying};

use crate::steps::add;
use kinds::{Kind, value_above};
use records::Refusal;
use records::limits::{MOST_MULTIPLIER, TABLE_LIMIT};
use whole::common_multiple;

// A common multiple ℓ of rows' numbers, above 0 and within the limit of the table.
#[derive(Clone, Copy)]
pub struct Multiple {
    pub l: u64,
    ghost some: { 1 ≤ l },
    ghost within: { l ≤ table_limit },
}

impl Multiple {
    // The least common multiple of ℓ and a needed row's number, if it is within the limit; a spare row has 0 and leaves ℓ.
    fn take_up(self, p: u64) -> Result<Multiple, Refusal>
        ensures { image (λ m. m.l) result ≡ guard (nat_lt table_limit (taken_up self.l p)) TooFine (Ok (taken_up self.l p)) }
    {
        if p == 0 {
            return Ok(self);
        }
        let l = common_multiple(self.l, p, TABLE_LIMIT).ok_or(Refusal::TooFine)?;
        Ok(Multiple { l })
    }

    // The least common multiple of the needed rows' numbers, taken up one at a time.
    pub fn of(numbers: &[u64]) -> Result<Multiple, Refusal>
        ensures { image (λ m. m.l) result ≡ guard (nat_lt table_limit (multiple (length numbers.now) numbers.now)) TooFine (Ok (multiple (length numbers.now) numbers.now)) }
    {
        let mut all = Multiple { l: 1 };
        for p in numbers {
            all = all.take_up(*p)?;
        }
        Ok(all)
    }

    // A needed row's multiplier: ℓ ÷ p times what the row carries, if both are within their limits. A spare row stays as it is.
    fn multiplier<K: Kind>(self, p: u64, g: K) -> Result<K, Refusal>
        ensures { image K.coords result ≡ guard (strays K.size self.l p (K.coords g)) TooFine (Ok (multiplied K.size self.l p (K.coords g))) }
    {
        if p == 0 {
            return Ok(g);
        }
        if value_above(g, TABLE_LIMIT) {
            return Err(Refusal::TooFine);
        }
        let product = add(K::zero(), (self.l / p) as i64, g);
        if value_above(product, MOST_MULTIPLIER) {
            return Err(Refusal::TooFine);
        }
        Ok(product)
    }

    // Turns what each needed row carries into its multiplier, up to the first row that is out of its limits.
    pub fn multiply<K: Kind>(self, numbers: &[u64], sums: &mut [K]) -> Result<(), Refusal>
        ensures { (result, map K.coords sums.new) ≡ multiplying K.size self.l numbers.now (map K.coords sums.old) }
    {
        if numbers.len() != sums.len() {
            return Err(Refusal::Unfit);
        }
        // by number: of a list that is written through a zip, a proof does not see what it becomes
        for (i, sum) in sums.iter_mut().enumerate() {
            *sum = self.multiplier(numbers[i], *sum)?;
        }
        Ok(())
    }
}
