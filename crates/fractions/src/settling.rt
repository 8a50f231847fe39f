// A placing in its lowest terms, and its limits.
ghost use Rattle.std.specs.Prelude.{◌≡◌, map, length};
ghost use Rattle.rules.specs.Pulling.{joined};
ghost use Rattle.fractions.specs.Steps.{divisor_from};
ghost use Rattle.fractions.specs.Settling.{all_divided, settling};

use crate::multiple::Multiple;
use crate::steps::{divided, divisor_with};
use kinds::Kind;
use records::Refusal;
use records::limits::MOST_DENOMINATOR;
use sheets::{bad_denominator, unfit_values};

// The greatest common divisor of e and all coordinates of the numerators.
fn divisor_over<K: Kind>(e: u64, proposal: &[K]) -> u64
    ensures { result ≡ divisor_from e (joined (map K.coords proposal.now)) }
{
    proposal.iter().fold(e, |g, v| divisor_with(g, *v))
}

// Divides the numerators by g.
fn divide_all<K: Kind>(g: i64, proposal: &mut [K])
    ensures { map K.coords proposal.new ≡ all_divided K.size (map K.coords proposal.old) g }
{
    for v in proposal.iter_mut() {
        *v = divided(*v, g);
    }
}

impl Multiple {
    // The denominator in lowest terms of the numerators over ℓ × d, which are then in lowest terms too.
    pub fn settle<K: Kind>(self, d: i64, proposal: &mut [K]) -> Result<i64, Refusal>
        ensures { (result, map K.coords proposal.new) ≡ settling K.size (length proposal.old) self.l d (map K.coords proposal.old) }
    {
        if bad_denominator(d) {
            return Err(Refusal::Unfit);
        }
        let e = self.l * d.unsigned_abs();
        let h = divisor_over(e, proposal);
        let over = (e / h) as i64;
        if over > MOST_DENOMINATOR {
            return Err(Refusal::TooFine);
        }
        divide_all(h as i64, proposal);
        if unfit_values(proposal.len(), over, proposal) {
            return Err(Refusal::OffSheet);
        }
        Ok(over)
    }
}
