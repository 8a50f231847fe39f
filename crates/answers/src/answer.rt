// The line for one answer, as bytes; want of memory is told apart, which `Display` does not.
ghost use Rattle.std.specs.Prelude.{◌≡◌, ◌++◌, codes};
ghost use Rattle.words.specs.Faults.{Done};
ghost use Rattle.words.specs.Words.{spaced};
ghost use Rattle.calls.specs.Shown.{given_of, reply_of};
ghost use Rattle.answers.specs.Texts.{given_words, answer_text};

use crate::rows::{put_counts, put_values};
use crate::value::put_count;
use calls::{Answer, Given};
use forms::append_bytes;
use kinds::Kind;
use words::{Fault, append_number};

// Appends what an accepted call gave back, each number and each value behind a space.
fn put_given<K: Kind>(given: &Given<K>, out: &mut Vec<u8>) -> Result<(), Fault>
    ensures { Done result (out.new.items ≡ out.old.items ++ spaced (given_words (given_of K.coords given.now))) }
{
    match given {
        Given::Nothing => Ok(()),
        Given::Spares(numbers) => put_counts(numbers.as_slice(), out),
        Given::Placing(denominator, numerators) => {
            append_bytes(b" ", out)?;
            append_number(*denominator, out)?;
            put_values(numerators.as_slice(), out)
        }
    }
}

// Appends the line for an answer: `ok` and what was given back, or `no` and the number of the refusal.
pub fn put_answer<K: Kind>(answer: &Answer<K>, out: &mut Vec<u8>) -> Result<(), Fault>
    ensures { Done result (out.new.items ≡ out.old.items ++ answer_text (reply_of K.coords answer.now)) }
{
    match answer {
        Ok(given) => {
            append_bytes(b"ok", out)?;
            put_given(given, out)?;
        }
        Err(refusal) => {
            append_bytes(b"no ", out)?;
            put_count(refusal.number().into(), out)?;
        }
    }
    append_bytes(b"\n", out)
}
