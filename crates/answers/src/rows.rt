// Rows of numbers and values, each behind a space.
ghost use Rattle.std.specs.Prelude.{◌≡◌, ◌++◌, map, decimal};
ghost use Rattle.words.specs.Faults.{Done};
ghost use Rattle.words.specs.Words.{spaced};
ghost use Rattle.answers.specs.Texts.{value_text};

use crate::value::{put_count, put_value};
use forms::append_bytes;
use kinds::Kind;
use words::Fault;

// Appends the numbers.
pub(crate) fn put_counts(numbers: &[usize], out: &mut Vec<u8>) -> Result<(), Fault>
    ensures { Done result (out.new.items ≡ out.old.items ++ spaced (map decimal numbers.now)) }
{
    for number in numbers {
        append_bytes(b" ", out)?;
        put_count(*number, out)?;
    }
    Ok(())
}

// Appends the values.
pub(crate) fn put_values<K: Kind>(values: &[K], out: &mut Vec<u8>) -> Result<(), Fault>
    ensures { Done result (out.new.items ≡ out.old.items ++ spaced (map (λ v. value_text (K.coords v)) values.now)) }
{
    for value in values {
        append_bytes(b" ", out)?;
        put_value(*value, out)?;
    }
    Ok(())
}
