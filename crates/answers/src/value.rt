// Numbers and values as a card prints them.
ghost use Rattle.std.specs.Prelude.{◌≡◌, ◌++◌, decimal};
ghost use Rattle.words.specs.Faults.{Done};
ghost use Rattle.answers.specs.Texts.{value_text};

use forms::append_bytes;
use itoa::Buffer;
use kinds::{Kind, read};
use words::{Fault, append_number};

// Appends a whole number that is not below 0.
pub(crate) fn put_count(n: usize, out: &mut Vec<u8>) -> Result<(), Fault>
    ensures { Done result (out.new.items ≡ out.old.items ++ decimal n) }
{
    let mut digits = Buffer::new();
    out.extend_from_slice(digits.format(n).as_bytes())?;
    Ok(())
}

// Appends a value's coordinates, joined by commas. A kind tells its coordinates by number alone.
pub(crate) fn put_value<K: Kind>(v: K, out: &mut Vec<u8>) -> Result<(), Fault>
    ensures { Done result (out.new.items ≡ out.old.items ++ value_text (K.coords v)) }
{
    for k in 0..K::count() {
        if k > 0 {
            append_bytes(b",", out)?;
        }
        append_number(read(v, k), out)?;
    }
    Ok(())
}
