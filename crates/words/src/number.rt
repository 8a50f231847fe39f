// Whole numbers as a card writes them.
ghost use Rattle.std.specs.Prelude.{◌≡◌, ◌++◌};
ghost use Rattle.std.specs.Fmt.{signed_decimal};
ghost use Rattle.words.specs.Numbers.{Number, Plain, Below, Exactly};
ghost use Rattle.words.specs.Faults.{Done};

use super::fault::Fault;
use itoa::Buffer;

// A number has at most so many digits.
const DIGITS: usize = 8;

// The number that 1 to 8 digits write. Digit by digit, since the library's `parse` takes a plus and leading zeros too.
fn parse_digits(digits: &[u8]) -> Option<u32>
    ensures { Exactly Plain digits.now result }
{
    if digits.is_empty() || digits.len() > DIGITS {
        return None;
    }
    if digits[0] == b'0' && digits.len() > 1 {
        return None;
    }
    let mut n: u32 = 0;
    for d in digits {
        if !d.is_ascii_digit() {
            return None;
        }
        n = n * 10 + u32::from(*d - b'0');
    }
    Some(n)
}

// The number that these digits write behind a minus.
fn parse_below(digits: &[u8]) -> Option<i64>
    ensures { Exactly Below digits.now result }
{
    parse_digits(digits)
        .filter(|n| *n != 0)
        .map(|n| -i64::from(n))
}

// The number that a word writes.
pub fn parse_number(word: &[u8]) -> Option<i64>
    ensures { Exactly Number word.now result }
{
    match word {
        [b'-', digits @ ..] => parse_below(digits),
        _ => parse_digits(word).map(i64::from),
    }
}

// Appends a number in decimal digits, behind a minus if it is below 0.
pub fn append_number(n: i64, out: &mut Vec<u8>) -> Result<(), Fault>
    ensures { Done result (out.new.items ≡ out.old.items ++ signed_decimal n) }
{
    let mut digits = Buffer::new();
    out.extend_from_slice(digits.format(n).as_bytes())?;
    Ok(())
}
