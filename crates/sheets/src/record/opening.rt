ghost use Rattle.std.specs.Prelude.{◌≡◌, map, length};
ghost use Rattle.records.specs.Outcomes.{image};
ghost use Rattle.rules.specs.Values.{zeros};
ghost use Rattle.rules.specs.Calls.{opening};
ghost use Rattle.sheets.specs.Shown.{numbers};

use super::Sheet;
use kinds::Kind;
use records::Refusal;
use records::limits::MOST_PARAMETERS;

// Sets all values to zero.
pub fn clear<K: Kind>(values: &mut [K])
    ensures { map K.coords values.new ≡ zeros (length values.old) K.size }
{
    values.fill_with(|| K::zero());
}

impl Sheet {
    // Opens a sheet of `count` parameters: all values zero over 1, and nothing bound.
    pub fn open<K: Kind>(count: usize, values: &mut [K]) -> Result<Sheet, Refusal>
        ensures { (image numbers result, map K.coords values.new) ≡ opening K.size count (map K.coords values.old) }
    {
        if values.len() < count.min(MOST_PARAMETERS) {
            return Err(Refusal::Unfit);
        }
        if count < 1 || count > MOST_PARAMETERS {
            return Err(Refusal::Count);
        }
        clear(&mut values[..count]);
        Ok(Sheet {
            count,
            bound: 0,
            denominator: 1,
        })
    }
}
