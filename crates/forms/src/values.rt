// Values read one word at a time, by any form.
ghost use Rattle.words.specs.Reading.{left};
ghost use Rattle.forms.specs.Rows.{OneRead, RowRead};

use super::written::Written;
use std::alloc::Global;
use words::{Fault, Reader};

// The value that the next word writes.
pub fn read_value<V: Written>(reader: &mut Reader<'_>) -> Option<V>
    ensures { OneRead V.form (left reader.old) (left reader.new) result }
{
    let word = reader.next()?;
    V::parse(word)
}

// The values that the next `count` words write.
pub fn read_values<V: Written>(
    heap: Global,
    count: usize,
    reader: &mut Reader<'_>,
) -> Result<Vec<V>, Fault>
    ensures { RowRead V.form count (left reader.old) (left reader.new) result }
{
    let mut values = Vec::new(heap);
    for i in 0..count {
        let value = read_value(reader).ok_or(Fault::Form)?;
        values.push(value)?;
    }
    Ok(values)
}
