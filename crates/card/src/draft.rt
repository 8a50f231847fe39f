// A line that is being written.
ghost use Rattle.std.specs.Prelude.{◌≡◌, length};
ghost use Rattle.forms.specs.Rows.{Each};
ghost use Rattle.lines.specs.Lines.{said, verb_of, Values};
ghost use Rattle.card.specs.Writes.{PutWords, OneWord};

use cells::Verb;
use forms::{Written, append_bytes};
use lines::Line;
use words::Fault;

// The call that the line asks for. No `From`: both types are of crates below.
pub(crate) fn verb_of<V: Written>(line: &Line<V>) -> Verb
    ensures { result ≡ verb_of (said line.now) }
{
    match line {
        Line::Bind(_, _) => Verb::Bind,
        Line::Unbind(_) => Verb::Unbind,
        Line::Grip(_) => Verb::Grip,
        Line::Pull(_) => Verb::Pull,
        Line::Keep => Verb::Keep,
        Line::Drop => Verb::Drop,
    }
}

// The bytes written so far, for a sheet of `count` names.
#[derive(Drop)]
pub(crate) struct Draft {
    pub(crate) count: usize,
    pub(crate) text: Vec<u8>,
}

impl Draft {
    // Appends a space and the value's word.
    fn put_one<V: Written>(&mut self, value: V) -> Result<(), Fault>
        ensures stays { self.new.count ≡ self.old.count }
        ensures put { PutWords (OneWord V.form value) self.old.text.items self.new.text.items result }
    {
        append_bytes(b" ", &mut self.text)?;
        value.put(&mut self.text)
    }

    // Appends the words of a list that has one value to a name, each behind a space.
    fn put_row<V: Written>(&mut self, values: &[V]) -> Result<(), Fault>
        ensures stays { self.new.count ≡ self.old.count }
        ensures put { PutWords (λ ws. (length values.now ≡ self.old.count) × Each V.form ws values.now) self.old.text.items self.new.text.items result }
    {
        if values.len() != self.count {
            return Err(Fault::Form);
        }
        for value in values {
            self.put_one(*value)?;
        }
        Ok(())
    }

    // Appends the words of the line's values.
    pub(crate) fn put_rest<V: Written>(&mut self, line: &Line<V>) -> Result<(), Fault>
        ensures { PutWords (λ ws. Values V.form self.old.count ws (said line.now)) self.old.text.items self.new.text.items result }
    {
        match line {
            Line::Bind(coefficients, constant) => {
                self.put_row(coefficients.as_slice())?;
                self.put_one(*constant)
            }
            Line::Unbind(number) => self.put_one(*number),
            Line::Grip(cells) => self.put_row(cells.as_slice()),
            Line::Pull(wishes) => self.put_row(wishes.as_slice()),
            Line::Keep | Line::Drop => Ok(()),
        }
    }
}
