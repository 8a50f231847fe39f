// What stands on a line behind its verb.
ghost use Rattle.std.specs.Prelude.{◌≡◌, ◌≢◌, [], MatchResult, IfErr};
ghost use Rattle.std.specs.Result.{result_ok};
ghost use Rattle.words.specs.Reading.{left};
ghost use Rattle.words.specs.declared.fault.Fault.TheVariants.{Form};
ghost use Rattle.forms.specs.Rows.{OneRead, RowRead};
ghost use Rattle.lines.specs.Lines.{ReadBy};

use super::line::Line;
use cells::Verb;
use forms::{Written, read_value, read_values};
use std::alloc::Global;
use words::{Fault, Reader};

// The words that are still to be read, for a sheet of `count` names.
#[derive(Drop)]
pub(crate) struct Rest<'a> {
    pub(crate) heap: Global,
    pub(crate) count: usize,
    pub(crate) reader: Reader<'a>,
}

impl Rest<'_> {
    // The value that the next word writes.
    fn one<T: Written>(&mut self) -> Result<T, Fault>
        ensures stays { self.new.count ≡ self.old.count }
        ensures read { OneRead T.form (left self.old.reader) (left self.new.reader) (result_ok result) }
        ensures form { IfErr result (λ e. e ≡ Form) }
    {
        read_value(&mut self.reader).ok_or(Fault::Form)
    }

    // The values that the next words write, one to each name.
    fn row<T: Written>(&mut self) -> Result<Vec<T>, Fault>
        ensures stays { self.new.count ≡ self.old.count }
        ensures read { RowRead T.form self.old.count (left self.old.reader) (left self.new.reader) result }
    {
        read_values(self.heap, self.count, &mut self.reader)
    }

    // Refuses words that are left over.
    fn end(&self) -> Result<(), Fault>
        ensures read { MatchResult result (λ _. left self.now.reader ≡ []) (λ _. left self.now.reader ≢ []) }
        ensures form { IfErr result (λ e. e ≡ Form) }
    {
        if !self.reader.at_end() {
            return Err(Fault::Form);
        }
        Ok(())
    }

    // The line that these words say behind a verb.
    pub(crate) fn line<V: Written>(mut self, verb: Verb) -> Result<Line<V>, Fault>
        ensures { ReadBy V.form self.entry.count verb (left self.entry.reader) result }
    {
        let line = match verb {
            Verb::Bind => Line::Bind(self.row()?, self.one()?),
            Verb::Unbind => Line::Unbind(self.one()?),
            Verb::Grip => Line::Grip(self.row()?),
            Verb::Pull => Line::Pull(self.row()?),
            Verb::Keep => Line::Keep,
            Verb::Drop => Line::Drop,
        };
        self.end()?;
        Ok(line)
    }
}
