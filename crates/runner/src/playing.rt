// The lines after the first, played on a sheet.
ghost use Rattle.std.specs.Prelude.{◌≡◌, ◌++◌, ◌<◌, ◌≤◌, map};
ghost use Rattle.words.specs.Faults.{Done};
ghost use Rattle.words.specs.Lines.{lines, uncut, joined};
ghost use Rattle.calls.specs.Shown.{reply_of};
ghost use Rattle.answers.specs.Texts.{answer_text};
ghost use Rattle.runner.specs.Cards.{answered, Appended, Played, PlayedOn};

use answers::put_answer;
use calls::Answer;
use forms::Written;
use heading::KindWord;
use kinds::{Kind, Length, Point};
use records::Refusal;
use scripts::read_script;
use series::run;
use std::alloc::Global;
use words::{Fault, Lines};

// Appends a line for each of a card's lines: the next answer where the line made a call, and the refusal of its form where it made none.
fn put_answers<K: Kind>(
    made: &[bool],
    answers: &[Answer<K>],
    out: &mut Vec<u8>,
) -> Result<(), Fault>
    ensures { Done result (out.new.items ≡ out.old.items ++ joined (map answer_text (answered made.now (map (reply_of K.coords) answers.now)))) }
{
    let mut answers = answers.iter();
    for made in made {
        match if *made { answers.next() } else { None } {
            Some(answer) => put_answer(answer, out)?,
            None => put_answer::<K>(&Err(Refusal::Form), out)?,
        }
    }
    Ok(())
}

// Appends the answers to the lines after the first, for a sheet of `count` values of one kind.
fn play<V: Written + Kind + Drop>(
    heap: Global,
    count: usize,
    rest: &mut Lines<'_>,
    out: &mut Vec<u8>,
) -> Result<(), Fault>
    ensures { Appended (Played V.form V.size V.coords count (lines (uncut rest.old))) out.old.items out.new.items result }
{
    let script = read_script::<V>(heap, count, rest)?;
    // a sheet of 1 to 48 parameters is opened wherever there is memory for it
    let ran = run(heap, count, script.calls.as_slice()).map_err(|_| Fault::Memory)?;
    put_answers(script.made.as_slice(), ran.answers.as_slice(), out)
}

// The same for the kind that the first line names. It does so when the program runs, so a match picks the type.
pub(crate) fn play_on(
    heap: Global,
    kind: KindWord,
    count: usize,
    rest: &mut Lines<'_>,
    out: &mut Vec<u8>,
) -> Result<(), Fault>
    ensures { Appended (PlayedOn kind count (lines (uncut rest.old))) out.old.items out.new.items result }
{
    match kind {
        KindWord::Length => play::<Length>(heap, count, rest, out),
        KindWord::Point => play::<Point>(heap, count, rest, out),
    }
}
