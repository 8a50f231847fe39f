ghost use Rattle.std.specs.Prelude.{◌≡◌, ◌++◌, ℕ, List};
ghost use Rattle.words.specs.Faults.{Done};
ghost use Rattle.words.specs.Numbers.{Exactly};
ghost use Rattle.words.specs.Sorts.{Calls};
ghost use Rattle.forms.specs.Keywords.{Keywords, KeywordRead, NamedBy};

use super::append::append_bytes;
use words::{Fault, Reader, Word, line_text};

// Values that a line's first word names.
pub trait Keyword: Copy {
    // the word that names the value
    ghost spelled: { Self → List ℕ };

    // The value that the bytes name.
    fn named(bytes: &[u8]) -> Option<Self>
        ensures { Exactly (NamedBy spelled) bytes.now result };

    // The bytes that name the value.
    fn spelling(self) -> &'static [u8]
        ensures { result.now ≡ spelled self };

    ghost laws: { Keywords spelled };

    // The value that a line's first word names.
    final fn parse(word: Word<'_>) -> Option<Self>
        ensures { Exactly (Calls spelled) word.entry result }
    {
        match word {
            Word::Verb(bytes) => Self::named(bytes),
            _ => None,
        }
    }

    // Appends the word that names the value.
    final fn put(self, out: &mut Vec<u8>) -> Result<(), Fault>
        ensures { Done result (out.new.items ≡ out.old.items ++ spelled self) }
    {
        append_bytes(self.spelling(), out)
    }
}

// The value that a line's first word names, and a reader of the words behind it.
pub fn read_keyword<'a, K: Keyword>(line: &'a [u8]) -> Option<(K, Reader<'a>)>
    ensures { KeywordRead K.spelled line.now result }
{
    let text = line_text(line)?;
    let mut reader = Reader::new(text);
    let word = reader.next()?;
    let value = K::parse(word)?;
    Some((value, reader))
}
