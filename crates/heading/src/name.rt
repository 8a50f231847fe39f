// The names of a sheet's parameters.
ghost use Rattle.std.specs.Prelude.{◌≡◌, false, length, Decides};
ghost use Rattle.words.specs.Reading.{left, starts};
ghost use Rattle.heading.specs.Names.{NameByte, Named, Names, NameRead, Has, texts};

use words::{Reader, Word};

// A sheet has at most so many parameters.
pub(crate) const NAMES: usize = 48;

// Whether the byte may stand in a name.
fn name_byte(b: u8) -> bool
    ensures { Decides result (NameByte b) }
{
    matches!(b as char, 'a'..='z' | '0'..='9')
}

// Whether the bytes are a name.
pub fn is_name(word: &[u8]) -> bool
    ensures { Decides result (Named word.now) }
{
    word.len() <= 8
        && matches!(word.first(), Some(b'a'..=b'z'))
        && word.iter().all(|b| name_byte(*b))
}

// Whether the name is among these.
pub(crate) fn holds(names: &[&[u8]], name: &[u8]) -> bool
    ensures { Decides result (Has (texts names.now) (length names.now) name.now) }
{
    names.contains(&name)
}

// Whether these are 1 to 48 distinct names.
pub fn good_names(names: &[&[u8]]) -> bool
    ensures { Decides result (Names (texts names.now)) }
{
    if names.is_empty() || names.len() > NAMES {
        return false;
    }
    // a name is compared with those before it
    for (i, name) in names.iter().enumerate() {
        if !is_name(name) || holds(&names[..i], name) {
            return false;
        }
    }
    true
}

// The next word, if it is a name: looks ahead before it takes it.
pub(crate) fn next_name<'a>(reader: &mut Reader<'a>) -> Option<&'a [u8]>
    requires { starts reader.old ≡ false }
    ensures read { NameRead (left reader.old) (left reader.new) result }
    ensures later { starts reader.new ≡ false }
{
    let Word::Name(bytes) = reader.peek()? else {
        return None;
    };
    if !is_name(bytes) {
        return None;
    }
    let _ = reader.next();
    Some(bytes)
}
