// The words for the kinds of value.
ghost use Rattle.heading.specs.Headings.{kind_word, kind_laws};

use forms::Keyword;

// The kind of value that a card's sheet has.
#[derive(Clone, Copy)]
pub enum KindWord {
    Length,
    Point,
}

impl Keyword for KindWord {
    ghost spelled = { kind_word };

    ghost laws = { kind_laws };

    fn named(bytes: &[u8]) -> Option<KindWord> {
        match *bytes.first()? as char {
            'l' if bytes == b"length".as_slice() => Some(KindWord::Length),
            'p' if bytes == b"point".as_slice() => Some(KindWord::Point),
            _ => None,
        }
    }

    fn spelling(self) -> &'static [u8] {
        match self {
            KindWord::Length => b"length",
            KindWord::Point => b"point",
        }
    }
}
