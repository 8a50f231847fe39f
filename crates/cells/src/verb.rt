// The names of the calls.
ghost use Rattle.cells.specs.Verbs.{verb_word, verb_laws};

use forms::Keyword;

// What a line asks for.
#[derive(Clone, Copy)]
pub enum Verb {
    Bind,
    Unbind,
    Grip,
    Pull,
    Keep,
    Drop,
}

impl Keyword for Verb {
    ghost spelled = { verb_word };

    ghost laws = { verb_laws };

    fn named(bytes: &[u8]) -> Option<Verb> {
        match *bytes.first()? as char {
            'b' if bytes == b"bind".as_slice() => Some(Verb::Bind),
            'u' if bytes == b"unbind".as_slice() => Some(Verb::Unbind),
            'g' if bytes == b"grip".as_slice() => Some(Verb::Grip),
            'p' if bytes == b"pull".as_slice() => Some(Verb::Pull),
            'k' if bytes == b"keep".as_slice() => Some(Verb::Keep),
            'd' if bytes == b"drop".as_slice() => Some(Verb::Drop),
            _ => None,
        }
    }

    fn spelling(self) -> &'static [u8] {
        match self {
            Verb::Bind => b"bind",
            Verb::Unbind => b"unbind",
            Verb::Grip => b"grip",
            Verb::Pull => b"pull",
            Verb::Keep => b"keep",
            Verb::Drop => b"drop",
        }
    }
}
