// Words: parts of a line, with one space between each two.
ghost use Rattle.std.specs.Prelude.{◌≡◌, ◌==◌, true, [], position, MatchBool, ◌≢◌};
ghost use Rattle.words.specs.Words.{pieces};
ghost use Rattle.words.specs.Sorts.{text_of, sort, sort_of};
ghost use Rattle.words.specs.Reading.{Took, TookWord, Next, First, left, starts};

// The place of the first such byte of a text.
pub fn place_of(byte: u8, text: &[u8]) -> Option<usize>
    ensures { result ≡ position (λ b. b == byte) text.now }
{
    text.iter().position(|b| *b == byte)
}

// How far a reader has come.
#[derive(Clone, Copy)]
pub struct Place<'a> {
    // the words that are still to be read; none once the last was read
    rest: Option<&'a [u8]>,
    // whether the next of them is the line's first
    first: bool,
}

// A word of a line. Each case holds the part of the card that the word was read from.
#[derive(Clone, Copy)]
pub enum Word<'a> {
    // the line's first word, if a letter begins it
    Verb(&'a [u8]),
    // any other word that a letter begins
    Name(&'a [u8]),
    // a word that a digit or a minus begins
    Number(&'a [u8]),
    // any other word: at best a mark of a grip's cell
    Cell(&'a [u8]),
}

// The word that these bytes are, by the first of them and by whether the word is the line's first.
fn sort_word<'a>(bytes: &'a [u8], first: bool) -> Word<'a>
    ensures same { text_of result ≡ bytes.now }
    ensures sorted { sort result ≡ sort_of first bytes.now }
{
    if bytes.is_empty() {
        return Word::Cell(bytes);
    }
    match bytes[0] as char {
        'a'..='z' if first => Word::Verb(bytes),
        'a'..='z' => Word::Name(bytes),
        '-' | '0'..='9' => Word::Number(bytes),
        _ => Word::Cell(bytes),
    }
}

impl<'a> Place<'a> {
    // The next word's bytes, and the place behind them.
    fn next_bytes(&mut self) -> Option<&'a [u8]>
        ensures { Took self.old self.new result }
    {
        let rest = self.rest?;
        self.first = false;
        match place_of(b' ', rest) {
            Some(end) => {
                self.rest = Some(&rest[end + 1..]);
                Some(&rest[..end])
            }
            None => {
                self.rest = None;
                Some(rest)
            }
        }
    }

    // The next word, and the place behind it.
    fn next_word(&mut self) -> Option<Word<'a>>
        ensures { TookWord self.old self.new result }
    {
        let first = self.first;
        let bytes = self.next_bytes()?;
        Some(sort_word(bytes, first))
    }
}

// A place that is put back when the guard ends, on every way out.
struct Ahead<'p, 'a> {
    place: &'p mut Place<'a>,
    back: Place<'a>,
}

impl Drop for Ahead<'_, '_> {
    fn drop(self)
        ensures { self.exit.0.now ≡ self.entry.back }
    {
        *self.place = self.back;
        let Ahead { place: _, back: _ } = self;
    }
}

// Reads the words of a line.
#[derive(Drop)]
pub struct Reader<'a> {
    place: Place<'a>,
}

impl<'a> Reader<'a> {
    // A reader before the first word.
    pub fn new(text: &'a [u8]) -> Reader<'a>
        ensures words { left result ≡ pieces 32 text.now }
        ensures first { starts result ≡ true }
    {
        Reader {
            place: Place {
                rest: Some(text),
                first: true,
            },
        }
    }

    // The next word; none behind the last.
    pub fn next(&mut self) -> Option<Word<'a>>
        ensures { Next self.old self.new result }
    {
        self.place.next_word()
    }

    // Whether the last word was read.
    pub fn at_end(&self) -> bool
        ensures { MatchBool result (left self.now ≡ []) (left self.now ≢ []) }
    {
        self.place.rest.is_none()
    }

    // Looks ahead at the next word; the place is put back.
    pub fn peek(&mut self) -> Option<Word<'a>>
        ensures stays { self.new ≡ self.old }
        ensures first { First self.old result }
    {
        let ahead = Ahead {
            back: self.place,
            place: &mut self.place,
        };
        ahead.place.next_word()
    }
}
