ghost use Rattle.std.specs.Prelude.{ℕ, List};
ghost use Rattle.words.specs.Numbers.{Exactly};
ghost use Rattle.forms.specs.Forms.{Forms, Says, PutWord};

use words::{Fault, Word};

// Values that one word writes. `parse` and `put` are no `FromStr` and `Display`: numbers are among the values, and `put` refuses
// one that no word writes.
pub trait Written: Copy {
    // which bytes write which value
    ghost form: { List ℕ → Self → Type 0 };

    // The value that a word writes.
    fn parse(word: Word<'_>) -> Option<Self>
        ensures { Exactly (Says form) word.entry result };

    // Appends the word that writes the value.
    fn put(self, out: &mut Vec<u8>) -> Result<(), Fault>
        ensures { PutWord form self out.old.items out.new.items result };

    ghost laws: { Forms form };
}
