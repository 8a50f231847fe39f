// The cells of a grip.
ghost use Rattle.std.specs.Prelude.{◌≡◌};
ghost use Rattle.words.specs.Numbers.{Exactly};
ghost use Rattle.cells.specs.Cells.{CellForm, Marked, Weighed, role_of};
ghost use Rattle.cells.specs.Laws.{cell_laws};

use forms::{Written, append_bytes};
use records::Role;
use words::{Fault, Word, parse_number};

// A parameter's role in a grip, as written.
#[derive(Clone, Copy)]
pub enum Cell {
    // `.`
    Held,
    // `*`
    Pulled,
    // `~`, loose at the default weight
    Loose,
    // loose at a weight that is written, be it the default one
    Weighted(i64),
}

// The weight of a loose parameter whose weight is not written.
const DEFAULT_WEIGHT: i64 = 1;

// The role that the cell gives its parameter.
impl From<Cell> for Role {
    ghost from_gives = { λ cell role. role ≡ role_of cell };

    fn from(cell: Cell) -> Role {
        match cell {
            Cell::Held => Role::Held,
            Cell::Pulled => Role::Pulled,
            Cell::Loose => Role::Loose(DEFAULT_WEIGHT),
            Cell::Weighted(weight) => Role::Loose(weight),
        }
    }
}

// The cell that a mark writes.
fn parse_mark(bytes: &[u8]) -> Option<Cell>
    ensures { Exactly Marked bytes.now result }
{
    let [mark] = bytes else {
        return None;
    };
    match *mark as char {
        '.' => Some(Cell::Held),
        '*' => Some(Cell::Pulled),
        '~' => Some(Cell::Loose),
        _ => None,
    }
}

// The cell that a written weight is.
fn parse_weight(bytes: &[u8]) -> Option<Cell>
    ensures { Exactly Weighed bytes.now result }
{
    parse_number(bytes).map(Cell::Weighted)
}

impl Written for Cell {
    ghost form = { CellForm };

    ghost laws = { cell_laws };

    fn parse(word: Word<'_>) -> Option<Cell> {
        match word {
            Word::Cell(bytes) => parse_mark(bytes),
            Word::Number(bytes) => parse_weight(bytes),
            _ => None,
        }
    }

    fn put(self, out: &mut Vec<u8>) -> Result<(), Fault> {
        let mark = match self {
            Cell::Held => b'.',
            Cell::Pulled => b'*',
            Cell::Loose => b'~',
            Cell::Weighted(n) => return n.put(out),
        };
        append_bytes(&[mark], out)
    }
}
