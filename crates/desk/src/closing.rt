// Closing a desk. Each state lets its sheet go in its own way, so a match takes it apart.
ghost use Rattle.std.specs.Prelude.{◌≡◌, map, take};
ghost use Rattle.desk.specs.Desks.{use_of};

use crate::desk::Desk;
use kinds::Kind;
use steps::{Offer, State};

// A sheet's values when its desk is closed: numerators, one to a parameter, over a denominator.
#[derive(Drop)]
pub struct Closed<K> {
    pub values: Vec<K>,
    pub denominator: i64,
}

impl<K: Kind> Desk<K> {
    // Drops a grip that is open, and gives the sheet's values.
    pub fn close(self) -> Closed<K>
        ensures values { map K.coords result.values.items ≡ take (use_of K.coords self).sheet.count (use_of K.coords self).values }
        ensures denominator { result.denominator ≡ (use_of K.coords self).sheet.d }
    {
        let Desk { lists, state } = self;
        let sheet = match state {
            State::Free(sheet) => sheet,
            State::Gripped(held) => held.release(),
            State::Proposed(
                Offer {
                    held,
                    denominator: _,
                },
            ) => held.release(),
        };
        let mut values = lists.values;
        values.truncate(sheet.count());
        Closed {
            values,
            denominator: sheet.denominator,
        }
    }
}
