ghost use Rattle.std.specs.Prelude.{◌≡◌};
ghost use Rattle.grips.specs.Shown.{gripped_sheet};
ghost use Rattle.sheets.specs.Shown.{numbers};

use grips::{Grip, Proposed};
use sheets::Sheet;
use workings::Workings;

// A gripped sheet with the workings that the grip made.
pub struct Held<P> {
    pub grip: Grip<P>,
    pub workings: Box<Workings>,
}

// The same with a proposal, and the proposal's denominator.
pub struct Offer {
    pub held: Held<Proposed>,
    pub denominator: i64,
}

impl<P: Drop> Held<P> {
    // Ends the grip, and lets its workings go.
    pub fn release(self) -> Sheet
        ensures { numbers result ≡ gripped_sheet self.grip }
    {
        let Held { grip, workings: _ } = self;
        grip.release()
    }
}
