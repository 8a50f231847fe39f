// What a grip tells of its sheet.
ghost use Rattle.std.specs.Prelude.{◌≡◌};
ghost use Rattle.grips.specs.Shown.{gripped_sheet};

use crate::token::Grip;

impl<P> Grip<P> {
    // How many parameters the sheet has.
    pub fn count(&self) -> usize
        ensures { result ≡ (gripped_sheet self.now).count }
    {
        self.sheet.count()
    }
}
