ghost use Rattle.std.specs.Prelude.{◌≡◌};
ghost use Rattle.sheets.specs.Shown.{numbers};

use super::Sheet;

impl Sheet {
    // How many parameters the sheet has.
    pub fn count(&self) -> usize
        ensures { result ≡ (numbers self.now).count }
    {
        self.count
    }

    // How many relations are bound.
    pub fn bound(&self) -> usize
        ensures { result ≡ (numbers self.now).bound }
    {
        self.bound
    }
}
