// The calls that end a grip.
ghost use Rattle.std.specs.Prelude.{◌≡◌, map};
ghost use Rattle.rules.specs.Calls.{keeping, dropping};
ghost use Rattle.sheets.specs.Shown.{numbers};
ghost use Rattle.grips.specs.Shown.{gripped_sheet, handing_back, shown_keep};

use crate::token::{Grip, Proposed, Refused};
use kinds::Kind;
use records::{Refusal, Relation};
use sheets::{Sheet, unfit, unfit_values};

impl<P: Drop> Grip<P> {
    // Ends the grip, and changes no value.
    pub fn release(self) -> Sheet
        ensures { numbers result ≡ dropping (gripped_sheet self) }
    {
        let Grip { sheet, state } = self;
        drop(state);
        sheet
    }
}

impl Grip<Proposed> {
    // Copies the proposal and its denominator into the sheet, and ends the grip.
    pub fn keep<K: Kind>(
        self,
        values: &mut [K],
        relations: &[Relation],
        constants: &[K],
        proposal: &[K],
        denominator: i64,
    ) -> Result<Sheet, Refused<Grip<Proposed>>>
        ensures result { shown_keep result ≡ handing_back (gripped_sheet self) (keeping K.size (gripped_sheet self) (map K.coords values.old) relations.now (map K.coords constants.now) (map K.coords proposal.now) denominator).0 }
        ensures values { map K.coords values.new ≡ (keeping K.size (gripped_sheet self) (map K.coords values.old) relations.now (map K.coords constants.now) (map K.coords proposal.now) denominator).1 }
    {
        let n = self.sheet.count();
        if unfit(&self.sheet, values, relations, constants)
            || unfit_values(n, denominator, proposal)
        {
            return Err(Refused {
                back: self,
                refusal: Refusal::Unfit,
            });
        }
        let Grip { mut sheet, state } = self;
        drop(state);
        values[..n].copy_from_slice(&proposal[..n]);
        sheet.denominator = denominator;
        Ok(sheet)
    }
}
