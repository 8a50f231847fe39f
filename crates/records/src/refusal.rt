ghost use Rattle.std.specs.Prelude.{◌≡◌};
ghost use Rattle.records.specs.Numbers.{number_of};

// Why a call, or a line of a card, is refused. Each case stands with the number that a card prints for it.
#[derive(Clone, Copy, Debug, PartialEq, Eq)]
pub enum Refusal {
    // a list is too short, or a number that was handed in breaks a limit
    Unfit = 1,
    // a sheet has 1 to 48 parameters
    Count = 2,
    // 24 relations are bound
    Full = 3,
    // all coefficients are 0, or one is out of range
    Coefficients = 4,
    // the constant is out of range
    Constant = 5,
    // the relation does not hold for the present values
    Untrue = 6,
    // no relation has that number
    NoRelation = 7,
    // nothing is pulled, a weight is not permitted, or too many are loose
    Roles = 8,
    // more than 12 relations count
    Crowded = 9,
    // a number of the table is beyond the limit
    TableTooLarge = 10,
    // a wish is off the sheet
    WishTooFar = 11,
    // a residual is beyond its limit
    GapTooLarge = 12,
    // no placing meets the relations, the held values and the pulled wishes
    Impossible = 13,
    // the numbers of the proposal are beyond a limit
    TooFine = 14,
    // a proposed coordinate is off the sheet
    OffSheet = 15,
    // a line of a card is not of the form
    Form = 16,
    // a value has no such coordinate
    NoCoordinate = 17,
    // a product or a sum does not fit 64 signed bits
    DoesNotFit = 18,
    // the call is not open in the present state
    NotOpen = 19,
}

impl Refusal {
    // The number that a card prints for the refusal; a method and no `From`, so that a use says which number is meant.
    pub fn number(self) -> u8
        ensures { result ≡ number_of self }
    {
        self as u8
    }
}
