// The rules of the sheet: definitions that the contracts of all calls cite. Each function states what is proved of them.
#![tactic(auto)]

ghost use Rattle.rules.specs.Bounds.{CarriedWithin, DenominatorWithin, Fitting, GramWithin, HoldingWithin, MultipleWithin, MultiplierWithin, NumeratorWithin, ResidualWithin, RoomForAll, SharesWithin};
ghost use Rattle.rules.specs.Mistakes.{Denominator, Limit, Rounded};
ghost use Rattle.rules.specs.Worked.{PlacesBeyond, RefusedFirst, WorkedSheets};

// The worked sheets give what they should.
pub fn worked_sheets_stand()
    ensures { WorkedSheets }
{}

// Only the places needed are written; short lists and numbers beyond a limit are refused first, with nothing written.
pub fn worked_lists_stand()
    ensures beyond { PlacesBeyond }
    ensures first { RefusedFirst }
{}

// Three quiet mistakes are mistakes: another limit, a rounded proposal, a denominator left off.
pub fn mistakes_stand()
    ensures limit { Limit }
    ensures rounded { Rounded }
    ensures denominator { Denominator }
{}

// Where the lists fit, coefficients and constants of the relations that count are within their limits.
pub fn fitting_stands()
    ensures { Fitting }
{}

// The shares and the weighted Gram matrix of a grip stay within their bounds.
pub fn gram_bounds_stand()
    ensures shares { SharesWithin }
    ensures gram { GramWithin }
{}

// The test whether a relation holds now, and the residuals, stay within 1.1 × 10^14.
pub fn residual_bounds_stand()
    ensures holding { HoldingWithin }
    ensures residual { ResidualWithin }
{}

// The carried sums stay within 7.8 × 10^18.
pub fn carried_bound_stands()
    ensures { CarriedWithin }
{}

// The common multiple and the multipliers stay within L × L.
pub fn multiplier_bounds_stand()
    ensures multiple { MultipleWithin }
    ensures multiplier { MultiplierWithin }
{}

// The numerators and their denominator stay within 5 × 10^18.
pub fn numerator_bounds_stand()
    ensures denominator { DenominatorWithin }
    ensures numerator { NumeratorWithin }
{}

// Each of these bounds is below 2^63.
pub fn room_for_all_stands()
    ensures { RoomForAll }
{}
