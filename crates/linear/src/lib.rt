// The linear theory: each function states one theorem.
#![tactic(auto)]

ghost use Rattle.linear.specs.Theorems.{Accepted, Diagonal, Finished, Infeasible, Lowest, Nearest, Pivots, PivotsLast, Room, Spares};

// The pivot of a step is never negative, and where it is 0, its row is 0 in its left half.
pub fn pivots_stand()
    ensures { Pivots }
{}

// The same holds of each diagonal number and its row at the end.
pub fn diagonal_stands()
    ensures { Diagonal }
{}

// A diagonal number is 0 at the end exactly when the row's pivot was 0.
pub fn pivots_last_stands()
    ensures { PivotsLast }
{}

// A row is spare exactly when its relation's loose coefficients are a rational combination of those of earlier relations.
pub fn spares_stand()
    ensures { Spares }
{}

// A table that is accepted is the one after all steps, with no number beyond the limit.
pub fn accepted_stands()
    ensures { Accepted }
{}

// Before a row is divided, each of its numbers fits 64 signed bits.
pub fn room_stands()
    ensures { Room }
{}

// A finished elimination gives a table with the meaning.
pub fn meaning_stands()
    ensures { Finished }
{}

// A spare row that carries something other than 0 leaves no rational placing.
pub fn infeasible_stands()
    ensures { Infeasible }
{}

// Otherwise the multipliers give the one nearest placing, for any inner product.
pub fn nearest_stands()
    ensures { Nearest }
{}

// A common factor of its numbers can be taken off the nearest placing.
pub fn lowest_stands()
    ensures { Lowest }
{}
