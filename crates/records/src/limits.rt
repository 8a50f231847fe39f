// The limits on a sheet's numbers. A step is 0.025 mm.

// Parameters of a sheet.
pub const MOST_PARAMETERS: usize = 48;

// Bound relations of a sheet, and places of a list by relation.
pub const MOST_RELATIONS: usize = 24;

// Loose parameters of a grip.
pub const MOST_LOOSE: usize = 24;

// Relations that count in a grip, and places of the spare list.
pub const MOST_COUNTED: usize = 12;

// Places of the working values.
pub const WORKING_PLACES: usize = 24;

// Steps from the sheet's origin along an axis: 1,189 mm.
pub const MOST_STEPS: u64 = 47_560;

pub const MOST_DENOMINATOR: i64 = 45_000;

pub const MOST_COEFFICIENT: u64 = 1_000;

// 1,000 times the most steps.
pub const MOST_CONSTANT: u64 = 47_560_000;

// A number of the table.
pub const TABLE_LIMIT: u64 = 2_147_483_647;

// A coordinate of a residual.
pub const MOST_RESIDUAL: u64 = 300_000_000;

// A coordinate of a multiplier.
pub const MOST_MULTIPLIER: u64 = 1_000_000_000_000;
