// A sheet that is opened, bound and gripped once, and then pulled to one list of wishes after the other. C lends each list by itself.
use kinds::{Kind, Length, Point, read, write};
use pulls::propose;
use records::limits::{MOST_PARAMETERS, MOST_RELATIONS};
use records::{Mark, Refusal, Relation, Role};
use sheets::Sheet;
use workings::Workings;

// Values, wishes and proposal by parameter, constants and working values by relation.
const ALL_LISTS: usize = 192;

const BLANK: Relation = Relation {
    coefficients: [0; MOST_PARAMETERS],
    mark: Mark::Idle,
};

// Held below 0, pulled at 0, loose with the weight otherwise: C hands a role over as a number.
fn role_of(code: i64) -> Role {
    if code < 0 {
        Role::Held
    } else if code == 0 {
        Role::Pulled
    } else {
        Role::Loose(code)
    }
}

fn roles_of(codes: &[i64]) -> [Role; MOST_PARAMETERS] {
    let mut roles = [Role::Held; MOST_PARAMETERS];
    for (role, code) in roles.iter_mut().zip(codes) {
        *role = role_of(*code);
    }
    roles
}

// The values of one list, whose coordinates stand in a row.
fn load<K: Kind>(from: &[i64], values: &mut [K]) {
    for (v, coordinates) in values.iter_mut().zip(from.chunks_exact(K::count().max(1))) {
        for (k, x) in coordinates.iter().enumerate() {
            *v = write(*v, k, *x);
        }
    }
}

// The coordinates of a list's values, in a row.
fn store<K: Kind>(values: &[K], to: &mut [i64]) {
    for (v, coordinates) in values.iter().zip(to.chunks_exact_mut(K::count().max(1))) {
        for (k, x) in coordinates.iter_mut().enumerate() {
            *x = read(*v, k);
        }
    }
}

// A sheet of `count` parameters with these relations, each with the constant zero.
fn bound_sheet<K: Kind>(
    count: usize,
    coefficients: &[i64],
    values: &mut [K],
    relations: &mut [Relation],
    constants: &mut [K],
) -> Result<Sheet, Refusal> {
    let mut sheet = Sheet::open(count, values)?;
    for row in coefficients.chunks_exact(MOST_PARAMETERS) {
        sheet.bind(values, relations, constants, row, K::zero())?;
    }
    Ok(sheet)
}

// The workings of a grip on the sheet.
fn gripped(sheet: &Sheet, relations: &[Relation], codes: &[i64]) -> Result<Workings, Refusal> {
    let n = sheet.count();
    let bound = sheet.bound();
    if n > MOST_PARAMETERS || bound > relations.len() {
        return Err(Refusal::Unfit);
    }
    let roles = roles_of(codes);
    Workings::make(&relations[0..bound], &roles[0..n])
}

// Pulls to one list of wishes after the other: each proposal goes to `out`, and its denominator, or 0 less the number of
// the refusal, to `answers`: C has no `Result`.
fn pull_each<K: Kind>(
    sheet: &Sheet,
    values: &[K],
    relations: &[Relation],
    constants: &[K],
    workings: &Workings,
    wishes: &[i64],
    wanted: &mut [K],
    proposal: &mut [K],
    working: &mut [K],
    answers: &mut [i64],
    out: &mut [i64],
) {
    let step = MOST_PARAMETERS * K::count().min(4).max(1);
    let places = answers.iter_mut().zip(out.chunks_exact_mut(step));
    for (from, (answer, to)) in wishes.chunks_exact(step).zip(places) {
        load(from, wanted);
        *answer = match propose(
            sheet, values, relations, constants, workings, wanted, proposal, working,
        ) {
            Ok(d) => d,
            Err(refusal) => 0 - refusal.number() as i64,
        };
        store(proposal, to);
    }
}

// Opens a sheet, binds the relations, grips it, and pulls to each list of wishes.
fn pull_all<K: Kind>(
    count: usize,
    coefficients: &[i64],
    codes: &[i64],
    wishes: &[i64],
    answers: &mut [i64],
    out: &mut [i64],
    lists: &mut [K],
    relations: &mut [Relation],
) -> Result<(), Refusal> {
    if lists.len() < ALL_LISTS {
        return Err(Refusal::Unfit);
    }
    let (values, rest) = lists.split_at_mut(MOST_PARAMETERS);
    let (constants, rest) = rest.split_at_mut(MOST_RELATIONS);
    let (working, rest) = rest.split_at_mut(MOST_RELATIONS);
    let (proposal, wanted) = rest.split_at_mut(MOST_PARAMETERS);
    let sheet = bound_sheet(count, coefficients, values, relations, constants)?;
    let workings = gripped(&sheet, relations, codes)?;
    pull_each(
        &sheet, values, relations, constants, &workings, wishes, wanted, proposal, working,
        answers, out,
    );
    Ok(())
}

// What C is told of it: 0, or the number of the refusal.
fn answer(done: Result<(), Refusal>) -> u8 {
    match done {
        Ok(()) => 0,
        Err(refusal) => refusal.number(),
    }
}

// Pulls on a sheet of lengths: 0, or the number of the refusal before the first pull.
#[unsafe(no_mangle)]
pub extern "C" fn valetwren_pull_lengths(
    count: usize,
    coefficients: &[i64],
    codes: &[i64],
    wishes: &[i64],
    answers: &mut [i64],
    out: &mut [i64],
) -> u8 {
    answer(pull_all::<Length>(
        count,
        coefficients,
        codes,
        wishes,
        answers,
        out,
        &mut [Length { x: 0 }; ALL_LISTS],
        &mut [BLANK; MOST_RELATIONS],
    ))
}

// Pulls on a sheet of points: 0, or the number of the refusal before the first pull. C links no generic function, so that each
// kind has a name of its own.
#[unsafe(no_mangle)]
pub extern "C" fn valetwren_pull_points(
    count: usize,
    coefficients: &[i64],
    codes: &[i64],
    wishes: &[i64],
    answers: &mut [i64],
    out: &mut [i64],
) -> u8 {
    answer(pull_all::<Point>(
        count,
        coefficients,
        codes,
        wishes,
        answers,
        out,
        &mut [Point { x: 0, y: 0 }; ALL_LISTS],
        &mut [BLANK; MOST_RELATIONS],
    ))
}
