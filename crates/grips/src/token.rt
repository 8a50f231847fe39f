use records::Refusal;
use sheets::Sheet;

// No proposal stands.
#[derive(Drop)]
pub struct Unproposed {}

// A proposal stands.
#[derive(Drop)]
pub struct Proposed {}

// A gripped sheet, with or without a proposal. It cannot be let go, and no other crate takes it apart: only keeping or dropping gives the sheet back.
pub struct Grip<P> {
    pub(crate) sheet: Sheet,
    pub(crate) state: P,
}

// What a refused call hands back, and why. The token or the sheet must go back with it, so that a refusal below is matched and not
// passed on by `?`.
pub struct Refused<T> {
    pub back: T,
    pub refusal: Refusal,
}
