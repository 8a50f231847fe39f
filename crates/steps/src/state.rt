use crate::held::{Held, Offer};
use grips::Unproposed;
use sheets::Sheet;

// What a sheet is in: no grip, a grip, or a grip with a proposal.
pub enum State {
    Free(Sheet),
    Gripped(Held<Unproposed>),
    Proposed(Offer),
}
