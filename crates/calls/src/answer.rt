use records::Refusal;

// What an accepted call gives back.
#[derive(Drop)]
pub enum Given<K> {
    Nothing,
    // the numbers of the spare relations, after a grip
    Spares(Vec<usize>),
    // the denominator and the numerators of the proposal, after a pull
    Placing(i64, Vec<K>),
}

// What a call gave back, or why it was refused.
pub type Answer<K> = Result<Given<K>, Refusal>;
