// What the last grip made of a relation.
#[derive(Clone, Copy)]
pub enum Mark {
    // it did not count, or there was no grip since it was bound
    Idle,
    // it took part in placing the loose parameters
    Needed,
    // the relations before it imply it for the loose parameters
    Spare,
}

// A relation without its constant: one coefficient to a parameter, and its mark.
#[derive(Clone, Copy)]
pub struct Relation {
    pub coefficients: [i64; 48],
    pub mark: Mark,
}
