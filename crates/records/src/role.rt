// What a parameter does in a grip.
#[derive(Clone, Copy)]
pub enum Role {
    // it keeps its value
    Held,
    // it goes where it is wished
    Pulled,
    // it goes near where it is wished, as firmly as its weight says
    Loose(i64),
}
