use steps::{Lists, State};

// A sheet in its state, with its lists. Nothing else writes them, and no call is made but through the desk.
pub struct Desk<K> {
    pub(crate) lists: Lists<K>,
    pub(crate) state: State,
}
