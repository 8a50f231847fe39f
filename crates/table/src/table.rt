use crate::row::Row;

// A table of at most 12 rows, in the first places of an array: a table is plain data that may be copied, as no list with a length
// of its own may.
#[derive(Clone, Copy)]
pub struct Table {
    pub rows: [Row; 12],
}
