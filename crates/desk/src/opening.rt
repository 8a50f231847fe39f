// Opening a desk.
ghost use Rattle.desk.specs.Desks.{Opened};

use crate::desk::Desk;
use crate::fault::Fault;
use kinds::Kind;
use sheets::Sheet;
use std::alloc::Global;
use steps::{Lists, State};

impl<K: Kind> Desk<K> {
    // Opens a sheet of `count` parameters.
    pub fn open(heap: Global, count: usize) -> Result<Desk<K>, Fault>
        ensures { Opened K.size K.coords count result }
    {
        let mut lists = Lists::new(heap)?;
        let sheet = Sheet::open(count, &mut lists.values)?;
        Ok(Desk {
            lists,
            state: State::Free(sheet),
        })
    }
}
