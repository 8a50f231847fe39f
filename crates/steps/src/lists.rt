// The lists of a desk.
ghost use Rattle.std.specs.Prelude.{◌≡◌, map, IfOk};
ghost use Rattle.rules.specs.Values.{zeros};
ghost use Rattle.steps.specs.Lists.{Fresh};

use kinds::Kind;
use records::limits::{MOST_COUNTED, MOST_PARAMETERS, MOST_RELATIONS, WORKING_PLACES};
use records::{Mark, Relation};
use std::alloc::{AllocError, Global};

// The lists that the calls on a sheet are lent, side by side as the calls take them.
#[derive(Drop)]
pub struct Lists<K> {
    pub values: Vec<K>,
    pub relations: Vec<Relation>,
    pub constants: Vec<K>,
    pub proposal: Vec<K>,
    pub working: Vec<K>,
    pub spare: Vec<usize>,
}

// n values of zero.
fn zeros_of<K: Kind>(heap: Global, n: usize) -> Result<Vec<K>, AllocError>
    ensures { IfOk result (λ v. map K.coords v.items ≡ zeros n K.size) }
{
    (0..n).map(|_| K::zero()).collect(heap)
}

impl<K: Kind> Lists<K> {
    // Lists of zeros as long as any sheet needs.
    pub fn new(heap: Global) -> Result<Lists<K>, AllocError>
        ensures { IfOk result (λ l. Fresh K.size K.coords l) }
    {
        let blank = Relation {
            coefficients: [0; MOST_PARAMETERS],
            mark: Mark::Idle,
        };
        Ok(Lists {
            values: zeros_of(heap, MOST_PARAMETERS)?,
            relations: vec![in heap; blank; MOST_RELATIONS]?,
            constants: zeros_of(heap, MOST_RELATIONS)?,
            proposal: zeros_of(heap, MOST_PARAMETERS)?,
            working: zeros_of(heap, WORKING_PLACES)?,
            spare: vec![in heap; 0; MOST_COUNTED]?,
        })
    }
}
