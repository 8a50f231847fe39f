// Why there is no desk.
ghost use Rattle.std.specs.Prelude.{◌≡◌};
ghost use Rattle.desk.specs.declared.fault.Fault.TheVariants.{Memory, Refused};

use records::Refusal;
use std::alloc::AllocError;

#[derive(Clone, Copy)]
pub enum Fault {
    // the opening was refused
    Refused(Refusal),
    // there was no memory for the lists or the answers
    Memory,
}

impl From<Refusal> for Fault {
    ghost from_gives = { λ refusal e. e ≡ Refused refusal };

    fn from(refusal: Refusal) -> Fault {
        Fault::Refused(refusal)
    }
}

impl From<AllocError> for Fault {
    ghost from_gives = { λ _ e. e ≡ Memory };

    fn from(_e: AllocError) -> Fault {
        Fault::Memory
    }
}
