// Pulling with a grip.
ghost use Rattle.std.specs.Prelude.{◌≡◌, map};
ghost use Rattle.records.specs.Outcomes.{image};
ghost use Rattle.rules.specs.Calls.{pulling};
ghost use Rattle.workings.specs.Shown.{shown};
ghost use Rattle.law.specs.Facts.{PulledRightly};
ghost use Rattle.grips.specs.Shown.{gripped_sheet, handing_back, pull_reply, shown_pull};

use crate::token::{Grip, Proposed, Refused, Unproposed};
use kinds::Kind;
use pulls::propose;
use records::Relation;
use workings::Workings;

impl<P: Drop> Grip<P> {
    // Proposes places for the wishes, over the denominator that comes with the grip; a refusal hands the grip back without a proposal.
    pub fn pull<K: Kind>(
        self,
        values: &[K],
        relations: &[Relation],
        constants: &[K],
        workings: &Workings,
        wishes: &[K],
        proposal: &mut [K],
        working: &mut [K],
    ) -> Result<(Grip<Proposed>, i64), Refused<Grip<Unproposed>>>
        ensures result { shown_pull result ≡ handing_back (gripped_sheet self) (image (λ d. (gripped_sheet self, d)) (pulling K.size (gripped_sheet self) (map K.coords values.now) relations.now (map K.coords constants.now) (shown workings.now) (map K.coords wishes.now) (map K.coords proposal.old) (map K.coords working.old)).0) }
        ensures proposal { map K.coords proposal.new ≡ (pulling K.size (gripped_sheet self) (map K.coords values.now) relations.now (map K.coords constants.now) (shown workings.now) (map K.coords wishes.now) (map K.coords proposal.old) (map K.coords working.old)).1 }
        ensures working { map K.coords working.new ≡ (pulling K.size (gripped_sheet self) (map K.coords values.now) relations.now (map K.coords constants.now) (shown workings.now) (map K.coords wishes.now) (map K.coords proposal.old) (map K.coords working.old)).2 }
        ensures rightly { PulledRightly K.size (gripped_sheet self) (map K.coords values.now) relations.now (map K.coords constants.now) (shown workings.now) (map K.coords wishes.now) (pull_reply (gripped_sheet self).count (map K.coords proposal.new) result) }
    {
        let Grip { sheet, state } = self;
        drop(state);
        match propose(
            &sheet, values, relations, constants, workings, wishes, proposal, working,
        ) {
            Ok(denominator) => Ok((
                Grip {
                    sheet,
                    state: Proposed {},
                },
                denominator,
            )),
            Err(refusal) => Err(Refused {
                back: Grip {
                    sheet,
                    state: Unproposed {},
                },
                refusal,
            }),
        }
    }
}
