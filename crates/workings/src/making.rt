ghost use Rattle.std.specs.Prelude.{◌≡◌, length, IfOk};
ghost use Rattle.records.specs.Outcomes.{image};
ghost use Rattle.workings.specs.Chosen.{countable, gripped};
ghost use Rattle.workings.specs.Facts.{Finished};
ghost use Rattle.workings.specs.Shown.{shown};

use crate::choosing::{choose, some_out_of_range};
use crate::sharing::{kept, shares_of};
use crate::workings::Workings;
use arrayvec::ArrayVec;
use records::limits::MOST_PARAMETERS;
use records::{Refusal, Relation, Role};
use roles::bad_roles;
use table::Table;

impl Workings {
    // The workings of a grip on these bound relations, with one role to a parameter.
    pub fn make(relations: &[Relation], roles: &[Role]) -> Result<Workings, Refusal>
        ensures value { image shown result ≡ gripped relations.now roles.now }
        ensures facts { IfOk result (λ w. Finished (length roles.now) roles.now (countable relations.now roles.now) (shown w).table) }
    {
        // first of all, so that its places are written once
        let mut chosen = ArrayVec::new();
        let count = roles.len();
        if count > MOST_PARAMETERS {
            return Err(Refusal::Unfit);
        }
        if some_out_of_range(relations, count) {
            return Err(Refusal::Unfit);
        }
        if bad_roles(roles) {
            return Err(Refusal::Roles);
        }
        choose(relations, roles, &mut chosen)?;
        let shares = shares_of(roles);
        let table = Table::finished(&shares[..count], &chosen)?;
        Ok(Workings {
            table,
            roles: kept(roles),
            shares,
            m: chosen.len(),
            count,
        })
    }
}
