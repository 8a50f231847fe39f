// The tests of a grip's roles, and which relations count by them.
#![tactic(auto)]

ghost use Rattle.std.specs.Prelude.{◌≡◌, min, not, ◌&&◌, length, replicate};
ghost use Rattle.rules.specs.Values.{written};
ghost use Rattle.roles.specs.Places.{places};
ghost use Rattle.whole.specs.Tests.{any, tally, nonzero};
ghost use Rattle.rules.specs.Gripping.{role, is_held, is_pulled, is_loose, is_weight, bad_weight, bad_roles, counts};

use records::limits::MOST_LOOSE;
use records::{Relation, Role};

fn is_held(role: Role) -> bool
    ensures { result ≡ is_held role }
{
    matches!(role, Role::Held)
}

fn is_pulled(role: Role) -> bool
    ensures { result ≡ is_pulled role }
{
    matches!(role, Role::Pulled)
}

fn is_loose(role: Role) -> bool
    ensures { result ≡ is_loose role }
{
    matches!(role, Role::Loose(_))
}

fn is_weight(w: i64) -> bool
    ensures { result ≡ is_weight w }
{
    matches!(w, 1 | 2 | 3 | 4 | 6 | 12)
}

// Whether a loose parameter's weight is none of the six.
fn bad_weight(role: Role) -> bool
    ensures { result ≡ bad_weight role }
{
    matches!(role, Role::Loose(w) if !is_weight(w))
}

// Whether no parameter is pulled.
fn none_pulled(roles: &[Role]) -> bool
    ensures { result ≡ not (any (length roles.now) (λ s. is_pulled (role roles.now s))) }
{
    !roles.iter().any(|role| is_pulled(*role))
}

// Whether some weight is none of the six.
fn some_bad_weight(roles: &[Role]) -> bool
    ensures { result ≡ any (length roles.now) (λ s. bad_weight (role roles.now s)) }
{
    roles.iter().any(|role| bad_weight(*role))
}

// How many parameters are loose.
fn loose_count(roles: &[Role]) -> usize
    ensures { result ≡ tally (length roles.now) (λ s. is_loose (role roles.now s)) }
{
    roles.iter().filter(|role| is_loose(**role)).count()
}

// Whether nothing is pulled, a weight is none of the six, or more than 24 are loose.
pub fn bad_roles(roles: &[Role]) -> bool
    ensures { result ≡ bad_roles (length roles.now) roles.now }
{
    none_pulled(roles) || some_bad_weight(roles) || loose_count(roles) > MOST_LOOSE
}

// Whether a parameter that is not held has a coefficient other than 0.
fn moves(coefficient: i64, role: Role) -> bool
    ensures { result ≡ (not (is_held role) && nonzero coefficient) }
{
    !is_held(role) && coefficient != 0
}

// Whether the relation with these coefficients counts; one that the list lacks is 0.
pub fn relation_counts(coefficients: &[i64], roles: &[Role]) -> bool
    ensures { result ≡ counts (length roles.now) roles.now coefficients.now }
{
    roles
        .iter()
        .zip(coefficients)
        .any(|(role, c)| moves(*c, *role))
}

// The relations that count: their numbers in bound order, the first 12 of them, and how many there are, also past the
// twelve, which a list of the twelve would not tell.
#[derive(Clone, Copy)]
pub struct Counted {
    pub rows: [usize; 12],
    pub m: usize,
}

// The relations that count by the roles.
pub fn counted_relations(relations: &[Relation], roles: &[Role]) -> Counted
    ensures m { result.m ≡ length (places roles.now relations.now (length relations.now)) }
    ensures rows { result.rows ≡ written (min result.m 12) (places roles.now relations.now (length relations.now)) (replicate 12 0) }
{
    let mut rows = [0; 12];
    let mut m = 0;
    for (i, relation) in relations.iter().enumerate() {
        if relation_counts(&relation.coefficients, roles) {
            if m < 12 {
                rows[m] = i;
            }
            m += 1;
        }
    }
    Counted { rows, m }
}
