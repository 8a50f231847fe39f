// The wishes that a pull reads.
ghost use Rattle.std.specs.Prelude.{◌≡◌, ◌≤◌, not, ◌&&◌, map, length};
ghost use Rattle.whole.specs.Lists.{at};
ghost use Rattle.whole.specs.Tests.{any, above};
ghost use Rattle.rules.specs.Gripping.{is_held};
ghost use Rattle.rules.specs.Pulling.{far_wish};

use kinds::{Kind, value_above};
use records::Role;
use records::limits::MOST_STEPS;

// Whether a wish is read and has a coordinate off the sheet.
fn far<K: Kind>(role: Role, wish: K) -> bool
    ensures { result ≡ (not (is_held role) && any K.size (λ c. above 47560 (at (K.coords wish) c))) }
{
    !matches!(role, Role::Held) && value_above(wish, MOST_STEPS)
}

// Whether a wish that is read has a coordinate off the sheet.
pub(crate) fn far_wish<K: Kind>(roles: &[Role], wishes: &[K]) -> bool
    requires { length roles.now ≤ length wishes.now }
    ensures { result ≡ far_wish K.size (length roles.now) roles.now (map K.coords wishes.now) }
{
    roles
        .iter()
        .zip(wishes)
        .any(|(role, wish)| far(*role, *wish))
}
