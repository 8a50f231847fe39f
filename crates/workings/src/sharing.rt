ghost use Rattle.std.specs.Prelude.{◌≡◌, ◌≤◌, length, take};
ghost use Rattle.rules.specs.Gripping.{share, shares};

use records::Role;

// v(s): 12 over the weight of a loose parameter, and 0 for the others.
fn share_of(role: Role) -> i64
    ensures { result ≡ share role }
{
    match role {
        Role::Held | Role::Pulled | Role::Loose(0) => 0,
        Role::Loose(weight) => 12 / weight,
    }
}

// Each parameter's v(s), in the first places.
pub(crate) fn shares_of(roles: &[Role]) -> [i64; 48]
    requires { length roles.now ≤ 48 }
    ensures { take (length roles.now) result ≡ shares (length roles.now) roles.now }
{
    let mut all = [0; 48];
    // by number: of a list that is written through a zip, a proof does not see what it becomes
    for (s, role) in roles.iter().enumerate() {
        all[s] = share_of(*role);
    }
    all
}

// The roles, in the first places.
pub(crate) fn kept(roles: &[Role]) -> [Role; 48]
    requires { length roles.now ≤ 48 }
    ensures { take (length roles.now) result ≡ roles.now }
{
    let mut all = [Role::Held; 48];
    let count = roles.len();
    all[..count].copy_from_slice(roles);
    all
}
