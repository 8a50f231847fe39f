ghost use Rattle.std.specs.Prelude.{◌≡◌, true, false, not, nat_lt, ◌+ℤ◌, ◌*ℤ◌, unsigned_abs};
ghost use Rattle.kinds.specs.Outcomes.{fits64, fused_at, is_unit, misfit};

use records::Refusal;

const SMALL: i64 = 4_611_686_018_427_387_904;

// Whether k is 0 or -1: no product is tested by a division by one of these.
fn is_unit(k: i64) -> bool
    ensures { result ≡ is_unit k }
{
    k == 0 || k == -1
}

// Whether k × v fits, where k is neither 0 nor -1: then what 64 bits keep of it, divided by k, is v.
fn product_fits(k: i64, v: i64) -> bool
    requires { is_unit k ≡ false }
    ensures { result ≡ fits64 (k *ℤ v) }
{
    k.wrapping_mul(v) / k == v
}

// Whether u + v fits: else what 64 bits keep of it has a sign that neither u nor v has.
fn sum_fits(u: i64, v: i64) -> bool
    ensures { result ≡ fits64 (u +ℤ v) }
{
    let kept = u.wrapping_add(v);
    (kept < 0) == (u < 0) || (kept < 0) == (v < 0)
}

// Whether x is below 2^62 in size.
fn is_small(x: i64) -> bool
    ensures { result ≡ nat_lt (unsigned_abs x) 4611686018427387904 }
{
    -SMALL < x && x < SMALL
}

// Whether k × v and u + k × v fit, where k is 0 or -1.
#[cold]
#[inline(never)]
fn large_unit_fits(u: i64, k: i64, v: i64) -> bool
    requires { is_unit k ≡ true }
    ensures { result ≡ not (misfit u k v) }
{
    k == 0 || (v != i64::MIN && sum_fits(u, -v))
}

// The same. Small numbers need no further test, and the call for the others keeps it out of the way of the other factors.
fn unit_fits(u: i64, k: i64, v: i64) -> bool
    requires { is_unit k ≡ true }
    ensures { result ≡ not (misfit u k v) }
{
    (is_small(u) && is_small(v)) || large_unit_fits(u, k, v)
}

// u + k × v at one coordinate. Both steps are tested before they are made.
pub fn fused(u: i64, k: i64, v: i64) -> Result<i64, Refusal>
    ensures { result ≡ fused_at u k v }
{
    if is_unit(k) {
        if !unit_fits(u, k, v) {
            return Err(Refusal::DoesNotFit);
        }
        return Ok(u + k * v);
    }
    if !product_fits(k, v) {
        return Err(Refusal::DoesNotFit);
    }
    let product = k * v;
    if !sum_fits(u, product) {
        return Err(Refusal::DoesNotFit);
    }
    Ok(u + product)
}
