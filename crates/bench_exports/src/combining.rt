// u + k × v on points.
use kinds::{Kind, Point, combine};

// A point as it crosses to other languages.
#[repr(C)]
#[derive(Clone, Copy)]
pub struct Pair {
    pub x: i64,
    pub y: i64,
}

impl From<Pair> for Point {
    fn from(p: Pair) -> Point {
        Point { x: p.x, y: p.y }
    }
}

impl From<Point> for Pair {
    fn from(p: Point) -> Pair {
        Pair { x: p.x, y: p.y }
    }
}

// Writes each u + k × v that fits to its place, and tells whether all fit, since C has no `Result`.
#[unsafe(no_mangle)]
pub extern "C" fn valetwren_plus_scaled(
    us: &[Pair],
    ks: &[i64],
    vs: &[Pair],
    out: &mut [Pair],
) -> bool {
    let n = us.len().min(ks.len()).min(vs.len()).min(out.len());
    let mut fit = true;
    // by number: pairs within pairs take as long as the step that is measured
    for i in 0..n {
        match Point::from(us[i]).plus_scaled(ks[i], Point::from(vs[i])) {
            Ok(sum) => out[i] = Pair::from(sum),
            Err(_) => fit = false,
        }
    }
    fit
}

// The running sum of k × v from zero, which stays as it was where a step does not fit.
#[unsafe(no_mangle)]
pub extern "C" fn valetwren_sum_scaled(ks: &[i64], vs: &[Pair]) -> Pair {
    let mut sum = Point { x: 0, y: 0 };
    for (k, v) in ks.iter().zip(vs) {
        sum = combine(sum, *k, Point::from(*v));
    }
    Pair::from(sum)
}
