use crate::solid::Solid;
use kinds::{Kind, Length, Point, combine, read, value_above, values_above, write};
use records::Refusal;

const MAX: i64 = 9_223_372_036_854_775_807;

const MIN: i64 = -9_223_372_036_854_775_808;

// Whether there is a value, or the number of the refusal; too little for a function that two test crates share.
fn answered<K: Kind>(r: Result<K, Refusal>) -> Result<(), u8> {
    r.map(|_| ()).map_err(|e| e.number())
}

#[test]
fn a_sum_reaches_the_edges(rt: HostRuntime) {
    let top = Length { x: MAX - 6 }.plus_scaled(2, Length { x: 3 });
    assert_eq!(rt; answered(top), Ok(()));
    let over = Length { x: MAX - 5 }.plus_scaled(2, Length { x: 3 });
    assert_eq!(rt; answered(over), Err(18));
    let bottom = Point { x: 0, y: MIN + 6 }.plus_scaled(-2, Point { x: 0, y: 3 });
    assert_eq!(rt; answered(bottom), Ok(()));
    let under = Point { x: 0, y: MIN + 5 }.plus_scaled(-2, Point { x: 0, y: 3 });
    assert_eq!(rt; answered(under), Err(18));
}

#[test]
fn a_product_is_refused_before_the_sum(rt: HostRuntime) {
    // 2^63 does not fit, though -1 + 2^63 would
    let product = Point { x: -1, y: 0 }.plus_scaled(
        2,
        Point {
            x: 4_611_686_018_427_387_904,
            y: 0,
        },
    );
    assert_eq!(rt; answered(product), Err(18));
    let least = combine(Length { x: 0 }, 1, Length { x: MIN });
    assert_eq!(rt; least.x, MIN);
    let kept = combine(Length { x: 5 }, -1, Length { x: MIN });
    assert_eq!(rt; kept.x, 5);
}

#[test]
fn coordinates_are_counted_from_0(rt: HostRuntime) {
    let p = Point { x: 3, y: -4 };
    assert_eq!(rt; read(p, 1), -4);
    assert_eq!(rt; read(p, 2), 0);
    assert_eq!(rt; answered(p.with_coordinate(2, 1)), Err(17));
    assert_eq!(rt; write(p, 0, MIN).x, MIN);
    assert!(rt; value_above(p, 3));
    assert!(rt; !value_above(p, 4));
    assert!(rt; values_above(&[p, Point { x: MIN, y: 0 }], 9_223_372_036_854_775_807));
}

#[test]
fn three_coordinates_serve_as_well(rt: HostRuntime) {
    let s = combine(<Solid as Kind>::zero(), 7, Solid { x: 1, y: 2, z: -3 });
    assert_eq!(rt; s.x, 7);
    assert_eq!(rt; s.y, 14);
    assert_eq!(rt; s.z, -21);
    assert_eq!(rt;
        answered(s.plus_scaled(1, Solid { x: 0, y: 0, z: MIN })),
        Err(18)
    );
}
