// Calls on a sheet at the edges of their limits.
#![tactic(auto)]

#[cfg(test)]
mod tests {
    use desk::Fault;
    use kinds::Length;
    use records::{Mark, Refusal, Relation};
    use series::run;
    use sheets::Sheet;
    use std::alloc::Global;

    const NONE: Relation = Relation {
        coefficients: [0; 48],
        mark: Mark::Idle,
    };

    const SEVEN: Length = Length { x: 7 };

    // Acceptance, or the number of the refusal; too little for a function that two test crates share.
    fn answered<T: Drop>(r: Result<T, Refusal>) -> Result<(), u8> {
        match r {
            Ok(_) => Ok(()),
            Err(refusal) => Err(refusal.number()),
        }
    }

    // What opening a sheet of `count` parameters gives with these places for their values.
    fn opened(count: usize, places: &mut [Length]) -> Result<(), u8> {
        answered(Sheet::open(count, places))
    }

    #[test]
    fn one_to_forty_eight_parameters(rt: HostRuntime) {
        assert_eq!(rt; opened(0, &mut [SEVEN; 50]), Err(2));
        assert_eq!(rt; opened(1, &mut [SEVEN; 1]), Ok(()));
        assert_eq!(rt; opened(48, &mut [SEVEN; 48]), Ok(()));
        assert_eq!(rt; opened(48, &mut [SEVEN; 47]), Err(1));
        assert_eq!(rt; opened(49, &mut [SEVEN; 48]), Err(2));
        assert_eq!(rt; opened(49, &mut [SEVEN; 47]), Err(1));
    }

    // What a series of no calls on a sheet of `count` parameters gives; 0 where there is no memory.
    fn ran(heap: Global, count: usize) -> Result<(), u8> {
        match run::<Length>(heap, count, &[]) {
            Ok(_) => Ok(()),
            Err(Fault::Refused(refusal)) => Err(refusal.number()),
            Err(Fault::Memory) => Err(0),
        }
    }

    #[test]
    fn series_on_one_to_forty_eight_parameters(rt: HostRuntime) {
        assert_eq!(rt; ran(rt.alloc(), 0), Err(2));
        assert_eq!(rt; ran(rt.alloc(), 1), Ok(()));
        assert_eq!(rt; ran(rt.alloc(), 48), Ok(()));
        assert_eq!(rt; ran(rt.alloc(), 49), Err(2));
    }

    // What binding x = q gives, where x is 47,560 over 1.
    fn bound(coefficient: i64, q: i64) -> Result<(), u8> {
        let mut values = [Length { x: 0 }; 1];
        let mut sheet = Sheet::open(1, &mut values).map_err(|refusal| refusal.number())?;
        values[0] = Length { x: 47_560 };
        let mut relations = [NONE; 24];
        let mut constants = [Length { x: 0 }; 24];
        answered(sheet.bind(
            &values,
            &mut relations,
            &mut constants,
            &[coefficient],
            Length { x: q },
        ))
    }

    #[test]
    fn coefficients_and_constants(rt: HostRuntime) {
        assert_eq!(rt; bound(1000, 47_560_000), Ok(()));
        assert_eq!(rt; bound(-1000, -47_560_000), Ok(()));
        assert_eq!(rt; bound(1001, 0), Err(4));
        assert_eq!(rt; bound(-1001, 0), Err(4));
        assert_eq!(rt; bound(0, 0), Err(4));
        assert_eq!(rt; bound(1, 47_560_001), Err(5));
        assert_eq!(rt; bound(1, -47_560_001), Err(5));
        assert_eq!(rt; bound(1, 47_559), Err(6));
    }

    // What unbinding gives on a sheet of one value with this denominator.
    fn unbound(value: i64, denominator: i64, number: i64) -> Result<(), u8> {
        let mut values = [Length { x: 0 }; 1];
        let mut sheet = Sheet::open(1, &mut values).map_err(|refusal| refusal.number())?;
        values[0] = Length { x: value };
        sheet.denominator = denominator;
        let mut relations = [NONE; 24];
        let mut constants = [Length { x: 0 }; 24];
        answered(sheet.unbind(&values, &mut relations, &mut constants, number))
    }

    #[test]
    fn broken_values_and_denominators(rt: HostRuntime) {
        assert_eq!(rt; unbound(47_560, 1, 0), Err(7));
        assert_eq!(rt; unbound(47_561, 1, 0), Err(1));
        assert_eq!(rt; unbound(-47_561, 1, 0), Err(1));
        assert_eq!(rt; unbound(0, 0, 0), Err(1));
        assert_eq!(rt; unbound(0, 45_000, -1), Err(7));
        assert_eq!(rt; unbound(0, 45_001, 0), Err(1));
    }
}
