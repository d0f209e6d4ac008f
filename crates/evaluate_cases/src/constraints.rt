// Constraints for given values of the variables.
use crate::builder::*;
use evaluate::constraints::met;
use model::{Comparison, Relation, Sign};
use std::alloc::{AllocError, Global};

// Whether a variable with a value is at most a number, at least, exactly that.
fn compared(alloc: Global, c: Comparison, value: i64, a: i64) -> Result<Option<bool>, AllocError> {
    let mut m = Builder::new(alloc)?;
    m.array(0, 1, 1, -9, 9, 0);
    let x = m.variable(0, 0, 0)?;
    let e = m.fixed(a)?;
    let k = m.compare(c, x, e)?;
    Ok(m.met(&[value.cast_unsigned()], k))
}

// Each comparison at equal sides and one off on each side.
#[test]
fn comparisons(rt: HostRuntime) -> Result<(), AllocError> {
    // A value, a number, and whether the first is at most, at least, exactly that.
    const CASES: [(i64, i64, bool, bool, bool); 8] = [
        (5, 5, true, true, true),
        (4, 5, true, false, false),
        (6, 5, false, true, false),
        (-5, -5, true, true, true),
        (-6, -5, true, false, false),
        (-4, -5, false, true, false),
        (-1, MOST - 1, true, false, false),
        (1, 1 - MOST, false, true, false),
    ];
    for (value, a, at_most, at_least, exactly) in CASES {
        assert_eq!(rt;
            compared(rt.alloc(), Comparison::AtMost, value, a)?,
            Some(at_most)
        );
        assert_eq!(rt;
            compared(rt.alloc(), Comparison::AtLeast, value, a)?,
            Some(at_least)
        );
        assert_eq!(rt;
            compared(rt.alloc(), Comparison::Exactly, value, a)?,
            Some(exactly)
        );
    }
    // where the difference is too large
    const TOO_LARGE: [(i64, i64); 3] = [(-1, MOST), (1, -MOST), (0, LIMIT)];
    for (value, a) in TOO_LARGE {
        assert_eq!(rt; compared(rt.alloc(), Comparison::AtMost, value, a)?, None);
        assert_eq!(rt; compared(rt.alloc(), Comparison::AtLeast, value, a)?, None);
        assert_eq!(rt; compared(rt.alloc(), Comparison::Exactly, value, a)?, None);
    }
    Ok(())
}

// Sums on both sides: whether x + 10 is at most 2 and twice y, and at least that.
fn sides(alloc: Global, x: u64, y: u64) -> Result<[Option<bool>; 2], AllocError> {
    let mut m = Builder::new(alloc)?;
    m.set(0, 2);
    m.array(0, 1, 2, 0, 9, 0);
    let x_part = m.variable(0, 0, 0)?;
    let y_part = m.variable(0, 0, 1)?;
    let left = m.chain(Sign::Positive, x_part, TEN)?;
    let twice = m.sum(0, ALWAYS, y_part)?;
    let right = m.chain(Sign::Positive, TWO, twice)?;
    let at_most = m.compare(Comparison::AtMost, left, right)?;
    let at_least = m.compare(Comparison::AtLeast, left, right)?;
    Ok([m.met(&[x, y], at_most), m.met(&[x, y], at_least)])
}

// The right side is taken away term by term: both sides equal, the left one above, and below.
#[test]
fn both_sides(rt: HostRuntime) -> Result<(), AllocError> {
    assert_eq!(rt; sides(rt.alloc(), 2, 5)?, [Some(true), Some(true)]);
    assert_eq!(rt; sides(rt.alloc(), 3, 5)?, [Some(false), Some(true)]);
    assert_eq!(rt; sides(rt.alloc(), 1, 5)?, [Some(true), Some(false)]);
    Ok(())
}

// Whether three values rise: for all pairs of places whose first is less.
fn rising(alloc: Global, x: [u64; 3]) -> Result<Option<bool>, AllocError> {
    let mut m = Builder::new(alloc)?;
    m.set(0, 3);
    m.array(0, 1, 3, 0, 9, 0);
    let left = m.term(ONE, 0, ZERO, I)?;
    let right = m.term(ONE, 0, ZERO, J)?;
    let less = m.relate(Relation::Less, I, J)?;
    let body = m.compare(Comparison::AtMost, left, right)?;
    let inner = m.all(0, Some(less), body)?;
    let outer = m.all(0, ALWAYS, inner)?;
    Ok(m.met(&x, outer))
}

// Values that rise or stay, and that fall at the first pair alone, at the last alone, and at two.
#[test]
fn nested_alls(rt: HostRuntime) -> Result<(), AllocError> {
    const CASES: [([u64; 3], bool); 6] = [
        ([1, 2, 3], true),
        ([3, 3, 3], true),
        ([2, 1, 3], false),
        ([1, 3, 2], false),
        ([2, 3, 1], false),
        ([3, 1, 2], false),
    ];
    for (x, want) in CASES {
        assert_eq!(rt; rising(rt.alloc(), x)?, Some(want));
    }
    Ok(())
}

// Whether all entries of a table of 2 by 2 are at most 0.
fn at_most_zero(alloc: Global, numbers: [i64; 4]) -> Result<Option<bool>, AllocError> {
    let mut m = Builder::new(alloc)?;
    m.set(0, 2);
    m.table(0, 2, 2, &numbers)?;
    let entry = m.entry(0, I, J)?;
    let body = m.compare(Comparison::AtMost, entry, ZERO)?;
    let inner = m.all(0, ALWAYS, body)?;
    let outer = m.all(0, ALWAYS, inner)?;
    Ok(m.met(&[], outer))
}

// An all is looked at index by index up to the first that fails: what lies behind it is not worked
// out.
#[test]
fn first_failure(rt: HostRuntime) -> Result<(), AllocError> {
    const CASES: [([i64; 4], Option<bool>); 8] = [
        ([0, -1, -MOST, 0], Some(true)),
        ([1, 0, 0, 0], Some(false)),
        ([0, 0, 0, 1], Some(false)),
        ([1, LIMIT, 0, 0], Some(false)),
        ([0, 1, LIMIT, 0], Some(false)),
        ([0, 0, 1, LIMIT], Some(false)),
        ([LIMIT, 1, 1, 1], None),
        ([0, 0, 0, LIMIT], None),
    ];
    for (numbers, want) in CASES {
        assert_eq!(rt; at_most_zero(rt.alloc(), numbers)?, want);
    }
    Ok(())
}

// What is not looked at is never too large: the body over an empty set or one that is not there,
// and where the condition does not hold. The last one has a wrong node as its body.
#[test]
fn left_out(rt: HostRuntime) -> Result<(), AllocError> {
    let mut m = Builder::new(rt.alloc())?;
    m.set(0, 2);
    m.set(1, 0);
    let no = Some(m.relate(Relation::Less, I, ZERO)?);
    let later = Some(m.relate(Relation::Less, ZERO, I)?);
    let huge = Some(m.relate(Relation::Less, ZERO, BIG)?);
    let above = m.compare(Comparison::AtMost, ZERO, BIG)?;
    // Met at index 0, and not at 1.
    let unmet = m.compare(Comparison::Exactly, I, ZERO)?;
    let cases = [
        (m.all(1, ALWAYS, above)?, Some(true)),
        (m.all(2, ALWAYS, above)?, Some(true)),
        (m.all(1, huge, unmet)?, Some(true)),
        (m.all(0, no, above)?, Some(true)),
        (m.all(0, ALWAYS, unmet)?, Some(false)),
        (m.all(0, later, unmet)?, Some(false)),
        (m.all(0, ALWAYS, above)?, None),
        (m.all(0, huge, unmet)?, None),
        (m.all(0, ALWAYS, ZERO)?, None),
    ];
    for (k, want) in cases {
        assert_eq!(rt; m.met(&[], k), want);
    }
    Ok(())
}

// Constraints by their numbers: none beyond the last, and none where there is another node.
#[test]
fn numbers_of_constraints(rt: HostRuntime) -> Result<(), AllocError> {
    let mut m = Builder::new(rt.alloc())?;
    let fits = m.compare(Comparison::AtMost, ZERO, ONE)?;
    let fails = m.compare(Comparison::AtMost, ONE, ZERO)?;
    m.constraint(0, fits);
    m.constraint(1, fails);
    m.constraint(2, ZERO);
    m.constraint(3, fits);
    const CASES: [(usize, Option<bool>); 6] = [
        (0, Some(true)),
        (1, Some(false)),
        (2, None),
        (3, Some(true)),
        (4, None),
        (usize::MAX, None),
    ];
    for (i, want) in CASES {
        assert_eq!(rt; met(&m.words, &[], i), want);
    }
    Ok(())
}
