// Linear sums for given values of the variables.
use crate::builder::*;
use evaluate::sums::linear_sum;
use model::{Operator, Relation, Sign};
use std::alloc::{AllocError, Global};

const HALF: i64 = 1 << 61;

// Values of the variables of the model below.
const VALUES: [u64; 10] = [1, 2, 3, 4, 5, 6, 10, 20, 30, 40];

// Sets of 3, 2 and no elements, a table of 2 by 3, and arrays of 2 by 3 and 2 by 2 variables.
fn stage(alloc: Global) -> Result<Builder, AllocError> {
    let mut m = Builder::new(alloc)?;
    m.set(0, 3);
    m.set(1, 2);
    m.set(2, 0);
    m.table(0, 2, 3, &[1, 2, 3, 4, 5, 6])?;
    m.array(0, 2, 3, 0, 9, 0);
    m.array(1, 2, 2, 0, 99, 6);
    Ok(m)
}

// A number before the variable of an array in row i and column j.
fn term(
    alloc: Global,
    a: i64,
    array: usize,
    i: i64,
    j: i64,
    values: &[u64],
) -> Result<Option<i64>, AllocError> {
    let mut m = stage(alloc)?;
    let e = m.fixed(a)?;
    let f = m.fixed(i)?;
    let g = m.fixed(j)?;
    let k = m.term(e, array, f, g)?;
    Ok(linear_sum(&m.words, values, k))
}

// A number before a variable. Beyond its array a variable counts 0, and its number is not worked
// out: column 3 of row 0 is not the variable that begins row 1, and row 2 is none of the array
// behind.
#[test]
fn terms(rt: HostRuntime) -> Result<(), AllocError> {
    const CASES: [(i64, usize, i64, i64, Option<i64>); 22] = [
        (2, 0, 0, 0, Some(2)),
        (2, 0, 0, 2, Some(6)),
        (2, 0, 1, 0, Some(8)),
        (-2, 0, 1, 2, Some(-12)),
        (2, 1, 0, 0, Some(20)),
        (2, 1, 0, 1, Some(40)),
        (2, 1, 1, 0, Some(60)),
        (-2, 1, 1, 1, Some(-80)),
        (7, 0, 0, 3, Some(0)),
        (7, 0, 1, -1, Some(0)),
        (7, 0, 2, 0, Some(0)),
        (7, 1, -1, 0, Some(0)),
        (7, 1, 0, 2, Some(0)),
        (7, usize::MAX, 0, 0, Some(0)),
        (LIMIT, 0, 0, 3, Some(0)),
        (LIMIT, 0, 2, 0, Some(0)),
        (LIMIT, 2, 0, 0, Some(0)),
        (LIMIT, 0, 0, 0, None),
        (LIMIT, 1, 1, 1, None),
        (1, 0, LIMIT, 0, None),
        (1, 0, 0, LIMIT, None),
        (1, 2, 0, LIMIT, None),
    ];
    for (a, array, i, j, want) in CASES {
        assert_eq!(rt; term(rt.alloc(), a, array, i, j, &VALUES)?, want);
    }
    Ok(())
}

// A number times the value of its variable, at the edges. A value that is not given is 0.
#[test]
fn products(rt: HostRuntime) -> Result<(), AllocError> {
    const CASES: [(i64, i64, Option<i64>); 10] = [
        (-3, -4, Some(12)),
        (1, MOST, Some(MOST)),
        (-1, MOST, Some(-MOST)),
        (1, LIMIT, None),
        (1, -LIMIT, None),
        (2, HALF, None),
        (2, 1 - HALF, Some(2 - LIMIT)),
        (0, i64::MIN, Some(0)),
        (-1, i64::MIN, None),
        (MOST, MOST, None),
    ];
    for (a, value, want) in CASES {
        let values = [value.cast_unsigned()];
        assert_eq!(rt; term(rt.alloc(), a, 0, 0, 0, &values)?, want);
        assert_eq!(rt; term(rt.alloc(), a, 0, 0, 1, &values)?, Some(0));
    }
    Ok(())
}

// Terms joined by + and -; a minus before a part turns every term in it.
#[test]
fn signs(rt: HostRuntime) -> Result<(), AllocError> {
    let mut m = stage(rt.alloc())?;
    let x = m.variable(0, 0, 2)?;
    let less = m.chain(Sign::Negative, TWO, x)?;
    let more = m.chain(Sign::Positive, TWO, x)?;
    // Each variable of row 0 less its index: 6 - 3 over set 0.
    let xs = m.term(ONE, 0, ZERO, I)?;
    let body = m.chain(Sign::Negative, xs, I)?;
    let sum = m.sum(0, ALWAYS, body)?;
    let turned = m.chain(Sign::Negative, TWO, sum)?;
    let cases = [
        (less, -1),
        (m.chain(Sign::Positive, TEN, less)?, 9),
        (m.chain(Sign::Negative, TEN, less)?, 11),
        (m.chain(Sign::Negative, TEN, more)?, 5),
        (sum, 3),
        (m.chain(Sign::Positive, TEN, sum)?, 13),
        (m.chain(Sign::Negative, TEN, sum)?, 7),
        (m.chain(Sign::Negative, TEN, turned)?, 11),
    ];
    for (k, want) in cases {
        assert_eq!(rt; linear_sum(&m.words, &VALUES, k), Some(want));
    }
    Ok(())
}

// What is added in turn to the constant and, before a variable with the value 2^61, to the terms.
fn in_turn(alloc: Global, numbers: [i64; 6]) -> Result<Option<i64>, AllocError> {
    let mut m = stage(alloc)?;
    let mut k = ZERO;
    for (i, a) in numbers.into_iter().enumerate() {
        let mut part = m.fixed(a)?;
        if i % 2 == 1 {
            part = m.term(part, 0, ZERO, ZERO)?;
        }
        k = m.chain(Sign::Positive, k, part)?;
    }
    Ok(linear_sum(&m.words, &[HALF.cast_unsigned()], k))
}

// The constant and the terms of a sum are kept apart: each has to stay below 2^62 on the way, and
// both together only at the end.
#[test]
fn parts_kept_apart(rt: HostRuntime) -> Result<(), AllocError> {
    const CASES: [([i64; 6], Option<i64>); 11] = [
        ([HALF, 1, HALF - 1, 0, 5 - MOST, -1], Some(5)),
        ([-HALF, -1, 1 - HALF, 0, MOST - 5, 1], Some(-5)),
        ([HALF, 1, -1, 0, 0, 0], Some(MOST)),
        ([HALF, 0, HALF, 0, -HALF, 0], None),
        ([-HALF, 0, -HALF, 0, HALF, 0], None),
        ([0, 1, 0, 1, 0, -1], None),
        ([0, -1, 0, -1, 0, 1], None),
        ([HALF - 1, 1, 0, 0, 0, 0], Some(MOST)),
        ([1 - HALF, -1, 0, 0, 0, 0], Some(-MOST)),
        ([HALF, 1, 0, 0, 0, 0], None),
        ([-HALF, -1, 0, 0, 0, 0], None),
    ];
    for (numbers, want) in CASES {
        assert_eq!(rt; in_turn(rt.alloc(), numbers)?, want);
    }
    Ok(())
}

// Sums over sets, also beside each other and within each other.
#[test]
fn sums_over_sets(rt: HostRuntime) -> Result<(), AllocError> {
    let mut m = stage(rt.alloc())?;
    // Row 0 of both arrays. The second has no column 2.
    let x = m.term(ONE, 0, ZERO, I)?;
    let y = m.term(ONE, 1, ZERO, I)?;
    let xs = m.sum(0, ALWAYS, x)?;
    let ys = m.sum(0, ALWAYS, y)?;
    let differ = m.relate(Relation::Differ, I, ONE)?;
    let cases = [
        (xs, 6),
        (ys, 30),
        (m.chain(Sign::Positive, xs, ys)?, 36),
        (m.sum(0, Some(differ), x)?, 4),
        // x has the index of the outer sum, and counts three times
        (m.sum(1, ALWAYS, xs)?, 9),
    ];
    for (k, want) in cases {
        assert_eq!(rt; linear_sum(&m.words, &VALUES, k), Some(want));
    }
    Ok(())
}

// Sums within each other: each entry before its variable; ten times the outer index and the inner
// one, for all pairs and where the first is less.
#[test]
fn sums_of_pairs(rt: HostRuntime) -> Result<(), AllocError> {
    let mut m = stage(rt.alloc())?;
    let number = m.entry(0, I, J)?;
    let product = m.term(number, 0, I, J)?;
    let products = m.sum(0, ALWAYS, product)?;
    let tens = m.op(Operator::Times, TEN, I)?;
    let pair = m.op(Operator::Plus, tens, J)?;
    let pairs = m.sum(0, ALWAYS, pair)?;
    let less = m.relate(Relation::Less, I, J)?;
    let rising = m.sum(0, Some(less), pair)?;
    let cases = [
        (m.sum(1, ALWAYS, products)?, 91),
        (m.sum(1, ALWAYS, pairs)?, 36),
        (m.sum(0, ALWAYS, rising)?, 15),
    ];
    for (k, want) in cases {
        assert_eq!(rt; linear_sum(&m.words, &VALUES, k), Some(want));
    }
    Ok(())
}

// What is not worked out is never too large: the body over an empty set or one that is not there,
// and where the condition does not hold. The last two sums have a wrong node as their body and as
// their condition.
#[test]
fn left_out(rt: HostRuntime) -> Result<(), AllocError> {
    let mut m = stage(rt.alloc())?;
    m.table(1, 1, 3, &[1, 2, LIMIT])?;
    let huge = Some(m.relate(Relation::Less, ZERO, BIG)?);
    let below = m.relate(Relation::Less, I, TWO)?;
    let entry = m.entry(1, ZERO, I)?;
    let cases = [
        (m.sum(2, ALWAYS, BIG)?, Some(0)),
        (m.sum(3, ALWAYS, BIG)?, Some(0)),
        (m.sum(2, huge, TWO)?, Some(0)),
        (m.sum(0, Some(below), entry)?, Some(3)),
        (m.sum(1, ALWAYS, entry)?, Some(3)),
        (m.sum(0, ALWAYS, BIG)?, None),
        (m.sum(0, huge, TWO)?, None),
        (m.sum(0, ALWAYS, entry)?, None),
        (m.sum(0, ALWAYS, below)?, None),
        (m.sum(0, Some(TWO), TWO)?, None),
    ];
    for (k, want) in cases {
        assert_eq!(rt; linear_sum(&m.words, &VALUES, k), want);
    }
    Ok(())
}
