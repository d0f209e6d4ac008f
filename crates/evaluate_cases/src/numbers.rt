// Numbers: fixed ones, indexes, entries of tables, and these joined.
use crate::builder::*;
use evaluate::numbers::number;
use model::{Operator, Relation};
use std::alloc::{AllocError, Global};

// A fixed number is there below 2^62 in size.
#[test]
fn fixed_numbers(rt: HostRuntime) -> Result<(), AllocError> {
    let mut m = Builder::new(rt.alloc())?;
    let cases = [
        (m.fixed(MOST)?, Some(MOST)),
        (m.fixed(-MOST)?, Some(-MOST)),
        (BIG, None),
        (m.fixed(-LIMIT)?, None),
        (m.fixed(i64::MIN)?, None),
    ];
    for (k, want) in cases {
        assert_eq!(rt; number(&m.words, &[], k), want);
    }
    Ok(())
}

fn joined(alloc: Global, o: Operator, a: i64, b: i64) -> Result<Option<i64>, AllocError> {
    let mut m = Builder::new(alloc)?;
    let e = m.fixed(a)?;
    let f = m.fixed(b)?;
    let k = m.op(o, e, f)?;
    Ok(number(&m.words, &[], k))
}

const HALF: i64 = 1 << 61;

const ROOT: i64 = 1 << 31;

// Sums that just fit, and that just do not.
#[test]
fn joined_numbers(rt: HostRuntime) -> Result<(), AllocError> {
    const SUMS: [(i64, i64, Option<i64>); 9] = [
        (2, 3, Some(5)),
        (HALF, HALF - 1, Some(MOST)),
        (HALF, HALF, None),
        (-HALF, 1 - HALF, Some(-MOST)),
        (-HALF, -HALF, None),
        (MOST, -MOST, Some(0)),
        (MOST, MOST, None),
        (LIMIT, -1, None),
        (-1, LIMIT, None),
    ];
    for (a, b, want) in SUMS {
        assert_eq!(rt; joined(rt.alloc(), Operator::Plus, a, b)?, want);
    }
    const DIFFERENCES: [(i64, i64, Option<i64>); 7] = [
        (2, 3, Some(-1)),
        (HALF, 1 - HALF, Some(MOST)),
        (HALF, -HALF, None),
        (-HALF, HALF - 1, Some(-MOST)),
        (-HALF, HALF, None),
        (-MOST, MOST, None),
        (LIMIT, LIMIT, None),
    ];
    for (a, b, want) in DIFFERENCES {
        assert_eq!(rt; joined(rt.alloc(), Operator::Minus, a, b)?, want);
    }
    const PRODUCTS: [(i64, i64, Option<i64>); 10] = [
        (-6, 7, Some(-42)),
        (ROOT - 1, ROOT + 1, Some(MOST)),
        (ROOT, ROOT, None),
        (ROOT - 1, -ROOT - 1, Some(-MOST)),
        (ROOT, -ROOT, None),
        (1 << 32, 1 << 32, None),
        (MOST, MOST, None),
        (MOST, 0, Some(0)),
        (LIMIT, 0, None),
        (0, LIMIT, None),
    ];
    for (a, b, want) in PRODUCTS {
        assert_eq!(rt; joined(rt.alloc(), Operator::Times, a, b)?, want);
    }
    Ok(())
}

// A part that is too large or no number leaves nothing of the whole, however deep it lies.
#[test]
fn parts_without_result(rt: HostRuntime) -> Result<(), AllocError> {
    let mut m = Builder::new(rt.alloc())?;
    m.table(0, 1, 1, &[8])?;
    let most = m.fixed(MOST)?;
    let above = m.op(Operator::Plus, most, ONE)?;
    let deep = m.op(Operator::Minus, above, ONE)?;
    let less = m.relate(Relation::Less, ZERO, ONE)?;
    let nodes = [
        deep,
        m.op(Operator::Times, ZERO, deep)?,
        m.entry(0, deep, ZERO)?,
        m.entry(0, ZERO, deep)?,
        m.op(Operator::Plus, ONE, less)?,
        m.op(Operator::Plus, less, ONE)?,
    ];
    for k in nodes {
        assert_eq!(rt; number(&m.words, &[], k), None);
    }
    Ok(())
}

// Indexes by level, the outermost being 0; beyond those in force they are 0.
#[test]
fn indexes(rt: HostRuntime) -> Result<(), AllocError> {
    let mut m = Builder::new(rt.alloc())?;
    let cases = [
        (I, Some(5)),
        (J, Some(4_294_967_295)),
        (m.index(2)?, Some(9)),
        (m.index(3)?, Some(0)),
        (m.index(usize::MAX)?, Some(0)),
    ];
    for (k, want) in cases {
        assert_eq!(rt; number(&m.words, &[5, u32::MAX, 9], k), want);
    }
    Ok(())
}

// An entry of one of two tables, of which the second lies right behind the first.
fn entry(alloc: Global, t: usize, i: i64, j: i64) -> Result<Option<i64>, AllocError> {
    let mut m = Builder::new(alloc)?;
    m.table(0, 1, 4, &[70, -MOST, LIMIT, i64::MIN])?;
    m.table(1, 2, 3, &[1, 2, 3, 4, 5, 6])?;
    let e = m.fixed(i)?;
    let f = m.fixed(j)?;
    let k = m.entry(t, e, f)?;
    Ok(number(&m.words, &[], k))
}

// Entries of tables, and 0 beyond their ends. Without a look at the column by itself, column 3 of
// row 0 would be the 4 that begins row 1, and column -1 of row 1 the 3 that ends row 0; without a
// look at the row, row 1 of table 0 would begin with the 1 of the table behind it.
#[test]
fn entries(rt: HostRuntime) -> Result<(), AllocError> {
    const CASES: [(usize, i64, i64, Option<i64>); 25] = [
        (1, 0, 0, Some(1)),
        (1, 0, 2, Some(3)),
        (1, 1, 0, Some(4)),
        (1, 1, 2, Some(6)),
        (1, 0, 3, Some(0)),
        (1, 1, -1, Some(0)),
        (1, -1, 0, Some(0)),
        (1, -1, 3, Some(0)),
        (1, 2, 0, Some(0)),
        (1, 1000, 0, Some(0)),
        (1, 0, 1000, Some(0)),
        (1, MOST, MOST, Some(0)),
        (1, -MOST, -MOST, Some(0)),
        (0, 0, 0, Some(70)),
        (0, 0, 1, Some(-MOST)),
        (0, 0, 2, None),
        (0, 0, 3, None),
        (0, 1, 0, Some(0)),
        (2, 0, 0, Some(0)),
        (usize::MAX, 0, 0, Some(0)),
        (1, LIMIT, 0, None),
        (1, 0, LIMIT, None),
        (1, 0, -LIMIT, None),
        (1, 1000, LIMIT, None),
        (2, LIMIT, 0, None),
    ];
    for (t, i, j, want) in CASES {
        assert_eq!(rt; entry(rt.alloc(), t, i, j)?, want);
    }
    Ok(())
}
