// Sums and alls within each other: eight deep, and no deeper. Nothing keeps them busy for ever where
// there is nothing to do: eight sets of 1,000 within each other would be gone through 10^24 times.
use crate::builder::*;
use evaluate::sums::linear_sum;
use model::{Comparison, Sign};
use std::alloc::{AllocError, Global};

// Sets of 1,000, one, two and no elements.
fn stage(alloc: Global) -> Result<Builder, AllocError> {
    let mut m = Builder::new(alloc)?;
    m.set(0, 1000);
    m.set(1, 1);
    m.set(2, 2);
    m.set(3, 0);
    Ok(m)
}

// So many sums over a set within each other, around a body.
fn sums_around(m: &mut Builder, n: usize, set: usize, body: usize) -> Result<usize, AllocError> {
    let mut k = body;
    for _ in 0..n {
        k = m.sum(set, ALWAYS, k)?;
    }
    Ok(k)
}

// The same for alls.
fn alls_around(m: &mut Builder, n: usize, set: usize, body: usize) -> Result<usize, AllocError> {
    let mut k = body;
    for _ in 0..n {
        k = m.all(set, ALWAYS, k)?;
    }
    Ok(k)
}

// Sums over sets of 1,000 around an empty one are 0 at once; eight sums are worked out, and nine not.
#[test]
fn nested_sums(rt: HostRuntime) -> Result<(), AllocError> {
    let mut m = stage(rt.alloc())?;
    let last = m.index(7)?;
    let empty = m.sum(3, ALWAYS, ONE)?;
    let twice = m.chain(Sign::Negative, empty, empty)?;
    // One, and beside it what comes to 0 at once.
    let six = sums_around(&mut m, 6, 0, empty)?;
    let beside = m.chain(Sign::Positive, ONE, six)?;
    // How many sums, over which set, around what, and what they come to.
    let cases = [
        (7, 0, empty, Some(0)),
        (8, 0, empty, Some(0)),
        (8, 0, twice, Some(0)),
        (1, 0, beside, Some(1000)),
        (8, 1, ONE, Some(1)),
        (8, 2, ONE, Some(256)),
        (8, 2, last, Some(128)),
        (9, 1, ONE, None),
        (9, 2, ONE, None),
        (9, 0, ONE, None),
    ];
    for (n, set, body, want) in cases {
        let k = sums_around(&mut m, n, set, body)?;
        assert_eq!(rt; linear_sum(&m.words, &[], k), want);
    }
    Ok(())
}

// Alls over sets of 1,000 around an empty one are met at once; eight alls are looked at, and nine not.
#[test]
fn nested_alls(rt: HostRuntime) -> Result<(), AllocError> {
    let mut m = stage(rt.alloc())?;
    let last = m.index(7)?;
    let fits = m.compare(Comparison::AtMost, ZERO, ONE)?;
    let fails = m.compare(Comparison::AtMost, ONE, ZERO)?;
    let at_last = m.compare(Comparison::AtMost, last, ZERO)?;
    let empty = m.all(3, ALWAYS, fails)?;
    // How many alls, over which set, around what, and whether they are met.
    let cases = [
        (7, 0, empty, Some(true)),
        (8, 0, empty, Some(true)),
        (8, 0, fails, Some(false)),
        (8, 1, fits, Some(true)),
        (8, 1, fails, Some(false)),
        (8, 1, at_last, Some(true)),
        (8, 2, at_last, Some(false)),
        (9, 1, fits, None),
        (9, 1, fails, None),
        (9, 0, fits, None),
    ];
    for (n, set, body, want) in cases {
        let k = alls_around(&mut m, n, set, body)?;
        assert_eq!(rt; m.met(&[], k), want);
    }
    Ok(())
}

// So many alls around two sides of so many sums.
fn mixed(
    alloc: Global,
    alls: usize,
    left: usize,
    right: usize,
) -> Result<Option<bool>, AllocError> {
    let mut m = stage(alloc)?;
    let l = sums_around(&mut m, left, 1, ONE)?;
    let r = sums_around(&mut m, right, 1, ONE)?;
    let body = m.compare(Comparison::Exactly, l, r)?;
    let k = alls_around(&mut m, alls, 1, body)?;
    Ok(m.met(&[], k))
}

// Sums within alls: eight of both together.
#[test]
fn sums_in_alls(rt: HostRuntime) -> Result<(), AllocError> {
    const CASES: [(usize, usize, usize, Option<bool>); 7] = [
        (0, 8, 8, Some(true)),
        (4, 4, 4, Some(true)),
        (7, 1, 0, Some(true)),
        (8, 0, 0, Some(true)),
        (8, 1, 0, None),
        (8, 0, 1, None),
        (4, 4, 5, None),
    ];
    for (alls, left, right, want) in CASES {
        assert_eq!(rt; mixed(rt.alloc(), alls, left, right)?, want);
    }
    Ok(())
}
