// Conditions, and the optional one after `where`.
use crate::builder::*;
use evaluate::conditions::{condition, passes};
use model::Relation;
use std::alloc::{AllocError, Global};

// Whether two numbers stand in a relation.
fn related(alloc: Global, r: Relation, a: i64, b: i64) -> Result<Option<bool>, AllocError> {
    let mut m = Builder::new(alloc)?;
    let e = m.fixed(a)?;
    let f = m.fixed(b)?;
    let k = m.relate(r, e, f)?;
    Ok(condition(&m.words, &[], k))
}

// Each relation at equal numbers, below and above.
#[test]
fn relations(rt: HostRuntime) -> Result<(), AllocError> {
    // The numbers, and whether the first is less, equal, different.
    const CASES: [(i64, i64, bool, bool, bool); 9] = [
        (2, 2, false, true, false),
        (1, 2, true, false, true),
        (3, 2, false, false, true),
        (-2, -2, false, true, false),
        (-3, -2, true, false, true),
        (-1, -2, false, false, true),
        (-2, 2, true, false, true),
        (-MOST, MOST, true, false, true),
        (MOST, -MOST, false, false, true),
    ];
    for (a, b, less, equal, differ) in CASES {
        assert_eq!(rt; related(rt.alloc(), Relation::Less, a, b)?, Some(less));
        assert_eq!(rt; related(rt.alloc(), Relation::Equal, a, b)?, Some(equal));
        assert_eq!(rt; related(rt.alloc(), Relation::Differ, a, b)?, Some(differ));
    }
    // where a number is too large
    const TOO_LARGE: [(i64, i64); 3] = [(LIMIT, 0), (0, -LIMIT), (LIMIT, LIMIT)];
    for (a, b) in TOO_LARGE {
        assert_eq!(rt; related(rt.alloc(), Relation::Less, a, b)?, None);
        assert_eq!(rt; related(rt.alloc(), Relation::Equal, a, b)?, None);
        assert_eq!(rt; related(rt.alloc(), Relation::Differ, a, b)?, None);
    }
    Ok(())
}

// Of two conditions the second is looked at only where the first holds.
#[test]
fn both_hold(rt: HostRuntime) -> Result<(), AllocError> {
    let mut m = Builder::new(rt.alloc())?;
    let yes = m.relate(Relation::Equal, ZERO, ZERO)?;
    let no = m.relate(Relation::Differ, ZERO, ZERO)?;
    let huge = m.relate(Relation::Less, ZERO, BIG)?;
    let no_huge = m.both(no, huge)?;
    let yes_huge = m.both(yes, huge)?;
    let cases = [
        (m.both(yes, yes)?, Some(true)),
        (m.both(yes, no)?, Some(false)),
        (m.both(no, yes)?, Some(false)),
        (no_huge, Some(false)),
        (m.both(yes, no_huge)?, Some(false)),
        (m.both(no_huge, yes_huge)?, Some(false)),
        (m.both(no, ZERO)?, Some(false)),
        (yes_huge, None),
        (m.both(yes, yes_huge)?, None),
        (m.both(huge, no)?, None),
        (m.both(yes, ZERO)?, None),
    ];
    for (k, want) in cases {
        assert_eq!(rt; condition(&m.words, &[], k), want);
    }
    Ok(())
}

// Conditions on indexes; where there is no condition every index passes.
#[test]
fn indexes_that_pass(rt: HostRuntime) -> Result<(), AllocError> {
    let mut m = Builder::new(rt.alloc())?;
    let rising = Some(m.relate(Relation::Less, I, J)?);
    assert_eq!(rt; passes(&m.words, &[0, 1], rising), Some(true));
    assert_eq!(rt; passes(&m.words, &[1, 1], rising), Some(false));
    assert_eq!(rt; passes(&m.words, &[2, 1], rising), Some(false));
    assert_eq!(rt; passes(&m.words, &[2, 1], ALWAYS), Some(true));
    assert_eq!(rt; passes(&m.words, &[2, 1], Some(I)), None);
    Ok(())
}
