// What the names of a model stand for, and words that keep no model.
use crate::builder::*;
use evaluate::conditions::condition;
use evaluate::constraints::met;
use evaluate::numbers::number;
use evaluate::sums::linear_sum;
use model::Line;
use model::symbols::{constraint_place, line, objective_place, set_size, table_entry, variable};
use std::alloc::AllocError;

// A set of more than 1,000 elements is empty. There are at most 16 sets: behind them lie the words of
// tables.
#[test]
fn sets(rt: HostRuntime) -> Result<(), AllocError> {
    let mut m = Builder::new(rt.alloc())?;
    m.set(0, 1000);
    m.set(1, 1001);
    m.set(15, 7);
    m.table(0, 2, 3, &[])?;
    m.put(0, 17);
    for (k, size) in [(0, 1000), (1, 0), (15, 7), (16, 0)] {
        assert_eq!(rt; set_size(&m.words, k), size);
    }
    Ok(())
}

// A table of more than 1,000 rows or columns has none, and numbers beyond the words are 0. There are
// at most 16 tables: behind them lie the words of arrays.
#[test]
fn tables(rt: HostRuntime) -> Result<(), AllocError> {
    let mut m = Builder::new(rt.alloc())?;
    m.table(0, 1000, 1, &[8])?;
    m.table(1, 1, 1001, &[8])?;
    m.table(2, 1, 2, &[8, 8])?;
    m.array(0, 2, 3, 0, 1, 0);
    // The numbers of table 2 begin at the largest place that there is.
    m.put(90, u64::MAX);
    m.put(1, 17);
    // A table, a row and a column, and the entry.
    const CASES: [(usize, i64, i64, i64); 6] = [
        (0, 0, 0, 8),
        (0, 999, 0, 0),
        (1, 0, 0, 0),
        (2, 0, 0, 0),
        (2, 0, 1, 0),
        (16, 0, 0, 0),
    ];
    for (t, i, j, want) in CASES {
        assert_eq!(rt; table_entry(&m.words, t, i, j), want);
    }
    Ok(())
}

// An array of more than 1,000 rows or columns has none, and what would be above 16,000,000 as the
// number of a first variable is 0.
#[test]
fn arrays(rt: HostRuntime) -> Result<(), AllocError> {
    let mut m = Builder::new(rt.alloc())?;
    m.array(0, 1000, 1000, 0, 1, 16_000_000);
    m.array(1, 1, 1001, 0, 1, 5);
    m.array(2, 1, 1, 0, 1, 16_000_001);
    // An array, a row and a column, and the variable's number.
    const CASES: [(usize, i64, i64, Option<usize>); 5] = [
        (0, 999, 999, Some(16_999_999)),
        (0, 999, 1000, None),
        (1, 0, 0, None),
        (2, 0, 0, Some(0)),
        (3, 0, 0, None),
    ];
    for (a, i, j, want) in CASES {
        assert_eq!(rt; variable(&m.words, a, i, j), want);
    }
    Ok(())
}

// The nodes of constraints and of the objective. There are at most 256 constraints: behind them lie
// the words of lines.
#[test]
fn places(rt: HostRuntime) -> Result<(), AllocError> {
    let mut m = Builder::new(rt.alloc())?;
    m.put(4, 700);
    m.constraint(0, 640);
    m.constraint(255, 645);
    m.put(584, 1);
    m.put(3, 257);
    assert_eq!(rt; constraint_place(&m.words, 0), Some(640));
    assert_eq!(rt; constraint_place(&m.words, 255), Some(645));
    assert_eq!(rt; constraint_place(&m.words, 256), None);
    assert_eq!(rt; objective_place(&m.words), 700);
    Ok(())
}

// Each sort of line, others, and a line beyond the last.
#[test]
fn lines(rt: HostRuntime) -> Result<(), AllocError> {
    // A word for a sort, and the line with the number 70 and more.
    const CASES: [(u64, Option<Line>); 8] = [
        (5, Some(Line::Constraint(70))),
        (4, Some(Line::Objective)),
        (3, Some(Line::Variables(72))),
        (2, Some(Line::Table(73))),
        (1, Some(Line::Set(74))),
        (0, None),
        (6, None),
        (1, None),
    ];
    let mut m = Builder::new(rt.alloc())?;
    for (i, (sort, _)) in CASES.into_iter().enumerate() {
        assert!(rt; i < 8);
        m.put(584 + 4 * i, sort);
        m.put(585 + 4 * i, 70 + i as u64);
    }
    m.put(5, 7);
    for (i, (_, want)) in CASES.into_iter().enumerate() {
        assert_eq!(rt; line(&m.words, i), want);
    }
    Ok(())
}

// What every function says of words at a place.
#[derive(Clone, Copy, Debug, PartialEq)]
struct Answers {
    number: Option<i64>,
    condition: Option<bool>,
    sum: Option<i64>,
    met: Option<bool>,
    size: u32,
    entry: i64,
    variable: Option<usize>,
    line: Option<Line>,
}

fn said(words: &[u64], k: usize) -> Answers {
    Answers {
        number: number(words, &[1], k),
        condition: condition(words, &[1], k),
        sum: linear_sum(words, words, k),
        met: met(words, words, k),
        size: set_size(words, k),
        entry: table_entry(words, k, 0, 0),
        variable: variable(words, k, 0, 0),
        line: line(words, k),
    }
}

// No words, and words that are all as large as can be, keep nothing. A sum at place 0 is the end of
// a chain, and comes to 0.
#[test]
fn garbage(rt: HostRuntime) {
    const NOTHING: Answers = Answers {
        number: None,
        condition: None,
        sum: None,
        met: None,
        size: 0,
        entry: 0,
        variable: None,
        line: None,
    };
    const AT_ZERO: Answers = Answers {
        sum: Some(0),
        ..NOTHING
    };
    let full = [u64::MAX; 1024];
    assert_eq!(rt; said(&[], 0), AT_ZERO);
    assert_eq!(rt; said(&[], usize::MAX), NOTHING);
    assert_eq!(rt; said(&full, 0), AT_ZERO);
    for k in [600, 1019, 1020, usize::MAX] {
        assert_eq!(rt; said(&full, k), NOTHING);
    }
}
