// What the names of a model stand for, read from its words.
//
// The words begin with how many sets (word 0), tables (1), variable arrays (2) and constraints (3)
// there are, the objective's node (4), and how many lines (5). Then come, each with room for as
// many as there may be, sets from word 8 on (4 words each), tables from 72 (8 each), arrays from
// 200 (8 each), constraints from 328 (1 each), lines from 584 (4 each). Nodes and the numbers of
// tables lie behind. Every function answers for any words: what lies beyond them is 0.
ghost use Rattle.std.specs.Prelude.{◌≡◌, ℕ, ◌+◌, ◌*◌, ◌<◌, ◌≤◌, min, is_some, IfSome, if◌then◌else◌, Some, None, nat_lt, unsigned_abs};
ghost use Rattle.model.specs.Kept.{symbols_in, Numbered};
ghost use Rattle.model.specs.Meaning.{below, inside, place as place_in, entry_of, size_of, table_of, present, variable as variable_of};
ghost use Rattle.model.specs.Words.{word as word_in, limited as limited_to, constraint_count, constraint_place as node_of, objective_place as objective_of, line_at, line_of};
ghost use Rattle.std.specs.Int.{w64};
ghost use Rattle.std.proofs.Common.{to_z};

use crate::Line;

// There are at most so many sets, and tables, and arrays; constraints; lines; elements of a set,
// rows or columns; variables.
pub const MOST_SYMBOLS: usize = 16;

pub const MOST_CONSTRAINTS: usize = 256;

pub const MOST_LINES: usize = 305;

const MOST_ROWS: u64 = 1000;

const MOST_VARIABLES: u64 = 16_000_000;

// A word, and 0 beyond the last.
fn word(words: &[u64], i: usize) -> u64
    ensures { result ≡ word_in words.now i }
{
    words.get(i).copied().unwrap_or(0)
}

// How many there are of what word i counts, `most` at most.
fn count(words: &[u64], i: usize, most: usize) -> usize
    ensures { result ≡ min most (word_in words.now i) }
{
    most.min(word(words, i) as usize)
}

// Word i, or 0 where it is above what it may be.
fn limited(words: &[u64], i: usize, most: u64) -> usize
    ensures value { result ≡ limited_to most (word_in words.now i) }
    ensures bound { result ≤ most }
{
    let n = word(words, i);
    if n <= most { n as usize } else { 0 }
}

// A whole number as one of 0 up to n - 1.
fn index_below(i: i64, n: usize) -> Option<usize>
    ensures value { result ≡ (if below n i then Some (unsigned_abs i) else None) }
    ensures bound { IfSome result (λ k. k < n) }
{
    usize::try_from(i).ok().filter(|k| *k < n)
}

// The place of row i and column j, counted row by row, or none beyond the ends.
fn place(rows: usize, columns: usize, i: i64, j: i64) -> Option<usize>
    requires { (rows ≤ 1000) × (columns ≤ 1000) }
    ensures value { result ≡ (if inside rows columns i j then Some (place_in columns i j) else None) }
    ensures bound { IfSome result (λ k. (k < rows * columns) × (k < 1000000)) }
{
    Some(index_below(i, rows)? * columns + index_below(j, columns)?)
}

// The number with sign in the word `offset` behind `start`.
fn number_behind(words: &[u64], start: usize, offset: usize) -> i64
    ensures { result ≡ to_z w64 (word_in words.now (start + offset)) }
{
    let Some(i) = start.checked_add(offset) else {
        return 0;
    };
    word(words, i).cast_signed()
}

// The size of set k; 0 where there is none.
pub fn set_size(words: &[u64], k: usize) -> u32
    ensures { result ≡ size_of (symbols_in words.now) k }
{
    if k >= count(words, 0, MOST_SYMBOLS) {
        return 0;
    }
    limited(words, 8 + 4 * k, MOST_ROWS) as u32
}

// The entry of table t in row i and column j; 0 beyond its ends, and where there is no such table.
pub fn table_entry(words: &[u64], t: usize, i: i64, j: i64) -> i64
    ensures { result ≡ entry_of (table_of (symbols_in words.now) t) i j }
{
    if t >= count(words, 1, MOST_SYMBOLS) {
        return 0;
    }
    let rows = limited(words, 72 + 8 * t, MOST_ROWS);
    let columns = limited(words, 73 + 8 * t, MOST_ROWS);
    match place(rows, columns, i, j) {
        Some(p) => number_behind(words, word(words, 74 + 8 * t) as usize, p),
        None => 0,
    }
}

// The number of the variable of array a in row i and column j, or none beyond its ends.
pub fn variable(words: &[u64], a: usize, i: i64, j: i64) -> Option<usize>
    ensures test { is_some result ≡ present (symbols_in words.now) a i j }
    ensures value { Numbered words.now → IfSome result (λ u. u ≡ variable_of (symbols_in words.now) a i j) }
{
    if a >= count(words, 2, MOST_SYMBOLS) {
        return None;
    }
    let rows = limited(words, 200 + 8 * a, MOST_ROWS);
    let columns = limited(words, 201 + 8 * a, MOST_ROWS);
    Some(limited(words, 204 + 8 * a, MOST_VARIABLES) + place(rows, columns, i, j)?)
}

// The node of constraint k, or none where there are no more.
pub fn constraint_place(words: &[u64], k: usize) -> Option<usize>
    ensures { result ≡ (if nat_lt k (constraint_count words.now) then Some (node_of words.now k) else None) }
{
    if k < count(words, 3, MOST_CONSTRAINTS) {
        Some(word(words, 328 + k) as usize)
    } else {
        None
    }
}

// The node of the objective.
pub fn objective_place(words: &[u64]) -> usize
    ensures { result ≡ objective_of words.now }
{
    word(words, 4) as usize
}

// Line i of the text, in the text's order, or none where there are no more.
pub fn line(words: &[u64], i: usize) -> Option<Line>
    ensures { result ≡ line_at words.now i }
{
    if i >= count(words, 5, MOST_LINES) {
        return None;
    }
    let n = word(words, 585 + 4 * i) as usize;
    match word(words, 584 + 4 * i) {
        1 => Some(Line::Set(n)),
        2 => Some(Line::Table(n)),
        3 => Some(Line::Variables(n)),
        4 => Some(Line::Objective),
        5 => Some(Line::Constraint(n)),
        _ => None,
    }
}
