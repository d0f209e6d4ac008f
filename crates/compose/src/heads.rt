// Heads of a model's sets, tables, arrays, constraints and lines.
//
// Head k is the last of its sort: writing it makes their count k + 1. Where there may be no head k, or
// the words have no room for all heads, nothing changes, and which it was is told.
ghost use Rattle.std.specs.Prelude.{◌≡◌, ℕ, ◌+◌, ◌*◌, ◌<◌, ◌≤◌, [], ◌∷◌, length, OnOk};
ghost use Rattle.compose.specs.Heads.{Puts, line_sort, line_number};
ghost use Rattle.compose.specs.Writes.{Holds};
ghost use Rattle.model.specs.Words.{word, limited, set_count, set_size, table_count, table_rows, table_columns, table_start, array_count, array_rows, array_columns, array_lower, array_upper, array_first, constraint_count, constraint_place, objective_place, line_count, line_at};

use crate::{ArrayHead, FIRST_NODE, Name, TableHead, Unwritten};
use model::Line;
use model::symbols::{MOST_CONSTRAINTS, MOST_LINES, MOST_SYMBOLS};

// Writes a head at a place, and how many there are now into the word `count`.
fn put_head(
    words: &mut [u64],
    place: usize,
    head: &[u64],
    count: usize,
    many: usize,
) -> Result<(), Unwritten>
    requires order { count < place }
    requires within { place + length head.now ≤ 1808 }
    ensures put { Puts 0 1 count place (place + length head.now) result words.old words.new }
    ensures count { OnOk result (word words.new count ≡ many) }
    ensures here { OnOk result (Holds words.new place head.now) }
{
    if words.len() < FIRST_NODE {
        return Err(Unwritten::NoRoom);
    }
    words[count] = many as u64;
    words[place..place + head.len()].copy_from_slice(head);
    Ok(())
}

// A set: its size. A size above 1000 counts for nothing when it is read.
pub fn put_set(words: &mut [u64], k: usize, size: usize, name: Name) -> Result<(), Unwritten>
    ensures put { Puts k 16 0 (8 + 4 * k) (11 + 4 * k) result words.old words.new }
    ensures count { OnOk result (set_count words.new ≡ k + 1) }
    ensures size { OnOk result (set_size words.new k ≡ limited 1000 size) }
    ensures name { OnOk result ((word words.new (9 + 4 * k) ≡ name.begin) × (word words.new (10 + 4 * k) ≡ name.end)) }
{
    if k >= MOST_SYMBOLS {
        return Err(Unwritten::TooMany);
    }
    let head = [size as u64, name.begin as u64, name.end as u64];
    put_head(words, 8 + 4 * k, &head, 0, k + 1)
}

// A table: its size, and where its numbers begin.
pub fn put_table(words: &mut [u64], k: usize, table: TableHead, name: Name) -> Result<(), Unwritten>
    ensures put { Puts k 16 1 (72 + 8 * k) (77 + 8 * k) result words.old words.new }
    ensures count { OnOk result (table_count words.new ≡ k + 1) }
    ensures rows { OnOk result (table_rows words.new k ≡ limited 1000 table.rows) }
    ensures columns { OnOk result (table_columns words.new k ≡ limited 1000 table.columns) }
    ensures start { OnOk result (table_start words.new k ≡ table.start) }
    ensures name { OnOk result ((word words.new (75 + 8 * k) ≡ name.begin) × (word words.new (76 + 8 * k) ≡ name.end)) }
{
    if k >= MOST_SYMBOLS {
        return Err(Unwritten::TooMany);
    }
    let head = [
        table.rows as u64,
        table.columns as u64,
        table.start as u64,
        name.begin as u64,
        name.end as u64,
    ];
    put_head(words, 72 + 8 * k, &head, 1, k + 1)
}

// A variable array: its size, the bounds of its variables, and the number of the first.
pub fn put_array(words: &mut [u64], k: usize, array: ArrayHead, name: Name) -> Result<(), Unwritten>
    ensures put { Puts k 16 2 (200 + 8 * k) (207 + 8 * k) result words.old words.new }
    ensures count { OnOk result (array_count words.new ≡ k + 1) }
    ensures rows { OnOk result (array_rows words.new k ≡ limited 1000 array.rows) }
    ensures columns { OnOk result (array_columns words.new k ≡ limited 1000 array.columns) }
    ensures lower { OnOk result (array_lower words.new k ≡ array.lower) }
    ensures upper { OnOk result (array_upper words.new k ≡ array.upper) }
    ensures first { OnOk result (array_first words.new k ≡ limited 16000000 array.first) }
    ensures name { OnOk result ((word words.new (205 + 8 * k) ≡ name.begin) × (word words.new (206 + 8 * k) ≡ name.end)) }
{
    if k >= MOST_SYMBOLS {
        return Err(Unwritten::TooMany);
    }
    let head = [
        array.rows as u64,
        array.columns as u64,
        array.lower.cast_unsigned(),
        array.upper.cast_unsigned(),
        array.first as u64,
        name.begin as u64,
        name.end as u64,
    ];
    put_head(words, 200 + 8 * k, &head, 2, k + 1)
}

// A constraint: its node.
pub fn put_constraint(words: &mut [u64], k: usize, node: usize) -> Result<(), Unwritten>
    ensures put { Puts k 256 3 (328 + k) (329 + k) result words.old words.new }
    ensures count { OnOk result (constraint_count words.new ≡ k + 1) }
    ensures node { OnOk result (constraint_place words.new k ≡ node) }
{
    if k >= MOST_CONSTRAINTS {
        return Err(Unwritten::TooMany);
    }
    put_head(words, 328 + k, &[node as u64], 3, k + 1)
}

// The objective: its node. There is one, and nothing counts it.
pub fn put_objective(words: &mut [u64], node: usize) -> Result<(), Unwritten>
    ensures put { Puts 0 1 4 4 5 result words.old words.new }
    ensures node { OnOk result (objective_place words.new ≡ node) }
{
    if words.len() < FIRST_NODE {
        return Err(Unwritten::NoRoom);
    }
    words[4] = node as u64;
    Ok(())
}

// The sort of a line and its number, 0 where there is none. Not by From, which would
// want a type of our own around the two words: neither type is this crate's.
fn line_words(line: Option<Line>) -> [u64; 2]
    ensures { result ≡ line_sort line ∷ (line_number line ∷ []) }
{
    match line {
        None => [0, 0],
        Some(Line::Set(n)) => [1, n as u64],
        Some(Line::Table(n)) => [2, n as u64],
        Some(Line::Variables(n)) => [3, n as u64],
        Some(Line::Objective) => [4, 0],
        Some(Line::Constraint(n)) => [5, n as u64],
    }
}

// A line of the text by its sort and number, so that it can be told again, and where it begins; none
// is read as none.
pub fn put_line(
    words: &mut [u64],
    k: usize,
    line: Option<Line>,
    place: usize,
) -> Result<(), Unwritten>
    ensures put { Puts k 305 5 (584 + 4 * k) (587 + 4 * k) result words.old words.new }
    ensures count { OnOk result (line_count words.new ≡ k + 1) }
    ensures here { OnOk result (line_at words.new k ≡ line) }
    ensures place { OnOk result (word words.new (586 + 4 * k) ≡ place) }
{
    if k >= MOST_LINES {
        return Err(Unwritten::TooMany);
    }
    let [sort, number] = line_words(line);
    put_head(words, 584 + 4 * k, &[sort, number, place as u64], 5, k + 1)
}
