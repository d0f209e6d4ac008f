// Writes the words that a model is kept in.
//
// A reader of a model's text goes through it once. It writes a head when it has read a line, and
// nodes as it goes, each behind the last. A node changes no word but its own, and a head none but
// its own and its count, so that what has been written before stays what it is.
#![tactic(auto)]

// Heads take the words below this place, nodes and the numbers of tables those from it on.
pub const FIRST_NODE: usize = 1808;

// Where a name stands in the text: from `begin` up to `end`.
#[derive(Clone, Copy, Debug, PartialEq)]
pub struct Name {
    pub begin: usize,
    pub end: usize,
}

// Why a head is not written: there may be no more of its sort, or the words have no room for all
// heads.
#[derive(Clone, Copy, Debug, PartialEq)]
pub enum Unwritten {
    TooMany,
    NoRoom,
}

// A table's size, and the place of its first number.
#[derive(Clone, Copy, Debug, PartialEq)]
pub struct TableHead {
    pub rows: usize,
    pub columns: usize,
    pub start: usize,
}

// An array's size, the bounds of its variables, and the number of the first of them.
#[derive(Clone, Copy, Debug, PartialEq)]
pub struct ArrayHead {
    pub rows: usize,
    pub columns: usize,
    pub lower: i64,
    pub upper: i64,
    pub first: usize,
}

pub mod heads;
pub mod nodes;
