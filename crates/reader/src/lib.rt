// Reads the text of a model, line by line, into the words that a model is kept in.
//
// Each function takes the place at which its part has to stand, and returns what stands there and
// where it ends, or why the text is refused. What it returns is what the reading function of the
// same part in the grammar says. Parts that several lines share have a function of their own.
#![tactic(auto)]

mod declarations;
mod numbers;

use compose::Name;

// A size that stands in a text, and where it ends.
#[derive(Clone, Copy, Debug, PartialEq)]
pub struct SizeAt {
    pub size: usize,
    pub end: usize,
}

// A line that declares a set.
#[derive(Clone, Copy, Debug, PartialEq)]
pub struct SetLine {
    pub name: Name,
    pub size: usize,
    pub end: usize,
}

// What a line declares a table or a variable array with first.
#[derive(Clone, Copy, Debug, PartialEq)]
pub struct Shape {
    pub name: Name,
    pub rows: usize,
    pub columns: usize,
    pub end: usize,
}

// A line that declares a variable array, with the bounds of its variables.
#[derive(Clone, Copy, Debug, PartialEq)]
pub struct ArrayLine {
    pub shape: Shape,
    pub lower: i64,
    pub upper: i64,
    pub end: usize,
}

// A line that declares a table, and the first word behind the table's numbers.
#[derive(Clone, Copy, Debug, PartialEq)]
pub struct TableLine {
    pub shape: Shape,
    pub next: usize,
    pub end: usize,
}
