// Numbers, conditions, sums and constraints of a text, read into the words of a model.
//
// Each function reads one production at a place of the text and returns where it ends, or the fault
// that it met first; what it returns is what the reading function of the same name in the grammar
// says. Nodes are written as they are read, each behind the last. So a part of a node stands before
// it, and what was written once is never touched again.
//
// How many words are wanted. `free` is the first word that is free, `at` the place of the text. No
// production makes more than four words of three bytes, up to a constant, so where
// 3 free + 4 (65,536 - at) is less than three times the words there are, by some words, room never
// runs out, and no function on the way has to ask for it.
#![tactic(auto)]

pub mod conditions;
mod context;
pub mod nodes;
pub mod numbers;
pub mod rows;
pub mod sums;
pub mod terms;

use compose::Name;

// What was read and written: the place of its node, the first word behind its words, and where it
// ends in the text.
#[derive(Clone, Copy, Debug, PartialEq)]
pub struct Node {
    pub place: usize,
    pub next: usize,
    pub end: usize,
}

// What stood in square brackets: the nodes of the row and of the column.
#[derive(Clone, Copy, Debug, PartialEq)]
pub struct Places {
    pub row: usize,
    pub column: usize,
    pub next: usize,
    pub end: usize,
}

// An operator, a relation, a comparison or a sign, and where it ends.
#[derive(Clone, Copy, Debug, PartialEq)]
pub struct At<T> {
    pub value: T,
    pub end: usize,
}

// What a sum or an all goes through: the set's number, and where the index's name stands.
#[derive(Clone, Copy, Debug, PartialEq)]
pub struct Bound {
    pub set: usize,
    pub index: Name,
}

// The condition of a sum or an all, if there is one.
#[derive(Clone, Copy, Debug, PartialEq)]
pub struct Filter {
    pub condition: Option<usize>,
    pub next: usize,
    pub end: usize,
}

// A term, and whether a space follows it, which then belongs to it: what the space begins is not
// known before the byte behind it.
// A flag, since an enum would only say twice where the node is.
#[derive(Clone, Copy, Debug, PartialEq)]
pub struct TermAt {
    pub node: Node,
    pub spaced: bool,
}

// Terms with signs between them: how far up they wait, the first free word, where they end, and
// whether a space stood behind the last.
// A flag, as in a term.
#[derive(Clone, Copy, Debug, PartialEq)]
pub struct Run {
    pub top: usize,
    pub next: usize,
    pub end: usize,
    pub spaced: bool,
}

// The sum that waiting terms were chained to: the place of its first node, and the first free word.
#[derive(Clone, Copy, Debug, PartialEq)]
pub struct Chain {
    pub place: usize,
    pub next: usize,
}
