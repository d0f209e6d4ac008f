// The grammar of texts, and what a text says.
//
// specs/ has what has to be believed: Grammar.antt (the trees that can be written, and how), Fine.antt
// (names that are there, numbers in range), Says.antt (the model of a text). Reading.antt is the way
// from left to right that stops at the first fault, which the code of the reader follows; the claims
// tie it to the grammar. There is no code here.
#![tactic(auto)]

// Why a text is refused, with the place that is told.
#[derive(Clone, Copy, Debug, PartialEq)]
pub enum Refusal {
    // no text goes on so
    Syntax(usize),
    // a name that is not there, is there already, or is of another sort; no objective, or two
    Name(usize),
    // a number out of range, too many, too deep, too long
    Range(usize),
}

pub mod claims;
