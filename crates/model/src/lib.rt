// The meaning of a model, and the words that a model is kept in.
//
// A model is sets, tables, variable arrays, constraints and an objective. What it means stands in
// specs/: Model.antt (what there is), Meaning.antt (values, feasible assignments, outcomes),
// Rows.antt (expanded rows). The types below are what both the meaning and the code speak of.
#![tactic(auto)]

// What joins two numbers. The number of each is the tag of its node (nodes.rt), as with relations,
// comparisons and signs.
#[derive(Clone, Copy, Debug, PartialEq)]
pub enum Operator {
    Plus = 4,
    Minus = 5,
    Times = 6,
}

// What a condition asks of two numbers.
#[derive(Clone, Copy, Debug, PartialEq)]
pub enum Relation {
    Less = 7,
    Equal = 8,
    Differ = 9,
}

// What a constraint asks of its two sides.
#[derive(Clone, Copy, Debug, PartialEq)]
pub enum Comparison {
    AtMost = 15,
    AtLeast = 16,
    Exactly = 17,
}

// How a term enters a sum.
#[derive(Clone, Copy, Debug, PartialEq)]
pub enum Sign {
    Positive = 12,
    Negative = 13,
}

// A node of a number, as its words say. The parts of a node are places of other nodes, which stand
// before it.
#[derive(Clone, Copy, Debug, PartialEq)]
pub enum NumNode {
    Fixed(i64),
    Index(usize),
    Entry(usize, usize, usize),
    Op(Operator, usize, usize),
}

// A node of a condition.
#[derive(Clone, Copy, Debug, PartialEq)]
pub enum CondNode {
    Relate(Relation, usize, usize),
    Both(usize, usize),
}

// A number before a variable: its node, the array, and the nodes of the variable's row and column.
#[derive(Clone, Copy, Debug, PartialEq)]
pub struct TermNode {
    pub number: usize,
    pub array: usize,
    pub row: usize,
    pub column: usize,
}

// What goes through a set: the set, the node of a condition if there is one, and that of the body.
#[derive(Clone, Copy, Debug, PartialEq)]
pub struct Over {
    pub set: usize,
    pub filter: Option<usize>,
    pub body: usize,
}

// A node of a linear sum: a number by itself, a number times a variable, a sum over a set; a term
// with its sign, and what follows it; nothing, the end of a chain.
#[derive(Clone, Copy, Debug, PartialEq)]
pub enum LinNode {
    Amount,
    Term(TermNode),
    Sum(Over),
    Chain(Sign, usize, usize),
    Nothing,
}

// A node of a constraint.
#[derive(Clone, Copy, Debug, PartialEq)]
pub enum ConstraintNode {
    Compare(Comparison, usize, usize),
    All(Over),
}

// A line of the text, by its sort and its number among those of its sort.
#[derive(Clone, Copy, Debug, PartialEq)]
pub enum Line {
    Set(usize),
    Table(usize),
    Variables(usize),
    Objective,
    Constraint(usize),
}

// What the terms of a row come to so far: its constant, and its terms with variables.
#[derive(Clone, Copy, Debug, PartialEq)]
pub struct Running {
    pub constant: i64,
    pub terms: i64,
}

pub mod claims;
pub mod nodes;
pub mod symbols;
