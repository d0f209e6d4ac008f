// Nodes, decoded from words.
use model::nodes::{cond_node, constraint_node, lin_node, num_node};
use model::{
    Comparison, CondNode, ConstraintNode, LinNode, NumNode, Operator, Over, Relation, Sign,
    TermNode,
};

// What stands at a word, as a number, a condition, a sum and a constraint.
#[derive(Clone, Copy, Debug, PartialEq)]
struct Readings {
    number: Option<NumNode>,
    condition: Option<CondNode>,
    sum: Option<LinNode>,
    constraint: Option<ConstraintNode>,
}

// What is no node at all.
const NOTHING: Readings = Readings {
    number: None,
    condition: None,
    sum: None,
    constraint: None,
};

// Words that end with a node at word 20.
fn ending_with(tag: u64, parts: [u64; 4]) -> [u64; 25] {
    let mut words = [0; 25];
    words[20] = tag;
    words[21..].copy_from_slice(&parts);
    words
}

// What stands at word 20.
fn decoded(words: &[u64]) -> Readings {
    Readings {
        number: num_node(words, 20),
        condition: cond_node(words, 20),
        sum: lin_node(words, 20),
        constraint: constraint_node(words, 20),
    }
}

// What goes through set 16, or through what a node with the parts 16 to 19 says.
const OVER: Over = Over {
    set: 16,
    filter: Some(17),
    body: 18,
};

// What a number's node with the parts 16 to 19 is read as. The parts stand before it.
fn number(tag: u64) -> Option<NumNode> {
    match tag {
        1 => Some(NumNode::Fixed(16)),
        2 => Some(NumNode::Index(16)),
        3 => Some(NumNode::Entry(16, 17, 18)),
        4 => Some(NumNode::Op(Operator::Plus, 16, 17)),
        5 => Some(NumNode::Op(Operator::Minus, 16, 17)),
        6 => Some(NumNode::Op(Operator::Times, 16, 17)),
        _ => None,
    }
}

// The same for a condition.
fn condition(tag: u64) -> Option<CondNode> {
    match tag {
        7 => Some(CondNode::Relate(Relation::Less, 16, 17)),
        8 => Some(CondNode::Relate(Relation::Equal, 16, 17)),
        9 => Some(CondNode::Relate(Relation::Differ, 16, 17)),
        10 => Some(CondNode::Both(16, 17)),
        _ => None,
    }
}

// The same for a sum; a number by itself is an amount whatever it is.
fn sum(tag: u64) -> Option<LinNode> {
    match tag {
        1..=6 => Some(LinNode::Amount),
        11 => {
            Some(LinNode::Term(TermNode {
                number: 16,
                array: 17,
                row: 18,
                column: 19,
            }))
        }
        12 => Some(LinNode::Chain(Sign::Positive, 16, 17)),
        13 => Some(LinNode::Chain(Sign::Negative, 16, 17)),
        14 => Some(LinNode::Sum(OVER)),
        _ => None,
    }
}

// The same for a constraint.
fn constraint(tag: u64) -> Option<ConstraintNode> {
    match tag {
        15 => Some(ConstraintNode::Compare(Comparison::AtMost, 16, 17)),
        16 => Some(ConstraintNode::Compare(Comparison::AtLeast, 16, 17)),
        17 => Some(ConstraintNode::Compare(Comparison::Exactly, 16, 17)),
        18 => Some(ConstraintNode::All(OVER)),
        _ => None,
    }
}

// Each tag, and others: as which of the four a node is read, and what its parts are. With a word
// less it is none.
#[test]
fn tags(rt: HostRuntime) {
    for tag in 0..40 {
        let words = ending_with(tag, [16, 17, 18, 19]);
        let wanted = Readings {
            number: number(tag),
            condition: condition(tag),
            sum: sum(tag),
            constraint: constraint(tag),
        };
        assert_eq!(rt; decoded(&words), wanted);
        assert_eq!(rt; decoded(&words[0..24]), NOTHING);
    }
}

// Which parts of a node are nodes.
fn node_parts(tag: u64) -> [bool; 4] {
    match tag {
        1 | 2 => [false, false, false, false],
        3 | 14 | 18 => [false, true, true, false],
        11 => [true, false, true, true],
        _ => [true, true, false, false],
    }
}

// Whether there is a node of the sort that its tag says.
fn is_node(tag: u64, parts: [u64; 4]) -> bool {
    let found = decoded(&ending_with(tag, parts));
    match tag {
        1..=6 => found.number.is_some(),
        7..=10 => found.condition.is_some(),
        11..=14 => found.sum.is_some(),
        _ => found.constraint.is_some(),
    }
}

// A part that is a node has to stand before the node; one that is not may be any word. All other
// parts are 19.
#[test]
fn parts(rt: HostRuntime) {
    for tag in 1..19 {
        for (p, is_part) in node_parts(tag).into_iter().enumerate() {
            let mut parts = [19; 4];
            assert!(rt; p < 4);
            assert!(rt; is_node(tag, parts));
            for behind in [20, u64::MAX] {
                parts[p] = behind;
                assert_eq!(rt; is_node(tag, parts), !is_part);
            }
        }
    }
}
