// Nodes of a model's expressions, decoded from words.
//
// A node begins at any word: a tag and up to four parts. A part that is another node is its place,
// and stands before the node, so that a walk over nodes comes to an end; a node with a part that
// does not is none. Five words are looked at whatever the tag, so behind the last node there are
// four words more.
//
//     1 Fixed number          7 Less number number      11 Term number array number number
//     2 Index level           8 Equal number number     12 Chain term rest (added)
//     3 Entry table row col   9 Differ number number    13 Chain term rest (taken away)
//     4 Plus number number   10 Both cond cond          14 Sum set cond sum
//     5 Minus number number                             15 AtMost sum sum
//     6 Times number number                             16 AtLeast sum sum
//                                                       17 Exactly sum sum
//                                                       18 All set cond constraint
//
// A number that stands where a sum is wanted is a sum of that number alone. No node is ever at place
// 0: a condition there is none, and a sum there is nothing, the end of a chain. A chain goes from
// its first term to its last, so that it can be gone through in a loop.
ghost use Rattle.std.specs.Prelude.{◌≡◌, ◌+◌, length, take, drop, is_some, IfSome, nat_le};
ghost use Rattle.model.specs.Words.{num_at, cond_at, lin_at, constraint_at, over_of};

use crate::{
    Comparison, CondNode, ConstraintNode, LinNode, NumNode, Operator, Over, Relation, Sign,
    TermNode,
};

// The five words that begin at a place.
fn five(words: &[u64], k: usize) -> Option<[u64; 5]>
    ensures there { is_some result ≡ nat_le (k + 5) (length words.now) }
    ensures words { IfSome result (λ ws. ws ≡ take 5 (drop k words.now)) }
{
    words.get(k..)?.first_chunk().copied()
}

// The number that begins at word k.
pub fn num_node(words: &[u64], k: usize) -> Option<NumNode>
    ensures { result ≡ num_at words.now k }
{
    let [tag, a, b, c, _] = five(words, k)?;
    let here = k as u64;
    let before = a < here && b < here;
    match tag {
        1 => Some(NumNode::Fixed(a.cast_signed())),
        2 => Some(NumNode::Index(a as usize)),
        3 if b < here && c < here => Some(NumNode::Entry(a as usize, b as usize, c as usize)),
        4 if before => Some(NumNode::Op(Operator::Plus, a as usize, b as usize)),
        5 if before => Some(NumNode::Op(Operator::Minus, a as usize, b as usize)),
        6 if before => Some(NumNode::Op(Operator::Times, a as usize, b as usize)),
        _ => None,
    }
}

// The condition that begins at word k.
pub fn cond_node(words: &[u64], k: usize) -> Option<CondNode>
    ensures { result ≡ cond_at words.now k }
{
    let [tag, a, b, _, _] = five(words, k)?;
    let here = k as u64;
    if a >= here || b >= here {
        return None;
    }
    match tag {
        7 => Some(CondNode::Relate(Relation::Less, a as usize, b as usize)),
        8 => Some(CondNode::Relate(Relation::Equal, a as usize, b as usize)),
        9 => Some(CondNode::Relate(Relation::Differ, a as usize, b as usize)),
        10 => Some(CondNode::Both(a as usize, b as usize)),
        _ => None,
    }
}

// A set, a condition or none, and a body.
fn over(set: u64, filter: u64, body: u64) -> Over
    ensures { result ≡ over_of set filter body }
{
    Over {
        set: set as usize,
        filter: (filter != 0).then_some(filter as usize),
        body: body as usize,
    }
}

// The sum that begins at word k.
pub fn lin_node(words: &[u64], k: usize) -> Option<LinNode>
    ensures { result ≡ lin_at words.now k }
{
    if k == 0 {
        return Some(LinNode::Nothing);
    }
    let [tag, a, b, c, d] = five(words, k)?;
    let here = k as u64;
    match tag {
        1..=6 => Some(LinNode::Amount),
        11 if a < here && c < here && d < here => {
            Some(LinNode::Term(TermNode {
                number: a as usize,
                array: b as usize,
                row: c as usize,
                column: d as usize,
            }))
        }
        12 if a < here && b < here => Some(LinNode::Chain(Sign::Positive, a as usize, b as usize)),
        13 if a < here && b < here => Some(LinNode::Chain(Sign::Negative, a as usize, b as usize)),
        14 if b < here && c < here => Some(LinNode::Sum(over(a, b, c))),
        _ => None,
    }
}

// The constraint that begins at word k.
pub fn constraint_node(words: &[u64], k: usize) -> Option<ConstraintNode>
    ensures { result ≡ constraint_at words.now k }
{
    let [tag, a, b, c, _] = five(words, k)?;
    let here = k as u64;
    let before = a < here && b < here;
    match tag {
        15 if before => Some(ConstraintNode::Compare(Comparison::AtMost, a as usize, b as usize)),
        16 if before => Some(ConstraintNode::Compare(Comparison::AtLeast, a as usize, b as usize)),
        17 if before => Some(ConstraintNode::Compare(Comparison::Exactly, a as usize, b as usize)),
        18 if b < here && c < here => Some(ConstraintNode::All(over(a, b, c))),
        _ => None,
    }
}
