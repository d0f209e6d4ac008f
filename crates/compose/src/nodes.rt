// Nodes of a model's expressions and the numbers of its tables, each written where the last one
// ends.
//
// A place is refused if it lies among the heads, if fewer than five words begin there (reading
// looks at five), or if a part of the node does not stand before it. What is refused changes
// nothing. A node or a number changes no word but its own: those before and behind it stay. The
// next begins behind it, and that is what is returned.
ghost use Rattle.std.specs.Prelude.{◌≡◌, ℕ, ◌+◌, ◌≤◌, ◌&&◌, Bool, true, List, [], ◌∷◌, length, if◌then◌else◌, Some, None, Option, OnSome, nat_lt};
ghost use Rattle.compose.specs.Agree.{Agree, Behind};
ghost use Rattle.compose.specs.Writes.{Appends, Holds, filter_place, filter_before, num_size, num_fits, cond_size, cond_fits, lin_size, lin_fits, constraint_size, constraint_fits};
ghost use Rattle.model.specs.Words.{word, num_at, cond_at, lin_at, constraint_at};
ghost use Rattle.model.specs.declared.NumNode.TheVariants.{Entry};
ghost use Rattle.model.specs.declared.LinNode.TheVariants.{Term};
ghost use Rattle.std.specs.Int.{w64};
ghost use Rattle.std.proofs.Common.{to_z};

use crate::FIRST_NODE;
use model::{CondNode, ConstraintNode, LinNode, NumNode, Over, TermNode};

// A sort of node. Writing is the way back of reading (`model::nodes`): what was written at a place
// is read there as that node. `put` is inlined, or a node is built in memory only to be taken apart
// again, which takes five times as long.
pub trait Node: Copy {
    // The node that words hold at a place.
    ghost at: { List ℕ → ℕ → Option Self };
    // How many words a node takes, and whether it may stand at a place: its parts stand before it.
    ghost size: { Self → ℕ };

    ghost fits: { Self → ℕ → Bool };

    fn put(self, words: &mut [u64], free: usize) -> Option<usize>
        ensures appends { Appends (fits self free) (size self) free result words.old words.new }
        ensures here { OnSome result (at words.new free ≡ Some self) };
}

// Writes the words of a node, five at most.
fn put_words(words: &mut [u64], free: usize, node: &[u64]) -> Option<usize>
    requires { length node.now ≤ 5 }
    ensures appends { Appends true (length node.now) free result words.old words.new }
    ensures here { OnSome result (Holds words.new free node.now) }
{
    let len = words.len();
    if free < FIRST_NODE || len < 5 || free > len - 5 {
        return None;
    }
    let next = free + node.len();
    words[free..next].copy_from_slice(node);
    Some(next)
}

// A table's number, which is one word.
pub fn put_number(words: &mut [u64], free: usize, number: i64) -> Option<usize>
    ensures appends { Appends true 1 free result words.old words.new }
    ensures here { OnSome result (to_z w64 (word words.new free) ≡ number) }
{
    put_words(words, free, &[number.cast_unsigned()])
}

// A node of two parts that are nodes, under a tag.
fn put_pair(words: &mut [u64], free: usize, tag: u64, left: usize, right: usize) -> Option<usize>
    ensures appends { Appends (nat_lt left free && nat_lt right free) 3 free result words.old words.new }
    ensures here { OnSome result (Holds words.new free (tag ∷ (left ∷ (right ∷ [])))) }
{
    if left >= free || right >= free {
        return None;
    }
    put_words(words, free, &[tag, left as u64, right as u64])
}

// The word for a condition that stands before a place, 0 for none. A condition at place 0 would be
// read as none, and is refused.
fn filter_word(filter: Option<usize>, free: usize) -> Option<u64>
    ensures { result ≡ (if filter_before filter free then Some (filter_place filter) else None) }
{
    match filter {
        None => Some(0),
        Some(place) if 0 < place && place < free => Some(place as u64),
        Some(_) => None,
    }
}

// What goes through a set, under a tag.
fn put_over(words: &mut [u64], free: usize, tag: u64, over: Over) -> Option<usize>
    ensures appends { Appends (nat_lt over.body free && filter_before over.filter free) 4 free result words.old words.new }
    ensures here { OnSome result (Holds words.new free (tag ∷ (over.set ∷ (filter_place over.filter ∷ (over.body ∷ []))))) }
{
    if over.body >= free {
        return None;
    }
    let filter = filter_word(over.filter, free)?;
    put_words(
        words,
        free,
        &[tag, over.set as u64, filter, over.body as u64],
    )
}

// A number times a variable.
fn put_term(words: &mut [u64], free: usize, term: TermNode) -> Option<usize>
    ensures appends { Appends (lin_fits (Term term) free) 5 free result words.old words.new }
    ensures here { OnSome result (lin_at words.new free ≡ Some (Term term)) }
{
    if term.number >= free || term.row >= free || term.column >= free {
        return None;
    }
    let node = [
        11,
        term.number as u64,
        term.array as u64,
        term.row as u64,
        term.column as u64,
    ];
    put_words(words, free, &node)
}

// An entry of a table.
fn put_entry(
    words: &mut [u64],
    free: usize,
    table: usize,
    row: usize,
    column: usize,
) -> Option<usize>
    ensures appends { Appends (num_fits (Entry table row column) free) 4 free result words.old words.new }
    ensures here { OnSome result (num_at words.new free ≡ Some (Entry table row column)) }
{
    if row >= free || column >= free {
        return None;
    }
    put_words(words, free, &[3, table as u64, row as u64, column as u64])
}

// Numbers.
impl Node for NumNode {
    ghost at = { num_at };

    ghost size = { num_size };

    ghost fits = { num_fits };

    #[inline(always)]
    fn put(self, words: &mut [u64], free: usize) -> Option<usize> {
        match self {
            NumNode::Fixed(number) => put_words(words, free, &[1, number.cast_unsigned()]),
            NumNode::Index(level) => put_words(words, free, &[2, level as u64]),
            NumNode::Entry(table, row, column) => put_entry(words, free, table, row, column),
            NumNode::Op(operator, left, right) => {
                put_pair(words, free, operator as u64, left, right)
            }
        }
    }
}

// Conditions.
impl Node for CondNode {
    ghost at = { cond_at };

    ghost size = { cond_size };

    ghost fits = { cond_fits };

    #[inline(always)]
    fn put(self, words: &mut [u64], free: usize) -> Option<usize> {
        match self {
            CondNode::Relate(relation, left, right) => {
                put_pair(words, free, relation as u64, left, right)
            }
            CondNode::Both(left, right) => put_pair(words, free, 10, left, right),
        }
    }
}

// Linear sums. A chain's rest is place 0 where nothing follows. A number by itself is the number's
// own node, and nothing is place 0, so that neither is written.
impl Node for LinNode {
    ghost at = { lin_at };

    ghost size = { lin_size };

    ghost fits = { lin_fits };

    #[inline(always)]
    fn put(self, words: &mut [u64], free: usize) -> Option<usize> {
        match self {
            LinNode::Term(term) => put_term(words, free, term),
            LinNode::Sum(over) => put_over(words, free, 14, over),
            LinNode::Chain(sign, term, rest) => put_pair(words, free, sign as u64, term, rest),
            LinNode::Amount | LinNode::Nothing => None,
        }
    }
}

// Constraints.
impl Node for ConstraintNode {
    ghost at = { constraint_at };

    ghost size = { constraint_size };

    ghost fits = { constraint_fits };

    #[inline(always)]
    fn put(self, words: &mut [u64], free: usize) -> Option<usize> {
        match self {
            ConstraintNode::Compare(comparison, left, right) => {
                put_pair(words, free, comparison as u64, left, right)
            }
            ConstraintNode::All(over) => put_over(words, free, 18, over),
        }
    }
}
