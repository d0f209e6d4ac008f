// Terms: a number, or a number times a variable, with the space that may follow.
ghost use Rattle.std.specs.Prelude.{ℕ, ◌+◌, ◌-◌, ◌*◌, ◌<◌, ◌≤◌, List, length};
ghost use Rattle.compose.specs.Agree.{Agree};
ghost use Rattle.expressions.specs.Made.{NumMade, Room, Roomy};
ghost use Rattle.expressions.specs.Sums.{Spaced, TermMade, after_at, after_num_at, variable_at};
ghost use Rattle.grammar.specs.Grammar.{Num, Term};
ghost use Rattle.scope.specs.Names.{names_in};
ghost use Rattle.tokens.specs.Told.{Told};

use crate::context::Context;
use crate::nodes::write;
use crate::{Node, TermAt};
use compose::Name;
use grammar::Refusal;
use model::{LinNode, TermNode};
use scope::Symbol;
use tokens::{LONGEST, is_at, is_letter_at, name};

// What follows a term: a space, which is read, or not.
#[tactic(auto, unfolding(grammar::specs::Reading::after))]
pub(crate) fn after(text: &[u8], node: Node) -> Result<TermAt, Refusal>
    requires inside { node.end ≤ length text.now }
    requires short { node.end ≤ 65536 }
    ensures told { (t : Term) → Told (λ p. p.node.end) (Spaced text.now node t) (after_at text.now t node.end) result }
{
    if !is_at(text, node.end, b' ') {
        return Ok(TermAt {
            node,
            spaced: false,
        });
    }
    if node.end == LONGEST {
        return Err(Refusal::Range(LONGEST));
    }
    Ok(TermAt {
        node: Node {
            end: node.end + 1,
            ..node
        },
        spaced: true,
    })
}

impl<'a> Context<'a> {
    // The variable that stands at a place, behind its number.
    #[tactic(auto, using(tokens::proofs::Steps::steps), unfolding(crate::specs::Sums::variable_at))]
    fn variable(&self, words: &mut [u64], number: Node, at: usize) -> Result<TermAt, Refusal>
        requires room { Room (length words.old) number.next at }
        requires number { (number.end < at) × (number.place < number.next) }
        ensures told { (e : Num) (begin free : ℕ) (us : List ℕ) → 1810 ≤ free → Agree 0 free us words.old → NumMade self.now.text.now (names_in self.now.text.now self.now.scope.now) begin free us words.old e number →
            Told (λ p. p.node.end) (TermMade self.now.text.now (names_in self.now.text.now self.now.scope.now) begin free us words.new) (variable_at self.now.text.now (names_in self.now.text.now self.now.scope.now) self.now.left e at) result }
        ensures kept { Agree 0 number.next words.old words.new }
    {
        let end = name(self.text, at)?;
        let Some(Symbol::Array(array)) = self.scope.find(self.text, Name { begin: at, end }) else {
            return Err(Refusal::Name(at));
        };
        let cell = self.places(words, number.next, array, at, end)?;
        let term = TermNode {
            number: number.place,
            array: array.number,
            row: cell.row,
            column: cell.column,
        };
        let next = write(words, cell.next, LinNode::Term(term));
        let node = Node {
            place: cell.next,
            next,
            end: cell.end,
        };
        after(self.text, node)
    }

    // What a number begins: a term of its own, or one with a variable.
    #[tactic(auto, using(tokens::proofs::Steps::steps, tokens::proofs::Steps::told_on), unfolding(grammar::specs::Reading::after_num))]
    pub(crate) fn after_number(&self, words: &mut [u64], number: Node) -> Result<TermAt, Refusal>
        requires room { Roomy 56 (length words.old) number.next number.end }
        requires number { (number.end ≤ length self.now.text.now) × (number.place < number.next) }
        ensures told { (e : Num) (begin free : ℕ) (us : List ℕ) → 1810 ≤ free → Agree 0 free us words.old → NumMade self.now.text.now (names_in self.now.text.now self.now.scope.now) begin free us words.old e number →
            Told (λ p. p.node.end) (TermMade self.now.text.now (names_in self.now.text.now self.now.scope.now) begin free us words.new) (after_num_at self.now.text.now (names_in self.now.text.now self.now.scope.now) self.now.left e number.end) result }
        ensures kept { Agree 0 number.next words.old words.new }
    {
        if is_at(self.text, number.end, b' ')
            && number.end != LONGEST
            && is_letter_at(self.text, number.end + 1)
        {
            return self.variable(words, number, number.end + 1);
        }
        after(self.text, number)
    }
}
