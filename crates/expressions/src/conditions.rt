// Conditions, and what stands behind `sum` and `all`: a set, an index, a condition.
ghost use Rattle.std.specs.Prelude.{◌≡◌, ℕ, suc, ◌+◌, ◌-◌, ◌<◌, ◌≤◌, false, List, length, Some, nat_eq};
ghost use Rattle.compose.specs.Agree.{Agree};
ghost use Rattle.expressions.specs.Conditions.{CondMade, FilterMade, bound_at, compared_at, compared_of, filter_at};
ghost use Rattle.expressions.specs.Made.{Room};
ghost use Rattle.expressions.specs.Signs.{Stands};
ghost use Rattle.grammar.specs.Reading.{a_set, condition as condition_at, find as found_in, num as num_at, relation as relation_at, with_index};
ghost use Rattle.grammar.specs.Says.{cond_of};
ghost use Rattle.scope.specs.Names.{names_in, part};
ghost use Rattle.tokens.specs.Told.{Told};

use crate::context::{Context, one_byte};
use crate::nodes::write;
use crate::{At, Bound, Filter, Node};
use compose::Name;
use grammar::Refusal;
use model::{CondNode, Relation};
use scope::{Scope, Symbol};
use tokens::{LONGEST, is_at, literal, look, name};

// The relation at a place.
#[tactic(auto, using(tokens::proofs::Steps::told_on), unfolding(grammar::specs::Reading::relation))]
fn relation(text: &[u8], at: usize) -> Result<At<Relation>, Refusal>
    requires { at ≤ 65536 }
    ensures told { Told (λ p. p.end) (Stands text.now at) (relation_at text.now at) result }
{
    match look(text, at) {
        Some(b'=') => one_byte(text, at, Relation::Equal),
        Some(b'<') if at == LONGEST => Err(Refusal::Range(LONGEST)),
        Some(b'<') if is_at(text, at + 1, b'>') => one_byte(text, at + 1, Relation::Differ),
        Some(b'<') => one_byte(text, at, Relation::Less),
        _ => Err(Refusal::Syntax(at)),
    }
}

impl<'a> Context<'a> {
    // Two numbers, compared.
    #[tactic(auto, using(tokens::proofs::Steps::steps), unfolding(crate::specs::Conditions::compared_at))]
    fn compared(&self, words: &mut [u64], free: usize, at: usize) -> Result<Node, Refusal>
        requires room { Room (length words.old) free at }
        ensures told { Told (λ p. p.end) (λ k p. CondMade self.now.text.now at free words.old words.new (compared_of (names_in self.now.text.now self.now.scope.now) k) p) (compared_at self.now.text.now (num_at self.now.text.now (names_in self.now.text.now self.now.scope.now) self.now.left) at) result }
        ensures kept { Agree 0 free words.old words.new }
    {
        let first = self.number(words, free, at)?;
        let sign = literal(self.text, b" ", first.end)?;
        let found = relation(self.text, sign)?;
        let here = literal(self.text, b" ", found.end)?;
        let second = self.number(words, first.next, here)?;
        let node = CondNode::Relate(found.value, first.place, second.place);
        let next = write(words, second.next, node);
        Ok(Node {
            place: second.next,
            next,
            end: second.end,
        })
    }

    // Conditions joined by `and`, from the left in pairs.
    #[tactic(auto, using(tokens::proofs::Steps::steps))]
    fn condition(&self, words: &mut [u64], free: usize, at: usize) -> Result<Node, Refusal>
        requires room { Room (length words.old) free at }
        ensures told { Told (λ p. p.end) (λ d p. CondMade self.now.text.now at free words.old words.new (cond_of (names_in self.now.text.now self.now.scope.now) d) p) (condition_at self.now.text.now (num_at self.now.text.now (names_in self.now.text.now self.now.scope.now) self.now.left) (length self.now.text.now + 1) at) result }
        ensures kept { Agree 0 free words.old words.new }
    {
        let mut all = self.compared(words, free, at)?;
        // not by an iterator: how many there are is known only when the last was read
        while is_at(self.text, all.end, b' ') {
            let here = literal(self.text, b" and ", all.end)?;
            let part = self.compared(words, all.next, here)?;
            let next = write(words, part.next, CondNode::Both(all.place, part.place));
            all = Node {
                place: part.next,
                next,
                end: part.end,
            };
        }
        Ok(all)
    }

    // The set and the new index behind the word `sum` or `all`, which begins at `start`.
    #[tactic(auto, using(tokens::proofs::Steps::steps, crate::proofs::Headers::free_none, crate::proofs::Headers::free_some), unfolding(crate::specs::Conditions::bound_at))]
    pub(crate) fn bound(&self, start: usize, at: usize) -> Result<Bound, Refusal>
        ensures told { Told (λ p. p.index.end) (λ b p. (nat_eq self.now.nest 0 ≡ false) × (found_in b.set (names_in self.now.text.now self.now.scope.now) ≡ Some (a_set p.set)) × (b.index ≡ part self.now.text.now p.index) × (at + 4 ≤ p.index.end) × (p.index.end ≤ length self.now.text.now) × (at ≤ 65536 → p.index.end ≤ 65536)) (bound_at self.now.text.now (names_in self.now.text.now self.now.scope.now) (nat_eq self.now.nest 0) start at) result }
    {
        let first = literal(self.text, b" ", at)?;
        if self.nest == 0 {
            return Err(Refusal::Range(start));
        }
        let end = name(self.text, first)?;
        let Some(Symbol::Set(set)) = self.scope.find(self.text, Name { begin: first, end }) else {
            return Err(Refusal::Name(first));
        };
        let begin = literal(self.text, b" ", end)?;
        let end = name(self.text, begin)?;
        let index = Name { begin, end };
        if self.scope.find(self.text, index).is_some() {
            return Err(Refusal::Name(begin));
        }
        Ok(Bound { set, index })
    }

    // The scope inside a sum or an all, with its index.
    pub(crate) fn inside(&self, index: Name) -> Scope
        requires room { 0 < self.now.nest }
        ensures names { names_in self.now.text.now result ≡ with_index (part self.now.text.now index) (names_in self.now.text.now self.now.scope.now) }
        ensures count { length result ≡ length self.now.scope.now + 1 }
    {
        self.scope.with(index, Symbol::Index(self.scope.indexes()))
    }

    // The condition behind `where`, if there is one, and the colon.
    #[tactic(auto, using(tokens::proofs::Steps::steps), unfolding(crate::specs::Conditions::filter_at))]
    pub(crate) fn filter(
        &self,
        words: &mut [u64],
        free: usize,
        at: usize,
    ) -> Result<Filter, Refusal>
        requires room { Room (length words.old) free at }
        requires inside { at ≤ length self.now.text.now }
        ensures told { Told (λ p. p.end) (FilterMade self.now.text.now (names_in self.now.text.now self.now.scope.now) at free words.old words.new) (filter_at self.now.text.now (names_in self.now.text.now self.now.scope.now) self.now.left (length self.now.text.now + 1) at) result }
        ensures kept { Agree 0 free words.old words.new }
    {
        if !is_at(self.text, at, b' ') {
            let end = literal(self.text, b": ", at)?;
            return Ok(Filter {
                condition: None,
                next: free,
                end,
            });
        }
        let here = literal(self.text, b" where ", at)?;
        let only = self.condition(words, free, here)?;
        let end = literal(self.text, b": ", only.end)?;
        Ok(Filter {
            condition: Some(only.place),
            next: only.next,
            end,
        })
    }
}
