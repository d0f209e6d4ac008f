// Numbers: as they stand, indexes, entries of tables, and two joined in brackets.
//
// The brackets that may still be opened within each other fall with each one, which is why the
// recursion ends.
ghost use Rattle.std.specs.Prelude.{◌≡◌, ◌+◌, ◌-◌, ◌*◌, ◌<◌, ◌≤◌, not, ◌&&◌, length, ◌==◌};
ghost use Rattle.compose.specs.Agree.{Agree};
ghost use Rattle.expressions.specs.Made.{Room, NumMade};
ghost use Rattle.expressions.specs.Places.{PlacesMade, enough, only_place, place_at, second_at};
ghost use Rattle.expressions.specs.Signs.{Stands};
ghost use Rattle.grammar.specs.Reading.{Names, byte, fixed_at, named as named_at, num as num_at, operator as operator_at, pair as pair_at};
ghost use Rattle.scope.specs.Names.{names_in, part};
ghost use Rattle.tokens.specs.Told.{Told};

use crate::context::{Context, one_byte};
use crate::nodes::write;
use crate::{At, Node, Places};
use compose::{FIRST_NODE, Name};
use grammar::Refusal;
use model::{NumNode, Operator};
use scope::{Grid, Symbol};
use tokens::{is_at, is_letter_at, literal, look, name, numeral};

// Numbers in a text are below this in size.
const NUMBER_LIMIT: u64 = 1_000_000;

// The operator at a place.
#[tactic(auto, using(tokens::proofs::Steps::told_on), unfolding(grammar::specs::Reading::operator))]
fn operator(text: &[u8], at: usize) -> Result<At<Operator>, Refusal>
    requires { at ≤ 65536 }
    ensures told { Told (λ p. p.end) (Stands text.now at) (operator_at text.now at) result }
{
    match look(text, at) {
        Some(b'+') => one_byte(text, at, Operator::Plus),
        Some(b'-') => one_byte(text, at, Operator::Minus),
        Some(b'*') => one_byte(text, at, Operator::Times),
        _ => Err(Refusal::Syntax(at)),
    }
}

// A number as it stands.
#[tactic(auto, using(tokens::proofs::Steps::steps), unfolding(grammar::specs::Reading::fixed_at))]
fn fixed(text: &[u8], words: &mut [u64], free: usize, at: usize) -> Result<Node, Refusal>
    requires room { Room (length words.old) free at }
    ensures told { (ns : Names) → Told (λ p. p.end) (NumMade text.now ns at free words.old words.new) (fixed_at text.now at) result }
    ensures kept { Agree 0 free words.old words.new }
{
    let number = numeral(text, at)?;
    if number.value.unsigned_abs() >= NUMBER_LIMIT {
        return Err(Refusal::Range(at));
    }
    let next = write(words, free, NumNode::Fixed(number.value));
    Ok(Node {
        place: free,
        next,
        end: number.end,
    })
}

// The node of the number 0, which is the first: it stands for a place that is left out.
const ZERO: usize = FIRST_NODE;

// The nodes of the row and of the column, where one place stands for both.
fn only_place(grid: Grid, first: Node, end: usize) -> Places
    ensures { result ≡ only_place grid first end }
{
    let (row, column) = if grid.columns == 1 {
        (first.place, ZERO)
    } else {
        (ZERO, first.place)
    };
    Places {
        row,
        column,
        next: first.next,
        end,
    }
}

// Whether the bracket closes behind one place where two are wanted.
fn needs_second(text: &[u8], grid: Grid, at: usize) -> bool
    ensures { result ≡ (byte text.now at == 93 && not (enough grid)) }
{
    is_at(text, at, b']') && !(grid.columns == 1 || grid.rows == 1)
}

impl<'a> Context<'a> {
    // What stands in square brackets at a place, behind a name that begins at `start`: one number, where
    // there is one row or one column, or two.
    #[cycle(number)]
    #[tactic(auto, using(tokens::proofs::Steps::steps, crate::proofs::Ways::place_none, crate::proofs::Ways::place_deep, crate::proofs::Ways::place_open, crate::proofs::Ways::after_comma, crate::proofs::Ways::after_wrong, crate::proofs::Ways::after_one))]
    pub(crate) fn places(
        &self,
        words: &mut [u64],
        free: usize,
        grid: Grid,
        start: usize,
        at: usize,
    ) -> Result<Places, Refusal>
        requires room { Room (length words.old) free at }
        ensures told { Told (λ p. p.end) (PlacesMade self.now.text.now (names_in self.now.text.now self.now.scope.now) grid at free words.old words.new)
            (place_at self.now.text.now grid start self.now.left (num_at self.now.text.now (names_in self.now.text.now self.now.scope.now) (self.now.left - 1)) at) result }
        ensures kept { Agree 0 free words.old words.new }
    {
        if !is_at(self.text, at, b'[') {
            return Err(Refusal::Syntax(at));
        }
        if self.left == 0 {
            return Err(Refusal::Range(at));
        }
        let inner = Context {
            text: self.text,
            scope: self.scope,
            left: self.left - 1,
            nest: self.nest,
        };
        let inside = literal(self.text, b"[", at)?;
        let first = inner.number(words, free, inside)?;
        if is_at(self.text, first.end, b',') {
            let second = inner.second_place(words, first.next, first.end)?;
            return Ok(Places {
                row: first.place,
                column: second.place,
                next: second.next,
                end: second.end,
            });
        }
        if needs_second(self.text, grid, first.end) {
            return Err(Refusal::Name(start));
        }
        let end = literal(self.text, b"]", first.end)?;
        Ok(only_place(grid, first, end))
    }

    // The second number in square brackets, with the comma before it and the bracket behind it.
    #[cycle(number)]
    #[tactic(auto, using(tokens::proofs::Steps::steps), unfolding(crate::specs::Places::second_at))]
    fn second_place(&self, words: &mut [u64], free: usize, at: usize) -> Result<Node, Refusal>
        requires room { Room (length words.old) free at }
        ensures told { Told (λ p. p.end) (λ e p. NumMade self.now.text.now (names_in self.now.text.now self.now.scope.now) at free words.old words.new e p × (3 * p.next + 4 * at + 10 ≤ 3 * free + 4 * p.end)) (second_at self.now.text.now (num_at self.now.text.now (names_in self.now.text.now self.now.scope.now) self.now.left) at) result }
        ensures kept { Agree 0 free words.old words.new }
    {
        let here = literal(self.text, b", ", at)?;
        let second = self.number(words, free, here)?;
        let end = literal(self.text, b"]", second.end)?;
        Ok(Node { end, ..second })
    }

    // An entry of a table, or an index: what the name that stands at a place begins.
    #[cycle(number)]
    #[tactic(auto, using(tokens::proofs::Steps::steps, crate::proofs::Ways::named_no_index, crate::proofs::Ways::named_index, crate::proofs::Ways::named_no_table, crate::proofs::Ways::named_table))]
    pub(crate) fn named(&self, words: &mut [u64], free: usize, name: Name) -> Result<Node, Refusal>
        requires room { Room (length words.old) free name.end }
        requires name { (name.begin < name.end) × (name.end ≤ length self.now.text.now) }
        ensures told { Told (λ p. p.end) (NumMade self.now.text.now (names_in self.now.text.now self.now.scope.now) name.begin free words.old words.new)
            (named_at self.now.text.now (names_in self.now.text.now self.now.scope.now) self.now.left (num_at self.now.text.now (names_in self.now.text.now self.now.scope.now) (self.now.left - 1)) name.begin (part self.now.text.now name) name.end) result }
        ensures kept { Agree 0 free words.old words.new }
    {
        if !is_at(self.text, name.end, b'[') {
            let Some(Symbol::Index(level)) = self.scope.find(self.text, name) else {
                return Err(Refusal::Name(name.begin));
            };
            let next = write(words, free, NumNode::Index(level));
            return Ok(Node {
                place: free,
                next,
                end: name.end,
            });
        }
        let Some(Symbol::Table(table)) = self.scope.find(self.text, name) else {
            return Err(Refusal::Name(name.begin));
        };
        let cell = self.places(words, free, table, name.begin, name.end)?;
        let node = NumNode::Entry(table.number, cell.row, cell.column);
        let next = write(words, cell.next, node);
        Ok(Node {
            place: cell.next,
            next,
            end: cell.end,
        })
    }

    // Two numbers in brackets.
    #[cycle(number)]
    #[tactic(auto, using(tokens::proofs::Steps::steps), unfolding(grammar::specs::Reading::pair))]
    fn pair(&self, words: &mut [u64], free: usize, at: usize) -> Result<Node, Refusal>
        requires room { Room (length words.old) free at }
        ensures told { Told (λ p. p.end) (NumMade self.now.text.now (names_in self.now.text.now self.now.scope.now) at free words.old words.new) (pair_at self.now.text.now self.now.left (num_at self.now.text.now (names_in self.now.text.now self.now.scope.now) (self.now.left - 1)) at) result }
        ensures kept { Agree 0 free words.old words.new }
    {
        if self.left == 0 {
            return Err(Refusal::Range(at));
        }
        let inner = Context {
            text: self.text,
            scope: self.scope,
            left: self.left - 1,
            nest: self.nest,
        };
        let inside = literal(self.text, b"(", at)?;
        let first = inner.number(words, free, inside)?;
        let sign = literal(self.text, b" ", first.end)?;
        let joined = operator(self.text, sign)?;
        let here = literal(self.text, b" ", joined.end)?;
        let second = inner.number(words, first.next, here)?;
        let end = literal(self.text, b")", second.end)?;
        let node = NumNode::Op(joined.value, first.place, second.place);
        let next = write(words, second.next, node);
        Ok(Node {
            place: second.next,
            next,
            end,
        })
    }

    // A number: one in brackets, one as it stands, or what a name begins.
    #[cycle(number)]
    #[tactic(auto, using(tokens::proofs::Steps::steps, tokens::proofs::Steps::told_on, crate::proofs::Ways::num_pair, crate::proofs::Ways::num_fixed, crate::proofs::Ways::num_named))]
    pub(crate) fn number(&self, words: &mut [u64], free: usize, at: usize) -> Result<Node, Refusal>
        requires room { Room (length words.old) free at }
        ensures told { Told (λ p. p.end) (NumMade self.now.text.now (names_in self.now.text.now self.now.scope.now) at free words.old words.new) (num_at self.now.text.now (names_in self.now.text.now self.now.scope.now) self.now.left at) result }
        ensures kept { Agree 0 free words.old words.new }
    {
        if is_at(self.text, at, b'(') {
            return self.pair(words, free, at);
        }
        if !is_letter_at(self.text, at) {
            return fixed(self.text, words, free, at);
        }
        let end = name(self.text, at)?;
        self.named(words, free, Name { begin: at, end })
    }
}
