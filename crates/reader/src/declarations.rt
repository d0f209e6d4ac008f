// Lines that declare sets, tables and variable arrays.
ghost use Rattle.std.specs.Prelude.{◌≡◌, ◌+◌, ◌-◌, ◌*◌, ◌≤◌, length, if◌then◌else◌, ◌==◌};
ghost use Rattle.compose.specs.Agree.{Agree};
ghost use Rattle.grammar.specs.declared.Refusal.TheVariants.{Syntax, Range};
ghost use Rattle.grammar.specs.Reading.{State, byte, set_at, shape as shape_at, array_at, numerals, table_at};
ghost use Rattle.reader.specs.Lines.{NameRead, SetRead, ShapeRead, ArrayRead, NumbersRead, TableRead};
ghost use Rattle.reader.specs.Numbers.{opening_at, new_name};
ghost use Rattle.scope.specs.Names.{names_in};
ghost use Rattle.tokens.specs.Told.{Told, Stood};

use crate::numbers::{number, size};
use crate::{ArrayLine, SetLine, Shape, TableLine};
use compose::Name;
use compose::nodes::put_number;
use grammar::Refusal;
use scope::Scope;
use tokens::{is_at, literal, name};

// How many sets, tables and variable arrays there may be, of each.
const MOST_OF_A_SORT: usize = 16;

// The largest bound of a variable.
const LARGEST_BOUND: u32 = 1_000_000;

// The largest number of a table.
const LARGEST_NUMBER: u32 = 999_999;

// The word that a line begins with, where fewer such lines than `most` stand before it.
#[tactic(auto, using(tokens::proofs::Steps::steps), unfolding(crate::specs::Numbers::opening_at))]
pub(crate) fn opening(
    text: &[u8],
    word: &[u8],
    count: usize,
    most: usize,
    at: usize,
) -> Result<usize, Refusal>
    ensures told { Told (λ e. e) (λ _. Stood text.now (length word.now) at) (opening_at text.now word.now count most at) result }
{
    let begin = literal(text, word, at)?;
    if count >= most {
        return Err(Refusal::Range(at));
    }
    Ok(begin)
}

// A name that is not in force.
#[tactic(auto, using(crate::proofs::Told::new_names), unfolding(crate::specs::Numbers::new_name))]
pub(crate) fn new_name(text: &[u8], scope: &Scope, at: usize) -> Result<Name, Refusal>
    ensures told { Told (λ p. p.end) (NameRead text.now at) (new_name text.now (names_in text.now scope.now) at) result }
{
    let end = name(text, at)?;
    let found = Name { begin: at, end };
    if scope.find(text, found).is_some() {
        return Err(Refusal::Name(at));
    }
    Ok(found)
}

// A set: its name and its size.
#[tactic(auto, using(tokens::proofs::Steps::steps, crate::proofs::Parts::set_is))]
pub(crate) fn set_line(
    text: &[u8],
    scope: &Scope,
    sets: usize,
    at: usize,
) -> Result<SetLine, Refusal>
    ensures told { (st : State) → st.names ≡ names_in text.now scope.now → st.sets ≡ sets →
        Told (λ p. p.end) (SetRead text.now at) (set_at text.now st at) result }
{
    let begin = opening(text, b"set ", sets, MOST_OF_A_SORT, at)?;
    let name = new_name(text, scope, begin)?;
    let number = size(text, 0, at, name.end)?;
    let end = literal(text, b"\n", number.end)?;
    Ok(SetLine {
        name,
        size: number.size,
        end,
    })
}

// What tables and variable arrays begin with: a name, rows and columns.
#[tactic(auto, using(tokens::proofs::Steps::steps, crate::proofs::Parts::shape_is))]
pub(crate) fn shape(text: &[u8], scope: &Scope, line: usize, at: usize) -> Result<Shape, Refusal>
    ensures told { Told (λ p. p.end) (ShapeRead text.now at) (shape_at text.now (names_in text.now scope.now) line at) result }
{
    let name = new_name(text, scope, at)?;
    let rows = size(text, 1, line, name.end)?;
    let columns = size(text, 1, line, rows.end)?;
    Ok(Shape {
        name,
        rows: rows.size,
        columns: columns.size,
        end: columns.end,
    })
}

// A variable array: its shape, and the bounds of its variables.
#[tactic(auto, using(tokens::proofs::Steps::steps, crate::proofs::Parts::array_is))]
pub(crate) fn array_line(
    text: &[u8],
    scope: &Scope,
    arrays: usize,
    at: usize,
) -> Result<ArrayLine, Refusal>
    ensures told { (st : State) → st.names ≡ names_in text.now scope.now → st.arrays ≡ arrays →
        Told (λ p. p.end) (ArrayRead text.now at) (array_at text.now st at) result }
{
    let begin = opening(text, b"unknown ", arrays, MOST_OF_A_SORT, at)?;
    let shape = shape(text, scope, at, begin)?;
    let from = literal(text, b" from ", shape.end)?;
    let lower = number(text, LARGEST_BOUND, from)?;
    let to = literal(text, b" to ", lower.end)?;
    let upper = number(text, LARGEST_BOUND, to)?;
    if lower.value > upper.value {
        return Err(Refusal::Range(from));
    }
    let end = literal(text, b"\n", upper.end)?;
    Ok(ArrayLine {
        shape,
        lower: lower.value,
        upper: upper.value,
        end,
    })
}

// Why a table's numbers end before all that are wanted stood there: they are too few, which is told
// at their line, if the line ends, and else what stands there is no comma.
fn too_few(text: &[u8], line: usize, at: usize) -> Refusal
    ensures { result ≡ (if byte text.now at == 10 then Range line else Syntax at) }
{
    if is_at(text, at, b'\n') {
        Refusal::Range(line)
    } else {
        Refusal::Syntax(at)
    }
}

// The numbers of a table behind its first, as many as are wanted, into a word each. Too many or too
// few are told at their line, but too few only if the line ends there.
fn table_numbers(
    text: &[u8],
    words: &mut [u64],
    free: usize,
    wanted: usize,
    line: usize,
    at: usize,
) -> Result<usize, Refusal>
    requires place { at ≤ length text.now }
    requires short { at ≤ 65536 }
    requires from { 1808 ≤ free }
    requires room { 3 * free + (65536 - at) + 15 ≤ 3 * length words.old }
    ensures told { Told (λ e. e) (NumbersRead text.now words.new free wanted at) (numerals text.now line wanted at) result }
    ensures below { Agree 0 free words.old words.new }
{
    let mut here = at;
    for i in 0..wanted {
        if !is_at(text, here, b',') {
            return Err(too_few(text, line, here));
        }
        let from = literal(text, b", ", here)?;
        let found = number(text, LARGEST_NUMBER, from)?;
        put_number(words, free + i, found.value).unwrap();
        here = found.end;
    }
    if !is_at(text, here, b',') {
        return Ok(here);
    }
    literal(text, b", ", here)?;
    Err(Refusal::Range(line))
}

// A table: its shape, and its numbers, row by row, from word `free` on.
#[tactic(auto, using(tokens::proofs::Steps::steps, crate::proofs::Parts::table_is, compose::proofs::Settled::agree_self))]
pub(crate) fn table_line(
    text: &[u8],
    scope: &Scope,
    tables: usize,
    words: &mut [u64],
    free: usize,
    at: usize,
) -> Result<TableLine, Refusal>
    requires room { 3 * free + 4 * (65536 - at) + 60 ≤ 3 * length words.old }
    requires from { 1810 ≤ free }
    requires short { at ≤ 65536 }
    ensures told { (st : State) → st.names ≡ names_in text.now scope.now → st.tables ≡ tables →
        Told (λ p. p.end) (TableRead text.now words.new free at) (table_at text.now st at) result }
    ensures below { Agree 0 free words.old words.new }
{
    let begin = opening(text, b"table ", tables, MOST_OF_A_SORT, at)?;
    let shape = shape(text, scope, at, begin)?;
    let from = literal(text, b": ", shape.end)?;
    let first = number(text, LARGEST_NUMBER, from)?;
    let others = put_number(words, free, first.value).unwrap();
    let wanted = shape.rows * shape.columns - 1;
    let behind = table_numbers(text, words, others, wanted, at, first.end)?;
    let end = literal(text, b"\n", behind)?;
    Ok(TableLine {
        shape,
        next: others + wanted,
        end,
    })
}
