// Words: the reserved ones, and names.
ghost use Rattle.std.specs.Prelude.{◌≡◌};
ghost use Rattle.grammar.specs.Grammar.{is_letter, is_word};
ghost use Rattle.grammar.specs.Reading.{byte, word as word_at, name as name_at};
ghost use Rattle.tokens.specs.Spelling.{Spells};
ghost use Rattle.tokens.specs.Told.{Told, Part};

use crate::bytes::{LONGEST, look};
use grammar::Refusal;

// A word that is no name.
#[derive(Clone, Copy, Debug, PartialEq, Eq)]
pub enum Reserved {
    Set,
    Table,
    Unknown,
    Least,
    Wish,
    From,
    To,
    Where,
    Sum,
    All,
    And,
    Or,
    Then,
}

// How many letters and digits a word may have.
const LONGEST_WORD: usize = 12;

// a to z, which a word begins with.
pub fn is_letter(c: u16) -> bool
    ensures { result ≡ is_letter c }
{
    matches!(u8::try_from(c), Ok(b'a'..=b'z'))
}

// Whether a letter stands at a place.
pub fn is_letter_at(text: &[u8], at: usize) -> bool
    ensures { result ≡ is_letter (byte text.now at) }
{
    look(text, at).is_some_and(|c| is_letter(c.into()))
}

// Whether a byte that may stand in a word stands at a place.
fn is_word_at(text: &[u8], at: usize) -> bool
    ensures { result ≡ is_word (byte text.now at) }
{
    look(text, at).is_some_and(|c| c.is_ascii_digit() || is_letter(c.into()))
}

// Where the word that stands at a place ends: a letter, and letters and digits. It may be reserved.
pub fn word(text: &[u8], at: usize) -> Result<usize, Refusal>
    ensures told { Told (λ e. e) (Part text.now at) (word_at text.now at) result }
{
    if !is_letter_at(text, at) {
        return Err(Refusal::Syntax(at));
    }
    for here in at..=LONGEST {
        if !is_word_at(text, here) {
            return Ok(here);
        }
        // no text goes on with a thirteenth, which comes before its being too long
        if here - at == LONGEST_WORD {
            return Err(Refusal::Syntax(here));
        }
    }
    Err(Refusal::Range(LONGEST))
}

// The reserved word that these bytes spell. Not by TryFrom, which wants an error that nobody would read.
pub fn reserved_word(word: &[u8]) -> Option<Reserved>
    ensures { Spells word.now result }
{
    match word {
        b"set" => Some(Reserved::Set),
        b"table" => Some(Reserved::Table),
        b"unknown" => Some(Reserved::Unknown),
        b"least" => Some(Reserved::Least),
        b"wish" => Some(Reserved::Wish),
        b"from" => Some(Reserved::From),
        b"to" => Some(Reserved::To),
        b"where" => Some(Reserved::Where),
        b"sum" => Some(Reserved::Sum),
        b"all" => Some(Reserved::All),
        b"and" => Some(Reserved::And),
        b"or" => Some(Reserved::Or),
        b"then" => Some(Reserved::Then),
        _ => None,
    }
}

// Where the name that stands at a place ends. A reserved word is refused at the byte behind it, since
// with one more letter it would be a name.
#[tactic(auto, using(crate::proofs::Named::names))]
pub fn name(text: &[u8], at: usize) -> Result<usize, Refusal>
    ensures told { Told (λ e. e) (Part text.now at) (name_at text.now at) result }
{
    let end = word(text, at)?;
    if reserved_word(&text[at..end]).is_some() {
        return Err(Refusal::Syntax(end));
    }
    Ok(end)
}
