// Single bytes, and bytes that have to stand as they are.
ghost use Rattle.std.specs.Prelude.{◌≡◌, length, ◌==◌, unwrap_or};
ghost use Rattle.grammar.specs.Reading.{byte, literal as literal_at};
ghost use Rattle.tokens.specs.Told.{Told, Stood};

use grammar::Refusal;

// How many bytes a text may have.
pub const LONGEST: usize = 65_536;

// The byte at a place, if the text has one there.
pub fn look(text: &[u8], at: usize) -> Option<u8>
    ensures { unwrap_or result 256 ≡ byte text.now at }
{
    text.get(at).copied()
}

// Whether this byte stands at a place.
pub fn is_at(text: &[u8], at: usize, c: u8) -> bool
    ensures { result ≡ (byte text.now at == c) }
{
    look(text, at) == Some(c)
}

// Where the bytes of `word`, which have to stand at a place, end.
#[tactic(auto, using(crate::proofs::Steps::literals))]
pub fn literal(text: &[u8], word: &[u8], at: usize) -> Result<usize, Refusal>
    ensures told { Told (λ e. e) (λ _. Stood text.now (length word.now) at) (literal_at text.now word.now at) result }
{
    for (i, c) in word.iter().enumerate() {
        let here = at + i;
        if !is_at(text, here, *c) {
            return Err(Refusal::Syntax(here));
        }
        if here == LONGEST {
            return Err(Refusal::Range(LONGEST));
        }
    }
    Ok(at + word.len())
}
