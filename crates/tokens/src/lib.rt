// The tokens of a text: fixed bytes, words, names and numbers.
//
// A token is read at a place and ends at a place. There is no list of tokens: each function takes the
// place at which its token has to stand, and returns the place behind it, or why it does not stand
// there. What each returns is what the reading function of the same name in the grammar says.
//
// Nothing looks past the byte at which it stops, since a fault is told at the first byte that does
// not fit, and what stands behind that byte must not count. `look` is the one way to a byte and has
// none for the places past the end, so that no other function asks where the text ends: none fits
// nowhere, and a byte that fits says that its place is inside the text. So all is right for every
// place, however large, and no sum of places overflows.
//
// A text has at most 65,536 bytes. Byte 65,536 of a longer one is never read on: where it fits, the
// text is refused as too long there, and where it does not, as it is at any other place.
#![tactic(auto)]

ghost use Rattle.std.specs.Prelude.{◌≤ℤ◌, pos, neg_ℤ};

mod bytes;
mod numbers;
mod words;

pub use bytes::{LONGEST, is_at, literal, look};
pub use numbers::numeral;
pub use words::{Reserved, is_letter, is_letter_at, name, reserved_word, word};

// A number that stands in a text: where it ends, and its value. One above 1,000,000 in size is told
// as 1,000,001 or -1,000,001, since nothing that large is in range anywhere.
#[derive(Clone, Copy, Debug, PartialEq, Eq)]
pub struct Number {
    pub end: usize,
    pub value: i64,
    // whatever made it, its size fits 32 bits
    ghost small: { (neg_ℤ (pos 4294967295) ≤ℤ value) × (value ≤ℤ pos 4294967295) },
}
