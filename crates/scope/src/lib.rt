// The names that are in force at a place of a text.
//
// Sets, tables, variable arrays and the indexes of the sums and alls around a place share one space
// of names. What a sum or an all adds is gone when it ends: it makes a scope of its own, and the one
// outside was never changed.
#![tactic(auto)]

ghost use Rattle.std.specs.Prelude.{◌≡◌, ℕ, ◌<◌, ◌≤◌, List, [], ◌∷◌, length, replicate, reverse, take, Some};
ghost use Rattle.std.specs.Str.{bytes_eq};
ghost use Rattle.std.specs.List.{find};
ghost use Rattle.std.specs.Option.{option_map};
ghost use Rattle.grammar.specs.Reading.{find as found_in, index_there, levels};
ghost use Rattle.scope.specs.Names.{names_in, sort_of, sort_told, part as part_of};

use compose::Name;
use std::marker::Model;

// A table or an array: its number among those of its sort, and its size.
#[derive(Clone, Copy, Debug, PartialEq, Eq)]
pub struct Grid {
    pub number: usize,
    pub rows: usize,
    pub columns: usize,
}

// What a name stands for: sets by their number, indexes by their level, the outermost being 0.
#[derive(Clone, Copy, Debug, PartialEq, Eq)]
pub enum Symbol {
    Set(usize),
    Table(Grid),
    Array(Grid),
    Index(usize),
}

// A name, by its place in the text, and what it stands for.
#[derive(Clone, Copy, Debug, PartialEq)]
pub struct Entry {
    pub name: Name,
    pub symbol: Symbol,
}

// There are at most 16 sets, 16 tables, 16 arrays, and 8 indexes.
pub const MOST_NAMES: usize = 56;

// What stands where there is no name yet.
const NO_ENTRY: Entry = Entry {
    name: Name { begin: 0, end: 0 },
    symbol: Symbol::Set(0),
};

// The names in force. They are kept in the order in which they came, and seen the newest first. An array
// with a length, since a scope is copied where a sum begins, and neither a Vec nor an ArrayVec is Copy.
#[derive(Clone, Copy)]
pub struct Scope {
    entries: [Entry; MOST_NAMES],
    count: usize,
}

impl Model for Scope {
    ghost use Rattle.std.specs.Prelude.{◌≡◌, ◌-◌, ◌≤◌, List, ◌++◌, length, replicate, reverse, drop, take};
    ghost use Rattle.scope.specs.Back.{entries_back};
    ghost use Rattle.scope.specs.declared.Entry.{Entry};
    ghost use Rattle.scope.specs.declared.TheConstants.{NO_ENTRY};

    ghost Value = { List Entry };

    ghost view = { λ s. reverse (take s.count s.entries) };

    // behind the entries in force there are none, so that the view tells all
    ghost invariant = { λ s. (s.count ≤ 56) × (length s.entries ≡ 56) × (drop s.count s.entries ≡ replicate (56 - s.count) NO_ENTRY) };

    ghost inverse = { λ es. record { entries = reverse es ++ replicate (56 - length es) NO_ENTRY; count = length es } };

    ghost inverse_ok = { λ a h. entries_back (λ es n. record { entries = es; count = n }) NO_ENTRY a.entries a.count h.0 h.1 h.2 };
}

// What stands in a text from one place to another; places past the end have nothing.
fn part(text: &[u8], name: Name) -> &[u8]
    ensures { result.now ≡ part_of text.now name }
{
    let end = name.end.min(text.len());
    text.get(name.begin..end).unwrap_or(&[])
}

// Whether these bytes are an entry's name.
fn is_named(text: &[u8], entry: &Entry, wanted: &[u8]) -> bool
    ensures { result ≡ bytes_eq wanted.now (part_of text.now entry.now.name) }
{
    part(text, entry.name) == wanted
}

// What the last of these entries with this name stands for.
fn last_named(text: &[u8], entries: &[Entry], wanted: &[u8]) -> Option<Symbol>
    ensures { result ≡ option_map (λ e. e.symbol) (find (λ e. bytes_eq wanted.now (part_of text.now e.name)) (reverse entries.now)) }
{
    entries
        .iter()
        .rev()
        .find(|entry| is_named(text, entry, wanted))
        .map(|entry| entry.symbol)
}

fn is_index(symbol: Symbol) -> bool
    ensures { result ≡ index_there (Some (sort_of symbol)) }
{
    matches!(symbol, Symbol::Index(_))
}

// What a scope holds where no name is in force.
fn blank() -> [Entry; MOST_NAMES]
    ensures { result ≡ replicate 56 NO_ENTRY }
{
    [NO_ENTRY; MOST_NAMES]
}

impl Scope {
    // No name at all.
    pub fn new() -> Scope
        ensures { result ≡ [] }
    {
        Scope {
            entries: blank(),
            count: 0,
        }
    }

    // The scope of these entries, the oldest first; of more than it can hold, the first.
    pub fn of(entries: &[Entry]) -> Scope
        ensures { result ≡ reverse (take 56 entries.now) }
    {
        let count = MOST_NAMES.min(entries.len());
        let mut held = blank();
        held[..count].copy_from_slice(&entries[..count]);
        Scope {
            entries: held,
            count,
        }
    }

    // How many names are in force.
    pub fn len(&self) -> usize
        ensures value { result ≡ length self.now }
        ensures few { result ≤ 56 }
    {
        self.count
    }

    // The entries in force, the oldest first.
    pub fn entries(&self) -> &[Entry]
        ensures { self.now ≡ reverse result.now }
    {
        &self.entries[..self.count]
    }

    // What the name that stands at a place stands for, if it is in force.
    pub fn find(&self, text: &[u8], name: Name) -> Option<Symbol>
        ensures { sort_told result ≡ found_in (part_of text.now name) (names_in text.now self.now) }
    {
        last_named(text, self.entries(), part(text, name))
    }

    // The scope with one more name; a scope that is full stays as it is.
    pub fn with(&self, name: Name, symbol: Symbol) -> Scope
        ensures more { length self.now < 56 → result ≡ record { name = name; symbol = symbol } ∷ self.now }
        ensures full { 56 ≤ length self.now → result ≡ self.now }
    {
        if self.count == MOST_NAMES {
            return *self;
        }
        let mut entries = self.entries;
        entries[self.count] = Entry { name, symbol };
        Scope {
            entries,
            count: self.count + 1,
        }
    }

    // How many indexes are in force, which is the level that one more has.
    #[tactic(auto, using(crate::proofs::Entries::levels_told))]
    pub fn indexes(&self) -> usize
        ensures { (x : List ℕ) → result ≡ levels (names_in x self.now) }
    {
        self.entries()
            .iter()
            .filter(|entry| is_index(entry.symbol))
            .count()
    }
}
