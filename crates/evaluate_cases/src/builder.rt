// Words of a small model, put together node by node.
//
// Each function that adds a node gives its place, to be a part of later nodes.
use evaluate::constraints::met;
use model::{Comparison, Operator, Relation, Sign};
use std::alloc::{AllocError, Global};

// In place of a condition's node, where there is none.
pub(crate) const ALWAYS: Option<usize> = None;

// Numbers are there below 2^62 in size, and the largest is one less.
pub(crate) const LIMIT: i64 = 1 << 62;

pub(crate) const MOST: i64 = LIMIT - 1;

// Nodes and the numbers of tables lie from here on, behind the first 14 lines.
const START: usize = 640;

// The nodes that every model begins with: the fixed numbers 0, 1, 2, 10 and 2^62, and the indexes of
// the outermost set and of the one in it.
pub(crate) const ZERO: usize = START;

pub(crate) const ONE: usize = START + 5;

pub(crate) const TWO: usize = START + 10;

pub(crate) const TEN: usize = START + 15;

pub(crate) const BIG: usize = START + 20;

pub(crate) const I: usize = START + 25;

pub(crate) const J: usize = START + 30;

#[derive(Drop)]
pub(crate) struct Builder {
    pub(crate) words: Vec<u64>,
}

impl Builder {
    pub(crate) fn new(alloc: Global) -> Result<Self, AllocError> {
        let mut m = Builder {
            words: vec![in alloc; 0u64; START]?,
        };
        for a in [0, 1, 2, 10, LIMIT] {
            m.fixed(a)?;
        }
        m.index(0)?;
        m.index(1)?;
        Ok(m)
    }

    // Writes a word of the head.
    pub(crate) fn put(&mut self, i: usize, word: u64) {
        if i < START && i < self.words.len() {
            self.words[i] = word;
        }
    }

    // Appends a node.
    pub(crate) fn node(&mut self, tag: u64, parts: [usize; 4]) -> Result<usize, AllocError> {
        let at = self.words.len();
        self.words.push(tag)?;
        for part in parts {
            self.words.push(part as u64)?;
        }
        Ok(at)
    }

    // Makes word i at least n: how many there are of something.
    fn count(&mut self, i: usize, n: usize) {
        let most = self.words.get(i).copied().unwrap_or(0).max(n as u64);
        self.put(i, most);
    }

    // A fixed number.
    pub(crate) fn fixed(&mut self, a: i64) -> Result<usize, AllocError> {
        self.node(1, [a.cast_unsigned() as usize, 0, 0, 0])
    }

    // The index that is bound with l others around it.
    pub(crate) fn index(&mut self, l: usize) -> Result<usize, AllocError> {
        self.node(2, [l, 0, 0, 0])
    }

    // An entry of table t in row e and column f.
    pub(crate) fn entry(&mut self, t: usize, e: usize, f: usize) -> Result<usize, AllocError> {
        self.node(3, [t, e, f, 0])
    }

    // Two numbers joined.
    pub(crate) fn op(&mut self, o: Operator, e: usize, f: usize) -> Result<usize, AllocError> {
        self.node(o as u64, [e, f, 0, 0])
    }

    // Two numbers in a relation.
    pub(crate) fn relate(&mut self, r: Relation, e: usize, f: usize) -> Result<usize, AllocError> {
        self.node(r as u64, [e, f, 0, 0])
    }

    // A condition and another.
    pub(crate) fn both(&mut self, c: usize, d: usize) -> Result<usize, AllocError> {
        self.node(10, [c, d, 0, 0])
    }

    // Number e before the variable of array a in row f and column g.
    pub(crate) fn term(
        &mut self,
        e: usize,
        a: usize,
        f: usize,
        g: usize,
    ) -> Result<usize, AllocError> {
        self.node(11, [e, a, f, g])
    }

    // The variable of array a in row i and column j, with the number 1 before it.
    pub(crate) fn variable(&mut self, a: usize, i: i64, j: i64) -> Result<usize, AllocError> {
        let f = self.fixed(i)?;
        let g = self.fixed(j)?;
        self.term(ONE, a, f, g)
    }

    // A sum and one part more, added or taken away: a chain of two.
    pub(crate) fn chain(&mut self, sign: Sign, l: usize, t: usize) -> Result<usize, AllocError> {
        let rest = self.node(sign as u64, [t, 0, 0, 0])?;
        self.node(Sign::Positive as u64, [l, rest, 0, 0])
    }

    // A sum over set k, where a condition holds.
    pub(crate) fn sum(
        &mut self,
        k: usize,
        c: Option<usize>,
        l: usize,
    ) -> Result<usize, AllocError> {
        self.node(14, [k, c.unwrap_or(0), l, 0])
    }

    // Two sums compared.
    pub(crate) fn compare(
        &mut self,
        c: Comparison,
        l: usize,
        r: usize,
    ) -> Result<usize, AllocError> {
        self.node(c as u64, [l, r, 0, 0])
    }

    // A constraint for all of set k, where a condition holds.
    pub(crate) fn all(
        &mut self,
        k: usize,
        c: Option<usize>,
        r: usize,
    ) -> Result<usize, AllocError> {
        self.node(18, [k, c.unwrap_or(0), r, 0])
    }

    // Set k of up to 16.
    pub(crate) fn set(&mut self, k: usize, size: u64) {
        if k < 16 {
            self.put(8 + 4 * k, size);
            self.count(0, k + 1);
        }
    }

    // Table k of up to 16, with its numbers row by row.
    pub(crate) fn table(
        &mut self,
        k: usize,
        rows: u64,
        columns: u64,
        numbers: &[i64],
    ) -> Result<(), AllocError> {
        if k < 16 {
            let start = self.words.len();
            self.put(72 + 8 * k, rows);
            self.put(73 + 8 * k, columns);
            self.put(74 + 8 * k, start as u64);
            self.count(1, k + 1);
            for a in numbers {
                self.words.push(a.cast_unsigned())?;
            }
        }
        Ok(())
    }

    // Array k of up to 16, with its bounds and the number of its first variable.
    pub(crate) fn array(
        &mut self,
        k: usize,
        rows: u64,
        columns: u64,
        lower: i64,
        upper: i64,
        first: u64,
    ) {
        if k < 16 {
            self.put(200 + 8 * k, rows);
            self.put(201 + 8 * k, columns);
            self.put(202 + 8 * k, lower.cast_unsigned());
            self.put(203 + 8 * k, upper.cast_unsigned());
            self.put(204 + 8 * k, first);
            self.count(2, k + 1);
        }
    }

    // Constraint k of up to 256.
    pub(crate) fn constraint(&mut self, k: usize, node: usize) {
        if k < 256 {
            self.put(328 + k, node as u64);
            self.count(3, k + 1);
        }
    }

    // Whether the constraint at a node is met, as number 0 of the model.
    pub(crate) fn met(&mut self, values: &[u64], node: usize) -> Option<bool> {
        self.constraint(0, node);
        met(&self.words, values, 0)
    }
}
