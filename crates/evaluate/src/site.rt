// Where sums and constraints are worked out.
ghost use Rattle.std.specs.Prelude.{◌≡◌, ◌+◌, ◌<◌, ◌≤◌, length};
ghost use Rattle.model.specs.Meaning.{bound};

use arrayvec::ArrayVec;

// Sums and alls stand within each other at most so deep.
pub(crate) const MOST_NESTED: usize = 8;

// What a sum or a constraint is worked out from: the model's words, the values of its variables, the
// indexes in force, the outermost first, and how many sums and alls may still stand within each other.
#[derive(Clone, Copy)]
pub(crate) struct Site<'a> {
    pub words: &'a [u64],
    pub values: &'a [u64],
    pub indexes: &'a [u32],
    pub nest: usize,
    ghost few: { length indexes.now + nest ≤ 8 },
}

// The indexes in force and one more.
pub(crate) fn extended(indexes: &[u32], i: u32) -> ArrayVec<u32, MOST_NESTED>
    requires { length indexes.now < 8 }
    ensures { result.items ≡ bound indexes.now i }
{
    let mut all = ArrayVec::new();
    all.try_extend_from_slice(indexes).unwrap();
    all.push(i);
    all
}
