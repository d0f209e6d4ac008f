// Nodes written where there is room for them. Inlined, as `put` is.
ghost use Rattle.std.specs.Prelude.{◌≡◌, ◌+◌, ◌≤◌, true, length, Some};
ghost use Rattle.compose.specs.Agree.{Agree};

use compose::nodes::Node;

// Writes a node whose parts stand before it, and returns where the next begins.
#[inline(always)]
pub(crate) fn write<N: Node>(words: &mut [u64], free: usize, node: N) -> usize
    requires room { (1808 ≤ free) × (free + 5 ≤ length words.old) }
    requires parts { N.fits node free ≡ true }
    ensures next { result ≡ free + N.size node }
    ensures kept { Agree 0 free words.old words.new }
    ensures here { N.at words.new free ≡ Some node }
{
    node.put(words, free).unwrap()
}
