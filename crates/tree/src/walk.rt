// The walk down the tree by a word's bits.
ghost use Rattle.std.specs.Prelude.{◌≡◌, ◌<◌};
ghost use Rattle.waymap.specs.Bits.{bit, digit};
ghost use Rattle.waymap.specs.Ways.{Sized};
ghost use Rattle.tree.specs.Tree as Tree;

// Bit i of a word.
fn bit_at(word: u64, i: usize) -> usize
    requires { i < 64 }
    ensures { result ≡ digit (bit word i) }
{
    ((word >> i) % 2) as usize
}

// The way that a word's bits lead to. (The loop goes from each node to a child: no index is counted in it.)
pub fn walked(ways: usize, word: u64) -> usize
    requires { Sized ways }
    ensures { result ≡ Tree.walked ways (bit word) }
{
    let last = ways - 1;
    let mut place = 0;
    while place < last {
        place = 2 * place + 1 + bit_at(word, place);
    }
    place - last
}
