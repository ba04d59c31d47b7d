// Tree-PLRU, without any cache above it. Node i is bit i of a word, and its children are 2i + 1 and 2i + 2; way w stands at place
// ways - 1 + w.
#![tactic(auto)]

mod nodes;
mod path;
mod walk;

ghost use Rattle.std.specs.Prelude.{◌≡◌};
ghost use Rattle.tree.specs.Calls.{victim_of, touch_of, change_of, reset_of, own_of, shares_of};

// The victim, by the masked form.
pub fn victim(ways: usize, word: u64, map: u16) -> usize
    ensures { result ≡ victim_of ways word map }
{
    if !waymap::takes(ways, map) {
        return 0;
    }
    let nodes = nodes::nodes_of(ways, map);
    let mask = (waymap::all(ways - 1) as u64) & !nodes.free;
    walk::walked(ways, (word & !mask) | (mask & nodes.right))
}

// The word after a touch of the way. A way outside the map turns no node.
pub fn touch(ways: usize, word: u64, map: u16, way: usize) -> u64
    ensures { result ≡ touch_of ways word map way }
{
    if !waymap::takes(ways, map) {
        return word;
    }
    if !waymap::has(map, way) {
        return word;
    }
    path::touched(ways, word, map, way)
}

// The nodes that a change of fill map makes zero.
pub fn change(ways: usize, old: u16, new: u16) -> u64
    ensures { result ≡ change_of ways old new }
{
    if !waymap::takes(ways, old) || !waymap::takes(ways, new) {
        return 0;
    }
    let before = nodes::nodes_of(ways, old);
    let after = nodes::nodes_of(ways, new);
    before.free ^ after.free
}

// The word with these nodes made zero.
pub fn reset(word: u64, nodes: u64) -> u64
    ensures { result ≡ reset_of word nodes }
{
    word & !nodes
}

// The own part of a word: its bits at the map's free nodes.
pub fn own(ways: usize, word: u64, map: u16) -> u64
    ensures { result ≡ own_of ways word map }
{
    if !waymap::takes(ways, map) {
        return 0;
    }
    let nodes = nodes::nodes_of(ways, map);
    word & nodes.free
}

// Whether a node is free for both maps.
pub fn shares(ways: usize, map: u16, other: u16) -> bool
    ensures { result ≡ shares_of ways map other }
{
    if !waymap::takes(ways, map) || !waymap::takes(ways, other) {
        return false;
    }
    let mine = nodes::nodes_of(ways, map);
    let theirs = nodes::nodes_of(ways, other);
    mine.free & theirs.free != 0
}
