// A fresh block.
ghost use Rattle.std.specs.Prelude.{◌≡◌, ◌+◌, ◌*◌, ◌≤◌, length, replicate};
ghost use Rattle.std.proofs.lemmas.List.Edits.{sets as sets_of};
ghost use Rattle.runs.specs.Runs.{bytes_of};
ghost use Rattle.steps.specs.Fresh.{fresh as fresh_state};
ghost use Rattle.block.specs.Layout.{block_of};
ghost use Rattle.block.specs.Inside.{Blocked, named_by};

use crate::layout;
use geometry::Geometry;

// The geometry put at the front.
fn name(block: &mut [u8], g: Geometry)
    requires { Blocked g block.old }
    ensures { block.new ≡ sets_of block.old 0 (named_by g) }
{
    endian::put(block, 0, g.sets as u16);
    endian::put(block, 2, g.ways as u8);
    endian::put(block, 3, g.rule as u8);
}

// One replacement word for every set, the first at a place.
fn put_words(block: &mut [u8], at: usize, sets: usize, word: u64)
    requires { at + 8 * sets ≤ length block.old }
    ensures { block.new ≡ sets_of block.old at (bytes_of 8 (replicate sets word)) }
{
    for set in 0..sets {
        endian::put(block, at + 8 * set, word);
    }
}

pub fn fresh(block: &mut [u8], g: Geometry)
    requires { Blocked g block.old }
    ensures { block.new ≡ block_of g (fresh_state g) }
{
    let word = replacement::fresh(g.ways, g.rule).unwrap();
    block.fill(0);
    name(block, g);
    put_words(block, layout::TABLES + 4 * g.sets, g.sets, word);
}
