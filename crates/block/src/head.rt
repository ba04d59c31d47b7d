// Numbers 12 and 1, by a block's head and length.
ghost use Rattle.std.specs.Prelude.{◌≡◌};
ghost use Rattle.command.specs.Refusal.{number_in};
ghost use Rattle.block.specs.Layout.{block_bytes};
ghost use Rattle.block.specs.Block.{length_refusal, block_refusal};
ghost use Rattle.geometry.specs.Inside.{Limited};
ghost use Rattle.geometry.specs.Named.{geometry_of};

use crate::layout;
use command::Refusal;
use geometry::Geometry;

// How long a block is.
fn bytes(g: Geometry) -> usize
    requires { Limited g }
    ensures { result ≡ block_bytes g }
{
    let sets = g.sets;
    let cells = sets * g.ways;
    layout::TABLES + 12 * sets + 8 * cells
}

// Of a block of some length that is to have a geometry: 12 under 8 bytes, 1 outside the limits, 12 for another length.
pub fn sized(g: Geometry, length: usize) -> Result<(), Refusal>
    ensures { number_in result ≡ length_refusal g length }
{
    if length < 8 {
        return Err(Refusal::Block);
    }
    if !geometry::within(g) {
        return Err(Refusal::Limits);
    }
    if length != bytes(g) {
        return Err(Refusal::Block);
    }
    Ok(())
}

// Of a block at a step, given the geometry that it names, and a lent answer of some length.
pub fn fits(block: &[u8], g: Geometry, answer: usize) -> Result<(), Refusal>
    requires { g ≡ geometry_of block.now }
    ensures { number_in result ≡ block_refusal block.now answer }
{
    sized(g, block.len())?;
    if answer != 32 {
        return Err(Refusal::Block);
    }
    if endian::at::<u32>(block, 4) != 0 {
        return Err(Refusal::Block);
    }
    Ok(())
}
