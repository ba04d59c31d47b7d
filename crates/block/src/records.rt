// The domains of a block: their maps and counts.
ghost use Rattle.std.specs.Prelude.{◌≡◌, ◌+◌, ◌<◌, ◌≤◌, length, drop};
ghost use Rattle.std.proofs.lemmas.List.Edits.{sets};
ghost use Rattle.domains.specs.Domains.{domain_of};
ghost use Rattle.domains.specs.Calls.{policies_of};
ghost use Rattle.block.specs.Layout.{counts_in, counts_bytes};
ghost use Rattle.block.specs.Inside.{Blocked, contents, with_domain};

use crate::layout;
use domains::{Counts, Domain, Policies};
use geometry::Geometry;
use policy::Maps;

// Seven counts at a place.
fn counts_at(block: &[u8], at: usize) -> Counts
    requires { at + 28 ≤ length block.now }
    ensures { result ≡ counts_in (drop at block.now) }
{
    let mut c = [0u32; 7];
    runs::read(block, at, &mut c);
    Counts {
        hits: c[0],
        misses: c[1],
        evicted: c[2],
        written: c[3],
        flushed: c[4],
        fills: c[5],
        dropped: c[6],
    }
}

fn put_counts(block: &mut [u8], at: usize, c: Counts)
    requires { at + 28 ≤ length block.old }
    ensures { block.new ≡ sets block.old at (counts_bytes c) }
{
    let all = [
        c.hits, c.misses, c.evicted, c.written, c.flushed, c.fills, c.dropped,
    ];
    runs::put(block, at, &all);
}

// The record of a domain.
pub fn own(block: &[u8], g: Geometry, d: usize) -> Domain
    requires blocked { Blocked g block.now }
    requires d_bound { d < 16 }
    ensures { result ≡ domain_of (contents g block.now).state.domains d }
{
    Domain {
        hit: endian::at(block, layout::HIT_MAPS + 2 * d),
        fill: endian::at(block, layout::FILL_MAPS + 2 * d),
        counts: counts_at(block, layout::COUNTS + 28 * d),
    }
}

pub fn put_own(block: &mut [u8], g: Geometry, d: usize, own: Domain)
    requires blocked { Blocked g block.old }
    requires d_bound { d < 16 }
    ensures { contents g block.new ≡ with_domain d own (contents g block.old) }
{
    endian::put(block, layout::HIT_MAPS + 2 * d, own.hit);
    endian::put(block, layout::FILL_MAPS + 2 * d, own.fill);
    put_counts(block, layout::COUNTS + 28 * d, own.counts);
}

// The maps of all domains.
pub fn policies(block: &[u8], g: Geometry) -> Policies
    requires { Blocked g block.now }
    ensures { result ≡ policies_of (contents g block.now).state.domains }
{
    let mut maps = [Maps::default(); 16];
    for (d, own) in maps.iter_mut().enumerate() {
        *own = Maps {
            hit: endian::at(block, layout::HIT_MAPS + 2 * d),
            fill: endian::at(block, layout::FILL_MAPS + 2 * d),
        };
    }
    Policies { maps }
}
