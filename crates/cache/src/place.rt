// Where an address's line can be, and where a set's tags lie.
ghost use Rattle.std.specs.Prelude.{◌<◌};
ghost use Rattle.geometry.specs.Inside.{Limited};
ghost use Rattle.cache.specs.Inside.{PlaceOf, RowOf};

use geometry::{Geometry, Place};

// A set's part of the tags.
#[derive(Clone, Copy)]
pub struct Span {
    pub start: usize,
    pub stop: usize,
}

pub fn place_of(g: Geometry, address: u64) -> Place
    requires { Limited g }
    ensures { PlaceOf g address result }
{
    geometry::place_of(g, address)
}

pub fn span_of(g: Geometry, set: usize) -> Span
    requires limited { Limited g }
    requires set_lt_sets { set < g.sets }
    ensures { RowOf g set result.start result.stop }
{
    let start = set * g.ways;
    Span {
        start,
        stop: start + g.ways,
    }
}
