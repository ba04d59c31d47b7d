// Where the parts of a block lie.
ghost use Rattle.std.specs.Prelude.{◌<◌};
ghost use Rattle.geometry.specs.Inside.{Limited};
ghost use Rattle.block.specs.Inside.{PlacesOf};

use geometry::Geometry;

// The first bytes of the hit maps, the fill maps, the counts and the tables.
pub const HIT_MAPS: usize = 8;

pub const FILL_MAPS: usize = 40;

pub const COUNTS: usize = 72;

pub const TABLES: usize = 520;

// Where a set lies: the places of its valid map, its dirty map, its replacement word and its tags.
#[derive(Clone, Copy)]
pub struct Places {
    pub valid: usize,
    pub dirty: usize,
    pub word: usize,
    pub row: usize,
}

pub fn places_of(g: Geometry, set: usize) -> Places
    requires limited { Limited g }
    requires set_lt_sets { set < g.sets }
    ensures { PlacesOf g set result }
{
    let sets = g.sets;
    let first = set * g.ways;
    Places {
        valid: TABLES + 2 * set,
        dirty: TABLES + 2 * sets + 2 * set,
        word: TABLES + 4 * sets + 8 * set,
        row: TABLES + 12 * sets + 8 * first,
    }
}
