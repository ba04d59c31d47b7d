// The geometry of a cache: how bytes name it, its limits, how long the tables are, and where an address's line can be.
#![tactic(auto)]

ghost use Rattle.std.specs.Prelude.{◌≡◌};
ghost use Rattle.command.specs.Refusal.{number_in};
ghost use Rattle.geometry.specs.Geometry.{within as within_limits, sized as sized_as, sizes_of};
ghost use Rattle.geometry.specs.Address.{place_of};
ghost use Rattle.geometry.specs.Inside.{Limited};
ghost use Rattle.geometry.specs.Named.{geometry_of};

use command::Refusal;

// The most sets of a cache.
pub const MAX_SETS: usize = 4096;

// The numbers of sets and ways, and the replacement rule.
#[derive(Clone, Copy)]
pub struct Geometry {
    pub sets: usize,
    pub ways: usize,
    pub rule: usize,
}

// The geometry that the first bytes of a trace file or of a block name; bytes behind the end are 0.
pub fn named(bytes: &[u8]) -> Geometry
    ensures { result ≡ geometry_of bytes.now }
{
    let sets = endian::at::<u16>(bytes, 0) as usize;
    let ways = endian::at::<u8>(bytes, 2) as usize;
    let rule = endian::at::<u8>(bytes, 3) as usize;
    Geometry { sets, ways, rule }
}

// Whether the geometry is within the limits.
pub fn within(g: Geometry) -> bool
    ensures { result ≡ within_limits g }
{
    let sets = g.sets;
    sets != 0
        && sets <= MAX_SETS
        && sets & (sets - 1) == 0
        && replacement::in_limits(g.ways, g.rule)
}

// Whether the tables have their lengths.
fn sized(g: Geometry, tags: usize, valid: usize, dirty: usize, words: usize) -> bool
    requires { Limited g }
    ensures { result ≡ sized_as g (record { tags = tags; valid = valid; dirty = dirty; words = words }) }
{
    let sets = g.sets;
    tags == sets * g.ways && valid == sets && dirty == sets && words == sets
}

// Numbers 1 and 2: the geometry is within the limits, and the tables have its lengths.
pub fn sizes(
    g: Geometry,
    tags: usize,
    valid: usize,
    dirty: usize,
    words: usize,
) -> Result<(), Refusal>
    ensures { number_in result ≡ sizes_of g (record { tags = tags; valid = valid; dirty = dirty; words = words }) }
{
    if !within(g) {
        return Err(Refusal::Limits);
    }
    if !sized(g, tags, valid, dirty, words) {
        return Err(Refusal::Lengths);
    }
    Ok(())
}

// An address's set, and its tag there.
#[derive(Clone, Copy)]
pub struct Place {
    pub set: usize,
    pub tag: u64,
}

// Where an address's line can be. By no sets, which no call of the cache comes to, division leaves the line and gives 0.
pub fn place_of(g: Geometry, address: u64) -> Place
    ensures { result ≡ place_of g address }
{
    let sets = g.sets as u64;
    let line = address / 64;
    if sets == 0 {
        return Place {
            set: line as usize,
            tag: 0,
        };
    }
    let set = line % sets;
    let tag = line / sets;
    Place {
        set: set as usize,
        tag,
    }
}
