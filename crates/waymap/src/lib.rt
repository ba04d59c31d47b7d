// Maps of ways: 16-bit words whose bit w stands for way w. Two maps are joined and masked by `|`, `&`, `^` and `!`, whose bits
// proofs/BitLaws.antt gives; here is what takes a way, a number of ways, or a shift.
#![tactic(auto)]

ghost use Rattle.std.specs.Prelude.{◌≡◌, not, ℕ, ltb, eqb};
ghost use Rattle.waymap.specs.Bits.{bit, word, lowest, count, put, reaches};
ghost use Rattle.waymap.specs.Encoder.{encode as encode_map};
ghost use Rattle.waymap.specs.Ways.{is_ways, takes as takes_map};

// Whether the map holds the way. No map holds way 16 or more.
pub fn has(map: u16, way: usize) -> bool
    ensures { result ≡ bit map way }
{
    way < 16 && (map >> way) % 2 == 1
}

// The map of one way alone, empty for way 16 or more.
pub fn only(way: usize) -> u16
    ensures { result ≡ word 16 (λ (w : ℕ). eqb way w) }
{
    if 16 <= way {
        return 0;
    }
    1 << way
}

// The map of the ways below `ways`: all sixteen for 16 or more.
pub fn all(ways: usize) -> u16
    ensures { result ≡ word 16 (λ (w : ℕ). ltb w ways) }
{
    if 16 <= ways {
        return 65535;
    }
    (1 << ways) - 1
}

// Whether every way of the map is below `ways`.
pub fn fits(map: u16, ways: usize) -> bool
    ensures { result ≡ not (reaches ways map) }
{
    16 <= ways || map >> ways == 0
}

// Whether a cache may have so many ways.
pub fn is_ways(ways: usize) -> bool
    ensures { result ≡ is_ways ways }
{
    matches!(ways, 2 | 4 | 8 | 16)
}

// Whether a cache may have so many ways, and every way of the map is below that.
pub fn takes(ways: usize, map: u16) -> bool
    ensures { result ≡ takes_map ways map }
{
    is_ways(ways) && fits(map, ways)
}

// The lowest way of the map, 16 where it is empty.
pub fn lowest_way(map: u16) -> usize
    ensures { result ≡ lowest 16 (bit map) }
{
    u16::trailing_zeros(map) as usize
}

// The way that the priority encoder gives of the map, the highest. An empty map has none, and gives 16 as for the lowest.
pub fn encode(map: u16) -> usize
    ensures { result ≡ encode_map 16 (bit map) }
{
    if map == 0 {
        return lowest_way(map);
    }
    15 - (u16::leading_zeros(map) as usize)
}

// The map with the way made a member of it or not. No map has way 16 or more.
pub fn set_way(map: u16, way: usize, on: bool) -> u16
    ensures { result ≡ put way on map }
{
    if on {
        return map | only(way);
    }
    map & !only(way)
}

// How many ways the map has.
pub fn count_ways(map: u16) -> usize
    ensures { result ≡ count 16 (bit map) }
{
    u16::count_ones(map) as usize
}
