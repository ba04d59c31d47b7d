// The hit lookup among the tags of a set.
#![tactic(auto)]

ghost use Rattle.std.specs.Prelude.{◌≡◌, ◌&&◌, ◌<◌, eqb, length, get_or, unwrap_or, IfSome};
ghost use Rattle.waymap.specs.Bits.{bit};
ghost use Rattle.lookup.specs.Lookup.{hit_way, visited as visited_of};

// Whether the way is in the map and has the tag.
fn is_at(tags: &[u64], map: u16, tag: u64, way: usize) -> bool
    requires { way < length tags.now }
    ensures { result ≡ (bit map way && eqb (get_or tags.now way 0) tag) }
{
    tags[way] == tag && waymap::has(map, way)
}

// The way that is hit, if one is, and how many ways were visited.
#[derive(Clone, Copy)]
pub struct Found {
    pub way: Option<usize>,
    pub visited: usize,
}

// Visits the ways of the hit map, the lowest first, up to one that is valid with the tag. (The loop takes the next way by trailing zeros, and how many
// it visited from the count of ones that remain: an iterator would hide what remains.)
pub fn find(tags: &[u64], valid: u16, hit: u16, tag: u64) -> Found
    ensures way_value { unwrap_or result.way (length tags.now) ≡ hit_way tags.now valid hit tag }
    ensures way_bound { IfSome result.way (λ way. way < length tags.now) }
    ensures visited_value { result.visited ≡ visited_of tags.now valid hit tag }
{
    let mut left = hit & waymap::all(tags.len());
    let all = waymap::count_ways(left);
    while left != 0 {
        let way = waymap::lowest_way(left);
        left = left & (left - 1);
        if is_at(tags, valid, tag, way) {
            let visited = all - waymap::count_ways(left);
            return Found {
                way: Some(way),
                visited,
            };
        }
    }
    Found {
        way: None,
        visited: all,
    }
}
