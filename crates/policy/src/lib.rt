// A domain's policy: how it is read, and what a policy argument says.
#![tactic(auto)]

ghost use Rattle.std.specs.Prelude.{◌≡◌};
ghost use Rattle.policy.specs.Policy.{as_read, new_maps, bad_argument};

// A domain's hit map and fill map.
#[derive(Clone, Copy, Default)]
pub struct Maps {
    pub hit: u16,
    pub fill: u16,
}

// A policy as it is read: without ways of `ways` or more, and the fill map cut to the hit map.
pub fn as_read(ways: usize, maps: Maps) -> Maps
    ensures { result ≡ as_read ways maps }
{
    let hit = maps.hit & waymap::all(ways);
    Maps {
        hit,
        fill: maps.fill & hit,
    }
}

// The maps of a policy argument.
pub fn new_maps(argument: u64) -> Maps
    ensures { result ≡ new_maps argument }
{
    Maps {
        hit: (argument % 65536) as u16,
        fill: (argument / 65536 % 65536) as u16,
    }
}

// Whether a policy argument is turned down by number 5.
pub fn bad_argument(ways: usize, argument: u64) -> bool
    ensures { result ≡ bad_argument ways argument }
{
    let new = new_maps(argument);
    !waymap::fits(new.hit, ways) || new.fill & !new.hit != 0 || argument / 4294967296 != 0
}
