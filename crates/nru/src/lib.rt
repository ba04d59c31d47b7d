// NRU, without any cache above it. Bit w of a word belongs to way w.
#![tactic(auto)]

ghost use Rattle.std.specs.Prelude.{◌≡◌};
ghost use Rattle.nru.specs.Calls.{victim_of, touch_of, change_of, reset_of, own_of, fresh_of};

// A victim, and the word before its touch.
#[derive(Clone, Copy)]
pub struct Choice {
    pub way: usize,
    pub word: u64,
}

// Of the ways of the map whose bit is one, that which the priority encoder gives; without one the map's bits become one, and the choice is among them.
pub fn victim(word: u64, map: u16) -> Choice
    ensures { result ≡ victim_of word map }
{
    let ones = map & ((word % 65536) as u16);
    if ones == 0 {
        let all = word | (map as u64);
        return Choice {
            way: waymap::encode(map),
            word: all,
        };
    }
    Choice {
        way: waymap::encode(ones),
        word,
    }
}

// The word after a touch of the way.
pub fn touch(word: u64, map: u16, way: usize) -> u64
    ensures { result ≡ touch_of word map way }
{
    word & !((map & waymap::only(way)) as u64)
}

// The ways whose bits a change of fill map makes one.
pub fn change(old: u16, new: u16) -> u64
    ensures { result ≡ change_of old new }
{
    (old ^ new) as u64
}

// The word with the bits of these ways made one.
pub fn reset(word: u64, ways: u64) -> u64
    ensures { result ≡ reset_of word ways }
{
    word | ways
}

// The own part of a word: its bits of the map's ways.
pub fn own(word: u64, map: u16) -> u64
    ensures { result ≡ own_of word map }
{
    word & (map as u64)
}

// The word of a fresh cache.
pub fn fresh(ways: usize) -> u64
    ensures { result ≡ fresh_of ways }
{
    waymap::all(ways) as u64
}
