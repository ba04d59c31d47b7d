// True LRU, without any cache above it. A word holds the ways in places of four bits, place 0 the most recent.
#![tactic(auto)]

mod orders;

ghost use Rattle.std.specs.Prelude.{◌≡◌};
ghost use Rattle.lru_rule.specs.Calls.{victim_of, touch_of, change_of, reset_of, own_of, fresh_of};

// The map's way nearest the old end.
pub fn victim(ways: usize, word: u64, map: u16) -> usize
    ensures { result ≡ victim_of ways word map }
{
    if !waymap::takes(ways, map) {
        return 0;
    }
    orders::oldest(ways, orders::read(ways, word), map)
}

// The word after a touch of the way.
pub fn touch(ways: usize, word: u64, map: u16, way: usize) -> u64
    ensures { result ≡ touch_of ways word map way }
{
    if !waymap::takes(ways, map) {
        return word;
    }
    if !waymap::has(map, way) {
        return word;
    }
    let order = orders::read(ways, word);
    orders::written(word, order, orders::touched(ways, order, way))
}

// What a change of fill map does to every order: the ways that it moves to the old end, and the word that holds them as they then stand there.
#[derive(Clone, Copy)]
pub struct Moves {
    pub ways: u16,
    pub tail: u64,
}

// A change of fill map, worked out from the maps alone.
pub fn change(old: u16, new: u16) -> Moves
    ensures { result ≡ change_of old new }
{
    let moved = old ^ new;
    Moves {
        ways: moved,
        tail: orders::falling(moved),
    }
}

// The word after it: the ways that stay keep their order, before those that move.
pub fn reset(ways: usize, word: u64, moves: Moves) -> u64
    ensures { result ≡ reset_of ways word moves }
{
    let moved = moves.ways;
    if !waymap::takes(ways, moved) {
        return word;
    }
    if let Some(next) = orders::pass(ways, word, !moved, moves.tail) {
        return orders::written(word, word, next);
    }
    let order = orders::fresh(ways);
    let next = orders::pass(ways, order, !moved, moves.tail).unwrap();
    orders::written(word, order, next)
}

// The own part of a word: the map's ways in their order.
pub fn own(ways: usize, word: u64, map: u16) -> u64
    ensures { result ≡ own_of ways word map }
{
    if !waymap::takes(ways, map) {
        return 0;
    }
    orders::pass(ways, orders::read(ways, word), map, 0).unwrap()
}

// The word of a fresh cache.
pub fn fresh(ways: usize) -> u64
    ensures { result ≡ fresh_of ways }
{
    if waymap::is_ways(ways) {
        return orders::fresh(ways);
    }
    0
}
