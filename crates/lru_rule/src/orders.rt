// Words that hold orders, of up to sixteen ways.
ghost use Rattle.std.specs.Prelude.{◌≡◌, not, cond, ◌/◌, ◌%◌, ◌^◌, ◌<◌, eqb};
ghost use Rattle.waymap.specs.Bits.{bit};
ghost use Rattle.waymap.specs.Ways.{Sized};
ghost use Rattle.lru_rule.specs.Lru.{places, word_of, malformed, order, kept, last, fresh as fresh_order};
ghost use Rattle.lru_rule.specs.Calls.{ahead};
ghost use Rattle.lru_rule.specs.Inside.{rank, lifted, passed};

// The way at place k.
fn at(word: u64, k: usize) -> usize
    requires { k < 16 }
    ensures { result ≡ word / 16 ^ k % 16 }
{
    ((word >> (4 * k)) % 16) as usize
}

// Whether a word holds each way exactly once and nothing above: as there are as many places as ways, no way may be missing.
fn holds_each(ways: usize, word: u64) -> bool
    requires { Sized ways }
    ensures { result ≡ not (malformed ways word) }
{
    let mut seen: u16 = 0;
    let mut rest = word;
    for _ in 0..ways {
        seen |= waymap::only((rest % 16) as usize);
        rest /= 16;
    }
    rest == 0 && seen == waymap::all(ways)
}

// The fresh order.
pub fn fresh(ways: usize) -> u64
    requires { Sized ways }
    ensures { result ≡ word_of (fresh_order ways) }
{
    0x0123456789abcdef >> (64 - 4 * ways)
}

// The order that a word is read as.
pub fn read(ways: usize, word: u64) -> u64
    requires { Sized ways }
    ensures { result ≡ word_of (order ways word) }
{
    if holds_each(ways, word) {
        return word;
    }
    fresh(ways)
}

// The last way of an order that is in the map, 0 without one.
pub fn oldest(ways: usize, order: u64, map: u16) -> usize
    requires { Sized ways }
    ensures { result ≡ last 0 (kept (bit map) (places ways order)) }
{
    for k in (0..ways).rev() {
        let way = at(order, k);
        if waymap::has(map, way) {
            return way;
        }
    }
    0
}

// In one pass over the places of a word, its ways of a map, put before the places of another word; nothing where the word does not hold each way
// exactly once and nothing above, as `holds_each` tells. A change of fill map goes through the words of all sets, and so through each word once.
// The places are shifted so that the oldest stands at the top, and are taken from there.
pub fn pass(ways: usize, word: u64, map: u16, tail: u64) -> Option<u64>
    requires { Sized ways }
    ensures { result ≡ passed (bit map) tail ways word }
{
    let shift = 64 - 4 * ways;
    let top = word << shift;
    let mut rest = top;
    let mut seen: u16 = 0;
    let mut out = tail;
    for _ in 0..ways {
        let way = rest >> 60;
        rest <<= 4;
        seen |= waymap::only(way as usize);
        if waymap::has(map, way as usize) {
            out = (out << 4) + way;
        }
    }
    if top >> shift != word || seen != waymap::all(ways) {
        return None;
    }
    Some(out)
}

// The place of a way that stands in an order.
fn place_of(ways: usize, order: u64, way: usize) -> usize
    requires sized { Sized ways }
    requires order_bound { rank way (places ways order) < ways }
    ensures { result ≡ rank way (places ways order) }
{
    for k in 0..ways {
        if at(order, k) == way {
            return k;
        }
    }
    unreachable!()
}

// The order with the way that stands at place k brought to place 0.
fn lift(order: u64, k: usize, way: usize) -> u64
    requires k_bound { k < 16 }
    requires way_bound { way < 16 }
    ensures { result ≡ lifted way k order }
{
    let shift = 4 * k;
    let newer = order % (1 << shift);
    let older = (order >> shift) / 16 * 16;
    (way as u64) + newer * 16 + (older << shift)
}

// The order with the way brought to place 0.
pub fn touched(ways: usize, order: u64, way: usize) -> u64
    requires sized { Sized ways }
    requires way_bound { way < 16 }
    requires order_bound { rank way (places ways order) < ways }
    ensures { result ≡ lifted way (rank way (places ways order)) order }
{
    lift(order, place_of(ways, order, way), way)
}

// The ways of a map, the highest the most recent. (The loop is over what is left of the map, by trailing zeros: no place is counted in it.)
pub fn falling(map: u16) -> u64
    ensures { result ≡ ahead (kept (bit map) (fresh_order 16)) 0 }
{
    let mut left = map;
    let mut out: u64 = 0;
    while left != 0 {
        out = (out << 4) + (waymap::lowest_way(left) as u64);
        left = left & (left - 1);
    }
    out
}

// The word with an order written over it: where that is the order it is read as, the word stays.
pub fn written(word: u64, order: u64, next: u64) -> u64
    ensures { result ≡ cond (eqb next order) word next }
{
    if next == order {
        return word;
    }
    next
}
