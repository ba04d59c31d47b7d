// A change of policy: worked out from the maps once, and then done to one set after another.
#![tactic(auto)]

mod lines;
mod number;
mod tags;

ghost use Rattle.std.specs.Prelude.{◌≡◌};
ghost use Rattle.waymap.specs.Bits.{bit, word};
ghost use Rattle.policy.specs.Policy.{as_read};
ghost use Rattle.row.specs.Calls.{row_of, effect_of, told};
ghost use Rattle.sweep.specs.Clean.{drop_ways};
ghost use Rattle.sweep.specs.Sweep.{sweep_of, sweep_by};
ghost use Rattle.sweep.specs.Drops.{drops_in, added_to};

use command::Answer;
pub use number::{lines_among, lines_in};
use policy::Maps;
use replacement::Change;
use row::{Done, Lines};

// What a change of policy does to every set alike: the ways that are cleaned, and what becomes of the replacement word.
#[derive(Clone, Copy)]
pub struct Sweep {
    pub gone: u16,
    pub change: Change,
}

// A change of policy, worked out from the maps alone.
pub fn sweep_of(ways: usize, rule: usize, old: Maps, new: Maps) -> Sweep
    ensures { result ≡ sweep_of ways rule old new }
{
    let was = policy::as_read(ways, old);
    let next = policy::as_read(ways, new);
    Sweep {
        gone: was.hit ^ next.hit,
        change: replacement::change_of(ways, rule, was.fill, next.fill),
    }
}

// The ways whose lines a change of policy drops, given the ways that other domains hold.
pub fn drop_ways(ways: usize, old: Maps, new: Maps, held: u16) -> u16
    ensures { result ≡ word 16 (drop_ways (as_read ways old) (as_read ways new) (bit held)) }
{
    let was = policy::as_read(ways, old);
    let next = policy::as_read(ways, new);
    let taken = next.hit & held;
    (was.hit ^ next.hit) & !taken
}

// What it does to the set.
pub fn swept(tags: &mut [u64], lines: Lines, sweep: Sweep) -> Done
    ensures { told (effect_of result tags.new) ≡ told (sweep_by sweep (row_of tags.old lines)) }
{
    let read = policy::as_read(
        tags.len(),
        Maps {
            hit: sweep.gone,
            fill: 0,
        },
    );
    let gone = read.hit;
    let change = sweep.change;
    let answer = lines::dropped(lines, gone);
    let left = lines::swept(lines, gone, change);
    tags::wipe(tags, gone);
    Done {
        answer,
        lines: left,
    }
}

// The valid lines that a change of policy dropped, and how many of them were dirty.
#[derive(Clone, Copy, Default)]
pub struct Drops {
    pub dropped: usize,
    pub dirty: usize,
}

// The drops that an answer tells of.
fn drops_of(answer: Answer) -> Drops
    ensures { result ≡ drops_in answer }
{
    match answer {
        Answer::Policy { dropped, dirty } => Drops { dropped, dirty },
        _ => Drops::default(),
    }
}

// The drops so far with those of one set more.
pub fn added(drops: Drops, answer: Answer) -> Drops
    ensures { result ≡ added_to drops answer }
{
    let more = drops_of(answer);
    Drops {
        dropped: drops.dropped.wrapping_add(more.dropped),
        dirty: drops.dirty.wrapping_add(more.dirty),
    }
}
