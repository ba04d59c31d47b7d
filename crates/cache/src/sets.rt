// The work on the sets of the tables: a set's row is lent, and its maps and word are put back.
ghost use Rattle.std.specs.Prelude.{◌<◌};
ghost use Rattle.sweep.specs.Sweep.{sweep_by};
ghost use Rattle.steps.specs.Step.{tables_of};
ghost use Rattle.steps.specs.Inside.{Shaped};
ghost use Rattle.steps.specs.Deed.{RowWork, on_row, work_at, AllSwept};
ghost use Rattle.cache.specs.Inside.{RowCalled};

use crate::place;
use command::{Answer, LineUse};
use geometry::Geometry;
use policy::Maps;
use row::{Done, Lines};
use sweep::{Drops, Sweep};

// Work on the row of one set: its tags are lent, and what the work leaves beside them is put back.
fn with_row<F: FnOnce(&mut [u64], Lines) -> Done>(
    g: Geometry,
    tags: &mut [u64],
    valid: &mut [u16],
    dirty: &mut [u16],
    words: &mut [u64],
    set: usize,
    work: F,
) -> Answer
    requires shaped { Shaped g (tables_of tags.old valid.old dirty.old words.old) }
    requires set_lt_sets { set < g.sets }
    requires callable { F.IsAlwaysCallable work }
    ensures { RowCalled (F.post work) g.ways set result
        (tables_of tags.old valid.old dirty.old words.old)
        (tables_of tags.new valid.new dirty.new words.new) }
{
    let span = place::span_of(g, set);
    let lines = Lines {
        valid: valid[set],
        dirty: dirty[set],
        word: words[set],
    };
    let done = work(&mut tags[span.start..span.stop], lines);
    let left = done.lines;
    valid[set] = left.valid;
    dirty[set] = left.dirty;
    words[set] = left.word;
    done.answer
}

// An access or a flush in the tables.
pub fn use_set(
    g: Geometry,
    tags: &mut [u64],
    valid: &mut [u16],
    dirty: &mut [u16],
    words: &mut [u64],
    maps: Maps,
    usage: LineUse,
    address: u64,
) -> Answer
    requires { Shaped g (tables_of tags.old valid.old dirty.old words.old) }
    ensures { RowWork result (tables_of tags.new valid.new dirty.new words.new)
        (work_at g usage maps address (tables_of tags.old valid.old dirty.old words.old)) }
{
    let found = place::place_of(g, address);
    with_row(g, tags, valid, dirty, words, found.set, |row, lines| {
        row::use_line(row, lines, g.rule, maps, usage, found.tag)
    })
}

// The cleaning of one set in the tables.
fn sweep_set(
    g: Geometry,
    tags: &mut [u64],
    valid: &mut [u16],
    dirty: &mut [u16],
    words: &mut [u64],
    sweep: Sweep,
    set: usize,
) -> Answer
    requires shaped { Shaped g (tables_of tags.old valid.old dirty.old words.old) }
    requires set_lt_sets { set < g.sets }
    ensures { RowWork result (tables_of tags.new valid.new dirty.new words.new)
        (on_row g.ways set (sweep_by sweep) (tables_of tags.old valid.old dirty.old words.old)) }
{
    with_row(g, tags, valid, dirty, words, set, |row, lines| {
        sweep::swept(row, lines, sweep)
    })
}

// The cleaning of every set.
pub fn sweep_sets(
    g: Geometry,
    tags: &mut [u64],
    valid: &mut [u16],
    dirty: &mut [u16],
    words: &mut [u64],
    sweep: Sweep,
) -> Drops
    requires { Shaped g (tables_of tags.old valid.old dirty.old words.old) }
    ensures { AllSwept g sweep g.sets (tables_of tags.old valid.old dirty.old words.old)
        (tables_of tags.new valid.new dirty.new words.new) result.dropped result.dirty }
{
    let mut drops = Drops::default();
    for set in 0..g.sets {
        let answer = sweep_set(g, tags, valid, dirty, words, sweep, set);
        drops = sweep::added(drops, answer);
    }
    drops
}
