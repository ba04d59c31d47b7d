// The work on the sets of a block: a set's row is taken out, worked on and put back.
ghost use Rattle.std.specs.Prelude.{◌≡◌, ◌+◌, ◌*◌, ◌%◌, ◌^◌, ◌<◌, ◌≤◌, length};
ghost use Rattle.waymap.specs.Bits.{bit};
ghost use Rattle.row.specs.Row.{Row, Effect};
ghost use Rattle.row.specs.Calls.{use_of};
ghost use Rattle.sweep.specs.Sweep.{sweep_by};
ghost use Rattle.sweep.specs.Number.{lines_among};
ghost use Rattle.steps.specs.Deed.{on_row, work_at};
ghost use Rattle.block.specs.Inside.{Blocked, contents, lines_at, put_lines as put_lines_at, DoesToRow, RowWorked, did_of, work_did, Swept};

use crate::layout;
use crate::layout::Places;
use command::{Answer, LineUse};
use geometry::Geometry;
use policy::Maps;
use row::{Done, Lines};
use sweep::{Drops, Sweep};

// What a set has beside its tags.
fn lines_at(block: &[u8], at: Places) -> Lines
    ensures { result ≡ lines_at at block.now }
{
    Lines {
        valid: endian::at(block, at.valid),
        dirty: endian::at(block, at.dirty),
        word: endian::at(block, at.word),
    }
}

fn put_lines(block: &mut [u8], at: Places, lines: Lines)
    ensures { block.new ≡ put_lines_at at lines block.old }
{
    endian::put(block, at.valid, lines.valid);
    endian::put(block, at.dirty, lines.dirty);
    endian::put(block, at.word, lines.word);
}

// The row at some places is taken out, worked on and put back, given room for its tags. The two callers make that room each: with a function between that
// makes it for both, a hit took seven instructions more.
fn work_row<F: FnOnce(&mut [u64], Lines) -> Done>(
    block: &mut [u8],
    row: &mut [u64],
    at: Places,
    work: F,
) -> Answer
    requires room { at.row + 8 * length row.old ≤ length block.old }
    requires works { F.IsAlwaysCallable work }
    ensures { (f : Row → Effect) → DoesToRow (F.post work) f → RowWorked at f (length row.old) block.old result block.new }
{
    runs::read(block, at.row, row);
    let lines = lines_at(block, at);
    let done = work(row, lines);
    runs::put(block, at.row, row);
    put_lines(block, at, done.lines);
    done.answer
}

// An access or a flush.
pub fn use_set(block: &mut [u8], g: Geometry, maps: Maps, usage: LineUse, address: u64) -> Answer
    requires { Blocked g block.old }
    ensures { did_of result (contents g block.new)
        ≡ work_did (work_at g usage maps address (contents g block.old).state.tables) (contents g block.old) }
{
    let found = geometry::place_of(g, address);
    let at = layout::places_of(g, found.set);
    let ways = g.ways;
    let mut row = [0u64; 16];
    work_row(block, &mut row[0..ways], at, |tags, lines| {
        row::use_line(tags, lines, g.rule, maps, usage, found.tag)
    })
}

// The cleaning of one set.
fn sweep_set(block: &mut [u8], g: Geometry, sweep: Sweep, set: usize) -> Answer
    requires blocked { Blocked g block.old }
    requires set_lt_sets { set < g.sets }
    ensures { did_of result (contents g block.new)
        ≡ work_did (on_row g.ways set (sweep_by sweep) (contents g block.old).state.tables) (contents g block.old) }
{
    let at = layout::places_of(g, set);
    let ways = g.ways;
    let mut row = [0u64; 16];
    work_row(block, &mut row[0..ways], at, |tags, lines| {
        sweep::swept(tags, lines, sweep)
    })
}

// The cleaning of every set.
pub fn sweep_sets(block: &mut [u8], g: Geometry, sweep: Sweep) -> Drops
    requires { Blocked g block.old }
    ensures { Swept g sweep block.old block.new result.dropped result.dirty }
{
    let mut drops = Drops {
        dropped: 0,
        dirty: 0,
    };
    for set in 0..g.sets {
        let answer = sweep_set(block, g, sweep, set);
        drops = sweep::added(drops, answer);
    }
    drops
}

// How many valid lines the sets have in the ways of a map, in 64 bits.
pub fn lines_among(block: &[u8], g: Geometry, map: u16) -> usize
    requires { Blocked g block.now }
    ensures { result ≡ lines_among (bit map) (contents g block.now).state.tables.valid % 2 ^ 64 }
{
    let mut lines: usize = 0;
    for set in 0..g.sets {
        let valid = endian::at(block, layout::TABLES + 2 * set);
        lines = lines.wrapping_add(sweep::lines_in(valid, map));
    }
    lines
}
