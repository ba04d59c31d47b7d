// What a set has beside its tags: valid map, dirty map and replacement word.
ghost use Rattle.std.specs.Prelude.{◌≡◌, true, ◌<◌};
ghost use Rattle.replacement.specs.Rule.{rule_of};
ghost use Rattle.row.specs.Row.{hit_at, filled as filled_row, flush_at};
ghost use Rattle.row.specs.Inside.{Usable, untagged, lines_of};

use crate::{Lines, rules};

// After a hit: the way is touched, and a store marks it dirty.
pub fn hit(lines: Lines, ways: usize, rule: usize, fill: u16, store: bool, way: usize) -> Lines
    requires usable { Usable ways rule fill }
    requires way_lt_ways { way < ways }
    ensures { result ≡ lines_of (hit_at (rule_of rule ways) fill store way (untagged lines)).row }
{
    let word = rules::touched(ways, rule, lines.word, fill, way);
    let mut dirty = lines.dirty;
    if store {
        dirty = waymap::set_way(dirty, way, true);
    }
    Lines {
        valid: lines.valid,
        dirty,
        word,
    }
}

// After a fill, from the word before its touch: the way is valid, dirty only for a store, and touched.
pub fn filled(
    lines: Lines,
    ways: usize,
    rule: usize,
    fill: u16,
    store: bool,
    way: usize,
    before: u64,
) -> Lines
    requires usable { Usable ways rule fill }
    requires way_lt_ways { way < ways }
    ensures { result ≡ lines_of (filled_row (rule_of rule ways) fill 0 store way before (untagged lines)) }
{
    Lines {
        valid: waymap::set_way(lines.valid, way, true),
        dirty: waymap::set_way(lines.dirty, way, store),
        word: rules::touched(ways, rule, before, fill, way),
    }
}

// After a flush: the way is invalid and not dirty.
pub fn flushed(lines: Lines, way: usize) -> Lines
    ensures { result ≡ lines_of (flush_at true way (untagged lines)).row }
{
    Lines {
        valid: waymap::set_way(lines.valid, way, false),
        dirty: waymap::set_way(lines.dirty, way, false),
        word: lines.word,
    }
}
