// A miss in a set with ways to fill, within the limits.
ghost use Rattle.std.specs.Prelude.{◌≡◌, true, length};
ghost use Rattle.waymap.specs.Bits.{bit, any};
ghost use Rattle.replacement.specs.Rule.{rule_of};
ghost use Rattle.row.specs.Row.{evict_at};
ghost use Rattle.row.specs.Calls.{row_of, effect_of};
ghost use Rattle.row.specs.Inside.{Usable, miss_at};

use crate::{Done, Lines, rules, update};
use command::Answer;

// The victim is evicted.
fn evict(tags: &mut [u64], lines: Lines, rule: usize, fill: u16, tag: u64, store: bool) -> Done
    requires usable { Usable (length tags.old) rule fill }
    requires fill_value { any (length tags.old) (bit fill) ≡ true }
    ensures { effect_of result tags.new ≡ evict_at (rule_of rule (length tags.old)) fill tag store (row_of tags.old lines) }
{
    let ways = tags.len();
    let choice = rules::chosen(ways, rule, lines.word, fill);
    let way = choice.way;
    let old = tags[way];
    let dirty = waymap::has(lines.dirty, way);
    tags[way] = tag;
    Done {
        answer: Answer::Evict {
            way,
            tag: old,
            dirty,
        },
        lines: update::filled(lines, ways, rule, fill, store, way, choice.word),
    }
}

// A miss with ways to fill: of the invalid ways of the fill map, that which the priority encoder gives is filled; without one the victim is evicted.
pub fn bring(tags: &mut [u64], lines: Lines, rule: usize, fill: u16, tag: u64, store: bool) -> Done
    requires usable { Usable (length tags.old) rule fill }
    requires fill_value { any (length tags.old) (bit fill) ≡ true }
    ensures { effect_of result tags.new ≡ miss_at (rule_of rule (length tags.old)) fill tag store (row_of tags.old lines) }
{
    let ways = tags.len();
    let way = waymap::encode(fill & !lines.valid);
    if way < ways {
        tags[way] = tag;
        return Done {
            answer: Answer::Fill(way),
            lines: update::filled(lines, ways, rule, fill, store, way, lines.word),
        };
    }
    evict(tags, lines, rule, fill, tag, store)
}
