// The work on one set: its tags as a lent slice, whose length is the number of ways, and its maps and replacement word by value.
#![tactic(auto)]

mod rules;
mod update;
mod uses;
mod work;

ghost use Rattle.std.specs.Prelude.{◌≡◌};
ghost use Rattle.command.specs.Answer.{answer_of};
ghost use Rattle.row.specs.Calls.{row_of, effect_of, told, lookup_of, visited_of, access_of, flush_of, use_of};

use command::{Answer, LineUse};
use policy::Maps;

// A set's valid map, dirty map and replacement word.
#[derive(Clone, Copy)]
pub struct Lines {
    pub valid: u16,
    pub dirty: u16,
    pub word: u64,
}

// The answer, and what the set has beside its tags.
#[derive(Clone, Copy)]
pub struct Done {
    pub answer: Answer,
    pub lines: Lines,
}

// What a lookup answers, and how many ways it visited.
#[derive(Clone, Copy)]
pub struct Looked {
    pub answer: Answer,
    pub visited: usize,
}

// The lookup alone: it moves nothing.
pub fn lookup(tags: &[u64], lines: Lines, maps: Maps, tag: u64) -> Looked
    ensures answer_value { answer_of result.answer ≡ answer_of (lookup_of maps tag (row_of tags.now lines)) }
    ensures visited_value { result.visited ≡ visited_of maps tag (row_of tags.now lines) }
{
    let ways = tags.len();
    if !waymap::is_ways(ways) {
        return Looked {
            answer: Answer::Refused(1),
            visited: 0,
        };
    }
    let read = policy::as_read(ways, maps);
    let found = lookup::find(tags, lines.valid, read.hit, tag);
    let visited = found.visited;
    match found.way {
        Some(way) => Looked {
            answer: Answer::Hit(way),
            visited,
        },
        None => Looked {
            answer: Answer::Absent,
            visited,
        },
    }
}

// A fetch, a load or a store.
pub fn access(
    tags: &mut [u64],
    lines: Lines,
    rule: usize,
    maps: Maps,
    tag: u64,
    store: bool,
) -> Done
    ensures { told (effect_of result tags.new) ≡ told (access_of rule maps tag store (row_of tags.old lines)) }
{
    let ways = tags.len();
    if !replacement::in_limits(ways, rule) {
        return Done {
            answer: Answer::Refused(1),
            lines,
        };
    }
    let read = policy::as_read(ways, maps);
    let fill = read.fill;
    let found = lookup::find(tags, lines.valid, read.hit, tag);
    match found.way {
        Some(way) => Done {
            answer: Answer::Hit(way),
            lines: update::hit(lines, ways, rule, fill, store, way),
        },
        None if fill == 0 => Done {
            answer: Answer::Pass,
            lines,
        },
        None => work::bring(tags, lines, rule, fill, tag, store),
    }
}

// A flush.
pub fn flush(tags: &[u64], lines: Lines, maps: Maps, tag: u64) -> Done
    ensures { told (effect_of result tags.now) ≡ told (flush_of maps tag (row_of tags.now lines)) }
{
    let ways = tags.len();
    if !waymap::is_ways(ways) {
        return Done {
            answer: Answer::Refused(1),
            lines,
        };
    }
    let read = policy::as_read(ways, maps);
    let found = lookup::find(tags, lines.valid, read.hit, tag);
    match found.way {
        Some(way) => Done {
            answer: Answer::Flush {
                way,
                dirty: waymap::has(lines.dirty, way),
            },
            lines: update::flushed(lines, way),
        },
        None => Done {
            answer: Answer::Absent,
            lines,
        },
    }
}

// An access or a flush.
pub fn use_line(
    tags: &mut [u64],
    lines: Lines,
    rule: usize,
    maps: Maps,
    usage: LineUse,
    tag: u64,
) -> Done
    ensures { told (effect_of result tags.new) ≡ told (use_of usage rule maps tag (row_of tags.old lines)) }
{
    if uses::flushes(usage) {
        return flush(tags, lines, maps, tag);
    }
    access(tags, lines, rule, maps, tag, uses::stores(usage))
}
