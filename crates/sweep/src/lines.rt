// What a set has beside its tags: valid map, dirty map and replacement word.
ghost use Rattle.std.specs.Prelude.{◌≡◌};
ghost use Rattle.sweep.specs.Sweep.{drops, swept_lines};

use command::Answer;
use replacement::Change;
use row::Lines;

// The valid lines in the map, and how many of them are dirty.
pub fn dropped(lines: Lines, gone: u16) -> Answer
    ensures { result ≡ drops gone lines }
{
    let valid = gone & lines.valid;
    Answer::Policy {
        dropped: waymap::count_ways(valid),
        dirty: waymap::count_ways(valid & lines.dirty),
    }
}

// After a change of policy: the map's ways are invalid and not dirty, and the replacement word is changed.
pub fn swept(lines: Lines, gone: u16, change: Change) -> Lines
    ensures { result ≡ swept_lines gone change lines }
{
    Lines {
        valid: lines.valid & !gone,
        dirty: lines.dirty & !gone,
        word: replacement::changed(change, lines.word),
    }
}
