// Writes what the replacement rules give without any cache above them. Standard input has the form of a trace file: its ways and rule are those
// of the calls, the code of entry i is a fill map, and its argument a word. The first line is `fresh` and the word of a fresh cache. Then come
// the lines of each entry:
//   `own` and the own part of the word;
//   `victim`, the way, and the word before its touch;
//   `touch`, a way, and the word after its touch, for each way and then for the number of ways, which is no way;
//   `change` and the word after a change of fill map, from the map of the entry before, 0 for the first, to this one;
//   `conflict` and 0, 5 or 9: whether two domains may have these two maps.
// A call that is refused gives `refused` and its number in place of its values, except that `touch` still names the way. A file that is refused
// gives the one line `refused` and its number. A failed read or write is told on standard error. A word is a write of its own, and so is each
// field behind it: an output that fails has the pieces before.
#![tactic(auto)]

use replacement::Refusal;
use std::io::{Result, Write};
use std::result;
use streams::{Failure, Plain, Show};

// Ends a line with the number of a refusal.
fn show_refused(stdout: &mut impl Write, refusal: Refusal) -> Result<()> {
    write!(stdout, " refused")?;
    writeln!(stdout, " {}", refusal.number())
}

// Ends a line with the word that a call gave, or the number of its refusal.
fn show_word(stdout: &mut impl Write, answer: result::Result<u64, Refusal>) -> Result<()> {
    match answer {
        Ok(word) => writeln!(stdout, " {word}"),
        Err(refusal) => show_refused(stdout, refusal),
    }
}

// Writes the victim of a word, and the word before its touch.
fn show_victim(
    stdout: &mut impl Write,
    ways: usize,
    rule: usize,
    word: u64,
    map: u16,
) -> Result<()> {
    write!(stdout, "victim")?;
    match replacement::victim(ways, rule, word, map) {
        Ok(choice) => writeln!(stdout, " {} {}", choice.way, choice.word),
        Err(refusal) => show_refused(stdout, refusal),
    }
}

// Writes the touches of all ways, and of the first number that is no way.
fn show_touches(
    stdout: &mut impl Write,
    ways: usize,
    rule: usize,
    word: u64,
    map: u16,
) -> Result<()> {
    for way in 0..=ways {
        write!(stdout, "touch")?;
        write!(stdout, " {way}")?;
        show_word(stdout, replacement::touch(ways, rule, word, map, way))?;
    }
    Ok(())
}

// Writes what the calls with a word and a map give, and those with the map before it, `old`, too.
fn show_entry(
    stdout: &mut impl Write,
    ways: usize,
    rule: usize,
    word: u64,
    old: u16,
    map: u16,
) -> Result<()> {
    write!(stdout, "own")?;
    show_word(stdout, replacement::own(ways, rule, word, map))?;
    show_victim(stdout, ways, rule, word, map)?;
    show_touches(stdout, ways, rule, word, map)?;
    let change = replacement::change_of(ways, rule, old, map);
    write!(stdout, "change")?;
    writeln!(stdout, " {}", replacement::changed(change, word))?;
    let number = match replacement::conflict(ways, rule, old, map) {
        Ok(()) => 0,
        Err(refusal) => refusal.number(),
    };
    write!(stdout, "conflict")?;
    writeln!(stdout, " {number}")
}

// Writes the lines of all entries, up to the first that cannot be written.
fn show_entries(stdout: &mut impl Write, file: &[u8], ways: usize, rule: usize) -> Result<()> {
    let n = tracefile::steps(file);
    let mut old = 0;
    for i in 0..n {
        let entry = tracefile::command_at(file, n, i);
        let map = command::code_of(entry);
        show_entry(stdout, ways, rule, entry.argument, old, map)?;
        old = map;
    }
    Ok(())
}

fn show_file(stdout: &mut impl Write, file: &[u8]) -> Result<()> {
    if let Err(refusal) = tracefile::refusal(file) {
        write!(stdout, "refused")?;
        return writeln!(stdout, " {}", refusal.number());
    }
    let g = geometry::named(file);
    write!(stdout, "fresh")?;
    show_word(stdout, replacement::fresh(g.ways, g.rule))?;
    show_entries(stdout, file, g.ways, g.rule)
}

// What `main` has shown: the lines of a file.
struct Lines;

impl<W: Write> Show<W> for Lines {
    fn show(&self, output: &mut W, file: &[u8]) -> Result<()> {
        show_file(&mut Plain { output }, file)
    }
}

fn main(rt: HostRuntime) {
    if let Err(failure) = streams::show_input_by(&mut rt.stdin(), &mut rt.stdout(), &Lines) {
        // In one write.
        let told: &[u8] = match failure {
            Failure::Input => b"rules: standard input could not be read to its end\n",
            Failure::Output => b"rules: standard output could not be written\n",
        };
        let _ = streams::write_all(&mut rt.stderr(), told);
    }
}
