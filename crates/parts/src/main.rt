// Writes the own part of replacement words, a line for each. Standard input has the form of a trace file: its ways and rule are those of the
// words, the code of entry i is a fill map, and its argument a word. An entry whose map reaches the number of ways gives `refused 5`, and a
// file that is refused gives the one line `refused` and its number. A failed read or write is told on standard error.
#![tactic(auto)]

use std::io::{Result, Write};
use streams::{Failure, Plain, Show};

// Writes the own part of a word, or why there is none.
fn show_part(stdout: &mut impl Write, ways: usize, rule: usize, word: u64, map: u16) -> Result<()> {
    match replacement::own(ways, rule, word, map) {
        Ok(part) => writeln!(stdout, "{part}"),
        Err(refusal) => writeln!(stdout, "refused {}", refusal.number()),
    }
}

// Writes the parts of a file's words, up to the first that cannot be written.
fn show_file(stdout: &mut impl Write, file: &[u8]) -> Result<()> {
    if let Err(refusal) = tracefile::refusal(file) {
        return writeln!(stdout, "refused {}", refusal.number());
    }
    let g = geometry::named(file);
    let n = tracefile::steps(file);
    for i in 0..n {
        let entry = tracefile::command_at(file, n, i);
        let map = command::code_of(entry);
        show_part(stdout, g.ways, g.rule, entry.argument, map)?;
    }
    Ok(())
}

// What `main` has shown: the parts of a file's words.
struct Parts;

impl<W: Write> Show<W> for Parts {
    fn show(&self, output: &mut W, file: &[u8]) -> Result<()> {
        show_file(&mut Plain { output }, file)
    }
}

fn main(rt: HostRuntime) {
    if let Err(failure) = streams::show_input_by(&mut rt.stdin(), &mut rt.stdout(), &Parts) {
        // In one write.
        let told: &[u8] = match failure {
            Failure::Input => b"parts: standard input could not be read to its end\n",
            Failure::Output => b"parts: standard output could not be written\n",
        };
        let _ = streams::write_all(&mut rt.stderr(), told);
    }
}
