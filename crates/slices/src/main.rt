// Runs the steps of a file as calls of the cache, on what a trace file cannot bring about. Standard input has the form of a trace file, whose sets are any
// number of two bytes, and the cache is fresh; or it has records and maps that are lent, as lent.rt says, and then a trace file. What is written has the
// form of a listing. A file of neither form, or of more than 40,968 bytes, gives the one line `refused 10`. Under a geometry outside the limits each step
// on a fresh cache is a call that is refused by 1. A failed read or write is told on standard error.
#![tactic(auto)]

mod lent;

ghost use Rattle.std.specs.Prelude.{◌*◌, ◌≤◌};
ghost use Rattle.geometry.specs.Geometry.{max_sets};

use command::Answer;
use domains::{Counts, Domains};
use geometry::{Geometry, MAX_SETS};
use std::fmt::Display;
use std::io::{Result, Write};
use streams::{Failure, Plain, Show};
use tracefile::MAX_STEPS;

// Ends a line with a word and what follows it. The word is a write of its own, and so is each field: an output that fails has the pieces before.
fn show_told<D: Display + Drop>(stdout: &mut impl Write, word: &str, fields: D) -> Result<()> {
    write!(stdout, "{word}")?;
    writeln!(stdout, "{fields}")
}

// Ends a line with an answer.
fn show_answer(stdout: &mut impl Write, answer: Answer) -> Result<()> {
    match answer {
        Answer::Hit(way) => show_told(stdout, " hit", format_args!(" {way}")),
        Answer::Fill(way) => show_told(stdout, " fill", format_args!(" {way}")),
        Answer::Evict { way, tag, dirty } => {
            show_told(
                stdout,
                " evict",
                format_args!(" {way} {tag} {}", u8::from(dirty)),
            )
        }
        Answer::Pass => stdout.write_all(b" pass\n"),
        Answer::Flush { way, dirty } => {
            show_told(stdout, " flush", format_args!(" {way} {}", u8::from(dirty)))
        }
        Answer::Absent => stdout.write_all(b" absent\n"),
        Answer::Policy { dropped, dirty } => {
            show_told(stdout, " policy", format_args!(" {dropped} {dirty}"))
        }
        Answer::Refused(number) => show_told(stdout, " refused", format_args!(" {number}")),
    }
}

// Ends a line with a domain's counts.
fn show_counts(stdout: &mut impl Write, counts: Counts) -> Result<()> {
    let Counts {
        hits,
        misses,
        evicted,
        written,
        flushed,
        fills,
        dropped,
    } = counts;
    writeln!(
        stdout,
        " {hits} {misses} {evicted} {written} {flushed} {fills} {dropped}"
    )
}

// Writes the lines of all domains that have ways.
fn show_domains(stdout: &mut impl Write, ways: usize, domains: Domains) -> Result<()> {
    for (d, own) in domains.records.iter().enumerate() {
        if policy::as_read(ways, own.maps()).hit != 0 {
            write!(stdout, "domain")?;
            write!(stdout, " {d}")?;
            show_counts(stdout, own.counts)?;
        }
    }
    Ok(())
}

// Makes the calls of a file's steps on the lent tables and records, and answers the records after them. Behind a line that cannot be written nothing
// more is done.
fn run(
    stdout: &mut impl Write,
    g: Geometry,
    file: &[u8],
    n: u32,
    tags: &mut [u64],
    valid: &mut [u16],
    dirty: &mut [u16],
    words: &mut [u64],
    domains: Domains,
) -> Result<Domains> {
    let mut domains = domains;
    for i in 0..n {
        let command = tracefile::command_at(file, n, i);
        let stepped = cache::step(
            g,
            tags,
            valid,
            dirty,
            words,
            domains,
            command.domain as usize,
            command.kind,
            command.argument,
        );
        domains = stepped.domains;
        streams::print_decimal(stdout, u64::from(i))?;
        show_answer(stdout, stepped.answer)?;
    }
    Ok(domains)
}

// The number of tags of a number of sets.
fn cells_of(sets: usize, ways: usize) -> usize
    requires sets_le_max_sets { sets ≤ max_sets }
    requires ways_bound { ways ≤ 16 }
    ensures { result ≤ 16 * sets }
{
    sets * ways
}

// Makes the calls from a fresh cache.
fn run_fresh(
    stdout: &mut impl Write,
    g: Geometry,
    file: &[u8],
    n: u32,
    tags: &mut [u64],
    valid: &mut [u16],
    dirty: &mut [u16],
    words: &mut [u64],
) -> Result<Domains> {
    // Where the tables are turned down, so is each step on them.
    let _ = fresh::fresh_tables(g, tags, valid, dirty, words);
    run(
        stdout,
        g,
        file,
        n,
        tags,
        valid,
        dirty,
        words,
        fresh::fresh_domains(),
    )
}

// Lends tables for as many sets and ways as are named; more than there may be are not, and then each call is refused all the same.
fn lend(stdout: &mut impl Write, g: Geometry, file: &[u8], n: u32) -> Result<()> {
    let mut tags = [0u64; 16 * MAX_SETS];
    let mut valid = [0u16; MAX_SETS];
    let mut dirty = [0u16; MAX_SETS];
    let mut words = [0u64; MAX_SETS];
    let sets = g.sets.min(MAX_SETS);
    let cells = cells_of(sets, g.ways.min(16));
    let domains = run_fresh(
        stdout,
        g,
        file,
        n,
        &mut tags[..cells],
        &mut valid[..sets],
        &mut dirty[..sets],
        &mut words[..sets],
    )?;
    show_domains(stdout, g.ways, domains)
}

// Whether a file has its length and no more steps than a file may have.
fn is_whole(file: &[u8], n: usize) -> bool {
    file.len() >= 8 && n <= MAX_STEPS && file.len() == 8 + 10 * n
}

// Writes the first line, of a file of n steps.
fn show_head(stdout: &mut impl Write, g: Geometry, n: u32) -> Result<()> {
    writeln!(stdout, "{} {} {} {n}", g.sets, g.ways, g.rule)
}

// Writes the lines of a file.
fn show_file(stdout: &mut impl Write, file: &[u8]) -> Result<()> {
    let n = tracefile::steps(file);
    if !is_whole(file, n as usize) {
        return lent::show_file(stdout, file);
    }
    let g = geometry::named(file);
    show_head(stdout, g, n)?;
    lend(stdout, g, file, n)
}

// What `main` has shown: the lines of a file.
struct Lines;

impl<W: Write> Show<W> for Lines {
    fn show(&self, output: &mut W, file: &[u8]) -> Result<()> {
        show_file(&mut Plain { output }, file)
    }
}

fn main(rt: HostRuntime) {
    if let Err(failure) = streams::show_input_by(&mut rt.stdin(), &mut rt.stdout(), &Lines) {
        // In one write.
        let told: &[u8] = match failure {
            Failure::Input => b"slices: standard input could not be read to its end\n",
            Failure::Output => b"slices: standard output could not be written\n",
        };
        let _ = streams::write_all(&mut rt.stderr(), told);
    }
}
