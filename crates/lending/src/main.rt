// Lends core records to the step, and writes what it answers and which records it changes. The cache has one set of four ways under Tree-PLRU, and there are
// 33 records, all at zero. Standard input is a script:
//   `lend` n: the first n records are lent from here on;
//   `geometry` n: the steps are told of n sets from here on, and the tables are those of one set;
//   `core` i, CS, DS, ES: record i is written, not by a step;
//   `step` n, kind, argument: one step by domain or core n.
// Other lines are remarks. Each line is written out again. Behind that of a step come its answer, a word's number and three fields, and each record that it
// changed, with its place. Words are numbered as document 01 lists them, from 0, and `select` is 8.
#![tactic(auto)]

ghost use Rattle.std.specs.Prelude.{◌≡◌, ◌≤◌, ◌<◌, length, take, drop};
ghost use Rattle.steps.specs.Step.{tables_of};
ghost use Rattle.cores.specs.Step.{core_step};
ghost use Rattle.cores.specs.Calls.{lent_of, result_of};

use command::Answer;
use cores::{Reply, Stepped};
use domains::Domains;
use geometry::Geometry;
use selectors::Core;
use std::io::{Result, Stdout, Write};
use streams::Trying;

// How many records there are.
const RECORDS: usize = 33;

// What a step gives, and the records after it.
#[derive(Clone, Copy)]
struct Lent {
    stepped: Stepped,
    list: [Core; RECORDS],
}

// One step, which is lent the first n records of a list. What it does to them is what the list has afterwards, and the records behind them are as they were.
fn lend(
    g: Geometry,
    tags: &mut [u64],
    valid: &mut [u16],
    dirty: &mut [u16],
    words: &mut [u64],
    domains: Domains,
    mut list: [Core; RECORDS],
    n: usize,
    named: usize,
    kind: u8,
    argument: u64,
) -> Lent
    requires { n ≤ RECORDS }
    ensures { (result_of result.stepped (tables_of tags.new valid.new dirty.new words.new) (take n result.list)
        ≡ core_step g (record { domain = named; kind = kind; argument = argument })
        (lent_of (tables_of tags.old valid.old dirty.old words.old) domains (take n list)))
        × (drop n result.list ≡ drop n list) }
{
    let stepped = cores::step(
        g,
        tags,
        valid,
        dirty,
        words,
        domains,
        &mut list[..n],
        named,
        kind,
        argument,
    );
    Lent { stepped, list }
}

// ---- Writing

// An answer's word and three fields.
fn show_answer(stdout: &mut impl Write, answer: Answer) -> Result<()> {
    let [word, first, second, third] = match answer {
        Answer::Hit(way) => [0, way as u64, 0, 0],
        Answer::Fill(way) => [1, way as u64, 0, 0],
        Answer::Evict { way, tag, dirty } => [2, way as u64, tag, u64::from(dirty)],
        Answer::Pass => [3, 0, 0, 0],
        Answer::Flush { way, dirty } => [4, way as u64, u64::from(dirty), 0],
        Answer::Absent => [5, 0, 0, 0],
        Answer::Policy { dropped, dirty } => [6, dropped as u64, dirty as u64, 0],
        Answer::Refused(number) => [7, number as u64, 0, 0],
    };
    write!(stdout, "=")?;
    write!(stdout, " {word} {first} {second} {third}")
}

fn show_reply(stdout: &mut impl Write, reply: Reply) -> Result<()> {
    match reply {
        Reply::Cache(answer) => show_answer(stdout, answer),
        Reply::Select(Core { cs, ds, es }) => {
            write!(stdout, "= 8")?;
            write!(stdout, " {cs} {ds} {es}")
        }
    }
}

// The records that are not as they were, each with its place.
fn show_cores(
    stdout: &mut impl Write,
    old: &[Core; RECORDS],
    list: &[Core; RECORDS],
) -> Result<()> {
    for (place, (core, old)) in list.iter().zip(old).enumerate() {
        if core != old {
            write!(stdout, " |")?;
            write!(stdout, " {place}:")?;
            write!(stdout, " {} {} {}", core.cs, core.ds, core.es)?;
        }
    }
    writeln!(stdout)
}

// ---- Calling

// What is lent, but for the tables: how many sets the steps are told of, the domains, the records, and how many of them.
#[derive(Clone, Copy)]
struct Bench {
    sets: usize,
    domains: Domains,
    list: [Core; RECORDS],
    count: usize,
}

fn low(n: u64) -> u8 {
    (n % 256) as u8
}

// The geometry that the steps are told of.
fn told_of(sets: usize) -> Geometry {
    Geometry {
        sets,
        ways: 4,
        rule: 0,
    }
}

// A step, and what it did.
fn step(
    stdout: &mut impl Write,
    bench: &mut Bench,
    tags: &mut [u64],
    valid: &mut [u16],
    dirty: &mut [u16],
    words: &mut [u64],
    numbers: [u64; 5],
) -> Result<()> {
    let old = bench.list;
    let done = lend(
        told_of(bench.sets),
        tags,
        valid,
        dirty,
        words,
        bench.domains,
        old,
        bench.count.min(RECORDS),
        numbers[1] as usize,
        low(numbers[2]),
        numbers[3],
    );
    bench.list = done.list;
    bench.domains = done.stepped.domains;
    show_reply(stdout, done.stepped.reply)?;
    show_cores(stdout, &old, &done.list)
}

// A record with selectors of any content.
fn put_core(bench: &mut Bench, numbers: [u64; 5]) {
    let place = numbers[1] as usize % RECORDS;
    bench.list[place] = Core {
        cs: low(numbers[2]),
        ds: low(numbers[3]),
        es: low(numbers[4]),
    };
}

// Does what a line asks for.
fn do_line(
    stdout: &mut impl Write,
    bench: &mut Bench,
    tags: &mut [u64; 4],
    valid: &mut [u16; 1],
    dirty: &mut [u16; 1],
    words: &mut [u64; 1],
    line: &[u8],
) -> Result<()> {
    stdout.write_all(line)?;
    let numbers = script::numbers_of(line);
    match line.first() {
        Some(b'l') => bench.count = numbers[1] as usize,
        Some(b'g') => bench.sets = numbers[1] as usize,
        Some(b'c') => put_core(bench, numbers),
        Some(b's') => step(stdout, bench, tags, valid, dirty, words, numbers)?,
        _ => {}
    }
    Ok(())
}

// Does what the lines of a script ask for.
fn run(
    stdout: &mut Trying<'_, Stdout>,
    tags: &mut [u64; 4],
    valid: &mut [u16; 1],
    dirty: &mut [u16; 1],
    words: &mut [u64; 1],
    text: &[u8],
) -> Result<()> {
    let mut bench = Bench {
        sets: 1,
        domains: fresh::fresh_domains(),
        list: [Core::default(); RECORDS],
        count: 0,
    };
    let mut from = 0;
    // The lines are those of `script::line_after`, which has a contract, so that no iterator takes its place.
    while from < text.len() {
        let next = script::line_after(text, from);
        do_line(
            stdout,
            &mut bench,
            tags,
            valid,
            dirty,
            words,
            &text[from..next],
        )?;
        from = next;
    }
    Ok(())
}

fn main(rt: HostRuntime) {
    let mut text = [0; streams::ROOM];
    let count = streams::read_file(&mut rt.stdin(), &mut text).unwrap_or_else(
        |unread| unread.count,
    );
    let mut tags = [0; 4];
    let mut valid = [0; 1];
    let mut dirty = [0; 1];
    let mut words = [0; 1];
    // A failed write is not told, and the pieces behind it are tried.
    let stdout = &mut rt.stdout();
    let _ = run(
        &mut Trying { output: stdout },
        &mut tags,
        &mut valid,
        &mut dirty,
        &mut words,
        &text[..count],
    );
}
