// Cases A, J, K and L of document 01, case J as document 02's job 3 has it; runs under true LRU, which its job 1 makes rule 2; a cache of the most
// lines that there may be, all of them dropped at once; files of ours; and the file on standard input, which is one byte longer than the longest,
// listed by the public call. Cases B to I and those of job 1 are shown of the rules themselves, in proofs/Worked.antt.
#![tactic(auto)]

ghost use Rattle.io.specs.Counts.{IsPrefixLen};

use cache::Stepped;
use command::{Answer, Command};
use geometry::{Geometry, MAX_SETS};
use std::io::{Result, Stdin, Write};
use streams::Trying;
use trace::TAGS;

// How many bytes the first line has.
fn line_length(text: &[u8]) -> usize
    ensures { IsPrefixLen result text.now }
{
    match text.iter().position(|byte| *byte == b'\n') {
        Some(end) => end + 1,
        None => text.len(),
    }
}

// Writes a text, or its first line alone.
fn put(stdout: &mut impl Write, text: &[u8], whole: bool) -> Result<()> {
    if whole {
        return stdout.write_all(text);
    }
    let n = line_length(text);
    stdout.write_all(&text[..n])
}

// Writes the listing of a file, or its first line alone.
fn show(stdout: &mut impl Write, file: &[u8], whole: bool) -> Result<()> {
    let mut tags = [0u64; TAGS];
    let mut valid = [0u16; tracefile::MAX_SETS];
    let mut dirty = [0u16; tracefile::MAX_SETS];
    let mut words = [0u64; tracefile::MAX_SETS];
    let mut out = [0u8; 393216];
    let length = trace::list(
        file, &mut tags, &mut valid, &mut dirty, &mut words, &mut out,
    );
    put(stdout, &out[..length], whole)
}

// "1 set, 4 ways, rule 0, 9 steps": eight bytes of header, nine codes of two bytes, nine arguments of eight.
fn case_a(stdout: &mut impl Write) -> Result<()> {
    show(
        stdout,
        b"\x01\0\x04\0\x09\0\0\0\
          \0\x10\x01\x10\0\x02\0\x01\x01\x01\0\x01\0\x03\x02\x01\0\x01\
          \x03\0\x03\0\0\0\0\0\x0c\0\x0c\0\0\0\0\0\0\0\0\0\0\0\0\0\
          \x40\0\0\0\0\0\0\0\0\0\0\0\0\0\0\0\x80\0\0\0\0\0\0\0\
          \x40\0\0\0\0\0\0\0\0\0\0\0\0\0\0\0\x80\0\0\0\0\0\0\0",
        true,
    )
}

// Writes the answer to a change of policy, and the line's end.
fn put_answer(stdout: &mut impl Write, answer: Answer) -> Result<()> {
    match answer {
        Answer::Policy { dropped, dirty } => {
            write!(stdout, "policy")?;
            writeln!(stdout, " {dropped} {dirty}")
        }
        Answer::Refused(number) => {
            write!(stdout, "refused")?;
            writeln!(stdout, " {number}")
        }
        _ => writeln!(stdout),
    }
}

// Calls for a change of policy, by which domain 0 takes way 0 of a fresh cache of 2 ways under rule 0, and writes the number of sets and the
// answer. As many sets are lent, or all that there may be.
fn call(stdout: &mut impl Write, sets: usize) -> Result<()> {
    let mut tags = [0u64; 2 * MAX_SETS];
    let mut valid = [0u16; MAX_SETS];
    let mut dirty = [0u16; MAX_SETS];
    let mut words = [0u64; MAX_SETS];
    let rows = sets.min(MAX_SETS);
    let cells = 2 * rows;
    let stepped = cache::step(
        Geometry {
            sets,
            ways: 2,
            rule: 0,
        },
        &mut tags[0..cells],
        &mut valid[0..rows],
        &mut dirty[0..rows],
        &mut words[0..rows],
        fresh::fresh_domains(),
        0,
        16,
        0x10001,
    );
    write!(stdout, "{sets} ")?;
    put_answer(stdout, stepped.answer)
}

// Lists a file without steps that names so many sets of 2 ways.
fn naming(stdout: &mut impl Write, sets: u16) -> Result<()> {
    let [low, high] = sets.to_le_bytes();
    show(stdout, &[low, high, 2, 0, 0, 0, 0, 0], true)
}

// "4,096 stands, 257 and 8,192 are refused 1 by a call, and a file naming 257 is refused 10". So are others that name more than 256
// sets; those that name 0 or 3 are refused 1.
fn case_j(stdout: &mut impl Write) -> Result<()> {
    call(stdout, 4096)?;
    call(stdout, 257)?;
    call(stdout, 8192)?;
    naming(stdout, 256)?;
    naming(stdout, 257)?;
    naming(stdout, 512)?;
    naming(stdout, 4096)?;
    naming(stdout, 0)?;
    naming(stdout, 3)
}

// "domain 15 stands, 16 is refused 3": each takes way 0.
fn case_k(stdout: &mut impl Write) -> Result<()> {
    show(
        stdout,
        &[
            1u8, 0, 2, 0, 2, 0, 0, 0, 15, 16, 16, 16, 1, 0, 1, 0, 0, 0, 0, 0, 1, 0, 1, 0, 0, 0, 0,
            0,
        ],
        true,
    )
}

// "4,096 steps stand, 4,097 are refused 10"
fn case_l(stdout: &mut impl Write) -> Result<()> {
    let mut file = [0u8; 40978];
    file[0] = 1;
    file[2] = 2;
    file[5] = 16;
    show(stdout, &file[..40968], false)?;
    file[4] = 1;
    show(stdout, &file, false)
}

// 1 set, 4 ways, 7 steps: domain 0 takes all ways, loads lines 0 to 3, line 0 again, and line 4. Under rule 2 that evicts line 1, which was
// used longest ago; Tree-PLRU evicts line 2 and NRU line 0. Rule 2 stands, 3 is refused 1.
fn true_lru(stdout: &mut impl Write) -> Result<()> {
    show(
        stdout,
        b"\x01\0\x04\x02\x07\0\0\0\
          \0\x10\0\x01\0\x01\0\x01\0\x01\0\x01\0\x01\
          \x0f\0\x0f\0\0\0\0\0\0\0\0\0\0\0\0\0\x40\0\0\0\0\0\0\0\
          \x80\0\0\0\0\0\0\0\xc0\0\0\0\0\0\0\0\0\0\0\0\0\0\0\0\
          \0\x01\0\0\0\0\0\0",
        true,
    )?;
    show(stdout, &[1u8, 0, 4, 3, 0, 0, 0, 0], true)
}

// Call i of domain 0 on the most lines that there may be: it takes all ways, stores to each line, and is removed.
fn nth(i: u64) -> Command {
    let (kind, argument) = match i {
        0 => (16, 0xffffffff),
        1..=65536 => (2, 64 * (i - 1)),
        _ => (16, 0),
    };
    Command {
        domain: 0,
        kind,
        argument,
    }
}

// Makes these calls on fresh tables, and answers what the last one does.
fn calls(
    tags: &mut [u64; 16 * MAX_SETS],
    valid: &mut [u16; MAX_SETS],
    dirty: &mut [u16; MAX_SETS],
    words: &mut [u64; MAX_SETS],
) -> Answer {
    let g = Geometry {
        sets: MAX_SETS,
        ways: 16,
        rule: 0,
    };
    let mut last = Stepped {
        answer: Answer::Absent,
        domains: fresh::fresh_domains(),
    };
    for i in 0..65538 {
        let command = nth(i);
        last = cache::step(
            g,
            tags,
            valid,
            dirty,
            words,
            last.domains,
            command.domain as usize,
            command.kind,
            command.argument,
        );
    }
    last.answer
}

// 4,096 sets of 16 ways: the removal drops 65,536 lines, all dirty.
fn every_line(stdout: &mut impl Write) -> Result<()> {
    let mut tags = [0u64; 16 * MAX_SETS];
    let mut valid = [0u16; MAX_SETS];
    let mut dirty = [0u16; MAX_SETS];
    let mut words = [0u64; MAX_SETS];
    put_answer(stdout, calls(&mut tags, &mut valid, &mut dirty, &mut words))
}

// Files of ours, beside the cases on lent states in specs/. 1 set, 2 ways, 13 steps: domain 0 takes both ways; kinds 4, 17, 36, 41 and 255 are
// unknown; kinds 17 and 36 by domain 16, and 36 by domain 32, are 3; three selector writes are refused, for a selector of 16, for a fourth byte and
// for core 32; so core 0 still loads for domain 0.
// Then 4 ways. Under rule 0, 7 steps: beside maps 5 and 5, maps 7 and 7 are 8, which comes before 9, and maps 10 and 10 are 9; beside hit map 5 with
// fill map 1 these stand. Arguments 2^32 and 2^63 + 0x30003 are 5. Under rule 1, 2 steps: maps 5 and 10 stand.
fn numbers(stdout: &mut impl Write) -> Result<()> {
    show(
        stdout,
        b"\x01\0\x02\0\x0d\0\0\0\
          \0\x10\0\x04\0\x11\0\x24\0\x29\0\xff\x10\x11\x10\x24\x20\x24\0\x28\0\x28\x20\x28\
          \0\x21\
          \x03\0\x03\0\0\0\0\0\x03\0\x03\0\0\0\0\0\x03\0\x03\0\0\0\0\0\x03\0\x03\0\0\0\0\0\
          \x03\0\x03\0\0\0\0\0\x03\0\x03\0\0\0\0\0\0\0\0\0\0\0\0\0\0\0\0\0\0\0\0\0\
          \0\0\0\0\0\0\0\0\x10\0\0\0\0\0\0\0\0\0\0\x01\0\0\0\0\0\0\0\0\0\0\0\0\
          \0\0\0\0\0\0\0\0",
        true,
    )?;
    show(
        stdout,
        b"\x01\0\x04\0\x07\0\0\0\
          \x01\x10\0\x10\0\x10\x01\x10\0\x10\0\x10\0\x10\
          \x05\0\x05\0\0\0\0\0\x07\0\x07\0\0\0\0\0\x0a\0\x0a\0\0\0\0\0\x05\0\x01\0\0\0\0\0\
          \x0a\0\x0a\0\0\0\0\0\0\0\0\0\x01\0\0\0\x03\0\x03\0\0\0\0\x80",
        true,
    )?;
    show(
        stdout,
        b"\x01\0\x04\x01\x02\0\0\0\
          \0\x10\x01\x10\
          \x05\0\x05\0\0\0\0\0\x0a\0\x0a\0\0\0\0\0",
        true,
    )
}

// 1 set, 4 ways, 9 steps: domain 0 takes all ways, stores to line 0 and loads lines 1 to 3, and leaves ways 2 and 3 out of its fill map. Line 0 is
// flushed from way 3 and line 1 hit in way 2, both locked; line 4 evicts line 2 from way 1, though way 3 is empty.
// Then 16 ways, 8 steps: domain 0 takes ways 0, 5, 10 and 15, with free nodes 0, 1 and 2, and loads lines 0 to 3, so that each of them points right; a
// hit in way 15 turns nodes 0 and 2 left. The next evictions take way 5, by nodes 0 and 1, and way 10, by nodes 0 and 2.
fn lines(stdout: &mut impl Write) -> Result<()> {
    show(
        stdout,
        b"\x01\0\x04\0\x09\0\0\0\
          \0\x10\0\x02\0\x01\0\x01\0\x01\0\x10\0\x03\0\x01\0\x01\
          \x0f\0\x0f\0\0\0\0\0\0\0\0\0\0\0\0\0\x40\0\0\0\0\0\0\0\x80\0\0\0\0\0\0\0\
          \xc0\0\0\0\0\0\0\0\x0f\0\x03\0\0\0\0\0\0\0\0\0\0\0\0\0\x40\0\0\0\0\0\0\0\
          \0\x01\0\0\0\0\0\0",
        true,
    )?;
    show(
        stdout,
        b"\x01\0\x10\0\x08\0\0\0\
          \0\x10\0\x01\0\x01\0\x01\0\x01\0\x01\0\x01\0\x01\
          \x21\x84\x21\x84\0\0\0\0\0\0\0\0\0\0\0\0\x40\0\0\0\0\0\0\0\x80\0\0\0\0\0\0\0\
          \xc0\0\0\0\0\0\0\0\0\0\0\0\0\0\0\0\0\x01\0\0\0\0\0\0\x40\x01\0\0\0\0\0\0",
        true,
    )
}

// A file of 4,096 steps, and one byte more.
fn longer(stdin: &mut Stdin, stdout: &mut impl Write) -> Result<()> {
    let mut file = [0; streams::ROOM];
    let count = streams::read_file(stdin, &mut file).unwrap_or_else(|unread| unread.count);
    show(stdout, &file[..count], true)
}

// Writes all cases.
fn run(stdin: &mut Stdin, stdout: &mut impl Write) -> Result<()> {
    stdout.write_all(b"case A\n")?;
    case_a(stdout)?;
    stdout.write_all(b"case J\n")?;
    case_j(stdout)?;
    stdout.write_all(b"case K\n")?;
    case_k(stdout)?;
    stdout.write_all(b"case L\n")?;
    case_l(stdout)?;
    stdout.write_all(b"true LRU\n")?;
    true_lru(stdout)?;
    stdout.write_all(b"kinds, and numbers 5, 8 and 9\n")?;
    numbers(stdout)?;
    stdout.write_all(b"locked lines, and sixteen ways\n")?;
    lines(stdout)?;
    stdout.write_all(b"every line dropped\n")?;
    every_line(stdout)?;
    stdout.write_all(b"one byte more than the longest\n")?;
    longer(stdin, stdout)
}

fn main(rt: HostRuntime) {
    // A failed write is not told, and the pieces behind it are tried.
    let stdout = &mut rt.stdout();
    let _ = run(&mut rt.stdin(), &mut Trying { output: stdout });
}
