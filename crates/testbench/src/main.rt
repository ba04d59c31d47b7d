// Makes calls on a lent block of bytes, as a testbench in C does, and writes what they give. Standard input is a script, a line for each call:
//   `lend` n: a block of n bytes is lent from here on; before the first call they are all 170;
//   `fresh` sets, ways, rule: the block is to be a fresh one;
//   `step` n, domain, kind, argument: one step, with an answer of n bytes, all 170, lent to it;
//   `put` place, byte: a byte of the block is written, not by a call;
//   `all`: nothing is called, and all bytes of the block are written out.
// Other lines are remarks. Each line is written out again. Behind that of a call come its result, the bytes of the answer after it, and the bytes of the
// block that it changed, each row with the place of its first byte.
#![tactic(auto)]

ghost use Rattle.std.specs.Prelude.{◌≡◌, length};

use std::io::{Result, Stdout, Write};
use streams::Trying;

// Room for a block, and for an answer.
const BLOCK: usize = 1024;

const ANSWER: usize = 64;

// How many bytes a row has.
const ROW: usize = 32;

// What stands in a byte that no call has written.
const LENT: u8 = 170;

// ---- Writing

// A digit to base 16.
fn digit(n: u8) -> u8 {
    match n % 16 {
        d @ 0..=9 => b'0' + d,
        d => b'a' - 10 + d,
    }
}

// The bytes of a row that are not as they were, or all. Those that follow each other begin with the place of the first one.
fn show_row(
    stdout: &mut impl Write,
    first: usize,
    row: &[u8],
    old: &[u8],
    all: bool,
) -> Result<()> {
    let mut begun = false;
    for (i, (byte, old)) in row.iter().zip(old).enumerate() {
        let shown = all || *byte != *old;
        if shown {
            if !begun {
                write!(stdout, " {}:", first.saturating_add(i))?;
            }
            // In one piece, where `{byte:02x}` makes two for a byte below 16.
            stdout.write_all(&[digit(*byte / 16), digit(*byte)])?;
        }
        begun = shown;
    }
    Ok(())
}

// The same of all rows. A row has up to 32 bytes.
fn show_rows(stdout: &mut impl Write, bytes: &[u8], old: &[u8], all: bool) -> Result<()> {
    for (i, (row, old)) in bytes.chunks(ROW).zip(old.chunks(ROW)).enumerate() {
        if all || row != old {
            show_row(stdout, ROW.saturating_mul(i), row, old, all)?;
        }
    }
    writeln!(stdout)
}

// ---- Calling

// A step, with a lent answer.
fn step_with(
    stdout: &mut impl Write,
    block: &mut [u8],
    answer: &mut [u8],
    numbers: [u64; 5],
) -> Result<()> {
    let result = block::dipperlock_step(block, numbers[2], numbers[3], numbers[4], answer);
    write!(stdout, "= {result}")?;
    show_rows(stdout, answer, answer, true)
}

// A step, with an answer of as many bytes as a line names.
fn step(stdout: &mut impl Write, block: &mut [u8], numbers: [u64; 5]) -> Result<()> {
    let mut answer = [LENT; ANSWER];
    let n = (numbers[1] as usize).min(ANSWER);
    step_with(stdout, block, &mut answer[..n], numbers)
}

// Writes a byte of a block, if there is such a place.
fn put(block: &mut [u8], place: usize, byte: u64) {
    if place < block.len() {
        block[place] = (byte % 256) as u8;
    }
}

// What a line asks for on the block that is lent.
fn call(stdout: &mut impl Write, block: &mut [u8], word: u8, numbers: [u64; 5]) -> Result<()> {
    match word {
        b'f' => {
            let result = block::dipperlock_fresh(block, numbers[1], numbers[2], numbers[3]);
            write!(stdout, "= {result}")?;
        }
        b's' => step(stdout, block, numbers)?,
        b'p' => put(block, numbers[1] as usize, numbers[2]),
        _ => {}
    }
    Ok(())
}

// The same, and what it changed.
fn take(
    stdout: &mut impl Write,
    block: &mut [u8],
    old: &mut [u8],
    word: u8,
    numbers: [u64; 5],
) -> Result<()>
    requires { length block.old ≡ length old.old }
{
    old.copy_from_slice(block);
    call(stdout, block, word, numbers)?;
    show_rows(stdout, block, old, word == b'a')
}

// Does what a line asks for, and answers how many bytes are lent from here on.
fn do_line(
    stdout: &mut impl Write,
    block: &mut [u8; BLOCK],
    old: &mut [u8; BLOCK],
    lent: usize,
    line: &[u8],
) -> Result<usize> {
    stdout.write_all(line)?;
    let numbers = script::numbers_of(line);
    match line.first() {
        Some(b'l') => Ok(numbers[1] as usize),
        Some(word) => {
            let n = lent.min(BLOCK);
            take(stdout, &mut block[..n], &mut old[..n], *word, numbers)?;
            Ok(lent)
        }
        None => Ok(lent),
    }
}

// Does what the lines of a script ask for.
fn run(
    stdout: &mut Trying<'_, Stdout>,
    block: &mut [u8; BLOCK],
    old: &mut [u8; BLOCK],
    text: &[u8],
) -> Result<()> {
    let mut lent = 0;
    let mut from = 0;
    // The lines are those of `script::line_after`, which has a contract, so that no iterator takes its place.
    while from < text.len() {
        let next = script::line_after(text, from);
        lent = do_line(stdout, block, old, lent, &text[from..next])?;
        from = next;
    }
    Ok(())
}

fn main(rt: HostRuntime) {
    let mut text = [0; streams::ROOM];
    let count = streams::read_file(&mut rt.stdin(), &mut text).unwrap_or_else(
        |unread| unread.count,
    );
    let mut block = [LENT; BLOCK];
    let mut old = [0; BLOCK];
    // A failed write is not told, and the pieces behind it are tried.
    let stdout = &mut rt.stdout();
    let _ = run(
        &mut Trying { output: stdout },
        &mut block,
        &mut old,
        &text[..count],
    );
}
