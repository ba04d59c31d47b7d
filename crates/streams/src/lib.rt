// Input, read to its end, output, and a program's arguments: the one layer over the library's readers, writers and environment.
#![tactic(auto)]

mod shows;
#[cfg(test)]
mod tests;

ghost use Rattle.std.specs.Prelude.{◌≡◌, ℕ, List, ◌<◌, ◌≤◌, min, length, take, decimal, Result, IfOk, IfSome, IsErrOf, IsTrue, OnOk, ⊤, ◌⊎◌};
ghost use Rattle.std.specs.Io.{StartsWith};
ghost use Rattle.std.specs.Io.KnownBytes.{Appends, Consumes, IsAtEnd};
ghost use Rattle.std.specs.declared.io.Error.{Error};
ghost use Rattle.io.specs.Counts.{IsPrefixLen};
ghost use Rattle.streams.specs.Kept.{kept};
ghost use Rattle.streams.specs.Shown.{Shown};

pub use shows::show_input_by;
use std::io::{Error, ErrorKind, Read, Result, Write};
use std::rt::Env;
use std::{fmt, result};

// How many bytes of a trace file are kept: one more than the longest file has, so that a longer one is seen to be longer.
pub const ROOM: usize = 40969;

// The input could not be read to its end: how many bytes of it were kept.
#[derive(Clone, Copy, Debug, PartialEq, Eq)]
pub struct Unread {
    pub count: usize,
}

// What kept a program from writing all that it has to.
#[derive(Clone, Copy, Debug, PartialEq, Eq)]
pub enum Failure {
    Input,
    Output,
}

impl fmt::Display for Failure {
    fn fmt<W: fmt::Write>(&self, f: &mut fmt::Formatter<W>) -> fmt::Result {
        f.write_str(match self {
            Failure::Input => "standard input could not be read to its end",
            Failure::Output => "standard output could not be written",
        })
    }
}

impl std::error::Error for Failure {}

// Reads until the buffer is full, the input ends or a read fails, and answers how many bytes it put at the front. No index is counted: each
// read says how far it came.
fn read_full<R: Read>(input: &mut R, buf: &mut [u8]) -> usize
    ensures in_bounds { IsPrefixLen result buf.new }
    ensures bytes { Consumes (R.remaining input.old) (R.remaining input.new) (take result buf.new) }
{
    let mut done = 0;
    while done < buf.len() {
        match input.read(&mut buf[done..]) {
            Ok(0) | Err(_) => break,
            Ok(n) => done += n,
        }
    }
    done
}

// Reads once more: how many bytes came, 0 at the end of the input, or an error for a failed read.
fn read_on<R: Read>(input: &mut R) -> Result<usize>
    ensures none_left { IfOk result (λ n. n ≡ 0 → IsAtEnd (R.remaining input.old)) }
    ensures end { IfOk result (λ n. n ≡ 0 → IsAtEnd (R.remaining input.new)) }
{
    let mut rest = io::large_buffer();
    input.read(&mut rest)
}

// Reads on until nothing comes, and answers whether that was the end. A proved loop counts its turns, here up to a number that no
// input uses up.
fn read_out<R: Read>(input: &mut R) -> bool
    ensures { IsTrue result → IsAtEnd (R.remaining input.new) }
{
    for _ in 0..u64::MAX {
        match read_on(input) {
            Ok(0) => return true,
            Ok(_) => {}
            Err(_) => return false,
        }
    }
    false
}

// Whether the input ends behind the bytes that were kept. Where fewer came than there was room for, the next read has to find the end, since
// `read_full` stops at a failed read too; else the rest is read and dropped.
fn is_at_end<R: Read>(input: &mut R, count: usize) -> bool
    ensures none_left { IsTrue result → count < ROOM → IsAtEnd (R.remaining input.old) }
    ensures end { IsTrue result → IsAtEnd (R.remaining input.new) }
{
    if count < ROOM {
        matches!(read_on(input), Ok(0))
    } else {
        read_out(input)
    }
}

// Reads a trace file, or as much of it as there is room for. A longer one is read to its end all the same.
pub fn read_file<R: Read>(input: &mut R, file: &mut [u8; ROOM]) -> result::Result<usize, Unread>
    ensures in_bounds { IsPrefixLen (kept result) file.new }
    ensures front { IfSome (R.remaining input.old) (λ bytes. StartsWith bytes (take (kept result) file.new)) }
    ensures whole { IfOk result (λ count. IfSome (R.remaining input.old) (λ bytes. count ≡ min (length bytes) ROOM)) }
    ensures end { OnOk result (IsAtEnd (R.remaining input.new)) }
{
    let count = read_full(input, file);
    if is_at_end(input, count) {
        Ok(count)
    } else {
        Err(Unread { count })
    }
}

// Hands a trace file on the input to `show`, which writes to the output. An input that was not read to its end is not shown.
pub fn show_input<R: Read, W: Write, F: FnOnce(&mut W, &[u8]) -> Result<()>>(
    input: &mut R,
    output: &mut W,
    show: F,
) -> result::Result<(), Failure>
    requires { F.IsAlwaysCallable show }
    ensures end { (IsErrOf result Failure.Input) ⊎ (IsAtEnd (R.remaining input.new)) }
    ensures unread { IsErrOf result Failure.Input → output.new ≡ output.old }
    ensures shown { OnOk result (Shown (F.post show) output.old output.new (R.remaining input.old) (Ok tt)) }
    ensures stopped { IsErrOf result Failure.Output → (e : _) × Shown (F.post show) output.old output.new (R.remaining input.old) (Err e) }
{
    let mut file = [0; ROOM];
    let Ok(count) = read_file(input, &mut file) else {
        return Err(Failure::Input);
    };
    match show(output, &file[..count]) {
        Ok(()) => Ok(()),
        Err(_) => Err(Failure::Output),
    }
}

// What shows a file on an output. `shows` tells what it does: of the output before, the file, the answer and the output after. Where an `impl` says
// nothing of it, it may be anything.
pub trait Show<W> {
    ghost shows: { Self → W → List ℕ → Result (Unit {0}) Error → W → Type 0 } = { λ _ _ _ _ _. ⊤ };

    fn show(&self, output: &mut W, file: &[u8]) -> Result<()>
        ensures { shows self.now output.old file.now result output.new };
}

// Writes all of the bytes, or stops at the first write that takes nothing or fails. The library's `write_all` says nothing of what was written before
// a failure, as `front` does here.
pub fn write_all<W: Write>(output: &mut W, bytes: &[u8]) -> Result<()>
    ensures all { OnOk result (Appends (W.contents output.old) (W.contents output.new) bytes.now) }
    ensures front { (n : ℕ) × Appends (W.contents output.old) (W.contents output.new) (take n bytes.now) }
{
    let mut done = 0;
    while done < bytes.len() {
        match output.write(&bytes[done..]) {
            Ok(0) => return Err(Error::from(ErrorKind::WriteZero)),
            Ok(n) => done += n,
            Err(e) => return Err(e),
        }
    }
    Ok(())
}

// Writes a number in decimal.
pub fn print_decimal<W: Write>(output: &mut W, n: u64) -> Result<()>
    ensures { OnOk result (Appends (W.contents output.old) (W.contents output.new) (decimal n)) }
{
    let mut text = [0; 20];
    let count = io::decimal(n, &mut text);
    write_all(output, &text[..count])
}

// Writes to the output that it is lent. Each piece that `write!` hands on goes by `write_all` above, which stops at the first write that takes nothing or
// fails; the library's tries again where a write was interrupted.
#[derive(Drop)]
pub struct Plain<'a, W> {
    pub output: &'a mut W,
}

impl<W: Write> Write for Plain<'_, W> {
    ghost contents = { λ s. W.contents s.output.now };

    fn write(&mut self, bytes: &[u8]) -> Result<usize> {
        self.output.write(bytes)
    }

    fn flush(&mut self) -> Result<()> {
        self.output.flush()
    }

    fn write_all(&mut self, bytes: &[u8]) -> Result<()> {
        write_all(self.output, bytes)
    }
}

// Writes to the output that it is lent, and goes on where a piece could not be written: `write_all` answers that all is well whatever came of it, so that a
// program by `write!` and `?` tries each piece. What the output holds then nobody learns, so that this writer knows of no contents.
#[derive(Drop)]
pub struct Trying<'a, W> {
    pub output: &'a mut W,
}

impl<W: Write> Write for Trying<'_, W> {
    fn write(&mut self, piece: &[u8]) -> Result<usize> {
        self.output.write(piece)
    }

    fn flush(&mut self) -> Result<()> {
        self.output.flush()
    }

    fn write_all(&mut self, piece: &[u8]) -> Result<()> {
        let _ = write_all(self.output, piece);
        Ok(())
    }
}

// Puts argument i at the front of the buffer, and answers its length, if there is one and it has room. Argument 0 is the program's name.
pub fn arg(rt: &impl Env, i: usize, buf: &mut [u8]) -> Option<usize>
    ensures { IfSome result (λ count. IsPrefixLen count buf.new) }
{
    rt.arg(i, buf).ok()
}
