// Writes the steps that are left of the trace file on standard input when the purge of a domain strikes out the others' accesses and
// flushes: a line for each step, with its domain, kind and argument. The domain is the first argument. A file that is refused by 10 gives
// nothing. An argument that is no number below 16, and a failed read or write, are told on standard error.
#![tactic(auto)]

use command::Refusal;
use std::io::{Result, Write};
use streams::{Failure, Plain, Show};
use tracefile::MAX_STEPS;

// The domain that a text names: a number below 16 in decimal, with no zero in front.
fn domain_of(text: &[u8]) -> Option<usize> {
    match text {
        [ones @ b'0'..=b'9'] => Some(usize::from(*ones - b'0')),
        [b'1', ones @ b'0'..=b'5'] => Some(usize::from(*ones - b'0') + 10),
        _ => None,
    }
}

// The codes and arguments of the steps of a file of n.
fn split(file: &[u8], n: u32, codes: &mut [u16], arguments: &mut [u64]) {
    for (i, (code, argument)) in (0..n).zip(codes.iter_mut().zip(arguments)) {
        let command = tracefile::command_at(file, n, i);
        *code = command::code_of(command);
        *argument = command.argument;
    }
}

// Writes a line for each step, up to the first that cannot be written.
fn show(stdout: &mut impl Write, codes: &[u16], arguments: &[u64]) -> Result<()> {
    for (code, argument) in codes.iter().zip(arguments) {
        let step = command::command_of(*code, *argument);
        writeln!(stdout, "{} {} {}", step.domain, step.kind, step.argument)?;
    }
    Ok(())
}

// Writes the steps of a file that the purge of a domain keeps.
fn purge(stdout: &mut impl Write, file: &[u8], domain: usize) -> Result<()> {
    let n = tracefile::steps(file);
    let steps = (n as usize).min(MAX_STEPS);
    let mut codes = [0; MAX_STEPS];
    let mut arguments = [0; MAX_STEPS];
    let mut kept_codes = [0; MAX_STEPS];
    let mut kept_arguments = [0; MAX_STEPS];
    split(file, n, &mut codes[..steps], &mut arguments[..steps]);
    let kept = purge::purge_trace(
        domain,
        &codes[..steps],
        &arguments[..steps],
        &mut kept_codes[..steps],
        &mut kept_arguments[..steps],
    );
    // No list has another length than the others, so that none is refused.
    let count = kept.unwrap_or(0).min(steps);
    show(stdout, &kept_codes[..count], &kept_arguments[..count])
}

// Purges a file that was read to its end.
fn show_file(stdout: &mut impl Write, file: &[u8], domain: usize) -> Result<()> {
    if let Err(Refusal::File) = tracefile::refusal(file) {
        return Ok(());
    }
    purge(stdout, file, domain)
}

// What `main` has shown: the steps of a file that the purge of a domain keeps.
#[derive(Clone, Copy)]
struct Purged {
    domain: usize,
}

impl<W: Write> Show<W> for Purged {
    fn show(&self, output: &mut W, file: &[u8]) -> Result<()> {
        show_file(&mut Plain { output }, file, self.domain)
    }
}

fn main(rt: HostRuntime) {
    let mut name = [0; 4];
    let named = streams::arg(&rt, 1, &mut name).and_then(|length| domain_of(&name[..length]));
    let Some(domain) = named else {
        let told = b"purger: the first argument has to be a domain, 0 to 15\n";
        let _ = streams::write_all(&mut rt.stderr(), told);
        return;
    };
    if let Err(failure) = streams::show_input_by(
        &mut rt.stdin(),
        &mut rt.stdout(),
        &Purged { domain },
    ) {
        // In one write.
        let told: &[u8] = match failure {
            Failure::Input => b"purger: standard input could not be read to its end\n",
            Failure::Output => b"purger: standard output could not be written\n",
        };
        let _ = streams::write_all(&mut rt.stderr(), told);
    }
}
