// Writes the listing of the trace file on standard input to standard output. A failed read or write is told on standard error, and a file
// that was not read to its end is not listed.
#![tactic(auto)]

use std::io::{Result, Write};
use streams::{Failure, Show};
use trace::TAGS;
use tracefile::MAX_SETS;

// Lists a file.
fn show_file(stdout: &mut impl Write, file: &[u8]) -> Result<()> {
    let mut tags = [0u64; TAGS];
    let mut valid = [0u16; MAX_SETS];
    let mut dirty = [0u16; MAX_SETS];
    let mut words = [0u64; MAX_SETS];
    let mut out = [0u8; 393216];
    let length = trace::list(
        file, &mut tags, &mut valid, &mut dirty, &mut words, &mut out,
    );
    streams::write_all(stdout, &out[..length])
}

// What `main` has shown: the listing of a file.
struct Listing;

impl<W: Write> Show<W> for Listing {
    fn show(&self, output: &mut W, file: &[u8]) -> Result<()> {
        show_file(output, file)
    }
}

fn main(rt: HostRuntime) {
    if let Err(failure) = streams::show_input_by(&mut rt.stdin(), &mut rt.stdout(), &Listing) {
        // In one write.
        let told: &[u8] = match failure {
            Failure::Input => b"lister: standard input could not be read to its end\n",
            Failure::Output => b"lister: standard output could not be written\n",
        };
        let _ = streams::write_all(&mut rt.stderr(), told);
    }
}
