// Calls on lent records and maps. They stand before the trace file, the lowest byte first: the sixteen domains' records, hit map and fill map (2 bytes
// each) and the seven counts (4 each); then 256 valid maps and 256 dirty maps (2 each), of which as many are lent as there are sets. With these 1,536
// bytes before it no trace file has a trace file's length. All that is read is 40,968 bytes, so that it may have 3,942 steps. Tags and replacement words
// are lent zero. At the end there is a line for every domain: its number, both maps as they are stored, and its counts. A refused file gives its number.
ghost use Rattle.std.specs.Prelude.{◌≤◌, length};

use command::Refusal;
use domains::{Counts, Domain, Domains};
use geometry::Geometry;
use std::io::{Result, Write};
use tracefile::MAX_SETS;

// What stands before the trace file.
const HEAD: usize = 1536;

// The record of a domain that stands at a place.
fn domain_at(head: &[u8], at: usize) -> Domain
    requires { at ≤ 512 }
{
    Domain {
        hit: endian::at(head, at),
        fill: endian::at(head, at + 2),
        counts: Counts {
            hits: endian::at(head, at + 4),
            misses: endian::at(head, at + 8),
            evicted: endian::at(head, at + 12),
            written: endian::at(head, at + 16),
            flushed: endian::at(head, at + 20),
            fills: endian::at(head, at + 24),
            dropped: endian::at(head, at + 28),
        },
    }
}

// All records.
fn domains_of(head: &[u8]) -> Domains {
    let mut domains = fresh::fresh_domains();
    for d in 0..16 {
        domains.records[d] = domain_at(head, 32 * d);
    }
    domains
}

// Puts the maps that stand from a place on into a table.
fn put_maps(head: &[u8], from: usize, table: &mut [u16])
    requires from_bound { from ≤ 1024 }
    requires sets_bound { length table.old ≤ 256 }
{
    for (set, map) in table.iter_mut().enumerate() {
        *map = endian::at(head, from + 2 * set);
    }
}

// Writes the lines of all domains.
fn show_domains(stdout: &mut impl Write, domains: Domains) -> Result<()> {
    for (d, own) in domains.records.iter().enumerate() {
        write!(stdout, "domain")?;
        write!(stdout, " {d} {} {}", own.hit, own.fill)?;
        crate::show_counts(stdout, own.counts)?;
    }
    Ok(())
}

// Makes the calls of a trace file on what stands before it.
fn run_lent(
    stdout: &mut impl Write,
    g: Geometry,
    head: &[u8],
    file: &[u8],
    n: u32,
    tags: &mut [u64],
    valid: &mut [u16],
    dirty: &mut [u16],
    words: &mut [u64],
) -> Result<Domains>
    requires valid_len_bound { length valid.old ≤ 256 }
    requires dirty_len_bound { length dirty.old ≤ 256 }
{
    put_maps(head, 512, valid);
    put_maps(head, 1024, dirty);
    crate::run(
        stdout,
        g,
        file,
        n,
        tags,
        valid,
        dirty,
        words,
        domains_of(head),
    )
}

// Lends tables for the sets and ways of a trace file within the limits.
fn lend(stdout: &mut impl Write, g: Geometry, head: &[u8], file: &[u8], n: u32) -> Result<()> {
    let mut tags = [0u64; 16 * MAX_SETS];
    let mut valid = [0u16; MAX_SETS];
    let mut dirty = [0u16; MAX_SETS];
    let mut words = [0u64; MAX_SETS];
    let sets = g.sets.min(MAX_SETS);
    let cells = crate::cells_of(sets, g.ways.min(16));
    let domains = run_lent(
        stdout,
        g,
        head,
        file,
        n,
        &mut tags[..cells],
        &mut valid[..sets],
        &mut dirty[..sets],
        &mut words[..sets],
    )?;
    show_domains(stdout, domains)
}

// Writes the lines of a trace file with what stands before it.
fn show_parts(stdout: &mut impl Write, head: &[u8], file: &[u8]) -> Result<()> {
    if let Err(refusal) = tracefile::refusal(file) {
        return crate::show_told(stdout, "refused", format_args!(" {}", refusal.number()));
    }
    let n = tracefile::steps(file);
    let g = geometry::named(file);
    crate::show_head(stdout, g, n)?;
    lend(stdout, g, head, file, n)
}

// Writes the lines of a file that has no trace file's length.
pub fn show_file(stdout: &mut impl Write, file: &[u8]) -> Result<()> {
    if file.len() < HEAD {
        return crate::show_told(
            stdout,
            "refused",
            format_args!(" {}", Refusal::File.number()),
        );
    }
    show_parts(stdout, &file[..HEAD], &file[HEAD..])
}
