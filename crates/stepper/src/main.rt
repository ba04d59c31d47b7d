// Writes what the cache holds before the first step and after each step of the trace file on standard input, as numbers in bytes, the
// lowest byte first. A block for each: the records of the sixteen domains (32 bytes each: hit map and fill map, 2 bytes each, and the seven counts
// in the order of the domain line of a listing, 4 each: hits, misses, evicted, written back, flushed, fills, dropped), the selectors CS, DS and ES
// of the 32 cores (1 byte each), the set of the step's argument (2), the number of rows that follow (2), how many ways the step's lookup visited
// (2; 0 where the step is refused or looks nothing up), the domain by which the cache took the step (2; 65535 where it took none: a selector
// write, a core that is not in the list, and before the first step), and the rows: set (2), valid map (2), dirty map (2), replacement word (8),
// tags (8 each). An access or a flush, by a domain or a core, has the row of its set, a policy change has all rows, and so has the block before
// the first step; other steps have none. After the last block come, for each of the sixteen domains, the valid lines in its hit map over all
// sets (4). A refused file gives nothing. A failed read or write is told on standard error.
#![tactic(auto)]

ghost use Rattle.std.specs.Prelude.{◌≡◌, ◌+◌, ◌*◌, ◌≤◌, ◌<◌, length};
ghost use Rattle.io.specs.Counts.{IsPrefixLen as CountsBytes};
ghost use Rattle.tracefile.specs.File.{max_file_sets};
ghost use Rattle.stepper.specs.Rows.{Small, Rows};

use command::{Answer, Command, Refusal};
use cores::Reply;
use domains::{Domain, Domains};
use geometry::{Geometry, Place};
use row::Lines;
use selectors::{Core, MAX_CORES, Meaning};
use std::io;
use std::io::Stdout;
use streams::{Failure, Show};
use tracefile::MAX_SETS;

// How many bytes of a block stand before its rows.
const HEAD: usize = 616;

// What stands after a step beside the tables: the domains and the core records, the domain by which the cache took the step, and how many ways its
// lookup visited.
#[derive(Clone, Copy)]
struct State {
    domains: Domains,
    cores: [Core; MAX_CORES],
    domain: Option<u16>,
    visited: u16,
}

// The two low bytes of a number.
fn short(n: usize) -> u16 {
    (n % 65536) as u16
}

// Puts a domain's record, 32 bytes: its maps, and its counts in the order of its line in a listing.
fn put_domain(own: &Domain, out: &mut [u8], at: usize)
    requires { at + 32 ≤ length out.old }
{
    let counts = own.counts;
    out[at..at + 2].copy_from_slice(&own.hit.to_le_bytes());
    out[at + 2..at + 4].copy_from_slice(&own.fill.to_le_bytes());
    out[at + 4..at + 8].copy_from_slice(&counts.hits.to_le_bytes());
    out[at + 8..at + 12].copy_from_slice(&counts.misses.to_le_bytes());
    out[at + 12..at + 16].copy_from_slice(&counts.evicted.to_le_bytes());
    out[at + 16..at + 20].copy_from_slice(&counts.written.to_le_bytes());
    out[at + 20..at + 24].copy_from_slice(&counts.flushed.to_le_bytes());
    out[at + 24..at + 28].copy_from_slice(&counts.fills.to_le_bytes());
    out[at + 28..at + 32].copy_from_slice(&counts.dropped.to_le_bytes());
}

// Puts the head of a block at the front: the domains' records, the cores' selectors, and what is told of the step.
fn put_head(state: &State, span: Span, out: &mut [u8])
    requires from_le_to { span.from ≤ span.to }
    requires in_bounds { 616 ≤ length out.old }
{
    for (d, own) in state.domains.records.iter().enumerate() {
        put_domain(own, out, 32 * d);
    }
    for (c, core) in state.cores.iter().enumerate() {
        let at = 512 + 3 * c;
        out[at..at + 3].copy_from_slice(&[core.cs, core.ds, core.es]);
    }
    out[608..610].copy_from_slice(&short(span.set).to_le_bytes());
    out[610..612].copy_from_slice(&short(span.to - span.from).to_le_bytes());
    out[612..614].copy_from_slice(&state.visited.to_le_bytes());
    out[614..616].copy_from_slice(&state.domain.unwrap_or(65535).to_le_bytes());
}

// Where the tags of a set begin.
fn start_of(set: usize, ways: usize) -> usize
    requires set_le_max_file_sets { set ≤ max_file_sets }
    requires ways_bound { ways ≤ 16 }
    ensures value { result ≡ set * ways }
    ensures upper_bound { result ≤ 16 * set }
{
    set * ways
}

// The tags of a set.
fn tags_of(tags: &[u64], set: usize, ways: usize) -> &[u64]
    requires set_lt_max_file_sets { set < max_file_sets }
    requires ways_bound { ways ≤ 16 }
    requires in_bounds { (set + 1) * ways ≤ length tags.now }
    ensures { length result.now ≡ ways }
{
    let start = start_of(set, ways);
    &tags[start..start + ways]
}

// Fills a set's row.
fn fill_row(set: usize, tags: &[u64], valid: u16, dirty: u16, word: u64, row: &mut [u8])
    requires { 14 + 8 * length tags.now ≤ length row.old }
{
    row[..2].copy_from_slice(&short(set).to_le_bytes());
    row[2..4].copy_from_slice(&valid.to_le_bytes());
    row[4..6].copy_from_slice(&dirty.to_le_bytes());
    row[6..14].copy_from_slice(&word.to_le_bytes());
    for (w, tag) in tags.iter().enumerate() {
        let at = 14 + 8 * w;
        row[at..at + 8].copy_from_slice(&tag.to_le_bytes());
    }
}

// Puts a set's row at a place, and answers the place behind it.
fn put_row(
    set: usize,
    tags: &[u64],
    valid: u16,
    dirty: u16,
    word: u64,
    out: &mut [u8],
    at: usize,
) -> usize
    requires ways_bound { length tags.now ≤ 16 }
    requires in_bounds { at + 142 ≤ length out.old }
    ensures value { result ≡ at + (14 + 8 * length tags.now) }
    ensures upper_bound { result ≤ at + 142 }
{
    let next = at + 14 + 8 * tags.len();
    fill_row(set, tags, valid, dirty, word, &mut out[at..next]);
    next
}

// Puts the rows of a block behind its head, and answers how many bytes it has.
fn put_rows(
    ways: usize,
    span: Span,
    tags: &[u64],
    valid: &[u16],
    dirty: &[u16],
    words: &[u64],
    out: &mut [u8],
) -> usize
    requires rows { Rows span.to ways (length tags.now) (length valid.now) (length dirty.now) (length words.now) }
    requires from_le_to { span.from ≤ span.to }
    requires to_le_max_file_sets { span.to ≤ max_file_sets }
    requires ways_bound { ways ≤ 16 }
    requires max_file_sets_in_bounds { 616 + 142 * max_file_sets ≤ length out.old }
    ensures { CountsBytes result out.new }
{
    let mut at = HEAD;
    for set in span.from..span.to {
        let own = tags_of(tags, set, ways);
        at = put_row(set, own, valid[set], dirty[set], words[set], out, at);
    }
    at
}

// Where an address's line can be.
fn place_of(g: Geometry, address: u64) -> Place
    requires { 0 < g.sets }
    ensures { result.set < g.sets }
{
    geometry::place_of(g, address)
}

// Whether a kind is that of an access or a flush, by a domain or a core.
fn uses_line(kind: u8) -> bool {
    matches!(kind, 0..=3 | 32..=35)
}

// What a block shows of the tables: the set of its step's argument, and from which set up to which it has rows.
#[derive(Clone, Copy)]
struct Span {
    set: usize,
    from: usize,
    to: usize,
}

// The span of the block after a step.
fn span_of(command: Command, g: Geometry) -> Span
    requires { 0 < g.sets }
    ensures from_le_to { result.from ≤ result.to }
    ensures to_le_sets { result.to ≤ g.sets }
{
    let set = place_of(g, command.argument).set;
    if uses_line(command.kind) {
        return Span {
            set,
            from: set,
            to: set + 1,
        };
    }
    Span {
        set,
        from: 0,
        to: if command.kind == 16 { g.sets } else { 0 },
    }
}

// Writes a block. Put into its callers it copies a row's tags at once, and takes a fifth less.
#[inline(always)]
fn show(
    stdout: &mut Stdout,
    ways: usize,
    state: &State,
    span: Span,
    tags: &[u64],
    valid: &[u16],
    dirty: &[u16],
    words: &[u64],
    out: &mut [u8],
) -> io::Result<()>
    requires rows { Rows span.to ways (length tags.now) (length valid.now) (length dirty.now) (length words.now) }
    requires from_le_to { span.from ≤ span.to }
    requires to_le_max_file_sets { span.to ≤ max_file_sets }
    requires ways_bound { ways ≤ 16 }
    requires max_file_sets_in_bounds { 616 + 142 * max_file_sets ≤ length out.old }
{
    put_head(state, span, out);
    let n = put_rows(ways, span, tags, valid, dirty, words, out);
    streams::write_all(stdout, &out[..n])
}

// The valid lines in a domain's hit map, over all sets.
fn held(ways: usize, own: &Domain, valid: &[u16]) -> usize {
    sweep::lines_among(valid, policy::as_read(ways, own.maps()).hit)
}

// Writes those of the sixteen domains.
fn show_held(stdout: &mut Stdout, ways: usize, domains: &Domains, valid: &[u16]) -> io::Result<()> {
    let mut lines = [0; 64];
    for (d, own) in domains.records.iter().enumerate() {
        let low = held(ways, own, valid) % 4294967296;
        lines[4 * d..4 * d + 4].copy_from_slice(&(low as u32).to_le_bytes());
    }
    streams::write_all(stdout, &lines)
}

// How many ways the lookup of a step visits, on the tables before it. Only an access or a flush has one.
fn visits(
    g: Geometry,
    tags: &[u64],
    valid: &[u16],
    domains: &Domains,
    domain: usize,
    kind: u8,
    address: u64,
) -> usize
    requires small { Small g.sets g.ways }
    requires rows { Rows g.sets g.ways (length tags.now) (length valid.now) g.sets g.sets }
{
    if 3 < kind || 16 <= domain {
        return 0;
    }
    let own = &domains.records[domain];
    let place = place_of(g, address);
    let lines = Lines {
        valid: valid[place.set],
        dirty: 0,
        word: 0,
    };
    row::lookup(
        tags_of(tags, place.set, g.ways),
        lines,
        own.maps(),
        place.tag,
    )
    .visited
}

// The same of what a step means: only a step of the cache has a lookup.
fn visits_by(
    g: Geometry,
    tags: &[u64],
    valid: &[u16],
    domains: &Domains,
    meaning: Result<Meaning, Refusal>,
) -> usize
    requires small { Small g.sets g.ways }
    requires rows { Rows g.sets g.ways (length tags.now) (length valid.now) g.sets g.sets }
{
    match meaning {
        Ok(
            Meaning::Plain {
                domain,
                kind,
                argument,
            },
        ) => visits(g, tags, valid, domains, domain, kind, argument),
        _ => 0,
    }
}

// The domain by which the cache takes a step, if it does.
fn taken_by(meaning: Result<Meaning, Refusal>) -> Option<u16> {
    match meaning {
        Ok(Meaning::Plain { domain, .. }) => Some(short(domain)),
        _ => None,
    }
}

// What a lookup visits if its step is not refused: a refused step looks nothing up.
fn unless_refused(reply: Reply, visited: usize) -> u16 {
    match reply {
        Reply::Cache(Answer::Refused(_)) | Reply::Select(_) => 0,
        Reply::Cache(_) => short(visited),
    }
}

// Takes a step.
fn take(
    g: Geometry,
    command: Command,
    tags: &mut [u64],
    valid: &mut [u16],
    dirty: &mut [u16],
    words: &mut [u64],
    state: &mut State,
)
    requires small { Small g.sets g.ways }
    requires rows { Rows g.sets g.ways (length tags.old) (length valid.old) (length dirty.old) (length words.old) }
{
    let named = command.domain as usize;
    let kind = command.kind;
    let argument = command.argument;
    // A core that is not in the list is given another's record here, to no effect, and leaves it.
    let place = named % MAX_CORES;
    let core = state.cores[place];
    let meaning = selectors::meant(named < MAX_CORES, core, named, kind, argument);
    let looked = visits_by(g, tags, valid, &state.domains, meaning);
    let turned = cores::turn(
        g,
        tags,
        valid,
        dirty,
        words,
        state.domains,
        MAX_CORES,
        core,
        named,
        kind,
        argument,
    );
    state.cores[place] = turned.core;
    state.domains = turned.stepped.domains;
    state.domain = taken_by(meaning);
    state.visited = unless_refused(turned.stepped.reply, looked);
}

// Takes the steps of a file of n, and writes the block after each, also where one before could not be written, and answers whether all could.
fn show_steps(
    stdout: &mut Stdout,
    g: Geometry,
    file: &[u8],
    tags: &mut [u64],
    valid: &mut [u16],
    dirty: &mut [u16],
    words: &mut [u64],
    state: &mut State,
    out: &mut [u8],
) -> io::Result<()>
    requires small { Small g.sets g.ways }
    requires rows { Rows g.sets g.ways (length tags.old) (length valid.old) (length dirty.old) (length words.old) }
    requires max_file_sets_in_bounds { 616 + 142 * max_file_sets ≤ length out.old }
{
    let n = tracefile::steps(file);
    let mut written = Ok(());
    for i in 0..n {
        let command = tracefile::command_at(file, n, i);
        take(g, command, tags, valid, dirty, words, state);
        let span = span_of(command, g);
        let shown = show(stdout, g.ways, state, span, tags, valid, dirty, words, out);
        written = written.and(shown);
    }
    written
}

// Writes the blocks of a file that is not refused, on tables of its geometry, and what the domains hold at the end. All is tried, and it answers
// whether all could be written.
fn run(
    stdout: &mut Stdout,
    g: Geometry,
    file: &[u8],
    tags: &mut [u64],
    valid: &mut [u16],
    dirty: &mut [u16],
    words: &mut [u64],
    out: &mut [u8],
) -> io::Result<()>
    requires small { Small g.sets g.ways }
    requires rows { Rows g.sets g.ways (length tags.old) (length valid.old) (length dirty.old) (length words.old) }
    requires max_file_sets_in_bounds { 616 + 142 * max_file_sets ≤ length out.old }
{
    // The tables have the lengths of the geometry, which is within the limits.
    let _ = fresh::fresh_tables(g, tags, valid, dirty, words);
    let mut state = State {
        domains: fresh::fresh_domains(),
        cores: [Core::default(); MAX_CORES],
        domain: None,
        visited: 0,
    };
    let all = Span {
        set: 0,
        from: 0,
        to: g.sets,
    };
    let first = show(stdout, g.ways, &state, all, tags, valid, dirty, words, out);
    let steps = show_steps(stdout, g, file, tags, valid, dirty, words, &mut state, out);
    let held = show_held(stdout, g.ways, &state.domains, valid);
    first.and(steps).and(held)
}

// Lends the front of the tables, and the output.
fn lend(stdout: &mut Stdout, g: Geometry, file: &[u8]) -> io::Result<()>
    requires { Small g.sets g.ways }
{
    let mut tags = [0u64; 16 * MAX_SETS];
    let mut valid = [0u16; MAX_SETS];
    let mut dirty = [0u16; MAX_SETS];
    let mut words = [0u64; MAX_SETS];
    let mut out = [0u8; HEAD + 142 * MAX_SETS];
    let sets = g.sets;
    let cells = start_of(sets, g.ways);
    run(
        stdout,
        g,
        file,
        &mut tags[..cells],
        &mut valid[..sets],
        &mut dirty[..sets],
        &mut words[..sets],
        &mut out,
    )
}

// Writes the blocks of a file; a refused file has none.
fn show_file(stdout: &mut Stdout, file: &[u8]) -> io::Result<()> {
    if tracefile::refusal(file).is_err() {
        return Ok(());
    }
    let g = geometry::named(file);
    if g.sets == 0 || MAX_SETS < g.sets || 16 < g.ways {
        return Ok(());
    }
    lend(stdout, g, file)
}

// What `main` has shown: the blocks of a file.
struct Blocks;

impl Show<Stdout> for Blocks {
    fn show(&self, output: &mut Stdout, file: &[u8]) -> io::Result<()> {
        show_file(output, file)
    }
}

fn main(rt: HostRuntime) {
    if let Err(failure) = streams::show_input_by(&mut rt.stdin(), &mut rt.stdout(), &Blocks) {
        // In one write.
        let told: &[u8] = match failure {
            Failure::Input => b"stepper: standard input could not be read to its end\n",
            Failure::Output => b"stepper: standard output could not be written\n",
        };
        let _ = streams::write_all(&mut rt.stderr(), told);
    }
}
