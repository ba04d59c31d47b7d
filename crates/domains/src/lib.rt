// The sixteen domains: their policies and counts, and what a step leaves of them.
#![tactic(auto)]

ghost use Rattle.std.specs.Prelude.{◌≡◌, false, cond, ◌+◌, ◌<◌, eqb};
ghost use Rattle.waymap.specs.Bits.{digit};
ghost use Rattle.domains.specs.Domains.{
  maps_of,
  no_counts,
  is_full,
  overflows as overflows_by,
  counted as counted_by,
  with_drops,
};
ghost use Rattle.domains.specs.Calls.{policies_of, used_of, changed_of};

use command::Answer;
use policy::Maps;

const LARGEST: u32 = u32::MAX;

// A domain's counts.
#[derive(Clone, Copy, Default)]
pub struct Counts {
    pub hits: u32,
    pub misses: u32,
    pub evicted: u32,
    // Lines written back.
    pub written: u32,
    pub flushed: u32,
    // Lines filled, into an invalid way or an evicted one's.
    pub fills: u32,
    // Lines that the domain's own policy changes cleaned.
    pub dropped: u32,
}

// A domain's hit map, fill map and counts.
#[derive(Clone, Copy, Default)]
pub struct Domain {
    pub hit: u16,
    pub fill: u16,
    pub counts: Counts,
}

impl Domain {
    // Its maps, as stored.
    pub fn maps(self) -> Maps
        ensures { result ≡ maps_of self }
    {
        Maps {
            hit: self.hit,
            fill: self.fill,
        }
    }
}

// The sixteen domains.
#[derive(Clone, Copy)]
pub struct Domains {
    pub records: [Domain; 16],
}

// The maps of all domains, as stored.
#[derive(Clone, Copy)]
pub struct Policies {
    pub maps: [Maps; 16],
}

// The policies of all domains, without their counts.
pub fn policies_of(domains: Domains) -> Policies
    ensures { result ≡ policies_of domains }
{
    let mut maps = [Maps::default(); 16];
    for d in 0..16 {
        maps[d] = domains.records[d].maps();
    }
    Policies { maps }
}

// Whether a count has reached the largest number.
pub fn is_full(c: Counts) -> bool
    ensures { result ≡ is_full c }
{
    c.hits == LARGEST
        || c.misses == LARGEST
        || c.evicted == LARGEST
        || c.written == LARGEST
        || c.flushed == LARGEST
        || c.fills == LARGEST
        || c.dropped == LARGEST
}

// Whether an argument removes the domain.
fn removes(argument: u64) -> bool
    ensures { result ≡ eqb argument 0 }
{
    argument == 0
}

// Whether a change of policy, unless it removes the domain, would carry the count of dropped lines past the largest number.
pub fn overflows(argument: u64, dropped: usize, c: Counts) -> bool
    ensures { result ≡ overflows_by argument dropped c }
{
    let room = LARGEST - c.dropped;
    !removes(argument) && (room as usize) < dropped
}

// One more where the line is dirty.
fn with_dirty(written: u32, dirty: bool) -> u32
    requires { written < 4294967295 }
    ensures { result ≡ written + digit dirty }
{
    if dirty { written + 1 } else { written }
}

// The counts after an answer.
fn counted(answer: Answer, c: Counts) -> Counts
    requires { is_full c ≡ false }
    ensures { result ≡ counted_by answer c }
{
    match answer {
        Answer::Hit(_) => Counts {
            hits: c.hits + 1,
            ..c
        },
        Answer::Fill(_) => Counts {
            misses: c.misses + 1,
            fills: c.fills + 1,
            ..c
        },
        Answer::Pass => Counts {
            misses: c.misses + 1,
            ..c
        },
        Answer::Evict { dirty, .. } => Counts {
            misses: c.misses + 1,
            evicted: c.evicted + 1,
            written: with_dirty(c.written, dirty),
            fills: c.fills + 1, // In the place of the evicted line.
            ..c
        },
        Answer::Flush { dirty, .. } => Counts {
            written: with_dirty(c.written, dirty),
            flushed: c.flushed + 1,
            ..c
        },
        _ => c,
    }
}

// The counts after a change of policy that dropped some lines: zero after argument 0, which removes the domain.
fn kept(c: Counts, argument: u64, dropped: usize) -> Counts
    requires { overflows_by argument dropped c ≡ false }
    ensures { result ≡ cond (eqb argument 0) no_counts (with_drops dropped c) }
{
    if removes(argument) {
        return Counts::default();
    }
    Counts {
        dropped: c.dropped + dropped as u32,
        ..c
    }
}

// A domain's record after an access or a flush.
pub fn used(own: Domain, answer: Answer) -> Domain
    ensures { result ≡ used_of answer own }
{
    if is_full(own.counts) {
        return own;
    }
    Domain {
        counts: counted(answer, own.counts),
        ..own
    }
}

// A domain's record after a change of policy that dropped some lines.
pub fn changed(own: Domain, argument: u64, dropped: usize) -> Domain
    ensures { result ≡ changed_of argument dropped own }
{
    if overflows(argument, dropped, own.counts) {
        return own;
    }
    let new = policy::new_maps(argument);
    Domain {
        hit: new.hit,
        fill: new.fill,
        counts: kept(own.counts, argument, dropped),
    }
}
