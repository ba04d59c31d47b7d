// The lines of a listing.
ghost use Rattle.std.specs.Prelude.{◌≡◌, [], ◌∷◌, map, ◌+◌, ◌*◌, ◌≤◌, ◌<◌, length};
ghost use Rattle.command.specs.Answer.{answer_of};
ghost use Rattle.cores.specs.Calls.{reply_of};
ghost use Rattle.listing.specs.Listing.{decimal, line, told as told_as, head_line, refused_line, domain_line, domain_part, domain_lines};
ghost use Rattle.trace.specs.Inside.{written_of, append};

use crate::text;
use command::Answer;
use cores::Reply;
use domains::{Counts, Domain, Domains};
use geometry::Geometry;

// The line of a refused file.
pub fn refused(number: usize, out: &mut [u8], at: usize) -> usize
    requires { at + 29 ≤ length out.old }
    ensures out_after { written_of result out.new ≡ append (refused_line number) (written_of at out.old) }
    ensures upper_bound { result ≤ at + 29 }
{
    text::told(b"refused", &[number as u64], out, at)
}

// The first line: sets, ways, rule and number of steps.
pub fn head(g: Geometry, steps: u32, out: &mut [u8], at: usize) -> usize
    requires { at + 84 ≤ length out.old }
    ensures out_after { written_of result out.new ≡ append (head_line g steps) (written_of at out.old) }
    ensures upper_bound { result ≤ at + 84 }
{
    let values = [g.sets as u64, g.ways as u64, g.rule as u64, steps as u64];
    text::numbers(&values, out, at)
}

// An answer's word and fields, and the line's end.
fn said(answer: Answer, out: &mut [u8], at: usize) -> usize
    requires { at + 71 ≤ length out.old }
    ensures out_after { written_of result out.new ≡ append (line (told_as (answer_of answer))) (written_of at out.old) }
    ensures upper_bound { result ≤ at + 71 }
{
    match answer {
        Answer::Hit(way) => text::told(b"hit", &[way as u64], out, at),
        Answer::Fill(way) => text::told(b"fill", &[way as u64], out, at),
        Answer::Evict { way, tag, dirty } => {
            text::told(b"evict", &[way as u64, tag, dirty as u64], out, at)
        }
        Answer::Pass => text::told(b"pass", &[], out, at),
        Answer::Flush { way, dirty } => {
            text::told(b"flush", &[way as u64, dirty as u64], out, at)
        }
        Answer::Absent => text::told(b"absent", &[], out, at),
        Answer::Policy { dropped, dirty } => {
            text::told(b"policy", &[dropped as u64, dirty as u64], out, at)
        }
        Answer::Refused(number) => text::told(b"refused", &[number as u64], out, at),
    }
}

// The same of what a step answers where core records are lent.
fn replied(reply: Reply, out: &mut [u8], at: usize) -> usize
    requires { at + 71 ≤ length out.old }
    ensures out_after { written_of result out.new ≡ append (line (told_as (reply_of reply))) (written_of at out.old) }
    ensures upper_bound { result ≤ at + 71 }
{
    match reply {
        Reply::Cache(answer) => said(answer, out, at),
        Reply::Select(core) => {
            text::told(
                b"select",
                &[core.cs as u64, core.ds as u64, core.es as u64],
                out,
                at,
            )
        }
    }
}

// The line of a step's answer: its place, a word and fields.
pub fn answer(place: u32, reply: Reply, out: &mut [u8], at: usize) -> usize
    requires { at + 92 ≤ length out.old }
    ensures out_after { written_of result out.new ≡ append (line (decimal place ∷ told_as (reply_of reply))) (written_of at out.old) }
    ensures upper_bound { result ≤ at + 92 }
{
    let next = text::number(place as u64, b' ', out, at);
    replied(reply, out, next)
}

// The line of a domain.
fn domain(number: usize, counts: Counts, out: &mut [u8], at: usize) -> usize
    requires { at + 175 ≤ length out.old }
    ensures out_after { written_of result out.new ≡ append (domain_line number counts) (written_of at out.old) }
    ensures upper_bound { result ≤ at + 175 }
{
    let values = [
        number as u64,
        counts.hits as u64,
        counts.misses as u64,
        counts.evicted as u64,
        counts.written as u64,
        counts.flushed as u64,
        counts.fills as u64,
        counts.dropped as u64,
    ];
    text::told(b"domain", &values, out, at)
}

// The line of a domain whose hit map is not empty; of another nothing.
fn part(ways: usize, number: usize, own: Domain, out: &mut [u8], at: usize) -> usize
    requires { at + 175 ≤ length out.old }
    ensures out_after { written_of result out.new ≡ append (domain_part ways number own) (written_of at out.old) }
    ensures upper_bound { result ≤ at + 175 }
{
    let read = policy::as_read(ways, own.maps());
    if read.hit == 0 {
        return at;
    }
    domain(number, own.counts, out, at)
}

// The domains' lines.
pub fn domains(ways: usize, domains: Domains, out: &mut [u8], at: usize) -> usize
    requires { at + 2800 ≤ length out.old }
    ensures out_after { written_of result out.new ≡ append (domain_lines ways domains 0 16) (written_of at out.old) }
    ensures upper_bound { result ≤ at + 2800 }
{
    let mut next = at;
    for d in 0..16 {
        next = part(ways, d, domains.records[d], out, next);
    }
    next
}
