// A trace file and its listing.
#![tactic(auto)]

mod lines;
mod text;

ghost use Rattle.std.specs.Prelude.{◌≡◌, true, ◌+◌, ◌*◌, ◌≤◌, length};
ghost use Rattle.io.specs.Counts.{IsPrefixLen};
ghost use Rattle.command.specs.Command.{command_is};
ghost use Rattle.geometry.specs.Geometry.{within, sized};
ghost use Rattle.selectors.specs.Selectors.{max_cores};
ghost use Rattle.cores.specs.Step.{core_step};
ghost use Rattle.cores.specs.Calls.{lent_of, result_of};
ghost use Rattle.steps.specs.Step.{tables_of};
ghost use Rattle.steps.specs.Tables.{lengths};
ghost use Rattle.tracefile.specs.File.{max_steps, file_refusal};
ghost use Rattle.trace.specs.Calls.{listed_of, list_of};
ghost use Rattle.trace.specs.Inside.{written_of, listed_by, ran_by, listing_by, Roomy};

use command::Command;
use cores::Reply;
use domains::Domains;
use geometry::Geometry;
use selectors::{Core, MAX_CORES};
use tracefile::MAX_SETS;

// The tags of as many sets as a file may name, of sixteen ways each.
pub const TAGS: usize = 16 * MAX_SETS;

// A step where 32 records are lent, and what it answers. A core that is not in the list is given another's record here, to no effect, and leaves it.
// `cores::step` does the same; tried, and it is slower: a hit took 96 instructions more, since the domains are copied once more.
fn take(
    g: Geometry,
    tags: &mut [u64],
    valid: &mut [u16],
    dirty: &mut [u16],
    words: &mut [u64],
    domains: &mut Domains,
    cores: &mut [Core],
    command: Command,
) -> Reply
    requires { length cores.old ≡ max_cores }
    ensures { result_of (record { reply = result; domains = domains.new }) (tables_of tags.new valid.new dirty.new words.new) cores.new
        ≡ core_step g (command_is command) (lent_of (tables_of tags.old valid.old dirty.old words.old) domains.old cores.old) }
{
    let named = command.domain as usize;
    let place = named % MAX_CORES;
    let turned = cores::turn(
        g,
        tags,
        valid,
        dirty,
        words,
        *domains,
        MAX_CORES,
        cores[place],
        named,
        command.kind,
        command.argument,
    );
    cores[place] = turned.core;
    *domains = turned.stepped.domains;
    turned.stepped.reply
}

// The lines of a file's steps, taken one after another on the tables as they are from fresh domains on, and those of the domains.
fn run(
    g: Geometry,
    file: &[u8],
    steps: u32,
    tags: &mut [u64],
    valid: &mut [u16],
    dirty: &mut [u16],
    words: &mut [u64],
    out: &mut [u8],
    at: usize,
) -> usize
    requires { at + (92 * steps + 2800) ≤ length out.old }
    ensures out_after { listed_by (tables_of tags.new valid.new dirty.new words.new) (written_of result out.new)
        ≡ ran_by g file.now steps
        (tables_of tags.old valid.old dirty.old words.old) (written_of at out.old) }
    ensures upper_bound { result ≤ at + (92 * steps + 2800) }
{
    let mut cores = [Core::default(); MAX_CORES];
    let mut domains = fresh::fresh_domains();
    let mut next = at;
    for i in 0..steps {
        let command = tracefile::command_at(file, steps, i);
        let reply = take(
            g,
            tags,
            valid,
            dirty,
            words,
            &mut domains,
            &mut cores,
            command,
        );
        next = lines::answer(i, reply, out, next);
    }
    lines::domains(g.ways, domains, out, next)
}

// The listing of a file that is not refused, on tables of its lengths.
fn listing(
    g: Geometry,
    file: &[u8],
    steps: u32,
    tags: &mut [u64],
    valid: &mut [u16],
    dirty: &mut [u16],
    words: &mut [u64],
    out: &mut [u8],
) -> usize
    requires g_value { within g ≡ true }
    requires words_value { sized g (lengths (tables_of tags.old valid.old dirty.old words.old)) ≡ true }
    requires steps_le_max_steps { steps ≤ max_steps }
    requires in_bounds { 393216 ≤ length out.old }
    ensures out_after { listed_by (tables_of tags.new valid.new dirty.new words.new) (written_of result out.new)
        ≡ listing_by g file.now steps out.old }
    ensures upper_bound { result ≤ 393216 }
{
    let _ = fresh::fresh_tables(g, tags, valid, dirty, words);
    let head = lines::head(g, steps, out, 0);
    run(g, file, steps, tags, valid, dirty, words, out, head)
}

// Lists a file that is not refused.
fn list_file(
    file: &[u8],
    tags: &mut [u64],
    valid: &mut [u16],
    dirty: &mut [u16],
    words: &mut [u64],
    out: &mut [u8],
) -> usize
    requires file_value { file_refusal file.now ≡ 0 }
    requires roomy { Roomy (tables_of tags.old valid.old dirty.old words.old) out.old }
    ensures { listed_of result out.new (tables_of tags.new valid.new dirty.new words.new)
        ≡ list_of file.now out.old
        (tables_of tags.old valid.old dirty.old words.old) }
{
    let g = geometry::named(file);
    let steps = tracefile::steps(file);
    let sets = g.sets;
    let cells = sets * g.ways;
    listing(
        g,
        file,
        steps,
        &mut tags[0..cells],
        &mut valid[0..sets],
        &mut dirty[0..sets],
        &mut words[0..sets],
        out,
    )
}

// Lists a file: puts its listing at the front of the output, and answers its length. The run is on the front of the tables, which are for as
// many sets as a file may name: one that names more is refused by 10 before they are looked at, and leaves them.
pub fn list(
    file: &[u8],
    tags: &mut [u64; TAGS],
    valid: &mut [u16; MAX_SETS],
    dirty: &mut [u16; MAX_SETS],
    words: &mut [u64; MAX_SETS],
    out: &mut [u8; 393216],
) -> usize
    ensures words_after { listed_of result out.new (tables_of tags.new valid.new dirty.new words.new)
        ≡ list_of file.now out.old
        (tables_of tags.old valid.old dirty.old words.old) }
    ensures prefix_len { IsPrefixLen result out.new }
{
    match tracefile::refusal(file) {
        Ok(()) => list_file(file, tags, valid, dirty, words, out),
        Err(refusal) => lines::refused(refusal.number(), out, 0),
    }
}
