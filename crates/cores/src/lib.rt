// Steps where core records are lent beside the tables.
#![tactic(auto)]

ghost use Rattle.std.specs.Prelude.{◌≡◌, cond, ltb};
ghost use Rattle.selectors.specs.Selectors.{max_cores, refused as refused_by, meant_by};
ghost use Rattle.selectors.specs.Calls.{meaning_is};
ghost use Rattle.steps.specs.Step.{tables_of};
ghost use Rattle.cores.specs.Step.{core_step};
ghost use Rattle.cores.specs.Calls.{lent_of, result_of, turn_of, turn_is};
ghost use Rattle.cores.specs.Inside.{settled};
ghost use Rattle.cores.specs.declared.Reply.TheVariants.{Cache};

use command::{Answer, Refusal};
use domains::Domains;
use geometry::Geometry;
use selectors::{Core, MAX_CORES, Meaning};

// What a step answers: what the cache does, or the selectors that were written.
#[derive(Clone, Copy)]
pub enum Reply {
    Cache(Answer),
    Select(Core),
}

// A step's answer, and the domains after it.
#[derive(Clone, Copy)]
pub struct Stepped {
    pub reply: Reply,
    pub domains: Domains,
}

// The same, and the record of the core that the step names.
#[derive(Clone, Copy)]
pub struct Turned {
    pub stepped: Stepped,
    pub core: Core,
}

// What a step of the cache leaves, beside the core's record.
fn taken(done: cache::Stepped, core: Core) -> Turned
    ensures { result ≡ record { stepped = record { reply = Cache done.answer; domains = done.domains }; core = core } }
{
    let answer = done.answer;
    let domains = done.domains;
    Turned {
        stepped: Stepped {
            reply: Reply::Cache(answer),
            domains,
        },
        core,
    }
}

// A step that does not reach the cache: the core's new selectors, or why it is turned down. Geometry and lengths come first.
fn settled(
    sizes: Result<(), Refusal>,
    written: Result<Core, Refusal>,
    domains: Domains,
    core: Core,
) -> Turned
    ensures { result ≡ settled sizes written domains core }
{
    match sizes.and(written) {
        Ok(next) => Turned {
            stepped: Stepped {
                reply: Reply::Select(next),
                domains,
            },
            core: next,
        },
        Err(refusal) => Turned {
            stepped: Stepped {
                reply: Reply::Cache(Answer::Refused(refusal.number())),
                domains,
            },
            core,
        },
    }
}

// What a step means, given how many records are lent and the record of the core that it names. More than 32 are refused, whatever it asks for.
fn meaning_of(
    count: usize,
    core: Core,
    named: usize,
    kind: u8,
    argument: u64,
) -> Result<Meaning, Refusal>
    ensures { meaning_is result
        ≡ cond (ltb max_cores count) (refused_by 11) (meant_by (ltb named count) core (record { domain = named; kind = kind; argument = argument })) }
{
    if MAX_CORES < count {
        return Err(Refusal::Core);
    }
    selectors::meant(named < count, core, named, kind, argument)
}

// One step, given how many records are lent and the record of the core that it names: where that core is not in the list, any record. It is the
// step for callers that keep the records by value.
pub fn turn(
    g: Geometry,
    tags: &mut [u64],
    valid: &mut [u16],
    dirty: &mut [u16],
    words: &mut [u64],
    domains: Domains,
    count: usize,
    core: Core,
    named: usize,
    kind: u8,
    argument: u64,
) -> Turned
    ensures { turn_is result (tables_of tags.new valid.new dirty.new words.new)
        ≡ turn_of g (record { domain = named; kind = kind; argument = argument }) count core
        (record { tables = tables_of tags.old valid.old dirty.old words.old; domains = domains }) }
{
    match meaning_of(count, core, named, kind, argument) {
        Ok(
            Meaning::Plain {
                domain,
                kind,
                argument,
            },
        ) => {
            let done = cache::step(
                g, tags, valid, dirty, words, domains, domain, kind, argument,
            );
            taken(done, core)
        }
        Ok(Meaning::Select(next)) => {
            let sizes = geometry::sizes(g, tags.len(), valid.len(), dirty.len(), words.len());
            settled(sizes, Ok(next), domains, core)
        }
        Err(refusal) => {
            let sizes = geometry::sizes(g, tags.len(), valid.len(), dirty.len(), words.len());
            settled(sizes, Err(refusal), domains, core)
        }
    }
}

// One step of kind and argument, by a domain or a core, on tables, domains and records of any content. The records are changed where they are lent.
pub fn step(
    g: Geometry,
    tags: &mut [u64],
    valid: &mut [u16],
    dirty: &mut [u16],
    words: &mut [u64],
    domains: Domains,
    cores: &mut [Core],
    named: usize,
    kind: u8,
    argument: u64,
) -> Stepped
    ensures { result_of result (tables_of tags.new valid.new dirty.new words.new) cores.new
        ≡ core_step g (record { domain = named; kind = kind; argument = argument })
        (lent_of (tables_of tags.old valid.old dirty.old words.old) domains cores.old) }
{
    let count = cores.len();
    let inside = named < count;
    let core = if inside {
        cores[named]
    } else {
        Core::default()
    };
    let turned = turn(
        g, tags, valid, dirty, words, domains, count, core, named, kind, argument,
    );
    if inside {
        cores[named] = turned.core;
    }
    turned.stepped
}
