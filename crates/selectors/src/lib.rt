// Core records, and what a step means where they are lent: a step of the cache by a domain, a write of a core's selectors, or a refusal.
#![tactic(auto)]

ghost use Rattle.std.specs.Prelude.{◌≡◌, cond};
ghost use Rattle.selectors.specs.Selectors.{written, refused, plain, meant_by};
ghost use Rattle.selectors.specs.Calls.{meaning_is, record_left};

use command::Refusal;

// The most records of a list.
pub const MAX_CORES: usize = 32;

// A core's selectors: the domains of its fetches, of its loads and flushes, and of its stores.
#[derive(Clone, Copy, Default, PartialEq, Eq)]
pub struct Core {
    pub cs: u8,
    pub ds: u8,
    pub es: u8,
}

// What a step means that is not refused.
#[derive(Clone, Copy)]
pub enum Meaning {
    // A step of the cache by a domain.
    Plain {
        domain: usize,
        kind: u8,
        argument: u64,
    },
    // The named core's selectors after the step.
    Select(Core),
}

// A fetch, load, store or flush by the domain that a selector names.
fn through(listed: bool, selector: u8, kind: u8, argument: u64) -> Result<Meaning, Refusal>
    ensures { meaning_is result ≡ cond listed (plain (record { domain = selector; kind = kind; argument = argument })) (refused 11) }
{
    if !listed {
        return Err(Refusal::Core);
    }
    Ok(Meaning::Plain {
        domain: selector as usize,
        kind,
        argument,
    })
}

// A write of selectors from the three low bytes of an argument.
fn select(listed: bool, argument: u64) -> Result<Meaning, Refusal>
    ensures { meaning_is result ≡ cond listed (written argument) (refused 11) }
{
    if !listed {
        return Err(Refusal::Core);
    }
    let next = Core {
        cs: (argument % 256) as u8,
        ds: (argument / 256 % 256) as u8,
        es: (argument / 65536 % 256) as u8,
    };
    if 16 <= next.cs || 16 <= next.ds || 16 <= next.es {
        return Err(Refusal::Domain);
    }
    if 16777216 <= argument {
        return Err(Refusal::Argument);
    }
    Ok(Meaning::Select(next))
}

// What a step means, or why it is refused, given whether the core that it names is in the list, and that core's record.
pub fn meant(
    listed: bool,
    core: Core,
    named: usize,
    kind: u8,
    argument: u64,
) -> Result<Meaning, Refusal>
    ensures { meaning_is result ≡ meant_by listed core (record { domain = named; kind = kind; argument = argument }) }
{
    match kind {
        32 => through(listed, core.cs, 0, argument),
        33 => through(listed, core.ds, 1, argument),
        34 => through(listed, core.es, 2, argument),
        35 => through(listed, core.ds, 3, argument),
        40 => select(listed, argument),
        0..=31 | 36..=39 | 41..=255 => Ok(Meaning::Plain {
            domain: named,
            kind,
            argument,
        }),
    }
}

// The record that a step leaves of the core that it names. A step that is refused, for whatever reason, leaves it.
pub fn record_after<E: Copy>(core: Core, meaning: Result<Meaning, E>) -> Core
    ensures { result ≡ record_left meaning core }
{
    match meaning {
        Ok(Meaning::Plain { .. }) => core,
        Ok(Meaning::Select(next)) => next,
        Err(_) => core,
    }
}
