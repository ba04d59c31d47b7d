// A set-associative cache whose domains each hold their own ways.
#![tactic(auto)]

mod account;
mod judge;
mod place;
mod sets;
mod work;

ghost use Rattle.std.specs.Prelude.{◌≡◌, ◌<◌};
ghost use Rattle.std.specs.Result.{OnOk};
ghost use Rattle.steps.specs.Step.{tables_of, step as step_of};
ghost use Rattle.cache.specs.Calls.{outcome};
ghost use Rattle.cache.specs.Inside.{outcome_in};

use account::Used;
use command::{Answer, Asked, Refusal};
use domains::Domains;
use geometry::Geometry;

// A step's answer, and the domains after it.
#[derive(Clone, Copy)]
pub struct Stepped {
    pub answer: Answer,
    pub domains: Domains,
}

// The step, unless it is turned down before a domain is looked at: what it answers, by the verdict too, and the record of its domain after it.
fn tried(
    g: Geometry,
    tags: &mut [u64],
    valid: &mut [u16],
    dirty: &mut [u16],
    words: &mut [u64],
    domains: &Domains,
    domain: usize,
    kind: u8,
    argument: u64,
) -> Result<Used, Refusal>
    ensures known { OnOk result (domain < 16) }
    ensures step { outcome_in domain domains.now result (tables_of tags.new valid.new dirty.new words.new)
        ≡ step_of g domain kind argument
        (record { tables = tables_of tags.old valid.old dirty.old words.old; domains = domains.now }) }
{
    geometry::sizes(g, tags.len(), valid.len(), dirty.len(), words.len())?;
    if 16 <= domain {
        return Err(Refusal::Domain);
    }
    let asked = command::kind_of(kind);
    let own = domains.records[domain];
    match asked {
        Asked::Line(usage) => {
            let done = work::line(g, tags, valid, dirty, words, own, usage, argument);
            Ok(account::settled(own, done))
        }
        Asked::Policy => {
            let policies = domains::policies_of(*domains);
            let done = work::policy(
                g, tags, valid, dirty, words, own, policies, domain, argument,
            );
            Ok(account::settled(own, done))
        }
        Asked::Unknown => Err(Refusal::Kind),
    }
}

// One step of kind and argument by a domain, on tables and domains of any content.
pub fn step(
    g: Geometry,
    tags: &mut [u64],
    valid: &mut [u16],
    dirty: &mut [u16],
    words: &mut [u64],
    domains: Domains,
    domain: usize,
    kind: u8,
    argument: u64,
) -> Stepped
    ensures { outcome result (tables_of tags.new valid.new dirty.new words.new)
        ≡ step_of g domain kind argument
        (record { tables = tables_of tags.old valid.old dirty.old words.old; domains = domains }) }
{
    match tried(
        g, tags, valid, dirty, words, &domains, domain, kind, argument,
    ) {
        Ok(used) => account::put_back(domains, domain, used),
        Err(refusal) => account::refused(refusal, domains),
    }
}
