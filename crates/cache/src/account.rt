// A domain's record after a step.
ghost use Rattle.std.specs.Prelude.{◌≡◌, false, ◌<◌};
ghost use Rattle.command.specs.declared.Answer.TheVariants.{Policy, Refused};
ghost use Rattle.command.specs.Refusal.{number_of};
ghost use Rattle.domains.specs.Domains.{is_full, overflows, put_domain, used_domain, new_domain};
ghost use Rattle.cache.specs.Inside.{used_in};

use crate::Stepped;
use command::{Answer, Refusal};
use domains::{Domain, Domains};
use sweep::Drops;

// What a step answers, and the record of the domain after it.
#[derive(Clone, Copy)]
pub struct Used {
    pub answer: Answer,
    pub own: Domain,
}

// A step turned down by the verdict: nothing of the domain moves.
pub fn turned_down(refusal: Refusal, own: Domain) -> Used
    ensures { result ≡ record { answer = Refused (number_of refusal); own = own } }
{
    Used {
        answer: Answer::Refused(refusal.number()),
        own,
    }
}

// A step of the domain with this record, turned down by the verdict or not.
pub fn settled(own: Domain, done: Result<Used, Refusal>) -> Used
    ensures { result ≡ used_in own done }
{
    match done {
        Ok(used) => used,
        Err(refusal) => turned_down(refusal, own),
    }
}

// After an access or a flush.
pub fn after_use(own: Domain, answer: Answer) -> Used
    requires { is_full own.counts ≡ false }
    ensures { result ≡ record { answer = answer; own = used_domain answer own } }
{
    Used {
        answer,
        own: domains::used(own, answer),
    }
}

// After a change of policy.
pub fn after_change(own: Domain, argument: u64, drops: Drops) -> Used
    requires { overflows argument drops.dropped own.counts ≡ false }
    ensures { result ≡ record { answer = Policy drops.dropped drops.dirty; own = new_domain argument drops.dropped own } }
{
    Used {
        answer: Answer::Policy {
            dropped: drops.dropped,
            dirty: drops.dirty,
        },
        own: domains::changed(own, argument, drops.dropped),
    }
}

// A step turned down before a domain is looked at: nothing moves.
pub fn refused(refusal: Refusal, domains: Domains) -> Stepped
    ensures { result ≡ record { answer = Refused (number_of refusal); domains = domains } }
{
    Stepped {
        answer: Answer::Refused(refusal.number()),
        domains,
    }
}

// The record of the domain that stepped, put back.
pub fn put_back(mut domains: Domains, d: usize, used: Used) -> Stepped
    requires { d < 16 }
    ensures { result ≡ record { answer = used.answer; domains = put_domain d used.own domains } }
{
    let own = used.own;
    domains.records[d] = own;
    Stepped {
        answer: used.answer,
        domains,
    }
}
