// Why a step is turned down.
#![tactic(auto)]

mod reasons;

ghost use Rattle.std.specs.Prelude.{◌≡◌};
ghost use Rattle.command.specs.Refusal.{number_in};
ghost use Rattle.verdict.specs.Calls.{policy_refusal_of};

use command::Refusal;
use domains::{Counts, Policies};
use geometry::Geometry;
pub use reasons::{held_elsewhere, line_refusal};

// Of a change of policy, given all policies, the domain's own counts and how many lines it would drop: numbers 5, 7, 8 and 9. A number of ways
// or a rule outside the limits is 1.
pub fn policy_refusal(
    g: Geometry,
    policies: Policies,
    counts: Counts,
    drops: usize,
    domain: usize,
    argument: u64,
) -> Result<(), Refusal>
    ensures { number_in result ≡ policy_refusal_of g policies counts drops domain argument }
{
    if !replacement::in_limits(g.ways, g.rule) {
        return Err(Refusal::Limits);
    }
    reasons::change_refusal(g, policies, counts, drops, domain, argument)
}
