// What numbers 5 to 9 look at.
ghost use Rattle.std.specs.Prelude.{◌≡◌, true, false, cond, not, ◌&&◌, ◌<◌, eqb};
ghost use Rattle.waymap.specs.Bits.{word, reaches};
ghost use Rattle.command.specs.Refusal.{number_in};
ghost use Rattle.replacement.specs.Rule.{rule_of};
ghost use Rattle.replacement.specs.Calls.{in_limits};
ghost use Rattle.policy.specs.Policy.{as_read, bad_argument};
ghost use Rattle.verdict.specs.Refusal.{held_elsewhere, shares_way, shares_node, use_refusal, sharing_refusal, policy_refusal};
ghost use Rattle.domains.specs.Calls.{read_by};

use command::Refusal;
use domains::{Counts, Policies};
use geometry::Geometry;
use policy::Maps;

// A domain's policy as read.
fn read_by(ways: usize, policies: Policies, d: usize) -> Maps
    requires { d < 16 }
    ensures { result ≡ read_by ways policies d }
{
    policy::as_read(ways, policies.maps[d])
}

// Of an access or a flush, given the domain's own maps and counts: numbers 6 and 7.
pub fn line_refusal(ways: usize, stored: Maps, counts: Counts) -> Result<(), Refusal>
    ensures { number_in result ≡ use_refusal (as_read ways stored) counts }
{
    let read = policy::as_read(ways, stored);
    if read.hit == 0 {
        return Err(Refusal::NoWays);
    }
    if domains::is_full(counts) {
        return Err(Refusal::FullCount);
    }
    Ok(())
}

// The ways of domain `e`'s hit map, none for domain `d` itself.
fn ways_of(ways: usize, policies: Policies, d: usize, e: usize) -> u16
    requires { e < 16 }
    ensures { result ≡ cond (eqb d e) 0 (read_by ways policies e).hit }
{
    if d == e {
        0
    } else {
        read_by(ways, policies, e).hit
    }
}

// The ways that other domains hold.
pub fn held_elsewhere(ways: usize, policies: Policies, d: usize) -> u16
    ensures { result ≡ word 16 (held_elsewhere (read_by ways policies) d) }
{
    let mut held = 0;
    for e in 0..16 {
        held |= ways_of(ways, policies, d, e);
    }
    held
}

// Number 8.
fn shares_way(ways: usize, policies: Policies, d: usize, new: Maps) -> bool
    requires { new.hit < 65536 }
    ensures { result ≡ shares_way (read_by ways policies) d new }
{
    new.hit & held_elsewhere(ways, policies, d) != 0
}

// Whether another domain `e` has a node of the fill map: within the limits two maps are refused for nothing else.
fn has_node(g: Geometry, policies: Policies, d: usize, fill: u16, e: usize) -> bool
    requires rule_value { in_limits g.ways g.rule ≡ true }
    requires fill_value { reaches g.ways fill ≡ false }
    requires e_bound { e < 16 }
    ensures { result ≡ (not (eqb d e) && (rule_of g.rule g.ways).shares fill (read_by g.ways policies e).fill) }
{
    if d == e {
        return false;
    }
    let other = read_by(g.ways, policies, e);
    replacement::conflict(g.ways, g.rule, fill, other.fill).is_err()
}

// Number 9.
fn shares_node(g: Geometry, policies: Policies, d: usize, new: Maps) -> bool
    requires rule_value { in_limits g.ways g.rule ≡ true }
    requires fill_value { reaches g.ways new.fill ≡ false }
    ensures { result ≡ shares_node (rule_of g.rule g.ways) (read_by g.ways policies) d new }
{
    for e in 0..16 {
        if has_node(g, policies, d, new.fill, e) {
            return true;
        }
    }
    false
}

// Numbers 8 and 9, within the limits.
fn sharing_refusal(g: Geometry, policies: Policies, d: usize, argument: u64) -> Result<(), Refusal>
    requires rule_value { in_limits g.ways g.rule ≡ true }
    requires argument_value { bad_argument g.ways argument ≡ false }
    ensures { number_in result ≡ sharing_refusal g (read_by g.ways policies) d argument }
{
    let new = policy::new_maps(argument);
    if shares_way(g.ways, policies, d, new) {
        return Err(Refusal::SharedWay);
    }
    if shares_node(g, policies, d, new) {
        return Err(Refusal::SharedNode);
    }
    Ok(())
}

// Numbers 5, 7, 8 and 9, within the limits.
pub fn change_refusal(
    g: Geometry,
    policies: Policies,
    counts: Counts,
    drops: usize,
    d: usize,
    argument: u64,
) -> Result<(), Refusal>
    requires { in_limits g.ways g.rule ≡ true }
    ensures { number_in result ≡ policy_refusal g (read_by g.ways policies) counts drops d argument }
{
    if policy::bad_argument(g.ways, argument) {
        return Err(Refusal::Argument);
    }
    if domains::overflows(argument, drops, counts) {
        return Err(Refusal::FullCount);
    }
    sharing_refusal(g, policies, d, argument)
}
