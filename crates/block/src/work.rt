// A step: the verdict on it, and its work on the block.
ghost use Rattle.std.specs.Prelude.{◌≡◌, ◌<◌};
ghost use Rattle.command.specs.Answer.{answer_of};
ghost use Rattle.command.specs.Kind.{kind_of, kind_is};
ghost use Rattle.domains.specs.Domains.{domain_of};
ghost use Rattle.domains.specs.Calls.{policies_of};
ghost use Rattle.geometry.specs.Named.{geometry_of};
ghost use Rattle.steps.specs.Deed.{line_deed, drops_among, policy_deed};
ghost use Rattle.block.specs.Layout.{state_of};
ghost use Rattle.block.specs.Block.{turn_of, step_turn, state_after};
ghost use Rattle.block.specs.Inside.{Blocked, contents, did_of, deed_did, told_of};

use crate::{head, records, sets};
use command::{Answer, Asked, LineUse, Refusal};
use domains::Policies;
use geometry::Geometry;
use policy::Maps;

// An access or a flush.
fn line(
    block: &mut [u8],
    g: Geometry,
    d: usize,
    usage: LineUse,
    address: u64,
) -> Result<Answer, Refusal>
    requires blocked { Blocked g block.old }
    requires d_bound { d < 16 }
    ensures { did_of (told_of result) (contents g block.new)
        ≡ deed_did d
        (line_deed g (domain_of (contents g block.old).state.domains d) usage address (contents g block.old).state.tables)
        (contents g block.old) }
{
    let own = records::own(block, g, d);
    let stored = own.maps();
    verdict::line_refusal(g.ways, stored, own.counts)?;
    let answer = sets::use_set(block, g, stored, usage, address);
    records::put_own(block, g, d, domains::used(own, answer));
    Ok(answer)
}

// The lines that a change of policy would drop, as number 7 looks at them.
fn drops(block: &[u8], g: Geometry, old: Maps, policies: Policies, d: usize, argument: u64) -> usize
    requires { Blocked g block.now }
    ensures { result ≡ drops_among g.ways old policies d argument (contents g block.now).state.tables.valid }
{
    let held = verdict::held_elsewhere(g.ways, policies, d);
    let map = sweep::drop_ways(g.ways, old, policy::new_maps(argument), held);
    sets::lines_among(block, g, map)
}

// A change of policy.
fn policy(block: &mut [u8], g: Geometry, d: usize, argument: u64) -> Result<Answer, Refusal>
    requires blocked { Blocked g block.old }
    requires d_bound { d < 16 }
    ensures { did_of (told_of result) (contents g block.new)
        ≡ deed_did d
        (policy_deed g (domain_of (contents g block.old).state.domains d) (policies_of (contents g block.old).state.domains) d
        argument (contents g block.old).state.tables)
        (contents g block.old) }
{
    let own = records::own(block, g, d);
    let old = own.maps();
    let policies = records::policies(block, g);
    let dropped = drops(block, g, old, policies, d, argument);
    verdict::policy_refusal(g, policies, own.counts, dropped, d, argument)?;
    let sweep = sweep::sweep_of(g.ways, g.rule, old, policy::new_maps(argument));
    let swept = sets::sweep_sets(block, g, sweep);
    records::put_own(block, g, d, domains::changed(own, argument, swept.dropped));
    Ok(Answer::Policy {
        dropped: swept.dropped,
        dirty: swept.dirty,
    })
}

// What a kind asks for; a number that no byte holds is unknown.
fn kind_of(kind: u64) -> Asked
    ensures { kind_is result ≡ kind_of kind }
{
    // A test and a cast: with `u8::try_from` a step took between three and four instructions more.
    if 255 < kind {
        return Asked::Unknown;
    }
    command::kind_of(kind as u8)
}

// A step, given how long the lent answer is.
pub fn step(
    block: &mut [u8],
    answer: usize,
    d: usize,
    kind: u64,
    argument: u64,
) -> Result<Answer, Refusal>
    ensures block_after { turn_of (answer_of (told_of result)) block.new ≡ step_turn block.old answer d kind argument }
    ensures block_after_2 { state_of (geometry_of block.new) block.new ≡ state_after block.old answer d kind argument }
{
    let g = geometry::named(block);
    head::fits(block, g, answer)?;
    if 16 <= d {
        return Err(Refusal::Domain);
    }
    match kind_of(kind) {
        Asked::Line(usage) => line(block, g, d, usage, argument),
        Asked::Policy => policy(block, g, d, argument),
        Asked::Unknown => Err(Refusal::Kind),
    }
}
