// A step of one domain, given its own record: the verdict on it, and its work on the tables.
ghost use Rattle.std.specs.Prelude.{◌≡◌};
ghost use Rattle.steps.specs.Step.{tables_of};
ghost use Rattle.steps.specs.Inside.{Shaped};
ghost use Rattle.steps.specs.Deed.{line_deed, policy_deed};
ghost use Rattle.cache.specs.Inside.{deed_in};

use crate::account::Used;
use crate::{account, judge, sets};
use command::{LineUse, Refusal};
use domains::{Domain, Policies};
use geometry::Geometry;

// An access or a flush.
pub fn line(
    g: Geometry,
    tags: &mut [u64],
    valid: &mut [u16],
    dirty: &mut [u16],
    words: &mut [u64],
    own: Domain,
    usage: LineUse,
    address: u64,
) -> Result<Used, Refusal>
    requires { Shaped g (tables_of tags.old valid.old dirty.old words.old) }
    ensures { deed_in own result (tables_of tags.new valid.new dirty.new words.new)
        ≡ line_deed g own usage address (tables_of tags.old valid.old dirty.old words.old) }
{
    let stored = own.maps();
    verdict::line_refusal(g.ways, stored, own.counts)?;
    let answer = sets::use_set(g, tags, valid, dirty, words, stored, usage, address);
    Ok(account::after_use(own, answer))
}

// A change of policy, given all policies.
pub fn policy(
    g: Geometry,
    tags: &mut [u64],
    valid: &mut [u16],
    dirty: &mut [u16],
    words: &mut [u64],
    own: Domain,
    policies: Policies,
    domain: usize,
    argument: u64,
) -> Result<Used, Refusal>
    requires { Shaped g (tables_of tags.old valid.old dirty.old words.old) }
    ensures { deed_in own result (tables_of tags.new valid.new dirty.new words.new)
        ≡ policy_deed g own policies domain argument
        (tables_of tags.old valid.old dirty.old words.old) }
{
    let old = own.maps();
    let drops = judge::drops(g.ways, valid, old, own.counts, policies, domain, argument);
    verdict::policy_refusal(g, policies, own.counts, drops, domain, argument)?;
    let sweep = sweep::sweep_of(g.ways, g.rule, old, policy::new_maps(argument));
    let drops = sets::sweep_sets(g, tags, valid, dirty, words, sweep);
    Ok(account::after_change(own, argument, drops))
}
