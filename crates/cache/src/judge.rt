// What number 7 has to know of a change of policy.
ghost use Rattle.std.specs.Prelude.{◌≡◌, ◌≤◌, length};
ghost use Rattle.geometry.specs.Geometry.{max_sets};
ghost use Rattle.domains.specs.Domains.{overflows};
ghost use Rattle.steps.specs.Deed.{drops_among};

use domains::{Counts, Policies};
use geometry::MAX_SETS;
use policy::Maps;

// The lines that the change would drop, as far as the verdict depends on them. They are counted only where the count of dropped lines is so near the
// largest that they could carry it past; elsewhere 0 does as well.
pub fn drops(
    ways: usize,
    valid: &[u16],
    old: Maps,
    counts: Counts,
    policies: Policies,
    domain: usize,
    argument: u64,
) -> usize
    requires { length valid.now ≤ max_sets }
    ensures { overflows argument result counts
        ≡ overflows argument (drops_among ways old policies domain argument valid.now) counts }
{
    let most = counts.dropped as usize + 16 * MAX_SETS;
    if most <= u32::MAX as usize {
        return 0;
    }
    let held = verdict::held_elsewhere(ways, policies, domain);
    let map = sweep::drop_ways(ways, old, policy::new_maps(argument), held);
    sweep::lines_among(valid, map)
}
