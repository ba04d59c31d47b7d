// A cache in one lent block of bytes, for testbenches in C. The crate `block_c` exports these calls under the same names.
#![tactic(auto)]

mod head;
mod layout;
mod make;
mod records;
mod reply;
mod sets;
mod work;

ghost use Rattle.std.specs.Prelude.{◌≡◌, length};
ghost use Rattle.geometry.specs.Named.{geometry_of};
ghost use Rattle.block.specs.Layout.{state_of};
ghost use Rattle.block.specs.Block.{made_of, fresh_call, state_after, stepped_of, step_call};

use geometry::Geometry;

// Makes a fresh block of given sets, ways and rule. The answer is 0, or the number of the refusal, and then the block is as it was.
pub fn dipperlock_fresh(block: &mut [u8], sets: u64, ways: u64, rule: u64) -> u64
    ensures { made_of result block.new ≡ fresh_call (record { sets = sets; ways = ways; rule = rule }) block.old }
{
    let g = Geometry {
        sets: sets as usize,
        ways: ways as usize,
        rule: rule as usize,
    };
    match head::sized(g, block.len()) {
        Ok(()) => {
            make::fresh(block, g);
            0
        }
        Err(refusal) => refusal.number() as u64,
    }
}

// One step of kind and argument by a domain. The answer is 0, or the number of the refusal, and then the block is as it was. A lent answer of 32
// bytes is filled in any case, one of another length is not written. Read as tables and domains, the block is what the step on tables leaves.
pub fn dipperlock_step(
    block: &mut [u8],
    domain: u64,
    kind: u64,
    argument: u64,
    answer: &mut [u8],
) -> u64
    ensures answer_after { stepped_of result block.new answer.new ≡ step_call block.old answer.old domain kind argument }
    ensures block_after { state_of (geometry_of block.new) block.new
        ≡ state_after block.old (length answer.old) domain kind argument }
{
    let done = work::step(block, answer.len(), domain as usize, kind, argument);
    reply::put(answer, reply::told(done))
}
