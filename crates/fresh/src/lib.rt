// A fresh cache.
#![tactic(auto)]

ghost use Rattle.std.specs.Prelude.{◌≡◌};
ghost use Rattle.command.specs.Refusal.{number_in};
ghost use Rattle.steps.specs.Step.{tables_of};
ghost use Rattle.steps.specs.Fresh.{fresh_domains};
ghost use Rattle.fresh.specs.Calls.{made_of, fresh_of};

use command::Refusal;
use domains::{Domain, Domains};
use geometry::Geometry;

// The tables become those of a fresh cache, unless geometry or lengths are turned down, by number 1 or 2 as for a step: then nothing changes.
pub fn fresh_tables(
    g: Geometry,
    tags: &mut [u64],
    valid: &mut [u16],
    dirty: &mut [u16],
    words: &mut [u64],
) -> Result<(), Refusal>
    ensures { made_of (number_in result) (tables_of tags.new valid.new dirty.new words.new)
        ≡ fresh_of g (tables_of tags.old valid.old dirty.old words.old) }
{
    geometry::sizes(g, tags.len(), valid.len(), dirty.len(), words.len())?;
    let word = replacement::fresh(g.ways, g.rule).unwrap();
    tags.fill(0);
    valid.fill(0);
    dirty.fill(0);
    words.fill(word);
    Ok(())
}

// Sixteen domains without ways or counts.
pub fn fresh_domains() -> Domains
    ensures { result ≡ fresh_domains }
{
    Domains {
        records: [Domain::default(); 16],
    }
}
