// The replacement rules, called within the limits.
ghost use Rattle.std.specs.Prelude.{◌≡◌, true, ◌<◌};
ghost use Rattle.waymap.specs.Bits.{bit, any};
ghost use Rattle.replacement.specs.Rule.{rule_of};
ghost use Rattle.row.specs.Inside.{Usable, ChoiceOf};

use replacement::Choice;

// The word after a touch: within the limits none is refused.
pub fn touched(ways: usize, rule: usize, word: u64, fill: u16, way: usize) -> u64
    requires usable { Usable ways rule fill }
    requires way_lt_ways { way < ways }
    ensures { result ≡ (rule_of rule ways).touch fill way word }
{
    replacement::touch(ways, rule, word, fill, way).unwrap()
}

// The victim of a map that is not empty: within the limits there is one.
pub fn chosen(ways: usize, rule: usize, word: u64, fill: u16) -> Choice
    requires usable { Usable ways rule fill }
    requires fill_value { any ways (bit fill) ≡ true }
    ensures { ChoiceOf ways rule fill word result }
{
    replacement::victim(ways, rule, word, fill).unwrap()
}
