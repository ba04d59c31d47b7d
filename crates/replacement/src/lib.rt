// The replacement rules, Tree-PLRU, NRU and true LRU, without any cache above them: a word and a map give a victim and the word before its touch;
// a word, a map and a touched way give a new word. The rule is a number of the call, as document 01 has it: nothing takes a rule as a type, so that
// no trait stands over the three crates.
#![tactic(auto)]

ghost use Rattle.std.specs.Prelude.{◌≡◌};
ghost use Rattle.replacement.specs.Refusal.{number_of};
ghost use Rattle.replacement.specs.Calls.{in_limits, victim_of, touch_of, fresh_of, own_of, shares_of};
ghost use Rattle.replacement.specs.Answer.{answer_of, outcome_of, choice_of};
ghost use Rattle.replacement.specs.Change.{change_of, change_by};
ghost use Rattle.replacement.specs.Inside.{known, admitted};

use lru_rule::Moves;
pub use nru::Choice;

// Why a call is refused: document 01's numbers.
#[derive(Clone, Copy, PartialEq, Eq)]
pub enum Refusal {
    // The number of ways or the rule is outside the limits.
    OutsideLimits,
    // A map or a touched way reaches the number of ways, or a victim is wanted of an empty map.
    OutOfReach,
    // A node is free for both maps.
    SharedNode,
}

impl Refusal {
    // The number by which it is told.
    pub fn number(self) -> usize
        ensures { result ≡ number_of self }
    {
        match self {
            Refusal::OutsideLimits => 1,
            Refusal::OutOfReach => 5,
            Refusal::SharedNode => 9,
        }
    }
}

// What a change of fill map does to a word.
#[derive(Clone, Copy)]
pub enum Change {
    // These nodes become zero.
    Clear(u64),
    // The bits of these ways become one.
    Raise(u64),
    // Of so many ways, some move to the old end.
    Age { ways: usize, moves: Moves },
    // The word stays as it is.
    Stay,
}

// The rule that a number names.
#[derive(Clone, Copy)]
enum Rule {
    Tree,
    Nru,
    Lru,
}

// Whether the number of ways and the rule are within the limits.
pub fn in_limits(ways: usize, rule: usize) -> bool
    ensures { result ≡ in_limits ways rule }
{
    waymap::is_ways(ways) && rule < 3
}

// The rule of a call, where it and the number of ways are within the limits.
fn known(ways: usize, rule: usize) -> Result<Rule, Refusal>
    ensures { result ≡ known ways rule }
{
    if !in_limits(ways, rule) {
        return Err(Refusal::OutsideLimits);
    }
    Ok(match rule {
        0 => Rule::Tree,
        1 => Rule::Nru,
        _ => Rule::Lru,
    })
}

// The rule of a call with a map, which has no way of the number of ways or higher.
fn admitted(ways: usize, rule: usize, map: u16) -> Result<Rule, Refusal>
    ensures { result ≡ admitted ways rule map }
{
    let rule = known(ways, rule)?;
    if !waymap::fits(map, ways) {
        return Err(Refusal::OutOfReach);
    }
    Ok(rule)
}

// The victim of a word and a fill map, with the word before its touch.
pub fn victim(ways: usize, rule: usize, word: u64, map: u16) -> Result<Choice, Refusal>
    ensures { choice_of word result ≡ victim_of ways rule word map }
{
    let rule = admitted(ways, rule, map)?;
    if map == 0 {
        return Err(Refusal::OutOfReach);
    }
    match rule {
        Rule::Tree => Ok(Choice {
            way: tree::victim(ways, word, map),
            word,
        }),
        Rule::Nru => Ok(nru::victim(word, map)),
        Rule::Lru => Ok(Choice {
            way: lru_rule::victim(ways, word, map),
            word,
        }),
    }
}

// The word after a touch of a way. A way outside the map, or an empty map, is not refused.
pub fn touch(ways: usize, rule: usize, word: u64, map: u16, way: usize) -> Result<u64, Refusal>
    ensures { outcome_of word result ≡ touch_of ways rule word map way }
{
    let rule = admitted(ways, rule, map)?;
    if ways <= way {
        return Err(Refusal::OutOfReach);
    }
    match rule {
        Rule::Tree => Ok(tree::touch(ways, word, map, way)),
        Rule::Nru => Ok(nru::touch(word, map, way)),
        Rule::Lru => Ok(lru_rule::touch(ways, word, map, way)),
    }
}

// What a change of fill map does to every word, worked out from the maps alone; nothing where the call is refused.
pub fn change_of(ways: usize, rule: usize, old: u16, new: u16) -> Change
    ensures { result ≡ change_of ways rule old new }
{
    let Ok(rule) = admitted(ways, rule, old | new) else {
        return Change::Stay;
    };
    match rule {
        Rule::Tree => Change::Clear(tree::change(ways, old, new)),
        Rule::Nru => Change::Raise(nru::change(old, new)),
        Rule::Lru if old == new => Change::Stay,
        Rule::Lru => Change::Age {
            ways,
            moves: lru_rule::change(old, new),
        },
    }
}

// The word after such a change.
pub fn changed(change: Change, word: u64) -> u64
    ensures { result ≡ change_by change word }
{
    match change {
        Change::Clear(nodes) => tree::reset(word, nodes),
        Change::Raise(ways) => nru::reset(word, ways),
        Change::Age { ways, moves } => lru_rule::reset(ways, word, moves),
        Change::Stay => word,
    }
}

// The word of a fresh cache.
pub fn fresh(ways: usize, rule: usize) -> Result<u64, Refusal>
    ensures { outcome_of 0 result ≡ fresh_of ways rule }
{
    match known(ways, rule)? {
        Rule::Tree => Ok(0),
        Rule::Nru => Ok(nru::fresh(ways)),
        Rule::Lru => Ok(lru_rule::fresh(ways)),
    }
}

// The own part of a word for a fill map: the bits that the map's choices go by, and zero elsewhere.
pub fn own(ways: usize, rule: usize, word: u64, map: u16) -> Result<u64, Refusal>
    ensures { outcome_of word result ≡ own_of ways rule word map }
{
    match admitted(ways, rule, map)? {
        Rule::Tree => Ok(tree::own(ways, word, map)),
        Rule::Nru => Ok(nru::own(word, map)),
        Rule::Lru => Ok(lru_rule::own(ways, word, map)),
    }
}

// Whether two domains may have these fill maps.
pub fn conflict(ways: usize, rule: usize, map: u16, other: u16) -> Result<(), Refusal>
    ensures { answer_of result ≡ shares_of ways rule map other }
{
    match admitted(ways, rule, map | other)? {
        Rule::Tree if tree::shares(ways, map, other) => Err(Refusal::SharedNode),
        Rule::Tree => Ok(()),
        Rule::Nru | Rule::Lru => Ok(()),
    }
}
