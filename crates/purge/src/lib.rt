// The struck-out list of a trace. A step is a code, its domain or core plus 256 times its kind, and an argument.
#![tactic(auto)]

ghost use Rattle.std.specs.Prelude.{◌≡◌, ◌%◌, ◌<◌, ltb, length, Ok};
ghost use Rattle.command.specs.Command.{command_of};
ghost use Rattle.selectors.specs.Selectors.{max_cores, meant_by};
ghost use Rattle.selectors.specs.Calls.{meaning_is};
ghost use Rattle.purge.specs.Purge.{keeps_by};
ghost use Rattle.purge.specs.Calls.{taken_of, purge_of};
ghost use Rattle.purge.specs.Inside.{take_one};

use command::Refusal;
use selectors::{Core, MAX_CORES, Meaning};

// What a step means where 32 records are lent, given that at its core's place.
fn meaning_of(core: Core, code: u16, argument: u64) -> Result<Meaning, Refusal>
    ensures { meaning_is result ≡ meant_by (ltb (code % 256) max_cores) core (command_of code argument) }
{
    let step = command::command_of(code, argument);
    let named = step.domain as usize;
    selectors::meant(named < MAX_CORES, core, named, step.kind, step.argument)
}

// The place of a step's core among 32 records. A step of a core that is not in the list reads another's record there, to no effect, and leaves it.
fn place_of(code: u16) -> usize
    ensures value { result ≡ code % 256 % max_cores }
    ensures upper_bound { result < max_cores }
{
    ((code % 256) as usize) % MAX_CORES
}

// Whether a step stays, by what it means.
fn stays(chosen: usize, meaning: Result<Meaning, Refusal>) -> bool
    ensures { result ≡ keeps_by chosen (meaning_is meaning) }
{
    match meaning {
        Ok(Meaning::Plain { domain, kind, .. }) => domain == chosen || 4 <= kind,
        Ok(Meaning::Select(_)) => true,
        Err(_) => true,
    }
}

// A step taken into place `count`, if it stays; the number of steps taken then.
fn take_one(
    domain: usize,
    meaning: Result<Meaning, Refusal>,
    code: u16,
    argument: u64,
    count: usize,
    codes: &mut [u16],
    arguments: &mut [u64],
) -> usize
    requires count_in_bounds { count < length codes.old }
    requires count_in_bounds_2 { count < length arguments.old }
    ensures { taken_of (Ok result) codes.new arguments.new
        ≡ take_one (keeps_by domain (meaning_is meaning)) code argument count codes.old arguments.old }
{
    if stays(domain, meaning) {
        codes[count] = code;
        arguments[count] = argument;
        return count + 1;
    }
    count
}

// Takes the steps that stay, first to last, and answers how many they are.
fn take_all(
    domain: usize,
    codes: &[u16],
    arguments: &[u64],
    kept_codes: &mut [u16],
    kept_arguments: &mut [u64],
) -> usize
    requires arguments_len { length arguments.now ≡ length codes.now }
    requires kept_codes_len { length kept_codes.old ≡ length codes.now }
    requires kept_arguments_len { length kept_arguments.old ≡ length codes.now }
    ensures { taken_of (Ok result) kept_codes.new kept_arguments.new
        ≡ purge_of domain codes.now arguments.now kept_codes.old kept_arguments.old }
{
    let mut cores = [Core::default(); MAX_CORES];
    let mut count = 0;
    for (&code, &argument) in codes.iter().zip(arguments) {
        let place = place_of(code);
        let core = cores[place];
        let meaning = meaning_of(core, code, argument);
        count = take_one(
            domain,
            meaning,
            code,
            argument,
            count,
            kept_codes,
            kept_arguments,
        );
        cores[place] = selectors::record_after(core, meaning);
    }
    count
}

// The struck-out list of a domain, where 32 fresh core records are lent: the steps that stay, first to last, at the front of the two lent tables, and how
// many they are.
pub fn purge_trace(
    domain: usize,
    codes: &[u16],
    arguments: &[u64],
    kept_codes: &mut [u16],
    kept_arguments: &mut [u64],
) -> Result<usize, Refusal>
    ensures { taken_of result kept_codes.new kept_arguments.new
        ≡ purge_of domain codes.now arguments.now kept_codes.old kept_arguments.old }
{
    let steps = codes.len();
    if arguments.len() != steps || kept_codes.len() != steps || kept_arguments.len() != steps {
        return Err(Refusal::Lengths);
    }
    Ok(take_all(domain, codes, arguments, kept_codes, kept_arguments))
}
