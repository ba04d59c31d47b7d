// What a trace file says, for bytes of any content and number.
#![tactic(auto)]

ghost use Rattle.std.specs.Prelude.{◌≡◌};
ghost use Rattle.command.specs.Command.{command_is};
ghost use Rattle.command.specs.Refusal.{number_in};
ghost use Rattle.tracefile.specs.File.{step_count, command_at, file_refusal};

use command::{Command, Refusal};

// The most steps of a file, and the most sets that it may name.
pub const MAX_STEPS: usize = 4096;

pub const MAX_SETS: usize = 256;

// The number of steps that a file names.
pub fn steps(file: &[u8]) -> u32
    ensures { result ≡ step_count file.now }
{
    endian::at::<u32>(file, 4)
}

// Step i of a file of n steps.
pub fn command_at(file: &[u8], n: u32, i: u32) -> Command
    ensures { command_is result ≡ command_at file.now n i }
{
    let before = 2 * (n as usize);
    let place = i as usize;
    let code = endian::at::<u16>(file, 8 + 2 * place);
    let argument = endian::at::<u64>(file, 8 + before + 8 * place);
    command::command_of(code, argument)
}

// Whether a file is one of a geometry within the limits: `File` comes before all others, then the geometry's `Limits`.
pub fn refusal(file: &[u8]) -> Result<(), Refusal>
    ensures { number_in result ≡ file_refusal file.now }
{
    if file.len() < 8 {
        return Err(Refusal::File);
    }
    let n = steps(file) as usize;
    if file.len() != 8 + 10 * n || MAX_STEPS < n {
        return Err(Refusal::File);
    }
    let g = geometry::named(file);
    if MAX_SETS < g.sets {
        return Err(Refusal::File);
    }
    if !geometry::within(g) {
        return Err(Refusal::Limits);
    }
    Ok(())
}
