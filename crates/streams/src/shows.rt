// The call by which the programs show a file: what shows it is a value of `Show`.
ghost use Rattle.std.specs.Prelude.{◌≡◌, IsErrOf, OnOk, ◌⊎◌};
ghost use Rattle.std.specs.Io.KnownBytes.{IsAtEnd};
ghost use Rattle.streams.specs.ShownBy.{ShownBy};

use crate::{Failure, ROOM, Show, read_file};
use std::io::{Read, Write};

// Has a trace file on the input shown on the output. An input that was not read to its end is not shown. Nothing is asked of the caller. `show_input` has
// the same lines, and does not call this one: a closure that its call uses up cannot be lent to `show`.
pub fn show_input_by<R: Read, W: Write, S: Show<W>>(
    input: &mut R,
    output: &mut W,
    shown: &S,
) -> Result<(), Failure>
    ensures end { (IsErrOf result Failure.Input) ⊎ (IsAtEnd (R.remaining input.new)) }
    ensures unread { IsErrOf result Failure.Input → output.new ≡ output.old }
    ensures shown { OnOk result (ShownBy (S.shows shown.now) output.old output.new (R.remaining input.old) (Ok tt)) }
    ensures stopped { IsErrOf result Failure.Output → (e : _) × ShownBy (S.shows shown.now) output.old output.new (R.remaining input.old) (Err e) }
{
    let mut file = [0; ROOM];
    let Ok(count) = read_file(input, &mut file) else {
        return Err(Failure::Input);
    };
    match shown.show(output, &file[..count]) {
        Ok(()) => Ok(()),
        Err(_) => Err(Failure::Output),
    }
}
