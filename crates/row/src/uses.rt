// What a use of a line is: a flush or an access, and an access stores or not.
ghost use Rattle.std.specs.Prelude.{◌≡◌};
ghost use Rattle.row.specs.Calls.{flushes as flushes_line, stores as stores_line};

use command::LineUse;

// Whether a line is flushed.
pub fn flushes(usage: LineUse) -> bool
    ensures { result ≡ flushes_line usage }
{
    matches!(usage, LineUse::Flush)
}

// Whether it is stored to.
pub fn stores(usage: LineUse) -> bool
    ensures { result ≡ stores_line usage }
{
    matches!(usage, LineUse::Store)
}
