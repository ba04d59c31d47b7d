// A step to take, its code, what its kind asks for, and what it answers.
#![tactic(auto)]

ghost use Rattle.std.specs.Prelude.{◌≡◌};
ghost use Rattle.command.specs.Command.{command_of, code_of, command_is};
ghost use Rattle.command.specs.Kind.{kind_of, kind_is};
ghost use Rattle.command.specs.Refusal.{number_of};

// The domain that a step names, its kind and its argument.
#[derive(Clone, Copy)]
pub struct Command {
    pub domain: u8,
    pub kind: u8,
    pub argument: u64,
}

// The code of a step: its domain plus 256 times its kind.
pub fn code_of(command: Command) -> u16
    ensures { result ≡ code_of (command_is command) }
{
    (command.domain as u16) + 256 * (command.kind as u16)
}

// The step of a code and an argument.
pub fn command_of(code: u16, argument: u64) -> Command
    ensures { command_is result ≡ command_of code argument }
{
    Command {
        domain: (code % 256) as u8,
        kind: (code / 256) as u8,
        argument,
    }
}

// What a step does with the line of its address. A fetch is a load.
#[derive(Clone, Copy)]
pub enum LineUse {
    Load,
    Store,
    Flush,
}

// What a kind number asks for. No Option: laws of steps and verdict go by the three cases, and theorem `kind_injective` tells them apart.
#[derive(Clone, Copy)]
pub enum Asked {
    Line(LineUse),
    Policy,
    Unknown,
}

pub fn kind_of(kind: u8) -> Asked
    ensures { kind_is result ≡ kind_of kind }
{
    match kind {
        0..=1 => Asked::Line(LineUse::Load),
        2 => Asked::Line(LineUse::Store),
        3 => Asked::Line(LineUse::Flush),
        16 => Asked::Policy,
        4..=15 | 17..=255 => Asked::Unknown,
    }
}

// Why a call is turned down: document 01's numbers, from 1 on.
#[derive(Clone, Copy, PartialEq, Eq)]
pub enum Refusal {
    // The sets, the ways or the rule are outside the limits.
    Limits,
    // A table has not the length of the geometry.
    Lengths,
    // No domain has the number, or a selector names none.
    Domain,
    // The kind is unknown.
    Kind,
    // The argument of a change of policy or of a write of selectors.
    Argument,
    // The domain has no ways.
    NoWays,
    // A count is full, or would be carried past the largest number.
    FullCount,
    // Another domain holds a way of the hit map.
    SharedWay,
    // A node is free for another domain's fill map too.
    SharedNode,
    // The file is no trace file.
    File,
    // The core is not in the list, or the list is too long.
    Core,
    // The block or the answer has not its length, or the block's zero bytes are not zero.
    Block,
}

impl Refusal {
    // The number by which it is told.
    pub fn number(self) -> usize
        ensures { result ≡ number_of self }
    {
        match self {
            Refusal::Limits => 1,
            Refusal::Lengths => 2,
            Refusal::Domain => 3,
            Refusal::Kind => 4,
            Refusal::Argument => 5,
            Refusal::NoWays => 6,
            Refusal::FullCount => 7,
            Refusal::SharedWay => 8,
            Refusal::SharedNode => 9,
            Refusal::File => 10,
            Refusal::Core => 11,
            Refusal::Block => 12,
        }
    }
}

// What a step answers.
#[derive(Clone, Copy)]
pub enum Answer {
    Hit(usize),
    Fill(usize),
    Evict { way: usize, tag: u64, dirty: bool },
    Pass,
    Flush { way: usize, dirty: bool },
    Absent,
    // The valid lines that a change of policy dropped, and how many of them were dirty.
    Policy { dropped: usize, dirty: usize },
    // The number of the refusal, and no `Refusal`: laws of steps, cores and block speak of `Refused n` for every number n.
    Refused(usize),
}
