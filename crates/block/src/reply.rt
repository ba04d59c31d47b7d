// The answer as bytes.
ghost use Rattle.std.specs.Prelude.{◌≡◌};
ghost use Rattle.command.specs.Answer.{answer_of};
ghost use Rattle.block.specs.Block.{number_in, padded};
ghost use Rattle.block.specs.Inside.{replied_of, replied, told_of};

use command::{Answer, Refusal};

// What a step answers, whether it was done or turned down.
pub fn told(done: Result<Answer, Refusal>) -> Answer
    ensures { result ≡ told_of done }
{
    match done {
        Ok(answer) => answer,
        Err(refusal) => Answer::Refused(refusal.number()),
    }
}

// An answer's word and three fields.
fn fields_of(answer: Answer) -> [u64; 4]
    ensures { result ≡ padded (answer_of answer) }
{
    match answer {
        Answer::Hit(way) => [0, way as u64, 0, 0],
        Answer::Fill(way) => [1, way as u64, 0, 0],
        Answer::Evict { way, tag, dirty } => [2, way as u64, tag, u64::from(dirty)],
        Answer::Pass => [3, 0, 0, 0],
        Answer::Flush { way, dirty } => [4, way as u64, u64::from(dirty), 0],
        Answer::Absent => [5, 0, 0, 0],
        Answer::Policy { dropped, dirty } => [6, dropped as u64, dirty as u64, 0],
        Answer::Refused(number) => [7, number as u64, 0, 0],
    }
}

// The number of a refusal, or 0.
fn number(told: Answer) -> u64
    ensures { result ≡ number_in (answer_of told) }
{
    match told {
        Answer::Refused(number) => number as u64,
        _ => 0,
    }
}

pub fn put(answer: &mut [u8], told: Answer) -> u64
    ensures { replied_of result answer.new ≡ replied (answer_of told) answer.old }
{
    if answer.len() == 32 {
        runs::put(answer, 0, &fields_of(told));
    }
    number(told)
}
