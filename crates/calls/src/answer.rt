// The machine's answers as numbers: a refusal is minus the number of the question.
ghost use Rattle.std.specs.Prelude.{◌≡◌};
ghost use Rattle.calls.specs.Calls.{answer_number, tick_number, report_number};

use bench::{Answer, Report};
use encoding::number::{refusal, word};
use question::Question;

pub fn answer_number(answer: Result<Answer, Question>) -> i64
    ensures { result ≡ answer_number answer }
{
    match answer {
        Ok(Answer::Done) => 0,
        Ok(Answer::Width(bits)) => word(bits),
        Err(no) => refusal(no.number()),
    }
}

pub fn tick_number(tick: Result<u8, Question>) -> i64
    ensures { result ≡ tick_number tick }
{
    match tick {
        Ok(byte) => i64::from(byte),
        Err(no) => refusal(no.number()),
    }
}

pub fn report_number(report: Result<Report, Question>) -> i64
    ensures { result ≡ report_number report }
{
    match report {
        Ok(Report::Idle) => 0,
        Ok(Report::Held) => 1,
        Ok(Report::Ended) => 2,
        Ok(Report::Spent) => 3,
        Ok(Report::Full) => 4,
        Err(no) => refusal(no.number()),
    }
}
