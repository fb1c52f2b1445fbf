// Replies: an answer with the new state (chip's specs/Answers.antt).
#![tactic(auto)]

ghost use Rattle.std.specs.Prelude.{◌≡◌};
ghost use Rattle.chip.specs.Entries.{result_of};
ghost use Rattle.chip.specs.Answers.{number, value, says, ignored};

use chip::{Answer, Reply, State};

// `as u8` takes only an enum whose cases carry nothing, and Done carries a byte.
pub fn number(a: Answer) -> u8
    ensures { result ≡ number a }
{
    match a {
        Answer::Done(_) => 0,
        Answer::Held => 1,
        Answer::OutOfPlace => 2,
        Answer::BadNumber => 3,
        Answer::Blind => 4,
        Answer::CommandIgnored => 5,
        Answer::ReselectionIgnored => 6,
        Answer::NoDataNow => 7,
        Answer::Reported => 8,
    }
}

pub fn value(a: Answer) -> u8
    ensures { result ≡ value a }
{
    match a {
        Answer::Done(v) => v,
        Answer::Blind | Answer::NoDataNow => 0xff,
        _ => 0,
    }
}

// The answer's number in bits 0 to 7, its value from bit 8 up.
pub fn result(a: Answer) -> u32
    ensures { result ≡ result_of a }
{
    (number(a) as u32) + 256 * (value(a) as u32)
}

// The reply of each answer, with the state that it leaves.
pub fn says(answer: Answer, state: State) -> Reply
    ensures { result ≡ says answer state }
{
    Reply { answer, state }
}

// Command ignored, with LCI set.
pub fn ignored(mut s: State) -> Reply
    ensures { result ≡ ignored s }
{
    s.status.lci = true;
    says(Answer::CommandIgnored, s)
}
