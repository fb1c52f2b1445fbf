// What an entry of the controller returns, a number for C, taken apart: an answer and its value. An Answer of its own, without a value, since
// the program stands on the entries alone and not on room chip.
use crate::words;

#[derive(Clone, Copy, PartialEq, Eq)]
pub(crate) enum Answer {
    Done,
    Held,
    OutOfPlace,
    BadNumber,
    Blind,
    CommandIgnored,
    ReselectionIgnored,
    NoDataNow,
    Reported,
}

impl Answer {
    // By its number, 0 to 8; no entry returns another.
    fn numbered(number: u32) -> Answer {
        match number {
            0 => Answer::Done,
            1 => Answer::Held,
            2 => Answer::OutOfPlace,
            3 => Answer::BadNumber,
            4 => Answer::Blind,
            5 => Answer::CommandIgnored,
            6 => Answer::ReselectionIgnored,
            7 => Answer::NoDataNow,
            _ => Answer::Reported,
        }
    }

    // By the first word of its name.
    fn named(word: &[u8]) -> Option<Answer> {
        (0..9)
            .map(Answer::numbered)
            .find(|answer| words::word(answer.name(), 0) == word)
    }

    pub(crate) fn name(self) -> &'static [u8] {
        match self {
            Answer::Done => b"Done",
            Answer::Held => b"Held",
            Answer::OutOfPlace => b"Out of place",
            Answer::BadNumber => b"Bad number",
            Answer::Blind => b"Blind",
            Answer::CommandIgnored => b"Command ignored",
            Answer::ReselectionIgnored => b"Reselection ignored",
            Answer::NoDataNow => b"No data now",
            Answer::Reported => b"Reported",
        }
    }
}

#[derive(Clone, Copy, PartialEq, Eq)]
pub(crate) struct Reply {
    pub(crate) answer: Answer,
    pub(crate) value: u32,
}

impl From<u32> for Reply {
    fn from(packed: u32) -> Reply {
        Reply {
            answer: Answer::numbered(packed % 256),
            value: packed / 256,
        }
    }
}

impl Reply {
    pub(crate) const BAD_NUMBER: Reply = Reply {
        answer: Answer::BadNumber,
        value: 0,
    };

    // The reply that a line expects after its '='; Done with 0 where it names no answer.
    pub(crate) fn expected(rest: &[u8]) -> Reply {
        let Some(answer) = Answer::named(words::word(rest, 0)) else {
            return Reply::from(0);
        };
        let value = match answer {
            Answer::Done | Answer::Blind => words::operand(rest, 1) % 16777216,
            Answer::NoDataNow => words::operand(rest, 3) % 16777216,
            _ => 0,
        };
        Reply { answer, value }
    }

    // The next of a series, with a value that is one more.
    pub(crate) fn risen(self) -> Reply {
        Reply {
            value: self.value.wrapping_add(1),
            ..self
        }
    }
}
