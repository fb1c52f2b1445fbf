// The script line by line. A line is one of
//
//     session N TITLE          a fresh controller
//     # TEXT                   what the next lines show, mostly a sentence of a paper
//     CALL = ANSWER VALUE      one call (calls.rt), and what the papers say that it answers; without '=', Done with 0
//     Request P B xN = ..      N Requests; byte and value rise by one from each to the next
// Words that a call does not look at, as the name of a register, are for the reader.
//
// A read of 17h is told on the line of the call before it.
use crate::calls::{Device, Request, Verb};
use crate::codes::FirstReads;
use crate::names::say;
use crate::reply::{Answer, Reply};
use crate::{calls, codes, names, words};
use std::num::NonZeroU8;

// The controller under test, and what its calls have shown so far. A session of number 0 is none.
#[derive(Drop)]
struct Bench {
    device: Device,
    session: Option<NonZeroU8>,
    reads: FirstReads,
    calls: u64,
    wrong: u64,
}

impl Bench {
    fn new() -> Bench {
        Bench {
            device: Device::zeroed(),
            session: None,
            reads: FirstReads::none(),
            calls: 0,
            wrong: 0,
        }
    }

    fn step(&mut self, line: &[u8]) {
        match line {
            [] => {}
            [b'#', ..] => {
                say(b"\n  ");
                say(line);
            }
            _ if matches!(words::word(line, 0), b"session") => self.begin(line),
            _ => {
                let (call, rest) = words::split_once(line, b'=').unwrap_or((line, b""));
                self.call(words::trim_end(call), rest);
            }
        }
    }

    fn begin(&mut self, line: &[u8]) {
        say(b"\n\n");
        say(line);
        self.device.reset();
        self.session = NonZeroU8::new((words::operand(line, 1) % 256) as u8);
    }

    fn call(&mut self, line: &[u8], rest: &[u8]) {
        let verb = Verb::of(line);
        let before = self.device.auxiliary().value;
        say_call(verb, line);
        let times = calls::times(line);
        if verb == Some(Verb::Request) && times > 1 {
            self.call_series(line, times, rest);
            return;
        }
        let reply = self.device.call(verb, line);
        say_reply(verb, reply, before, self.device.block());
        // A code counts as read where its interrupt was pending.
        if verb == Some(Verb::Code) && before & 0x80 != 0 {
            self.reads.note(reply.value, self.session);
        }
        self.compare(reply == Reply::expected(rest), rest);
    }

    // The number of each goes into its call, so this goes over numbers and over no slice.
    // A series of Requests: the first and the last reply, where each value was one above that before it.
    fn call_series(&mut self, line: &[u8], n: u32, rest: &[u8]) {
        let request = Request::of(line);
        let start = self.device.request(request, 0);
        let mut last = start;
        let mut rises = true;
        for i in 1..n {
            let reply = self.device.request(request, i);
            rises &= reply == last.risen();
            last = reply;
        }
        say(start.answer.name());
        say(b" ");
        names::say_byte(start.value);
        say(b" to ");
        names::say_byte(last.value);
        self.compare(rises && start == Reply::expected(rest), rest);
    }

    fn compare(&mut self, is_right: bool, rest: &[u8]) {
        self.calls = self.calls.wrapping_add(1);
        if !is_right {
            self.wrong = self.wrong.wrapping_add(1);
            say(b"   EXPECTED");
            say(rest);
        }
    }

    fn finish(&self) {
        say(b"\n\nEvery status code, and the session in which a driver first reads it:\n");
        self.reads.say_all();
        say(b"\n");
        names::say_decimal(self.calls);
        say(b" lines, ");
        names::say_decimal(self.wrong);
        say(b" answered otherwise than the papers say; ");
        self.reads.say_count();
        say(b" status codes read\n");
    }
}

// The call as the script has it, in the column of its side. A line that is no call is written as the disk's.
fn say_call(verb: Option<Verb>, line: &[u8]) {
    match verb {
        Some(Verb::Code) => {
            say(b"; code: ");
            return;
        }
        Some(verb) if !verb.is_bus() => say(b"\n  host  "),
        _ => say(b"\n  disk  "),
    }
    say(line);
    names::say_gap(line.len());
}

// before is what auxiliary status showed before the call.
fn say_reply(verb: Option<Verb>, reply: Reply, before: u32, data: &[u8]) {
    say(reply.answer.name());
    match reply.answer {
        Answer::Done => say_value(verb, reply.value, before, data),
        Answer::Blind | Answer::NoDataNow => {
            say(b" ");
            names::say_byte(reply.value);
        }
        _ => {}
    }
}

// The value of Done, as its call has it: a byte, a number, a code, auxiliary status, the bytes of a block, lines, or not.
fn say_value(verb: Option<Verb>, value: u32, before: u32, data: &[u8]) {
    match verb {
        Some(Verb::ReadPointer | Verb::Read | Verb::Request) => {
            say(b" ");
            names::say_byte(value);
        }
        Some(Verb::ReadCount | Verb::Out | Verb::ReadCylinder) => {
            say(b" ");
            names::say_decimal(value);
        }
        Some(Verb::Code) => {
            say(b" ");
            codes::say_code(value);
            say(b" (auxiliary was ");
            names::say_byte(before);
            say(b")");
        }
        Some(Verb::Auxiliary) => {
            say(b" ");
            names::say_byte(value);
            names::say_auxiliary(value);
        }
        Some(Verb::In) => {
            say(b" ");
            names::say_decimal(value);
            say(b" ");
            for byte in data.iter().take(value as usize) {
                say(b" ");
                names::say_byte(u32::from(*byte));
            }
        }
        Some(Verb::Lines) => {
            say(b" ");
            names::say_lines(value);
        }
        _ => {}
    }
}

pub(crate) fn run(text: &[u8]) {
    let mut bench = Bench::new();
    say(b"Sessions of the controller");
    for line in text.split(|b| *b == b'\n') {
        bench.step(line);
    }
    bench.finish();
}
