// A line's call, made on the image by the entries that the C emulator uses. Host and disk have the words of the papers:
//
//     pointer A          sets the pointer            Time N             N units pass
//     pointer?           reads it                    Answer             the Target answers our selection
//     auxiliary          reads auxiliary status      Reselection L      with these data lines
//     read A             reads register A            Request P B [bad]  phase P, byte B, its parity
//     write A B [xN]     writes it, or N from A on   Free               the Target frees the bus
//     command C          writes 18h                  lines              what the controller drives
//     code               reads 17h
//     count N, count?    writes, reads 12h to 14h
//     out N B, in N      a block of N bytes, written rising from B, or read
//     translate S H C at A B [spares K P]   loads a disk and an address, 03 to 0Eh, and writes 18h to 18h: S sectors, H heads, C cylinders,
//                        the address by its high and low half; K spares, and P sectors on a cylinder beside them
//     cylinder?          reads 0D/0Eh
ghost use Rattle.std.specs.Prelude.{◌<◌, ◌≤◌};

use crate::reply::Reply;
use crate::words;
use controller::{
    am33c93a_answer, am33c93a_auxiliary, am33c93a_block, am33c93a_free, am33c93a_fresh,
    am33c93a_lines, am33c93a_pointer, am33c93a_register, am33c93a_request, am33c93a_reselection,
    am33c93a_time,
};
use std::array;

// The first word of a line: the host's calls, and from Time on the disk's.
#[derive(Clone, Copy, PartialEq, Eq)]
pub(crate) enum Verb {
    SetPointer,
    ReadPointer,
    Auxiliary,
    Read,
    Write,
    Command,
    Code,
    SetCount,
    ReadCount,
    Out,
    In,
    Translate,
    ReadCylinder,
    Time,
    Answer,
    Reselection,
    Request,
    Free,
    Lines,
}

impl Verb {
    pub(crate) fn of(line: &[u8]) -> Option<Verb> {
        let verb = match words::word(line, 0) {
            b"pointer" => Verb::SetPointer,
            b"pointer?" => Verb::ReadPointer,
            b"auxiliary" => Verb::Auxiliary,
            b"read" => Verb::Read,
            b"write" => Verb::Write,
            b"command" => Verb::Command,
            b"code" => Verb::Code,
            b"count" => Verb::SetCount,
            b"count?" => Verb::ReadCount,
            b"out" => Verb::Out,
            b"in" => Verb::In,
            b"translate" => Verb::Translate,
            b"cylinder?" => Verb::ReadCylinder,
            b"Time" => Verb::Time,
            b"Answer" => Verb::Answer,
            b"Reselection" => Verb::Reselection,
            b"Request" => Verb::Request,
            b"Free" => Verb::Free,
            b"lines" => Verb::Lines,
            _ => return None,
        };
        Some(verb)
    }

    // Whether the call is the disk's.
    pub(crate) fn is_bus(self) -> bool {
        matches!(
            self,
            Verb::Time | Verb::Answer | Verb::Reselection | Verb::Request | Verb::Free | Verb::Lines
        )
    }
}

// How often a line asks for its call: xN is one of its words, and no other word of such a line has an x.
pub(crate) fn times(line: &[u8]) -> u32
    ensures { result < 268435456 }
{
    match words::split_once(line, b'x') {
        Some((_, count)) => words::operand(count, 0),
        None => 1,
    }
}

// A phase's number and no enum, since the entry takes the number; 8, which it answers with Bad number, for a word that is no phase.
fn phase_number(word: &[u8]) -> u32
    ensures { result ≤ 8 }
{
    match word {
        b"Data-Out" => 0,
        b"Data-In" => 1,
        b"Command" => 2,
        b"Status" => 3,
        b"Phase-4" => 4,
        b"Phase-5" => 5,
        b"Message-Out" => 6,
        b"Message-In" => 7,
        _ => 8,
    }
}

// What a line says of a Request, as the entry takes it; for a series it is read once.
#[derive(Clone, Copy)]
pub(crate) struct Request {
    phase: u32,
    byte: u32,
    parity: u32,
}

impl Request {
    pub(crate) fn of(line: &[u8]) -> Request {
        Request {
            phase: phase_number(words::word(line, 1)),
            byte: words::operand(line, 2),
            parity: matches!(words::word(line, 3), b"bad") as u32,
        }
    }
}

// The controller's image, and the bytes of the last block that was read. am33c93a_image_length returns the 54, but no call may be a length.
#[derive(Drop)]
pub(crate) struct Device {
    image: [u8; 54],
    data: [u8; 32],
}

impl Device {
    pub(crate) fn zeroed() -> Device {
        Device {
            image: [0; 54],
            data: [0; 32],
        }
    }

    pub(crate) fn reset(&mut self) {
        am33c93a_fresh(&mut self.image);
    }

    pub(crate) fn block(&self) -> &[u8] {
        &self.data
    }

    pub(crate) fn auxiliary(&mut self) -> Reply {
        am33c93a_auxiliary(&mut self.image).into()
    }

    fn point(&mut self, address: u32) -> Reply {
        am33c93a_pointer(&mut self.image, 1, address).into()
    }

    fn read(&mut self, address: u32) -> Reply {
        self.point(address);
        am33c93a_register(&mut self.image, 0, 0).into()
    }

    // In the register where the pointer stands, which then steps by itself.
    fn write(&mut self, byte: u32) -> Reply {
        am33c93a_register(&mut self.image, 1, byte).into()
    }

    // Rising bytes in registers that follow each other. The number goes into each byte, so this goes over numbers and over no slice.
    fn write_rising(&mut self, address: u32, byte: u32, n: u32) -> Reply {
        let mut reply = self.point(address);
        for i in 0..n {
            reply = self.write(byte.wrapping_add(i));
        }
        reply
    }

    fn command(&mut self, code: u32) -> Reply {
        self.write_rising(0x18, code, 1)
    }

    // 12h to 14h.
    fn write_count(&mut self, n: u32) -> Reply {
        let [_, high, middle, low] = n.to_be_bytes();
        self.point(0x12);
        self.write(u32::from(high));
        self.write(u32::from(middle));
        self.write(u32::from(low))
    }

    // A number of two bytes.
    fn write_two(&mut self, n: u32) -> Reply {
        let [_, _, high, low] = n.to_be_bytes();
        self.write(u32::from(high));
        self.write(u32::from(low))
    }

    // The answer of the last of three reads, with the whole count as its value. Replies have values of 32 bits, so no bytes are joined here.
    fn read_count(&mut self) -> Reply {
        let high = self.read(0x12).value % 256;
        let middle = self.read(0x13).value % 256;
        let low = self.read(0x14);
        Reply {
            value: high * 65536 + middle * 256 + low.value % 256,
            ..low
        }
    }

    // The answer of the second of two reads, with the whole number as its value.
    fn read_cylinder(&mut self) -> Reply {
        let high = self.read(0x0d).value % 256;
        let low = self.read(0x0e);
        Reply {
            value: high * 256 + low.value % 256,
            ..low
        }
    }

    fn translate(&mut self, line: &[u8]) -> Reply {
        // The disk, 03 to 06.
        self.point(0x03);
        self.write(words::operand(line, 1));
        self.write(words::operand(line, 2));
        self.write_two(words::operand(line, 3));
        // The address, 07 to 0Ah.
        self.write_two(words::operand(line, 5));
        self.write_two(words::operand(line, 6));
        // 0Bh, which is not looked at, and the spares, 0Ch to 0Eh.
        self.write(0);
        self.write(words::operand(line, 8));
        self.write_two(words::operand(line, 9));
        self.command(0x18)
    }

    // Bytes that rise by one from the first on.
    fn block_out(&mut self, n: u32, first: u32) -> Reply {
        let mut data: [u8; 32] = array::from_fn(|i| ((first as usize).wrapping_add(i) % 256) as u8);
        let k = (n as usize).min(data.len());
        am33c93a_block(&mut self.image, 1, &mut data[..k]).into()
    }

    fn block_in(&mut self, n: u32) -> Reply {
        // The check takes a part of a slice, and not of an array in a field.
        let data = &mut self.data[..];
        let k = (n as usize).min(data.len());
        am33c93a_block(&mut self.image, 0, &mut data[..k]).into()
    }

    // The i-th Request of a series: its byte has risen i times.
    pub(crate) fn request(&mut self, request: Request, i: u32) -> Reply {
        let byte = request.byte.wrapping_add(i);
        am33c93a_request(&mut self.image, request.phase, byte, request.parity).into()
    }

    // A line that is no call is Bad number.
    pub(crate) fn call(&mut self, verb: Option<Verb>, line: &[u8]) -> Reply {
        let Some(verb) = verb else {
            return Reply::BAD_NUMBER;
        };
        let operand = |k| words::operand(line, k);
        match verb {
            Verb::SetPointer => self.point(operand(1)),
            Verb::ReadPointer => am33c93a_pointer(&mut self.image, 0, 0).into(),
            Verb::Auxiliary => self.auxiliary(),
            Verb::Read => self.read(operand(1)),
            Verb::Write => self.write_rising(operand(1), operand(2), times(line)),
            Verb::Command => self.command(operand(1)),
            Verb::Code => self.read(0x17),
            Verb::SetCount => self.write_count(operand(1)),
            Verb::ReadCount => self.read_count(),
            Verb::Out => self.block_out(operand(1), operand(2)),
            Verb::In => self.block_in(operand(1)),
            Verb::Translate => self.translate(line),
            Verb::ReadCylinder => self.read_cylinder(),
            Verb::Time => am33c93a_time(&mut self.image, operand(1)).into(),
            Verb::Answer => am33c93a_answer(&mut self.image).into(),
            Verb::Reselection => am33c93a_reselection(&mut self.image, operand(1)).into(),
            Verb::Request => self.request(Request::of(line), 0),
            Verb::Free => am33c93a_free(&mut self.image).into(),
            Verb::Lines => am33c93a_lines(&self.image).into(),
        }
    }
}
