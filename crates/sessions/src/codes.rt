// The status codes, and in which session each was first read.
use crate::names;
use crate::names::say;
use std::num::NonZeroU8;

// Every status code that can be raised, with its row as one write says it: the table `Because` of the room unread, which is proved to have
// them all.
static CODES: [(u8, &[u8]); 46] = [
    (0x00, b"00h  Reset is done"),
    (0x11, b"11h  selected"),
    (0x15, b"15h  the place of the address is found"),
    (0x16, b"16h  Select-And-Transfer is complete"),
    (0x18, b"18h  Transfer Info is over, next is Data Out"),
    (0x19, b"19h  Transfer Info is over, next is Data In"),
    (0x1a, b"1Ah  Transfer Info is over, next is Command"),
    (0x1b, b"1Bh  Transfer Info is over, next is Status"),
    (0x1c, b"1Ch  Transfer Info is over, next is phase 4"),
    (0x1d, b"1Dh  Transfer Info is over, next is phase 5"),
    (0x1e, b"1Eh  Transfer Info is over, next is Message Out"),
    (0x1f, b"1Fh  Transfer Info is over, next is Message In"),
    (0x20, b"20h  last Message In byte, ACK held"),
    (0x21, b"21h  Save Data Pointer, ACK held"),
    (0x22, b"22h  aborted before a connection"),
    (0x28, b"28h  aborted in Data Out"),
    (0x29, b"29h  aborted in Data In"),
    (0x2a, b"2Ah  aborted in Command"),
    (0x2b, b"2Bh  aborted in Status"),
    (0x2c, b"2Ch  aborted in phase 4"),
    (0x2d, b"2Dh  aborted in phase 5"),
    (0x2e, b"2Eh  aborted in Message Out"),
    (0x2f, b"2Fh  aborted in Message In"),
    (0x40, b"40h  invalid command"),
    (0x41, b"41h  the Target left in the middle"),
    (0x42, b"42h  selection timed out"),
    (0x43, b"43h  bad parity, ACK held"),
    (0x45, b"45h  the address is not on the disk"),
    (0x48, b"48h  unexpected Data Out"),
    (0x49, b"49h  unexpected Data In"),
    (0x4a, b"4Ah  unexpected Command"),
    (0x4b, b"4Bh  unexpected Status"),
    (0x4c, b"4Ch  unexpected phase 4"),
    (0x4d, b"4Dh  unexpected phase 5"),
    (0x4e, b"4Eh  unexpected Message Out"),
    (0x4f, b"4Fh  unexpected Message In"),
    (0x80, b"80h  reselected"),
    (0x85, b"85h  the Target freed the bus"),
    (0x88, b"88h  asked for Data Out"),
    (0x89, b"89h  asked for Data In"),
    (0x8a, b"8Ah  asked for Command"),
    (0x8b, b"8Bh  asked for Status"),
    (0x8c, b"8Ch  asked for phase 4"),
    (0x8d, b"8Dh  asked for phase 5"),
    (0x8e, b"8Eh  asked for Message Out"),
    (0x8f, b"8Fh  asked for Message In"),
];

// The code and its name; nothing for a number that is no code.
pub(crate) fn say_code(value: u32) {
    if let Some((_, row)) = CODES.iter().find(|(code, _)| u32::from(*code) == value) {
        say(row);
    }
}

// The session in which each status code was first read.
#[derive(Drop)]
pub(crate) struct FirstReads {
    by_code: [Option<NonZeroU8>; 256],
}

impl FirstReads {
    pub(crate) fn none() -> FirstReads {
        FirstReads {
            by_code: [None; 256],
        }
    }

    pub(crate) fn note(&mut self, code: u32, session: Option<NonZeroU8>) {
        if let Some(first) = self.by_code.get_mut(code as usize) {
            *first = first.or(session);
        }
    }

    fn session_of(&self, code: u8) -> Option<NonZeroU8> {
        self.by_code[usize::from(code)]
    }

    // The list of all codes.
    pub(crate) fn say_all(&self) {
        for (code, row) in &CODES {
            say(b"  ");
            match self.session_of(*code) {
                None => say(b"NEVER READ  "),
                Some(session) => {
                    say(b"session");
                    names::say_number(session.get());
                    say(b"  ");
                }
            }
            say(row);
            say(b"\n");
        }
    }

    // How many codes were read, of how many.
    pub(crate) fn say_count(&self) {
        let read = CODES
            .iter()
            .filter(|(code, _)| self.session_of(*code).is_some())
            .count();
        names::say_decimal(read as u64);
        say(b" of ");
        names::say_decimal(CODES.len() as u64);
    }
}
