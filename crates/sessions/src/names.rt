// Numbers, bits and lines written to the output by the calls of `io`: `write!` takes no bytes that are not text, and each of its calls
// returns an error, which this program would have to drop.
pub(crate) fn say(text: &[u8]) {
    io::write_all(1, text);
}

const DIGITS: &[u8; 16] = b"0123456789ABCDEF";

// The low byte of a number as the paper writes it: 8Bh.
pub(crate) fn say_byte(n: u32) {
    let high = (n / 16 % 16) as usize;
    let low = (n % 16) as usize;
    say(&[DIGITS[high], DIGITS[low], b'h']);
}

pub(crate) fn say_decimal(n: impl Into<u64>) {
    io::print_decimal(1, n.into());
}

// A number below 100 in a column of three.
pub(crate) fn say_number(n: u8) {
    if n < 10 {
        say(b" ");
    }
    say(b" ");
    say_decimal(n);
}

// Auxiliary status, from bit 7 down; bits 3 and 2 are always 0.
const AUXILIARY: [(u32, &[u8]); 6] = [
    (0x80, b" INT"),
    (0x40, b" LCI"),
    (0x20, b" BSY"),
    (0x10, b" CIP"),
    (0x02, b" PE"),
    (0x01, b" DBR"),
];

pub(crate) fn say_auxiliary(bits: u32) {
    for (bit, name) in &AUXILIARY {
        if bits & *bit != 0 {
            say(name);
        }
    }
}

// What the controller drives, as an entry tells C in one number: its connection in bits 5 to 3, of which at most one is set, ATN, ACK, and the Target.
pub(crate) fn say_lines(lines: u32) {
    say(match lines / 8 % 8 {
        0 => b"Disconnected",
        1 => b"connected",
        2 => b"selecting",
        4 => b"waiting for reselection",
        _ => b"",
    });
    if lines & 0x40 != 0 {
        say(b" ATN");
    }
    if lines & 0x80 != 0 {
        say(b" ACK");
    }
    say(b", Target ");
    say_decimal(lines % 8);
}

// Blanks from a column to the place of the answers.
pub(crate) fn say_gap(column: usize) {
    let blanks = [b' '; 40];
    if column < 40 {
        say(&blanks[column..]);
    } else {
        say(b" ");
    }
}
