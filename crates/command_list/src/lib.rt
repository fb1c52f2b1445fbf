// The table of 34 commands, codes 00 to 21h, each with its level and the connections in which it is valid.
#![tactic(auto)]

ghost use Rattle.std.specs.Prelude.{◌≡◌};
ghost use Rattle.chip.specs.Commands.{entry_of, is_place, is_two};

use chip::{Connection, Entry, Level, Place, State};

// The kinds of rows: a level, and where the command is valid.
const ONE_ANYWHERE: Entry = Entry {
    level: Level::One,
    place: Place::Anywhere,
};

const ONE_CONNECTED: Entry = Entry {
    level: Level::One,
    place: Place::WhenConnected,
};

const ONE_CONNECTED_OR_WAITING: Entry = Entry {
    level: Level::One,
    place: Place::WhenConnectedOrWaiting,
};

const TWO_DISCONNECTED: Entry = Entry {
    level: Level::Two,
    place: Place::WhenDisconnected,
};

const TWO_CONNECTED: Entry = Entry {
    level: Level::Two,
    place: Place::WhenConnected,
};

const TWO_CONNECTED_OR_DISCONNECTED: Entry = Entry {
    level: Level::Two,
    place: Place::WhenConnectedOrDisconnected,
};

const LEFT_OUT: Entry = Entry {
    level: Level::Two,
    place: Place::Nowhere,
};

const TABLE: [Entry; 34] = [
    ONE_ANYWHERE, // 00 Reset
    ONE_ANYWHERE, // 01 Abort
    ONE_CONNECTED, // 02 Assert ATN
    ONE_CONNECTED, // 03 Negate ACK
    ONE_CONNECTED, // 04 Disconnect
    LEFT_OUT, // 05 Reselect
    TWO_DISCONNECTED, // 06 Select with ATN
    TWO_DISCONNECTED, // 07 Select without ATN
    TWO_CONNECTED_OR_DISCONNECTED, // 08 Select-And-Transfer with ATN
    TWO_CONNECTED_OR_DISCONNECTED, // 09 Select-And-Transfer without ATN
    LEFT_OUT, // 0Ah Reselect-and-Receive-Data
    LEFT_OUT, // 0Bh Reselect-and-Send-Data
    LEFT_OUT, // 0Ch Wait-for-Select-and-Receive
    LEFT_OUT, // 0Dh Send-Status-and-Command-Complete
    LEFT_OUT, // 0Eh Send-Disconnect-Message
    ONE_CONNECTED_OR_WAITING, // 0Fh Set IDI
    LEFT_OUT, // 10h Receive Command
    LEFT_OUT, // 11h Receive Data
    LEFT_OUT, // 12h Receive Message Out
    LEFT_OUT, // 13h Receive Unspecified Info Out
    LEFT_OUT, // 14h Send Status
    LEFT_OUT, // 15h Send Data
    LEFT_OUT, // 16h Send Message In
    LEFT_OUT, // 17h Send Unspecified Info In
    TWO_DISCONNECTED, // 18h Translate Address
    LEFT_OUT, // 19h
    LEFT_OUT, // 1Ah
    LEFT_OUT, // 1Bh
    LEFT_OUT, // 1Ch
    LEFT_OUT, // 1Dh
    LEFT_OUT, // 1Eh
    LEFT_OUT, // 1Fh
    TWO_CONNECTED, // 20h Transfer Info
    LEFT_OUT, // 21h Transfer Pad
];

pub fn entry_of(n: u8) -> Entry
    ensures { result ≡ entry_of n }
{
    // Not TABLE.get: an Option of a reference is laid out for 64 bits in the module, and boards of 32 bits run it.
    if (n as usize) < TABLE.len() {
        TABLE[n as usize]
    } else {
        LEFT_OUT
    }
}

// The command counts as Level II: a question under its definition's name, which room commands asks of a row.
pub fn is_two(l: Level) -> bool
    ensures { result ≡ is_two l }
{
    matches!(l, Level::Two)
}

// The connection is one in which the command is valid. Two of the six places answer whatever it is, so this is a match and no comparison.
#[tactic(auto, unfolding(chip::specs::Choice::either))]
pub fn is_place(p: Place, s: State) -> bool
    ensures { result ≡ is_place p s.wire.connection }
{
    let connection = s.wire.connection;
    match p {
        Place::Nowhere => false,
        Place::Anywhere => true,
        Place::WhenDisconnected => connection == Connection::Disconnected,
        Place::WhenConnected => connection == Connection::Connected,
        Place::WhenConnectedOrWaiting => {
            connection == Connection::Connected || connection == Connection::Waiting
        }
        Place::WhenConnectedOrDisconnected => {
            connection == Connection::Connected || connection == Connection::Disconnected
        }
    }
}
