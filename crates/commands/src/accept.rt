// Whether a command is valid, refused while busy, and what every command that is not ignored changes.
ghost use Rattle.std.specs.Prelude.{not, ◌≡◌};
ghost use Rattle.chip.specs.Choice.{both, either};
ghost use Rattle.chip.specs.Commands.{accepted, entry_of, is_place, is_ready, is_two};
ghost use Rattle.chip.specs.Interrupts.{busy};

use chip::{Connection, Entry, State};
use select_and_transfer::{resume, stage};
use state::activity;

// A command that is asked for: its code, and the table's line for it.
#[derive(Clone, Copy)]
pub struct Asked {
    pub code: u8,
    pub entry: Entry,
}

// What the command of a code asks for beside the connection.
#[tactic(auto, unfolding(chip::specs::Commands::is_ready, chip::specs::Choice::pick, chip::specs::Choice::both, chip::specs::Choice::either))]
fn is_ready(n: u8, s: State) -> bool
    ensures { result ≡ is_ready n s }
{
    match n {
        0x01 => activity::goes_on(s),
        0x08 | 0x09 if s.wire.connection == Connection::Connected => resume::is_resumable(s),
        0x08 | 0x09 => stage::has_size(s),
        0x20 => !s.wire.handshake.ack && s.wire.seen.reported.is_some(),
        _ => true,
    }
}

impl Asked {
    // "A constant table of 34 entries, level and valid connection, looked up before a command is accepted."
    pub fn of(code: u8) -> Asked
        ensures { (result.code ≡ code) × (result.entry ≡ entry_of code) }
    {
        Asked {
            code,
            entry: command_list::entry_of(code),
        }
    }

    #[tactic(auto, unfolding(chip::specs::Choice::both))]
    pub fn is_valid(self, s: State) -> bool
        ensures { result ≡ both (is_place self.entry.place s.wire.connection) (is_ready self.code s) }
    {
        command_list::is_place(self.entry.place, s) && is_ready(self.code, s)
    }

    // Level II, or not valid now.
    #[tactic(auto, unfolding(chip::specs::Choice::both, chip::specs::Choice::either))]
    pub fn is_refused_busy(self, s: State) -> bool
        ensures { result ≡ both (busy s) (either (is_two self.entry.level) (not (both (is_place self.entry.place s.wire.connection) (is_ready self.code s)))) }
    {
        interrupts::busy(s) && (command_list::is_two(self.entry.level) || !self.is_valid(s))
    }
}

#[tactic(auto, unfolding(chip::specs::Commands::accepted))]
pub fn accepted(b: u8, mut s: State) -> State
    ensures { result ≡ accepted b s }
{
    s.status.pe = false;
    s.status.lci = false;
    s.status.command = b;
    s
}
