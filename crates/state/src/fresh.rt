// A new controller, and the parts that Reset makes anew (chip's specs/State.antt).
ghost use Rattle.std.specs.Prelude.{◌≡◌};
ghost use Rattle.chip.specs.State.{apart, cleared, fresh, nothing_moves};

use chip::{
    Activity, Connection, Descriptor, Direction, Handshake, Identity, Registers, Seen, Setup,
    State, Status, Transfer, Wire,
};

// Registers 01 to 16h zero.
pub fn cleared(own: u8) -> Registers
    ensures { result ≡ cleared own }
{
    Registers {
        setup: Setup {
            own,
            control: 0,
            timeout: 0,
            synchronous: 0,
        },
        descriptor: Descriptor {
            cdb: [0u8; 12],
            lun: 0,
            phase: 0,
        },
        count: 0,
        destination: 0,
        source: 0,
    }
}

pub fn nothing_moves() -> Transfer
    ensures { result ≡ nothing_moves }
{
    Transfer {
        direction: Direction::Unfixed,
        single: false,
    }
}

// Disconnected, under an identity.
pub fn apart(identity: Identity) -> Wire
    ensures { result ≡ apart identity }
{
    Wire {
        connection: Connection::Disconnected,
        handshake: Handshake {
            atn: false,
            ack: false,
        },
        seen: Seen {
            reported: None,
            last: None,
        },
        identity,
        elapsed: 0,
    }
}

pub fn fresh() -> State
    ensures { result ≡ fresh }
{
    let registers = cleared(0);
    let status = Status {
        pointer: 0,
        code: 0,
        command: 0,
        lci: false,
        pe: false,
    };
    let fifo = fifo::empty();
    let transfer = nothing_moves();
    let wire = apart(Identity { number: 0 });
    State {
        registers,
        status,
        fifo,
        transfer,
        wire,
        activity: Activity::Idle,
    }
}
