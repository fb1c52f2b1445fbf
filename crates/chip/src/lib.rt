// The controller's state and the answers, as types. What they mean is said in specs/, a file for each section
// of the paper; no function stands here.
#![tactic(auto)]

// A bus identity, 0 to 7: the data sheet's bus ID.
#[derive(Clone, Copy, PartialEq, Eq)]
pub struct Identity {
    pub number: u8,
}

// A logical unit number, 0 to 7: the data sheet's LUN. It has a type of its own, so that it is never taken for a bus identity.
#[derive(Clone, Copy, PartialEq, Eq)]
pub struct Lun {
    pub number: u8,
}

// The nine answers, in the paper's order. Done carries its value: the byte read or crossed, the number that a block moved, else 0.
#[derive(Clone, Copy)]
pub enum Answer {
    Done(u8),
    Held,
    OutOfPlace,
    BadNumber,
    Blind,
    CommandIgnored,
    ReselectionIgnored,
    NoDataNow,
    Reported,
}

// What the bus and we are to each other.
#[derive(Clone, Copy, PartialEq, Eq)]
pub enum Connection {
    Disconnected,
    Selecting,
    Waiting,
    Connected,
}

// The Level II commands that run from call to call. In the image 0 stands for none.
#[derive(Clone, Copy, PartialEq, Eq)]
pub enum Command {
    SelectWithAtn = 1,
    SelectWithoutAtn,
    SelectAndTransferWithAtn,
    SelectAndTransferWithoutAtn,
    TransferInfo,
}

// What the controller is at: the command that runs, and what is pending for the host, as one sum. INT is set in Interrupt and nowhere
// else, BSY where there is a command. So no state has INT and BSY, nor INT and an ending: there is no way to write it down.
// Ends holds the code that is raised when the incoming bytes are read out; ReadOut raises none and waits for reselection then.
#[derive(Clone, Copy)]
pub enum Activity {
    Idle,
    Interrupt,
    Runs(Command),
    Ends(Command, u8),
    ReadOut(Command),
}

// The way that data goes, as far as a command has fixed it.
#[derive(Clone, Copy, PartialEq, Eq)]
pub enum Direction {
    Unfixed,
    In,
    Out,
}

// The phase of a Request, 0 to 7: MSG, C/D and I/O as 4, 2 and 1.
#[derive(Clone, Copy, PartialEq, Eq)]
pub enum Phase {
    DataOut,
    DataIn,
    CommandOut,
    StatusIn,
    UnspecifiedOut,
    UnspecifiedIn,
    MessageOut,
    MessageIn,
}

// What the Target asks for: a phase, the byte that it puts on the data lines (of no meaning where data goes out), and whether the parity of
// that byte is bad.
#[derive(Clone, Copy)]
pub struct Request {
    pub phase: Phase,
    pub byte: u8,
    pub bad: bool,
}

// What a driver sets up: Own ID (00), Control (01), Timeout Period (02), Synchronous Transfer (11h).
#[derive(Clone, Copy)]
pub struct Setup {
    pub own: u8,
    pub control: u8,
    pub timeout: u8,
    pub synchronous: u8,
}

// What a Select-And-Transfer works through: CDB 1 to 12 (03 to 0Eh), Target LUN (0Fh), Command Phase (10h).
#[derive(Clone, Copy)]
pub struct Descriptor {
    pub cdb: [u8; 12],
    pub lun: u8,
    pub phase: u8,
}

// Registers 00 to 16h: the two above, Transfer Count (12h to 14h, high byte first), Destination ID (15h), Source ID (16h).
#[derive(Clone, Copy)]
pub struct Registers {
    pub setup: Setup,
    pub descriptor: Descriptor,
    pub count: u32,
    pub destination: u8,
    pub source: u8,
}

// What the host sees beside the registers: the pointer, SCSI Status (17h), Command (18h), LCI and PE. INT and BSY are the activity's.
#[derive(Clone, Copy)]
pub struct Status {
    pub pointer: u8,
    pub code: u8,
    pub command: u8,
    pub lci: bool,
    pub pe: bool,
}

// Twelve places that go round. `held` bytes wait: the oldest in the place `first`, each younger one in the next. What stands in the other
// places nobody asks. An array with its ends beside it, and no queue of the library: there is no heap, and the image has these bytes.
#[derive(Clone, Copy)]
pub struct Fifo {
    pub bytes: [u8; 12],
    pub first: u8,
    pub held: u8,
}

// The way of data, and whether the count stands for the single byte that 12h to 14h do not show.
#[derive(Clone, Copy)]
pub struct Transfer {
    pub direction: Direction,
    pub single: bool,
}

// The two lines that we hold on the bus: ATN, and ACK where a byte is not let go.
#[derive(Clone, Copy)]
pub struct Handshake {
    pub atn: bool,
    pub ack: bool,
}

// The phases kept in mind, or none: the reported one, and that of the last Request answered Done or Reported since connection.
#[derive(Clone, Copy)]
pub struct Seen {
    pub reported: Option<Phase>,
    pub last: Option<Phase>,
}

// The bus: the lines and phases above, our identity, the units of time that have added up while selecting, and the connection. It stands
// last, beside the activity: with eight bytes after it, a copy with another connection would keep those as one number.
#[derive(Clone, Copy)]
pub struct Wire {
    pub handshake: Handshake,
    pub seen: Seen,
    pub identity: Identity,
    pub elapsed: u8,
    pub connection: Connection,
}

#[derive(Clone, Copy)]
pub struct State {
    pub registers: Registers,
    pub status: Status,
    pub fifo: Fifo,
    pub transfer: Transfer,
    pub wire: Wire,
    pub activity: Activity,
}

// What a call gives: its answer and the new state.
#[derive(Clone, Copy)]
pub struct Reply {
    pub answer: Answer,
    pub state: State,
}

// The level of a command (001, Command List).
#[derive(Clone, Copy, PartialEq, Eq)]
pub enum Level {
    One,
    Two,
}

// The connections in which a command is valid.
#[derive(Clone, Copy, PartialEq, Eq)]
pub enum Place {
    Nowhere,
    Anywhere,
    WhenDisconnected,
    WhenConnected,
    WhenConnectedOrWaiting,
    WhenConnectedOrDisconnected,
}

// A line of the command table.
#[derive(Clone, Copy)]
pub struct Entry {
    pub level: Level,
    pub place: Place,
}

// What the command phase register (10h) stands for while a Select-And-Transfer runs: what is expected next.
// SendCommand holds how many command bytes were taken.
#[derive(Clone, Copy)]
pub enum Stage {
    SendIdentify,
    SendCommand(u8),
    Body,
    AfterData,
    Disconnecting,
    Reselected,
    AfterStatus,
    Elsewhere,
}
