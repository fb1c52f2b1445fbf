// What the controller is at, by its numbers, and the questions that rules ask of it (chip's specs/Activity.antt).
ghost use Rattle.std.specs.Prelude.{◌≡◌};
ghost use Rattle.state.specs.Running.{running_command};
ghost use Rattle.chip.specs.Activity.{activity_of, code_to_come, command_of, ends, goes_on, is_ending, is_interrupt, is_running, is_select_and_transfer, is_transfer_info, pending_number, reads_out, running_number, sets_atn, without_interrupt};

use chip::{Activity, Command, State};

// How many numbers of commands there are, with 0 for none.
pub const COMMANDS: u8 = 6;

// The command of a number from 1 up. A TryFrom would refuse the others, of which this function says a command, as its definition does.
#[tactic(auto, unfolding(chip::specs::Activity::command_of, chip::specs::Choice::pick))]
fn command_of(n: u8) -> Command
    ensures { result ≡ command_of n }
{
    match n {
        0 | 1 => Command::SelectWithAtn,
        2 => Command::SelectWithoutAtn,
        3 => Command::SelectAndTransferWithAtn,
        4 => Command::SelectAndTransferWithoutAtn,
        _ => Command::TransferInfo,
    }
}

// The command that runs.
fn running(a: Activity) -> Option<Command>
    ensures { result ≡ running_command a }
{
    match a {
        Activity::Idle | Activity::Interrupt => None,
        Activity::Runs(r) | Activity::Ends(r, _) | Activity::ReadOut(r) => Some(r),
    }
}

pub fn running_number(a: Activity) -> u8
    ensures { result ≡ running_number a }
{
    match running(a) {
        None => 0,
        Some(r) => r as u8,
    }
}

// `as u8` takes only an enum whose cases carry nothing, and these carry commands.
pub fn pending_number(a: Activity) -> u8
    ensures { result ≡ pending_number a }
{
    match a {
        Activity::Idle | Activity::Runs(_) => 0,
        Activity::Interrupt => 1,
        Activity::Ends(_, _) => 2,
        Activity::ReadOut(_) => 3,
    }
}

pub fn code_to_come(a: Activity) -> u8
    ensures { result ≡ code_to_come a }
{
    match a {
        Activity::Ends(_, k) => k,
        _ => 0,
    }
}

// The activity with p pending, the code k to come, and the command n: three bytes of the image, of which every three have an activity.
#[tactic(auto, unfolding(chip::specs::Activity::activity_of, chip::specs::Choice::pick))]
pub fn activity_of(p: u8, k: u8, n: u8) -> Activity
    ensures { result ≡ activity_of p k n }
{
    match (n, p) {
        (0, 0) => Activity::Idle,
        (0, _) => Activity::Interrupt,
        (_, 0) => Activity::Runs(command_of(n)),
        (_, 2) => Activity::Ends(command_of(n), k),
        _ => Activity::ReadOut(command_of(n)),
    }
}

pub fn is_interrupt(s: State) -> bool
    ensures { result ≡ is_interrupt s.activity }
{
    matches!(s.activity, Activity::Interrupt)
}

pub fn is_ending(s: State) -> bool
    ensures { result ≡ is_ending s.activity }
{
    matches!(s.activity, Activity::Ends(_, _) | Activity::ReadOut(_))
}

pub fn is_running(s: State) -> bool
    ensures { result ≡ is_running s.activity }
{
    running(s.activity).is_some()
}

// A command runs, with no ending under way.
pub fn goes_on(s: State) -> bool
    ensures { result ≡ goes_on s.activity }
{
    matches!(s.activity, Activity::Runs(_))
}

pub fn is_select_and_transfer(s: State) -> bool
    ensures { result ≡ is_select_and_transfer s.activity }
{
    matches!(
        running(s.activity),
        Some(Command::SelectAndTransferWithAtn | Command::SelectAndTransferWithoutAtn)
    )
}

pub fn is_transfer_info(s: State) -> bool
    ensures { result ≡ is_transfer_info s.activity }
{
    running(s.activity) == Some(Command::TransferInfo)
}

pub fn sets_atn(s: State) -> bool
    ensures { result ≡ sets_atn s.activity }
{
    matches!(
        running(s.activity),
        Some(Command::SelectWithAtn | Command::SelectAndTransferWithAtn)
    )
}

pub fn ends(k: u8, a: Activity) -> Activity
    ensures { result ≡ ends k a }
{
    match a {
        Activity::Runs(r) => Activity::Ends(r, k),
        _ => a,
    }
}

pub fn reads_out(a: Activity) -> Activity
    ensures { result ≡ reads_out a }
{
    match a {
        Activity::Runs(r) => Activity::ReadOut(r),
        _ => a,
    }
}

pub fn without_interrupt(a: Activity) -> Activity
    ensures { result ≡ without_interrupt a }
{
    match a {
        Activity::Interrupt => Activity::Idle,
        _ => a,
    }
}
