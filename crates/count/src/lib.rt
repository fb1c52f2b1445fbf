// The count: what is left, lowered and loaded, and DBR. Each function is the definition of the same name in chip's specs/Count.antt.
#![tactic(auto)]

ghost use Rattle.std.specs.Prelude.{◌≡◌};
ghost use Rattle.chip.specs.Count.{dbr, left, none_left, is_last, lowered, loaded, means_one, loaded_for_transfer_info};

use chip::{Direction, State};

#[tactic(auto, unfolding(chip::specs::Count::left, chip::specs::Choice::pick))]
pub fn left(s: State) -> u32
    ensures { result ≡ left s }
{
    if s.transfer.single {
        1
    } else {
        s.registers.count
    }
}

#[tactic(auto, unfolding(chip::specs::Count::none_left))]
pub fn none_left(s: State) -> bool
    ensures { result ≡ none_left s }
{
    left(s) == 0
}

#[tactic(auto, unfolding(chip::specs::Count::is_last))]
pub fn is_last(s: State) -> bool
    ensures { result ≡ is_last s }
{
    left(s) == 1
}

// Outgoing, fewer bytes were written than loaded, and there is room.
#[tactic(auto, unfolding(chip::specs::Count::dbr, chip::specs::Choice::both))]
pub fn dbr(s: State) -> bool
    ensures { result ≡ dbr s }
{
    match s.transfer.direction {
        Direction::Unfixed => false,
        Direction::In => !fifo::is_empty(s.fifo),
        Direction::Out => (fifo::waits(s.fifo) as u32) < left(s) && fifo::has_room(s.fifo),
    }
}

#[tactic(auto, unfolding(chip::specs::Count::lowered, chip::specs::Choice::pick))]
pub fn lowered(mut s: State) -> State
    ensures { result ≡ lowered s }
{
    s.registers.count = if s.transfer.single {
        0
    } else {
        s.registers.count.saturating_sub(1)
    };
    s.transfer.single = false;
    s
}

#[tactic(auto, unfolding(chip::specs::Count::loaded))]
pub fn loaded(mut s: State) -> State
    ensures { result ≡ loaded s }
{
    s.fifo = fifo::empty();
    s.transfer.direction = Direction::Unfixed;
    s.transfer.single = false;
    s
}

#[tactic(auto, unfolding(chip::specs::Count::means_one, chip::specs::Choice::either))]
pub fn means_one(single: bool, s: State) -> bool
    ensures { result ≡ means_one single s }
{
    single || s.registers.count == 0
}

#[tactic(auto, unfolding(chip::specs::Count::loaded_for_transfer_info, chip::specs::Choice::pick))]
pub fn loaded_for_transfer_info(single: bool, mut s: State) -> State
    ensures { result ≡ loaded_for_transfer_info single s }
{
    s.transfer.single = means_one(single, s);
    if s.transfer.single {
        s.registers.count = 0;
    }
    s.fifo = fifo::empty();
    s
}
