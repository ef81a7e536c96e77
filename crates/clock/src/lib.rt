// The clock of a run: what the bench's counter showed last, and how far a stamp says that it moved on.
#![tactic(auto)]

ghost use Rattle.std.specs.Prelude.{◌≡◌, ◌≤◌};
ghost use Rattle.clock.specs.Clock.{moved_on, went_back};

// The clock: the last stamp, if there was one yet.
#[derive(Clone, Copy, PartialEq, Eq, Default)]
pub struct Clock {
    pub last: Option<u16>,
}

// How many ticks a stamp gives: as many as the counter moved on since the last one, and none if there was none.
#[tactic(auto, unfolding(crate::specs::Clock::moved_on))]
pub fn moved_on(clock: Clock, stamp: u16) -> u16
    ensures { result ≡ moved_on clock stamp }
{
    match clock.last {
        None => 0,
        Some(last) => stamp.wrapping_sub(last),
    }
}

// Whether a stamp says that the counter went back.
#[tactic(auto, unfolding(crate::specs::Clock::went_back))]
pub fn went_back(clock: Clock, stamp: u16) -> bool
    ensures { result ≡ went_back clock stamp }
{
    32768 <= moved_on(clock, stamp)
}
