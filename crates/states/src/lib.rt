// The drive's states (CiA 402), the statusword's bits that they show, and the alarm number.
#![tactic(auto)]

ghost use Rattle.std.specs.Prelude.{◌≡◌};
ghost use Rattle.states.specs.Alarm.{alarm_number_of, enters, latched_of};
ghost use Rattle.states.specs.States.{state_number, state_at, live_of};
ghost use Rattle.states.specs.Status.{status_of};

#[derive(Clone, Copy, PartialEq, Eq)]
pub enum State {
    NotReady,
    SwitchOnDisabled,
    Ready,
    SwitchedOn,
    OperationEnabled,
    QuickStopActive,
    FaultReaction,
    Fault,
}

// The state's place in the list above.
impl From<State> for u32 {
    ghost from_gives = { λ s n. n ≡ state_number s };

    fn from(state: State) -> u32 {
        state as u32
    }
}

// The state of a place; every number means one, past the last what a fresh axis has.
impl From<u32> for State {
    ghost from_gives = { λ n s. s ≡ state_at n };

    #[tactic(auto, unfolding(crate::specs::States::state_at))]
    fn from(number: u32) -> State {
        match number {
            1 => State::SwitchOnDisabled,
            2 => State::Ready,
            3 => State::SwitchedOn,
            4 => State::OperationEnabled,
            5 => State::QuickStopActive,
            6 => State::FaultReaction,
            7 => State::Fault,
            _ => State::NotReady,
        }
    }
}

// Whether the drive is in Operation enabled or Quick stop active.
pub fn is_live(state: State) -> bool
    ensures { result ≡ live_of state }
{
    matches!(state, State::OperationEnabled | State::QuickStopActive)
}

// The statusword's bits 0 to 9.
pub fn status(state: State) -> u16
    ensures { result ≡ status_of state }
{
    match state {
        State::NotReady => 0x0000,
        State::SwitchOnDisabled => 0x0250,
        State::Ready => 0x0231,
        State::SwitchedOn => 0x0233,
        State::OperationEnabled => 0x0237,
        State::QuickStopActive => 0x0217,
        State::FaultReaction => 0x020f,
        State::Fault => 0x0208,
    }
}

// The lowest set bit's place plus 1.
#[tactic(auto, using(crate::proofs::Least::least), unfolding(crate::specs::Alarm::alarm_number_of))]
pub fn alarm_number(alarm: u32) -> u32
    ensures { result ≡ alarm_number_of alarm }
{
    alarm.trailing_zeros() + 1
}

// Whether a tick from one state to another entered Fault reaction.
fn entered_reaction(before: State, after: State) -> bool
    ensures { result ≡ enters State.FaultReaction before after }
{
    before != State::FaultReaction && after == State::FaultReaction
}

// The alarm number after a tick from one state to another: latched on entering Fault reaction, cleared on leaving Fault.
pub fn latched(number: u32, before: State, after: State, alarm: u32) -> u32
    ensures { result ≡ latched_of number before after alarm }
{
    if entered_reaction(before, after) {
        return alarm_number(alarm);
    }
    if before == State::Fault && after != State::Fault {
        0
    } else {
        number
    }
}
