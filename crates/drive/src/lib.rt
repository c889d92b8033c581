// The drive's state machine (CiA 402): the state after a tick.
#![tactic(auto)]

ghost use Rattle.std.specs.Prelude.{◌≡◌, cond};
ghost use Rattle.drive.specs.Transitions.{asks, from_state, bullets, standstill_of, quick_stop_of, quiet_of, next_state};
ghost use Rattle.control.specs.Control.{control_command_of};

use control::ControlCommand;
use states::State;

fn from_disabled(command: Option<ControlCommand>) -> State
    ensures { result ≡ from_state State.SwitchOnDisabled command bullets }
{
    match command {
        Some(ControlCommand::Shutdown) => State::Ready,
        _ => State::SwitchOnDisabled,
    }
}

fn from_ready(command: Option<ControlCommand>) -> State
    ensures { result ≡ from_state State.Ready command bullets }
{
    match command {
        Some(ControlCommand::SwitchOn | ControlCommand::EnableOperation) => State::SwitchedOn,
        Some(ControlCommand::DisableVoltage | ControlCommand::QuickStop) => State::SwitchOnDisabled,
        _ => State::Ready,
    }
}

fn from_switched_on(command: Option<ControlCommand>) -> State
    ensures { result ≡ from_state State.SwitchedOn command bullets }
{
    match command {
        Some(ControlCommand::EnableOperation) => State::OperationEnabled,
        Some(ControlCommand::Shutdown) => State::Ready,
        Some(ControlCommand::DisableVoltage | ControlCommand::QuickStop) => State::SwitchOnDisabled,
        _ => State::SwitchedOn,
    }
}

fn from_enabled(command: Option<ControlCommand>) -> State
    ensures { result ≡ from_state State.OperationEnabled command bullets }
{
    match command {
        Some(ControlCommand::SwitchOn) => State::SwitchedOn,
        Some(ControlCommand::Shutdown) => State::Ready,
        Some(ControlCommand::DisableVoltage) => State::SwitchOnDisabled,
        Some(ControlCommand::QuickStop) => State::QuickStopActive,
        _ => State::OperationEnabled,
    }
}

// What decides how Quick stop active is left: standstill, and the option of the settings.
// Kept: the option is a number, since `next_state` says what every number does, also one that no acceptable settings have.
#[derive(Clone, Copy)]
struct Stop {
    still: bool,
    option: u32,
}

impl Stop {
    // Quick stop is left at standstill alone: by itself under option 2, by the command to enable under option 6.
    fn after(self, enable: bool) -> State
        ensures { result ≡ cond self.still (standstill_of self.option enable) State.QuickStopActive }
    {
        if self.still && self.option == 2 {
            State::SwitchOnDisabled
        } else if self.still && self.option == 6 && enable {
            State::OperationEnabled
        } else {
            State::QuickStopActive
        }
    }
}

fn from_quick_stop(command: Option<ControlCommand>, stop: Stop) -> State
    ensures { result ≡ quick_stop_of command stop.still stop.option }
{
    match command {
        Some(ControlCommand::DisableVoltage) => State::SwitchOnDisabled,
        Some(ControlCommand::EnableOperation) => stop.after(true),
        _ => stop.after(false),
    }
}

// What a state goes to where there is no alarm.
fn quiet(state: State, command: Option<ControlCommand>, stop: Stop) -> State
    ensures { result ≡ quiet_of state command stop.still stop.option }
{
    match state {
        State::NotReady => State::SwitchOnDisabled,
        State::SwitchOnDisabled => from_disabled(command),
        State::Ready => from_ready(command),
        State::SwitchedOn => from_switched_on(command),
        State::OperationEnabled => from_enabled(command),
        State::QuickStopActive => from_quick_stop(command, stop),
        State::FaultReaction | State::Fault => state,
    }
}

// Whether a control word asks to enable. Compiled it is one mask and one comparison.
fn enables(control: u16) -> bool
    ensures { result ≡ asks (control_command_of control) ControlCommand.EnableOperation }
{
    let command = control::control_command(control);
    matches!(command, Some(ControlCommand::EnableOperation))
}

// `quiet` of a control word. Most ticks are enabled and asked to enable: tested first, they need no command.
fn calm(state: State, control: u16, stop: Stop) -> State
    ensures { result ≡ quiet_of state (control_command_of control) stop.still stop.option }
{
    if state == State::OperationEnabled && enables(control) {
        State::OperationEnabled
    } else {
        quiet(state, control::control_command(control), stop)
    }
}

// The state after a tick: control is its control word, before the remembered one; alarm has what the command adds to it.
// An alarm goes first, but not in the fault states; Fault is left by a rise of bit 7 without alarm.
#[tactic(auto, unfolding(crate::specs::Transitions::next_state))]
pub fn next(state: State, control: u16, before: u16, still: bool, option: u32, alarm: u32) -> State
    ensures { result ≡ next_state state control before still option alarm }
{
    let clear = alarm == 0;
    match state {
        State::FaultReaction => State::Fault,
        State::Fault => {
            if control::rising(before, control, 7) & clear {
                State::SwitchOnDisabled
            } else {
                State::Fault
            }
        }
        _ => {
            if clear {
                calm(state, control, Stop { still, option })
            } else {
                State::FaultReaction
            }
        }
    }
}
