// One tick of an axis: its inputs, and what goes by more than one of them.
#![tactic(auto)]

ghost use Rattle.std.specs.Prelude.{◌≡◌};
ghost use Rattle.modes.specs.Modes.{matched_of};
ghost use Rattle.commands.specs.Commands.{mode_of};
ghost use Rattle.ticks.specs.Rules.{homing_on};
ghost use Rattle.ticks.specs.After.{target_of};

use commands::Command;
use legs::events::Switches;
use modes::Mode;
use states::State;
use torque::LimitSet;

// The inputs of one tick.
#[derive(Clone, Copy)]
pub struct Tick {
    pub control: u16,
    pub command: Command,
    // Actual position, in counts.
    pub position: i32,
    pub switches: Switches,
    // Standstill.
    pub still: bool,
    pub set: LimitSet,
    pub alarm: u32,
}

// Homing is wanted and matched, and the drive in Operation enabled. Where a command is matched, the mode that it wants is the shown one.
pub fn homing_on(wanted: Mode, mode: Mode, state: State) -> bool
    ensures { result ≡ homing_on wanted mode state }
{
    modes::is_matched(wanted, mode) && mode == Mode::Homing && state == State::OperationEnabled
}

// The target of a position command that is matched, enabled and homed.
pub fn command_target(command: Command, mode: Mode, state: State, homed: bool) -> Option<i32>
    ensures { result ≡ target_of command (matched_of (mode_of command) mode) state homed }
{
    let matched = modes::is_matched(commands::mode(command), mode);
    position::follow(
        matched & (mode == Mode::Position),
        state,
        homed,
        commands::position_target(command),
    )
}
