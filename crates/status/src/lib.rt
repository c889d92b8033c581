// The statusword: the drive's bits, bit 8, and bits 10 to 13.
#![tactic(auto)]

ghost use Rattle.std.specs.Prelude.{◌≡◌, ◌≤◌};
ghost use Rattle.homing.specs.Phase.{phase_of};
ghost use Rattle.status.specs.Statusword.{limit_active, flags_in, homing_bits, other_bits, mode_bits, statusword_of};

use modes::Mode;
use states::State;

// Bit 11: POT or NOT is on, or the followed target was clamped.
pub fn limit_active(positive: bool, negative: bool, clamped: bool) -> bool
    ensures { result ≡ limit_active positive negative clamped }
{
    positive || negative || clamped
}

// What homing shows in its own mode: 10 unless it runs; 8 and 12 where homed, 13 on an error.
fn homing_bits(phase: u32) -> u16
    ensures value { result ≡ homing_bits (phase_of phase) }
    ensures small { result ≤ 0x2400 }
{
    if homing::is_running(phase) {
        0
    } else if homing::is_homed(phase) {
        0x1500
    } else if homing::has_failed(phase) {
        0x2400
    } else {
        0x0400
    }
}

// Kept: mode, phase and following stay arguments, as `statusword` takes them; a struct would be built for one call.
// In any other mode: 8 where homed, and in position mode 12 where a target is followed.
fn other_bits(mode: Mode, phase: u32, following: bool) -> u16
    ensures value { result ≡ other_bits mode (phase_of phase) following }
    ensures small { result ≤ 0x1100 }
{
    0x0100 * homing::is_homed(phase) as u16 + 0x1000 * (mode == Mode::Position && following) as u16
}

fn mode_bits(mode: Mode, phase: u32, following: bool) -> u16
    ensures value { result ≡ mode_bits mode (phase_of phase) following }
    ensures small { result ≤ 0x2400 }
{
    if mode == Mode::Homing {
        homing_bits(phase)
    } else {
        other_bits(mode, phase, following)
    }
}

// The statusword of a tick that leaves homing in this phase.
pub fn statusword(state: State, mode: Mode, phase: u32, following: bool, limited: bool) -> u16
    ensures { result ≡ statusword_of state mode (flags_in (phase_of phase) following limited) }
{
    states::status(state) + mode_bits(mode, phase, following) + 0x0800 * limited as u16
}
