// Modes of operation: what a command asks for, which mode the drive shows, and whether the command is matched.
#![tactic(auto)]

ghost use Rattle.std.specs.Prelude.{◌≡◌};
ghost use Rattle.modes.specs.Modes.{mode_number, mode_ordinal, mode_at, shown_of, matched_of};

use states::State;

// Modes of operation. None: what a fresh axis shows, and what a command asks for that has no mode.
// Kept: CiA 402 shows None as mode 0, so it is a mode and no Option (`mode_number`, `shown_of`).
#[derive(Clone, Copy, PartialEq, Eq)]
pub enum Mode {
    None,
    Hybrid,
    Homing,
    Position,
    Torque,
}

// The mode's number, as the modes of operation display shows it.
// Kept: no From, which gives a mode's place in the list: two numbers of one mode are told apart by a name.
pub fn number(mode: Mode) -> i32
    ensures { result ≡ mode_number mode }
{
    match mode {
        Mode::None => 0,
        Mode::Hybrid => -1,
        Mode::Homing => 6,
        Mode::Position => 8,
        Mode::Torque => 10,
    }
}

// The mode's place in the list above, from 0.
impl From<Mode> for u32 {
    ghost from_gives = { λ m n. n ≡ mode_ordinal m };

    fn from(mode: Mode) -> u32 {
        mode as u32
    }
}

// The mode of a place; every number means one, past the last what a fresh axis has.
impl From<u32> for Mode {
    ghost from_gives = { λ n m. m ≡ mode_at n };

    #[tactic(auto, unfolding(crate::specs::Modes::mode_at))]
    fn from(number: u32) -> Mode {
        match number {
            1 => Mode::Hybrid,
            2 => Mode::Homing,
            3 => Mode::Position,
            4 => Mode::Torque,
            _ => Mode::None,
        }
    }
}

// The shown mode after a tick: before is the drive's state before it.
pub fn shown(wanted: Mode, shown: Mode, before: State, still: bool) -> Mode
    ensures { result ≡ shown_of wanted shown before still }
{
    let asks = wanted != Mode::None;
    let free = before != State::OperationEnabled || still;
    if asks && free { wanted } else { shown }
}

// Whether a command that wants a mode is matched by the shown one. A matched command wants the shown mode, so None is asked of that.
pub fn is_matched(wanted: Mode, shown: Mode) -> bool
    ensures { result ≡ matched_of wanted shown }
{
    shown != Mode::None && wanted == shown
}
