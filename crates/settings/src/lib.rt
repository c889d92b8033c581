// The settings of an axis (01: the sheet), whether every field is in its range, and all refusals by number.
//
// Settings are plain data: every value of every field is answered, and only `checks::check` says whether they may be used.
#![tactic(auto)]

ghost use Rattle.std.specs.Prelude.{◌≡◌};
ghost use Rattle.settings.specs.Refusal.{verdict_number};

pub mod fields;
mod numbers;

// Settings of one axis, by CiA 402's names. Positions are in user units, torques in thousandths of the rated torque.
// Kept: method and option are numbers, since every value of every field is answered (`checks::check`), and C hands the fields in.
#[derive(Clone, Copy)]
pub struct Settings {
    // Homing method.
    pub method: u32,
    // Homing speeds: fast while searching for a switch, slow while leaving or finding its edge.
    pub fast: u32,
    pub slow: u32,
    // Home offset.
    pub offset: i32,
    // Gear ratio.
    pub numerator: u32,
    pub denominator: u32,
    // Software position limits (01: stops).
    pub lower: i32,
    pub upper: i32,
    // Maximum torque.
    pub maximum: u32,
    // Positive and negative torque limits, as magnitudes: limit sets 1 and 2.
    pub positive1: u32,
    pub negative1: u32,
    pub positive2: u32,
    pub negative2: u32,
    // Quick stop option code.
    pub option: u32,
    // Rated torque, in millinewton metres.
    pub rated: u32,
    // Homing torque: caps the torque in homing mode.
    pub homing: u32,
}

// Why a settings word, settings, a tick, a lent buffer or a run on a rail is refused, with its number (01: refused words, ticks and buffers; 02).
#[derive(Clone, Copy, PartialEq, Eq)]
pub enum Refusal {
    OutOfSequence = 1,
    UnknownLayout = 2,
    OutOfRange = 3,
    ChecksumMismatch = 4,
    LimitsCrossed = 5,
    OutOfReach = 6,
    DriveActive = 7,
    NoSettings = 8,
    BufferTooShort = 9,
    LongValue = 10,
    HomingTorqueLost = 11,
    RailUnfit = 12,
}

// The verdict's number: 0 where accepted.
pub fn verdict_number(verdict: Result<(), Refusal>) -> u32
    ensures { result ≡ verdict_number verdict }
{
    match verdict {
        Ok(()) => 0,
        Err(refusal) => refusal.into(),
    }
}
