// The axis in words that the caller lends: what each word is, and every read and write of them.
#![tactic(auto)]

ghost use Rattle.std.specs.Prelude.{◌≡◌, not, length, ◌==◌};
ghost use Rattle.homing.specs.Phase.{phase_of};
ghost use Rattle.words.specs.Decode.{settings_of};
ghost use Rattle.words.specs.Encode.{checksum_of};
ghost use Rattle.reader.specs.Read.{layout_in};
ghost use Rattle.legs.specs.Events.{switches_in};
ghost use Rattle.patterns.specs.Patterns.{word_at};
ghost use Rattle.ticks.specs.Motion.{driven, phased, home_at, fed};
ghost use Rattle.cells.specs.Lists.{cells_from};
ghost use Rattle.cells.specs.Cells.{settings_in, value_in, pending_in, motion_in};
ghost use Rattle.cells.specs.Writes.{Cleared, Emptied, Begun, Appended, first_values_in, values_in, copied, TakenOver, Moved};

use modes::Mode;
use settings::Settings;
use states::State;
use words::{KIND, decoder};

// The lent words: motion, the settings in force, what is pending. Motion comes first: a Cortex-M0 reaches the first 32 words of an array in one
// instruction, and a tick reads and writes motion throughout.
// Kept: an array and no struct, since C lends these words (c/axis.h) and every content of them is an axis.
pub type Lent = [u32; 39];

const STATE: usize = 0;

const MODE: usize = 1;

const ALARM: usize = 2;

const PHASE: usize = 3;

const HOME: usize = 4;

const CONTROL: usize = 5;

const SWITCHES: usize = 6;

const POSITION: usize = 7;

// The data of the settings words that came into force, but offset and position limits, which stand whole, and the option and homing torque, each in
// a word of its own; the first is 1, and 0 where none did.
const ACTIVE: usize = 8;

const METHOD: usize = 9;

const OFFSET: usize = 12;

const LOWER: usize = 15;

const UPPER: usize = 16;

const OPTION: usize = 20;

const RATED: usize = 21;

const HOMING: usize = 22;

// How many settings words are pending, and the first one's data.
const COUNT: usize = 23;

const VALUES: usize = 24;

// Kind 14's data.
const TOPS: usize = 38;

// By value an array tells its length; in a contract, a reference to it does not.
fn lent(axis: Lent)
    ensures { length axis ≡ 39 }
{}

// Whether settings are in force.
pub fn is_active(axis: &Lent) -> bool
    ensures { result ≡ not (word_at axis.now 8 == 0) }
{
    axis[ACTIVE] != 0
}

// Kept: spelled out here and in `first_values`, by a rule of the project (speed on the smallest cores): a loop or a copied slice is a block copy there,
// and the new form, one list from a given place on, is no plainer: fourteen sums and a premise that they lie in the words.
fn active_values(axis: &Lent) -> [u32; 14]
    ensures { result ≡ cells_from 8 14 axis.now }
{
    [
        axis[ACTIVE],
        axis[9],
        axis[10],
        axis[11],
        axis[12],
        axis[13],
        axis[14],
        axis[15],
        axis[16],
        axis[17],
        axis[18],
        axis[19],
        axis[20],
        axis[21],
    ]
}

// The settings in force; where none are, of no meaning.
pub fn settings_in(axis: &Lent) -> Settings
    ensures { result ≡ settings_in axis.now }
{
    let offset = patterns::signed(axis[OFFSET]);
    let lower = patterns::signed(axis[LOWER]);
    let upper = patterns::signed(axis[UPPER]);
    let values = active_values(axis);
    decoder::decode_with(offset, lower, upper, axis[OPTION], axis[HOMING], values)
}

pub fn method(axis: &Lent) -> u32
    ensures { result ≡ (settings_in axis.now).method }
{
    axis[METHOD]
}

pub fn option(axis: &Lent) -> u32
    ensures { result ≡ (settings_in axis.now).option }
{
    axis[OPTION]
}

pub fn rated(axis: &Lent) -> u32
    ensures { result ≡ (settings_in axis.now).rated }
{
    axis[RATED]
}

// How many settings words are pending.
pub fn count(axis: &Lent) -> u32
    ensures { result ≡ (pending_in axis.now).count }
{
    axis[COUNT]
}

// The layout of the pending settings; 0 where nothing is pending.
pub fn layout(axis: &Lent) -> u32
    ensures { result ≡ layout_in (pending_in axis.now) }
{
    if axis[COUNT] == 0 { 0 } else { axis[VALUES] }
}

// Their values of kinds 0 to 13, where all have come.
fn first_values(axis: &Lent) -> [u32; 14]
    ensures { result ≡ first_values_in axis.now }
{
    [
        axis[VALUES],
        axis[25],
        axis[26],
        axis[27],
        axis[28],
        axis[29],
        axis[30],
        axis[31],
        axis[32],
        axis[33],
        axis[34],
        axis[35],
        axis[36],
        axis[37],
    ]
}

// Kind 14's, which layout 1 does not have.
fn tops(axis: &Lent) -> u32
    ensures { result ≡ value_in axis.now 14 }
{
    if axis[COUNT] > 14 { axis[TOPS] } else { 0 }
}

// The settings of the pending values, where all have come.
pub fn pending_settings(axis: &Lent) -> Settings
    ensures { result ≡ settings_of (values_in axis.now) }
{
    let values = first_values(axis);
    decoder::decode(values, tops(axis))
}

// The sum of these values, modulo 2^28.
pub fn checksum(axis: &Lent) -> u32
    ensures { result ≡ checksum_of (values_in axis.now) }
{
    let mut total = tops(axis);
    for value in &axis[VALUES..TOPS] {
        total = total.wrapping_add(*value);
    }
    total % KIND
}

pub fn state(axis: &Lent) -> State
    ensures { result ≡ (motion_in axis.now).state }
{
    State::from(axis[STATE])
}

pub fn mode(axis: &Lent) -> Mode
    ensures { result ≡ (motion_in axis.now).mode }
{
    Mode::from(axis[MODE])
}

pub fn alarm(axis: &Lent) -> u32
    ensures { result ≡ (motion_in axis.now).alarm }
{
    axis[ALARM]
}

pub fn phase(axis: &Lent) -> u32
    ensures { phase_of result ≡ (motion_in axis.now).phase }
{
    axis[PHASE]
}

pub fn home(axis: &Lent) -> i32
    ensures { result ≡ (motion_in axis.now).home }
{
    patterns::signed(axis[HOME])
}

pub fn control(axis: &Lent) -> u16
    ensures { result ≡ (motion_in axis.now).control }
{
    (axis[CONTROL] % 0x10000) as u16
}

// The remembered switches, as bits.
pub fn switches(axis: &Lent) -> u32
    ensures { switches_in result ≡ (motion_in axis.now).switches }
{
    axis[SWITCHES]
}

pub fn position(axis: &Lent) -> i32
    ensures { result ≡ (motion_in axis.now).position }
{
    patterns::signed(axis[POSITION])
}

// A fresh axis: all words are 0.
pub fn clear(axis: &mut Lent)
    ensures { Cleared axis.new }
{
    *axis = [0; 39];
}

// Nothing is pending.
pub fn empty(axis: &mut Lent)
    ensures { Emptied axis.old axis.new }
{
    lent(*axis);
    axis[COUNT] = 0;
}

// A start word is pending.
pub fn begin(axis: &mut Lent, layout: u32)
    ensures { Begun axis.old layout axis.new }
{
    lent(*axis);
    axis[COUNT] = 1;
    axis[VALUES] = layout;
}

// One word's data more is pending, unless all have come.
pub fn append(axis: &mut Lent, value: u32)
    ensures { Appended axis.old value axis.new }
{
    lent(*axis);
    let count = axis[COUNT];
    if count < 15 {
        let place = VALUES + count as usize;
        axis[place] = value;
        axis[COUNT] = count + 1;
    }
}

// Kept: a `for` over places, for a rule of the project (speed on the smallest cores). `copy_within` or a copied slice becomes a call to memmove,
// which a core that asks for alignment makes byte by byte.
fn copy_values(axis: &mut Lent)
    ensures { axis.new ≡ copied 13 axis.old }
{
    for i in 1..14 {
        axis[ACTIVE + i] = axis[VALUES + i];
    }
}

// Settings whose values are pending come into force: the values are copied, what layouts carry in their own ways is stored, and homing is idle (01:
// takeover).
pub fn take_over(axis: &mut Lent, s: &Settings)
    ensures { TakenOver axis.old s.now axis.new }
{
    lent(*axis);
    copy_values(axis);
    axis[ACTIVE] = 1;
    axis[OFFSET] = counts::pattern(s.offset);
    axis[LOWER] = counts::pattern(s.lower);
    axis[UPPER] = counts::pattern(s.upper);
    axis[OPTION] = s.option;
    axis[HOMING] = s.homing;
    axis[PHASE] = homing::IDLE;
}

// The parts of what a tick leaves: the drive's, homing's, and the inputs that the next tick compares with.
pub fn put_drive(axis: &mut Lent, state: State, mode: Mode, alarm: u32)
    ensures { Moved axis.old (driven (motion_in axis.old) state mode alarm) axis.new }
{
    lent(*axis);
    axis[STATE] = u32::from(state);
    axis[MODE] = u32::from(mode);
    axis[ALARM] = alarm;
}

pub fn put_phase(axis: &mut Lent, phase: u32)
    ensures { Moved axis.old (phased (motion_in axis.old) (phase_of phase)) axis.new }
{
    lent(*axis);
    axis[PHASE] = phase;
}

pub fn put_home(axis: &mut Lent, home: i32)
    ensures { Moved axis.old (home_at (motion_in axis.old) home) axis.new }
{
    lent(*axis);
    axis[HOME] = counts::pattern(home);
}

// switches: POT, NOT, HOM, Z, from bit 0 on.
pub fn put_inputs(axis: &mut Lent, control: u16, switches: u32, position: i32)
    ensures { Moved axis.old (fed (motion_in axis.old) control (switches_in switches) position) axis.new }
{
    lent(*axis);
    axis[CONTROL] = control as u32;
    axis[SWITCHES] = switches;
    axis[POSITION] = counts::pattern(position);
}
