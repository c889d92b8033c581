// Events, answers and settings as plain 32-bit words (specs/Words.antt), for programs in other languages.
//
// Signed numbers stand as their 32-bit pattern. Every function answers every value of its arguments.
#![tactic(auto)]

ghost use Rattle.std.specs.Prelude.{◌≡◌, length, get_or};
ghost use Rattle.std.proofs.lemmas.List.Edits.{sets};
ghost use Rattle.records.specs.Words.{signed_at, control_in, request_at, gains_in, set2_if, command_in, tick_in, settings_of_fields, answer_words, seven_of};

use answers::Answer;
use commands::Command;
use hybrid::Hybrid;
use legs::events::Switches;
use settings::Settings;
use ticks::Tick;
use torque::LimitSet;

// A word or a float of a list; past its last, the zero that is given.
// Kept: a test and no `get`, for the module's build (docs/MODULE.md, module/retarget): its code may hold no reference that is read as a number,
// and `get` is built of one.
fn item<T: Copy>(list: &[T], at: usize, zero: T) -> T
    ensures { result ≡ get_or list.now at zero }
{
    if at < list.len() { list[at] } else { zero }
}

// A word read as signed.
fn signed(words: &[u32], at: usize) -> i32
    ensures { result ≡ signed_at words.now at }
{
    patterns::signed(item(words, at, 0))
}

// A control word; one that needs more than 16 bits is none, and is taken as 0: disable voltage.
fn control_word(word: u32) -> u16
    ensures { result ≡ control_in word }
{
    u16::try_from(word).unwrap_or(0)
}

// A torque request, held within 16 bits.
#[tactic(auto, using(crate::proofs::Numbers::held_fits))]
fn request(words: &[u32], at: usize) -> i16
    ensures { result ≡ request_at words.now at }
{
    counts::clamp(signed(words, at), -0x8000, 0x7FFF) as i16
}

fn limit_set(second: bool) -> LimitSet
    ensures { result ≡ set2_if second }
{
    if second {
        LimitSet::Set2
    } else {
        LimitSet::Set1
    }
}

#[tactic(auto, unfolding(crate::specs::Words::gains_in))]
fn gains(f: &[f32]) -> Hybrid
    ensures { result ≡ gains_in f.now }
{
    Hybrid {
        kp: item(f, 0, 0.0),
        kd: item(f, 1, 0.0),
        pd: item(f, 2, 0.0),
        vd: item(f, 3, 0.0),
        t: item(f, 4, 0.0),
        p: item(f, 5, 0.0),
        v: item(f, 6, 0.0),
    }
}

// Kept: the kinds of commands are numbers here, since C hands them in, and every number is one (`command_in`).
#[tactic(auto, unfolding(crate::specs::Words::command_in))]
fn command(e: &[u32], f: &[f32]) -> Command
    ensures { result ≡ command_in e.now f.now }
{
    match item(e, 0, 0) {
        1 => Command::Hybrid(gains(f)),
        2 => Command::Homing(request(e, 5)),
        3 => Command::Position(signed(e, 6), request(e, 5)),
        4 => Command::Torque(request(e, 5)),
        _ => Command::Rest,
    }
}

// The tick of an event. Its command comes last, so that what looks at it next is not a branch of its own.
#[tactic(auto, unfolding(crate::specs::Words::tick_in))]
pub fn tick(e: &[u32], f: &[f32]) -> Tick
    ensures { result ≡ tick_in e.now f.now }
{
    let inputs = (item(e, 3, 0) % 0x10000) as u16;
    let control = control_word(item(e, 1, 0));
    let position = signed(e, 2);
    let switches = Switches::from(inputs);
    let still = counts::bit(inputs, 4);
    let set = limit_set(counts::bit(inputs, 5));
    let alarm = item(e, 4, 0);
    let command = command(e, f);
    Tick {
        control,
        command,
        position,
        switches,
        still,
        set,
        alarm,
    }
}

// An answer's seven words.
#[tactic(auto, unfolding(crate::specs::Words::answer_words))]
fn answer_words(a: Answer) -> [u32; 7]
    ensures { result ≡ answer_words a }
{
    let torque = counts::pattern(a.torque);
    let speed = counts::pattern(a.speed);
    let position = counts::pattern(a.position);
    let mode = counts::pattern(a.mode);
    [
        a.number,
        torque,
        speed,
        position,
        a.status as u32,
        mode,
        a.alarm,
    ]
}

// By value an array tells its length; in a contract, a reference to it does not.
fn answer_space(out: [u32; 7])
    ensures { length out ≡ 7 }
{}

// Kept: one by one, for a rule of the project (speed on the smallest cores). A loop or a copied slice becomes a block copy, which a core that
// asks for alignment makes byte by byte.
fn put_words(out: &mut [u32; 7], w: [u32; 7])
    ensures { out.new ≡ sets out.old 0 (seven_of w) }
{
    out[0] = w[0];
    out[1] = w[1];
    out[2] = w[2];
    out[3] = w[3];
    out[4] = w[4];
    out[5] = w[5];
    out[6] = w[6];
}

// An answer, handed out as words.
pub fn put_answer(out: &mut [u32; 7], a: Answer)
    ensures { out.new ≡ answer_words a }
{
    answer_space(*out);
    put_words(out, answer_words(a));
}

// Settings from their sixteen fields, in the order of the struct.
#[tactic(auto, unfolding(crate::specs::Words::settings_of_fields))]
pub fn settings_of_fields(f: &[u32]) -> Settings
    ensures { result ≡ settings_of_fields f.now }
{
    Settings {
        method: item(f, 0, 0),
        fast: item(f, 1, 0),
        slow: item(f, 2, 0),
        offset: signed(f, 3),
        numerator: item(f, 4, 0),
        denominator: item(f, 5, 0),
        lower: signed(f, 6),
        upper: signed(f, 7),
        maximum: item(f, 8, 0),
        positive1: item(f, 9, 0),
        negative1: item(f, 10, 0),
        positive2: item(f, 11, 0),
        negative2: item(f, 12, 0),
        option: item(f, 13, 0),
        rated: item(f, 14, 0),
        homing: item(f, 15, 0),
    }
}
