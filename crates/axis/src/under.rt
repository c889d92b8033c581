// A tick under settings. Settings and motion are read where they are used, and what the tick leaves is written as soon as it is known: few
// values are alive at a time.
ghost use Rattle.std.specs.Prelude.{◌≡◌, true};
ghost use Rattle.commands.specs.Commands.{mode_of, whole_demand};
ghost use Rattle.legs.specs.Numbers.{leg_from};
ghost use Rattle.legs.specs.Events.{view_of};
ghost use Rattle.homing.specs.Phase.{phase_of};
ghost use Rattle.homing.specs.Steps.{stopped_of};
ghost use Rattle.torque.specs.Torque.{torque_of};
ghost use Rattle.speed.specs.Speed.{leg_speed, speed_of};
ghost use Rattle.position.specs.Position.{position_of, clamped_of};
ghost use Rattle.states.specs.Alarm.{latched_of};
ghost use Rattle.ticks.specs.Rules.{alarm_in, view_with};
ghost use Rattle.ticks.specs.Motion.{driven, phased};
ghost use Rattle.ticks.specs.After.{new_mode, new_state};
ghost use Rattle.patterns.specs.Patterns.{switch_bits};
ghost use Rattle.cells.specs.Cells.{settings_in, motion_in};
ghost use Rattle.cells.specs.Writes.{Moved};
ghost use Rattle.answers.specs.Answer.{answer_by};
ghost use Rattle.axis.specs.Calls.{arrived, Homes, Runs};

use answers::Answer;
use cells::Lent;
use commands::Demand;
use legs::events;
use legs::events::Seen;
use modes::Mode;
use states::State;
use ticks::Tick;
use torque::LimitSet;

// A tick, and its switches as bits, which are made once.
#[derive(Clone, Copy)]
struct Inputs {
    tick: Tick,
    switches: u32,
    ghost same: { switches ≡ switch_bits tick.switches },
}

// The drive after a tick.
#[derive(Clone, Copy)]
struct Drive {
    state: State,
    // Modes of operation display (01: shown mode).
    mode: Mode,
    // Latched alarm number.
    alarm: u32,
}

// alarm has what the command adds to the alarm word.
fn drive_after(axis: &Lent, t: Tick, wanted: Mode, alarm: u32) -> Drive
    requires wanted { wanted ≡ mode_of t.command }
    requires alarm { alarm ≡ alarm_in (settings_in axis.now) t }
    ensures state { result.state ≡ new_state (settings_in axis.now) (motion_in axis.now) t }
    ensures mode { result.mode ≡ new_mode (motion_in axis.now) t }
    ensures alarm { result.alarm ≡ latched_of (motion_in axis.now).alarm (motion_in axis.now).state result.state alarm }
{
    let before = cells::state(axis);
    let shown = cells::mode(axis);
    let mode = modes::shown(wanted, shown, before, t.still);
    let state = drive::next(
        before,
        t.control,
        cells::control(axis),
        t.still,
        cells::option(axis),
        alarm,
    );
    let number = states::latched(cells::alarm(axis), before, state, alarm);
    Drive {
        state,
        mode,
        alarm: number,
    }
}

fn torque_in(axis: &Lent, mode: Mode, set: LimitSet, on: bool, demand: Demand) -> i32
    ensures { result ≡ torque_of (settings_in axis.now) mode set on (whole_demand demand) }
{
    if on {
        torque::torque(cells::settings_in(axis), mode, set, on, demand)
    } else {
        0
    }
}

// What homing sees of a tick in which it is matched and the drive in Operation enabled.
fn seen(axis: &Lent, inputs: &Inputs) -> Seen
    ensures { view_of result ≡ view_with (motion_in axis.now).switches (motion_in axis.now).position inputs.now.tick true }
{
    let t = &inputs.tick;
    let movement = counts::moved(t.position, cells::position(axis));
    Seen {
        kept: counts::bit(t.control, 4),
        halted: counts::bit(t.control, 8),
        movement,
        before: cells::switches(axis),
        now: inputs.switches,
    }
}

fn speed_in(axis: &Lent, leg: u32) -> i32
    ensures { result ≡ leg_speed (settings_in axis.now) (leg_from leg) }
{
    speed::speed(cells::settings_in(axis), leg)
}

// Where homing stands after a start or a step. Home is the position of the tick in which the axis becomes homed.
fn put_stand(axis: &mut Lent, phase: u32, position: i32)
    ensures { Moved axis.old (arrived (motion_in axis.old) (phase_of phase) position) axis.new }
{
    cells::put_phase(axis, phase);
    if homing::is_homed(phase) {
        cells::put_home(axis, position);
    }
}

// The same, and the speed: that of the running leg, 0 where none runs and in a halted tick.
fn settle(axis: &mut Lent, phase: u32, halted: bool, position: i32) -> i32
    ensures moved { Moved axis.old (arrived (motion_in axis.old) (phase_of phase) position) axis.new }
    ensures speed { result ≡ speed_of (settings_in axis.old) (phase_of phase) halted }
{
    put_stand(axis, phase, position);
    if homing::is_running(phase) & !halted {
        speed_in(axis, phase)
    } else {
        0
    }
}

// Homing in a tick in which it is matched and the drive in Operation enabled.
fn in_homing(axis: &mut Lent, inputs: &Inputs) -> i32
    ensures { Homes axis.old inputs.now.tick true axis.new result }
{
    let t = &inputs.tick;
    let method = cells::method(axis);
    let halted = counts::bit(t.control, 8);
    if control::rising(cells::control(axis), t.control, 4) {
        let started = homing::start(method, inputs.switches);
        return settle(axis, started, halted, t.position);
    }
    let phase = cells::phase(axis);
    if homing::is_running(phase) {
        let stepped = homing::step(phase, method, seen(axis, inputs));
        settle(axis, stepped, halted, t.position)
    } else {
        0
    }
}

// Homing in any other tick stops; home stays.
fn out_of_homing(axis: &mut Lent)
    ensures { Moved axis.old (phased (motion_in axis.old) (stopped_of (motion_in axis.old).phase)) axis.new }
{
    let stopped = homing::stop(cells::phase(axis));
    cells::put_phase(axis, stopped);
}

// Homing's part of a tick. Returns the speed.
fn homing_after(axis: &mut Lent, inputs: &Inputs, on: bool) -> i32
    ensures { Homes axis.old inputs.now.tick on axis.new result }
{
    if on {
        in_homing(axis, inputs)
    } else {
        out_of_homing(axis);
        0
    }
}

// A commanded position, and whether its target was clamped. Kept: a flag beside the value, which counts whatever the flag says.
#[derive(Clone, Copy)]
struct Place {
    position: i32,
    clamped: bool,
}

fn place_in(axis: &Lent, home: i32, followed: Option<i32>, actual: i32) -> Place
    ensures position { result.position ≡ position_of (settings_in axis.now) home followed actual }
    ensures clamped { result.clamped ≡ clamped_of (settings_in axis.now) followed }
{
    if followed.is_some() {
        let s = cells::settings_in(axis);
        Place {
            position: position::position(s, home, followed, actual),
            clamped: position::is_clamped(s, followed),
        }
    } else {
        Place {
            position: actual,
            clamped: false,
        }
    }
}

// What the tick hands out, by the motion that it has left.
fn answer(axis: &Lent, inputs: &Inputs, d: Drive, torque: i32, speed: i32) -> Answer
    ensures { result ≡ answer_by (settings_in axis.now) inputs.now.tick (driven (motion_in axis.now) d.state d.mode d.alarm) torque speed }
{
    let t = &inputs.tick;
    let command = t.command;
    let mode = d.mode;
    let state = d.state;
    let phase = cells::phase(axis);
    let followed = ticks::command_target(command, mode, state, homing::is_homed(phase));
    let place = place_in(axis, cells::home(axis), followed, t.position);
    let following = followed.is_some();
    let positive = events::positive_on(inputs.switches);
    let negative = events::negative_on(inputs.switches);
    let limited = status::limit_active(positive, negative, place.clamped);
    Answer {
        number: 0,
        torque,
        speed,
        position: place.position,
        mode: modes::number(mode),
        status: status::statusword(state, mode, phase, following, limited),
        alarm: d.alarm,
    }
}

// Drive, torque and homing; the inputs are remembered; then the answer.
pub fn tick(axis: &mut Lent, t: Tick) -> Answer
    ensures { Runs axis.old t axis.new result }
{
    let command = t.command;
    let set = t.set;
    let inputs = Inputs {
        tick: t,
        switches: u32::from(t.switches),
    };
    let demand = commands::torque_demand(command, cells::rated(axis));
    let wanted = commands::mode(command);
    let d = drive_after(axis, t, wanted, commands::alarms(demand, t.alarm));
    let state = d.state;
    let mode = d.mode;
    let on = states::is_live(state) & modes::is_matched(wanted, mode);
    let torque = torque_in(axis, mode, set, on, demand);
    cells::put_drive(axis, state, mode, d.alarm);
    let speed = homing_after(axis, &inputs, ticks::homing_on(wanted, mode, state));
    cells::put_inputs(axis, t.control, inputs.switches, t.position);
    answer(axis, &inputs, d, torque, speed)
}
