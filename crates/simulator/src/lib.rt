// Settings tried on a paper rail (02, (vii)): the axis is run by its own calls.
#![tactic(auto)]

ghost use Rattle.std.specs.Prelude.{◌≡◌, ◌-◌, ◌≤◌, Ok};
ghost use Rattle.homing.specs.Phase.{phase_of};
ghost use Rattle.cells.specs.Cells.{axis_in};
ghost use Rattle.checks.specs.Check.{verdict_of};
ghost use Rattle.homing.specs.Moving.{running_leg};
ghost use Rattle.simulator.specs.Run.{tick_at, after, after_words, started_from, started, way_of, phase_on, stopped, stop_of, ran, ride, refused_run, judged, run_of};
ghost use Rattle.simulator.specs.Stretch.{StaysNear, Stretches};
ghost use Rattle.simulator.specs.Trace.{route_in, RunsLeg, legs_from, no_leg, trace_of};

use carriage::Rail;
use cells::Lent;
use commands::Command;
use settings::{Refusal, Settings};
use ticks::Tick;
use torque::LimitSet;

// What stopped a run; a refused one has none.
// Kept: None is one of them, since theorems of arrival (`NotRun`) say what a refused run has.
#[derive(Clone, Copy)]
pub enum Stop {
    None,
    Homed,
    Failed,
    Ticks,
}

#[derive(Clone, Copy)]
pub struct Outcome {
    // 0, or the refusal's. Kept: a number, for the theorems of arrival on it and on the zeros beside it.
    pub number: u32,
    // The ticks run, the start tick included.
    pub ticks: u32,
    pub stop: Stop,
}

// A leg of a run: the ticks that it ran, and the cell where it ended.
#[derive(Clone, Copy)]
pub struct LegRun {
    // This leg and those after it, as `legs` numbers them.
    pub route: u32,
    pub ticks: u32,
    pub cell: i64,
}

// A run and its legs, in their order: no route has more than four. A leg with no tick did not run.
// Kept: four fields and no array, for the theorems `Whole` (arrival) and `PictureBounded` (drawing), which hold of every trace: of a list they would
// need a premise on its length.
#[derive(Clone, Copy)]
pub struct Trace {
    pub outcome: Outcome,
    pub first: LegRun,
    pub second: LegRun,
    pub third: LegRun,
    pub fourth: LegRun,
}

// What is left of a run: the ticks to come, and the cell where the carriage stands, which stays well within 64 bits.
#[derive(Clone, Copy)]
struct Trip {
    rail: Rail,
    ticks: u32,
    cell: i64,
    ghost near: { StaysNear rail ticks cell },
}

fn tick_at(rail: Rail, control: u16, cell: i64) -> Tick
    ensures { result ≡ tick_at rail control cell }
{
    let switches = carriage::switches_at(rail, cell);
    Tick {
        control,
        command: Command::Homing(0),
        position: counts::wrap(cell),
        switches,
        still: false,
        set: LimitSet::Set1,
        alarm: 0,
    }
}

// One tick at a cell.
fn tick(axis: &mut Lent, rail: Rail, control: u16, cell: i64)
    ensures { axis_in axis.new ≡ after rail control cell (axis_in axis.old) }
{
    axis::tick(axis, tick_at(rail, control, cell));
}

// Settings words, one after the other.
fn take_words(axis: &mut Lent, words: [u32; 16])
    ensures { axis_in axis.new ≡ after_words (axis_in axis.old) words }
{
    for word in words {
        let _ = axis::word(axis, word);
    }
}

// Brought to Operation enabled, and started, at a cell.
fn enable_and_start(axis: &mut Lent, rail: Rail, cell: i64)
    ensures { axis_in axis.new ≡ started_from rail cell (axis_in axis.old) }
{
    tick(axis, rail, 0x0000, cell);
    tick(axis, rail, 0x0006, cell);
    tick(axis, rail, 0x0007, cell);
    tick(axis, rail, 0x000F, cell);
    tick(axis, rail, 0x001F, cell);
}

// A fresh axis takes the settings over, in layout 3, which holds all that are acceptable, and is started.
fn begin(axis: &mut Lent, rail: Rail, s: Settings, start: i32)
    requires { verdict_of s ≡ Ok tt }
    ensures { axis_in axis.new ≡ started rail s start }
{
    let mut words = [0u32; 16];
    let _ = writer::write(3, s, &mut words);
    axis::fresh(axis);
    take_words(axis, words);
    enable_and_start(axis, rail, start as i64);
}

fn has_stopped(phase: u32) -> bool
    ensures { result ≡ stopped (phase_of phase) }
{
    homing::is_homed(phase) | homing::has_failed(phase)
}

fn stop_in(phase: u32) -> Stop
    ensures { result ≡ stop_of (phase_of phase) }
{
    if homing::is_homed(phase) {
        return Stop::Homed;
    }
    if homing::has_failed(phase) {
        Stop::Failed
    } else {
        Stop::Ticks
    }
}

// The carriage's way in a tick; idle homing, where no acceptable settings lead, moves nothing.
fn stride_in(rail: Rail, phase: u32) -> i64
    ensures { result ≡ way_of rail (running_leg (phase_of phase)) }
{
    if homing::is_running(phase) {
        carriage::stride(rail, phase)
    } else {
        0
    }
}

// Ticks for as long as one leg runs. Its stride is read off once.
fn stretch(axis: &mut Lent, trip: &mut Trip)
    ensures same_rail { trip.new.rail ≡ trip.old.rail }
    ensures fewer { trip.new.ticks ≤ trip.old.ticks }
    ensures led { Stretches trip.old.rail trip.old.ticks (axis_in axis.old) trip.old.cell (trip.old.ticks - trip.new.ticks) trip.new.cell (axis_in axis.new) }
{
    let phase = cells::phase(axis);
    if has_stopped(phase) {
        return;
    }
    let stride = stride_in(trip.rail, phase);
    while trip.ticks > 0 && cells::phase(axis) == phase {
        trip.ticks -= 1;
        trip.cell += stride;
        tick(axis, trip.rail, 0x001F, trip.cell);
    }
}

// The ticks after the start tick, leg by leg. Returns how many were run.
fn ride(axis: &mut Lent, mut trip: Trip) -> u32
    ensures upper_bound { result ≤ trip.ticks }
    ensures cell_value { ride trip.rail trip.ticks (axis_in axis.old) trip.cell ≡ ran result (stop_of (phase_on (axis_in axis.new))) }
{
    let given = trip.ticks;
    while trip.ticks > 0 && !has_stopped(cells::phase(axis)) {
        stretch(axis, &mut trip);
    }
    given - trip.ticks
}

fn refused(refusal: Refusal) -> Outcome
    ensures { result ≡ refused_run refusal }
{
    Outcome {
        number: u32::from(refusal),
        ticks: 0,
        stop: Stop::None,
    }
}

// Whether a run may be made: first by rail, start and ticks, then by the settings.
fn judge(rail: Rail, s: Settings, start: i32, ticks: u32) -> Result<(), Refusal>
    ensures { result ≡ judged rail s start ticks }
{
    if carriage::fits(rail, start, ticks) {
        checks::check(s)
    } else {
        Err(Refusal::RailUnfit)
    }
}

// A run that may be made, after its start tick.
fn first_trip(rail: Rail, s: Settings, start: i32, ticks: u32) -> Trip
    requires { judged rail s start ticks ≡ Ok tt }
    ensures rail { result.rail ≡ rail }
    ensures ticks { result.ticks ≡ ticks - 1 }
    ensures cell { result.cell ≡ start }
{
    Trip {
        rail,
        ticks: ticks - 1,
        cell: start as i64,
    }
}

// A run that may be made.
fn run_admitted(rail: Rail, s: Settings, start: i32, ticks: u32) -> Outcome
    requires { judged rail s start ticks ≡ Ok tt }
    ensures { result ≡ run_of rail s start ticks }
{
    let mut axis: Lent = [0; 39];
    begin(&mut axis, rail, s, start);
    let later = ride(&mut axis, first_trip(rail, s, start, ticks));
    let stop = stop_in(cells::phase(&axis));
    Outcome {
        number: 0,
        ticks: later + 1,
        stop,
    }
}

// A run from a start cell, given so many ticks.
// Kept: four parameters and no struct of them, for the theorems of arrival on `run_of` and `trace_of`, which take them one by one.
pub fn run(rail: Rail, s: Settings, start: i32, ticks: u32) -> Outcome
    ensures { result ≡ run_of rail s start ticks }
{
    match judge(rail, s, start, ticks) {
        Err(refusal) => refused(refusal),
        Ok(()) => run_admitted(rail, s, start, ticks),
    }
}

fn route_in(phase: u32) -> u32
    ensures { result ≡ route_in (phase_of phase) }
{
    if homing::is_running(phase) { phase } else { 0 }
}

// One leg.
fn run_leg(axis: &mut Lent, trip: &mut Trip) -> LegRun
    ensures told { RunsLeg trip.old.rail trip.old.ticks (axis_in axis.old) trip.old.cell result (axis_in axis.new) }
    ensures same_rail { trip.new.rail ≡ trip.old.rail }
    ensures ticks { trip.new.ticks ≡ trip.old.ticks - result.ticks }
    ensures cell { trip.new.cell ≡ result.cell }
{
    let route = route_in(cells::phase(axis));
    let given = trip.ticks;
    stretch(axis, trip);
    LegRun {
        route,
        ticks: given - trip.ticks,
        cell: trip.cell,
    }
}

// The legs after the start tick.
fn run_legs(axis: &mut Lent, mut trip: Trip, outcome: Outcome) -> Trace
    ensures { result ≡ legs_from trip.rail trip.ticks (axis_in axis.old) trip.cell outcome }
{
    let first = run_leg(axis, &mut trip);
    let second = run_leg(axis, &mut trip);
    let third = run_leg(axis, &mut trip);
    let fourth = run_leg(axis, &mut trip);
    Trace {
        outcome,
        first,
        second,
        third,
        fourth,
    }
}

fn no_leg(start: i32) -> LegRun
    ensures { result ≡ no_leg start }
{
    LegRun {
        route: 0,
        ticks: 0,
        cell: start as i64,
    }
}

// A run, followed leg by leg.
pub fn follow(rail: Rail, s: Settings, start: i32, ticks: u32) -> Trace
    ensures { result ≡ trace_of rail s start ticks }
{
    let outcome = run(rail, s, start, ticks);
    if outcome.number == 0 {
        let mut axis: Lent = [0; 39];
        begin(&mut axis, rail, s, start);
        run_legs(&mut axis, first_trip(rail, s, start, ticks), outcome)
    } else {
        Trace {
            outcome,
            first: no_leg(start),
            second: no_leg(start),
            third: no_leg(start),
            fourth: no_leg(start),
        }
    }
}
