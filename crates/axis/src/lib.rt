// One axis, fed by settings words and ticks. It lives in words that the caller lends, which `cells` alone reads and writes.
#![tactic(auto)]

mod under;

ghost use Rattle.std.specs.Prelude.{◌≡◌, true, false, ◌<◌, ◌≤◌};
ghost use Rattle.layouts.specs.Layout.{size};
ghost use Rattle.words.specs.Decode.{settings_from};
ghost use Rattle.reader.specs.Read.{layout_in, start_read, field_read, end_read};
ghost use Rattle.cells.specs.Cells.{pending_in};
ghost use Rattle.cells.specs.Writes.{first_values_in};
ghost use Rattle.axis.specs.Calls.{FreshCall, Takes, read_in, Completes, WordCall, TickCall};

use answers::Answer;
use cells::Lent;
use settings::{Refusal, Settings};
use ticks::Tick;
use words::KIND;

// A fresh axis: no settings, nothing pending, Not ready, homing idle.
pub fn fresh(axis: &mut Lent)
    ensures { FreshCall axis.new }
{
    cells::clear(axis);
}

// A start word begins afresh.
fn start(axis: &mut Lent, layout: u32) -> Result<(), Refusal>
    ensures { Takes axis.old false (read_in axis.old (start_read layout)) axis.new result }
{
    if layouts::is_layout(layout) {
        cells::begin(axis, layout);
        Ok(())
    } else {
        cells::empty(axis);
        Err(Refusal::UnknownLayout)
    }
}

// Keeps one word's data, of the kind that is due.
fn store(axis: &mut Lent, layout: u32, kind: u32, value: u32) -> Result<(), Refusal>
    requires { (layout ≡ layout_in (pending_in axis.old)) × (kind < 15) × (kind ≡ (pending_in axis.old).count) }
    ensures { Takes axis.old false (read_in axis.old (field_read (pending_in axis.old) kind value)) axis.new result }
{
    if kinds::field_ok(layout, kind, value) {
        cells::append(axis, value);
        Ok(())
    } else {
        cells::empty(axis);
        Err(Refusal::OutOfRange)
    }
}

// Complete settings come into force (01: takeover), unless the drive is live.
fn complete(axis: &mut Lent, s: Settings) -> Result<(), Refusal>
    requires { s ≡ settings_from s.offset s.lower s.upper s.option s.homing (first_values_in axis.old) }
    ensures { Completes axis.old s axis.new result }
{
    let state = cells::state(axis);
    if states::is_live(state) {
        Err(Refusal::DriveActive)
    } else {
        cells::take_over(axis, &s);
        Ok(())
    }
}

// An end word closes what is pending.
fn finish(axis: &mut Lent, sum: u32) -> Result<(), Refusal>
    requires { size (layout_in (pending_in axis.old)) ≤ (pending_in axis.old).count }
    ensures { Takes axis.old true (read_in axis.old (end_read (pending_in axis.old) sum)) axis.new result }
{
    let s = cells::pending_settings(axis);
    let verdict = reader::close(s, cells::checksum(axis), sum);
    cells::empty(axis);
    match verdict {
        Ok(()) => complete(axis, s),
        Err(refusal) => Err(refusal),
    }
}

// One settings word.
pub fn word(axis: &mut Lent, word: u32) -> Result<(), Refusal>
    ensures { WordCall axis.old word axis.new result }
{
    let kind = word / KIND;
    if kind == 0 {
        return start(axis, word % KIND);
    }
    let layout = cells::layout(axis);
    if kind == reader::due_kind(layout, cells::count(axis)) {
        let value = word % KIND;
        if kind < 15 {
            store(axis, layout, kind, value)
        } else {
            finish(axis, value)
        }
    } else {
        cells::empty(axis);
        Err(Refusal::OutOfSequence)
    }
}

// One tick; refused while no settings are in force.
pub fn tick(axis: &mut Lent, t: Tick) -> Answer
    ensures { TickCall axis.old t axis.new result }
{
    if cells::is_active(axis) {
        under::tick(axis, t)
    } else {
        answers::refused(Refusal::NoSettings)
    }
}
