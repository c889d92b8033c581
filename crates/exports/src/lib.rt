// The axis and the writer for programs in C: the calls of `c/axis.h`, whose words `crates/records` reads and writes.
// Kept: numbers for refusals, lent words and buffers, for the C interface.
#![tactic(auto)]

ghost use Rattle.std.specs.Prelude.{◌≡◌};
ghost use Rattle.settings.specs.Refusal.{verdict_number};
ghost use Rattle.writer.specs.Write.{write_verdict, written};
ghost use Rattle.records.specs.Words.{settings_of_fields};
ghost use Rattle.exports.specs.Calls.{FreshCall, WordCall, TickCall};

use cells::Lent;
use settings::Refusal;

// A fresh axis.
#[unsafe(no_mangle)]
pub extern "C" fn axis_fresh(axis: &mut Lent)
    ensures { FreshCall axis.new }
{
    axis::fresh(axis);
}

// One settings word. Returns 0, or the refusal's number.
#[unsafe(no_mangle)]
pub extern "C" fn axis_word(axis: &mut Lent, word: u32) -> u32
    ensures { WordCall axis.old word axis.new result }
{
    settings::verdict_number(axis::word(axis, word))
}

// One tick. Returns the answer's number: 0, or the refusal's. Without settings the event is not read.
#[unsafe(no_mangle)]
pub extern "C" fn axis_tick(
    axis: &mut Lent,
    event: &[u32; 7],
    floats: &[f32; 7],
    answer: &mut [u32; 7],
) -> u32
    ensures { TickCall axis.old event.now floats.now axis.new answer.new result }
{
    if cells::is_active(axis) {
        let a = axis::tick(axis, records::tick(event, floats));
        records::put_answer(answer, a);
        a.number
    } else {
        let refused = answers::refused(Refusal::NoSettings);
        records::put_answer(answer, refused);
        refused.number
    }
}

// The writer: settings as the words of a layout to the front of the buffer. Returns 0, or the refusal's number.
#[unsafe(no_mangle)]
pub extern "C" fn axis_write(layout: u32, fields: &[u32; 16], buffer: &mut [u32]) -> u32
    ensures verdict { result ≡ verdict_number (write_verdict layout (settings_of_fields fields.now) buffer.old) }
    ensures words { buffer.new ≡ written layout (settings_of_fields fields.now) buffer.old }
{
    let s = records::settings_of_fields(fields);
    settings::verdict_number(writer::write(layout, s, buffer))
}
