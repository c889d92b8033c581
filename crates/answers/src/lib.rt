// What a tick hands out.
#![tactic(auto)]

ghost use Rattle.std.specs.Prelude.{◌≡◌};
ghost use Rattle.answers.specs.Answer.{refused_answer};

use settings::Refusal;

#[derive(Clone, Copy)]
pub struct Answer {
    // 0, or why the tick is refused.
    // Kept: no Result, since C receives the number beside the zeros of a refused tick, and TickNumbers and RefusedTicks speak of both.
    pub number: u32,
    pub torque: i32,
    pub speed: i32,
    pub position: i32,
    pub status: u16,
    pub mode: i32,
    pub alarm: u32,
}

// A refused tick commands nothing.
pub fn refused(refusal: Refusal) -> Answer
    ensures { result ≡ refused_answer refusal }
{
    Answer {
        number: refusal.into(),
        torque: 0,
        speed: 0,
        position: 0,
        status: 0,
        mode: 0,
        alarm: 0,
    }
}
