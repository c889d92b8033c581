// The command of a tick: the mode, the target and the torque that it asks for.
#![tactic(auto)]

ghost use Rattle.std.specs.Prelude.{◌≡◌};
ghost use Rattle.commands.specs.Commands.{mode_of, target_in, demand_of, alarm_of};

use hybrid::Hybrid;
use modes::Mode;

// Each tick carries one. Requests are torques in thousandths of the rated torque; a target is in user units.
#[derive(Clone, Copy)]
pub enum Command {
    Hybrid(Hybrid),
    Homing(i16),
    Position(i32, i16),
    Torque(i16),
    Rest,
}

// The torque that a command asks for: a request, or hybrid's quotient before it is made whole.
#[derive(Clone, Copy)]
pub enum Demand {
    Request(i16),
    Quotient(f32),
}

// The mode that a command asks for; rest has none.
pub fn mode(command: Command) -> Mode
    ensures { result ≡ mode_of command }
{
    match command {
        Command::Hybrid(_) => Mode::Hybrid,
        Command::Homing(_) => Mode::Homing,
        Command::Position(_, _) => Mode::Position,
        Command::Torque(_) => Mode::Torque,
        Command::Rest => Mode::None,
    }
}

// The target of a position command; 0 of any other.
// Kept: 0 where there is none, and no Option. Tried: with a match on the command where the target is asked for (`ticks::command_target`) a followed target
// took 1.17 times the instructions of the hand-written axis, past README's bar. As one value of `&`s the compiler sees what a followed target implies.
pub fn position_target(command: Command) -> i32
    ensures { result ≡ target_in command }
{
    match command {
        Command::Position(target, _) => target,
        _ => 0,
    }
}

pub fn torque_demand(command: Command, rated: u32) -> Demand
    ensures { result ≡ demand_of command rated }
{
    match command {
        Command::Hybrid(h) => Demand::Quotient(hybrid::quotient(h, rated)),
        Command::Homing(request) | Command::Position(_, request) | Command::Torque(request) =>
            Demand::Request(request),
        Command::Rest => Demand::Request(0),
    }
}

// The alarm word of a tick: bit 31 joins it where hybrid's quotient is not finite, whatever the mode.
#[tactic(auto, using(crate::proofs::Alarm::joined))]
pub fn alarms(demand: Demand, alarm: u32) -> u32
    ensures { result ≡ alarm_of demand alarm }
{
    match demand {
        Demand::Quotient(q) if !hybrid::is_finite(q) => alarm | 0x8000_0000,
        Demand::Quotient(_) | Demand::Request(_) => alarm,
    }
}
