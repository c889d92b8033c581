// The control word (CiA 402): what it asks of the drive, and the rise of a bit.
#![tactic(auto)]

ghost use Rattle.std.specs.Prelude.{◌≡◌};
ghost use Rattle.control.specs.Control.{control_command_of, bit_rises};

// What a control word may ask of the drive.
#[derive(Clone, Copy)]
pub enum ControlCommand {
    DisableVoltage,
    QuickStop,
    Shutdown,
    SwitchOn,
    EnableOperation,
}

// What a control word asks of the drive; nothing where its bit 7, fault reset, is set.
#[tactic(auto, unfolding(crate::specs::Control::control_command_of))]
pub fn control_command(control: u16) -> Option<ControlCommand>
    ensures { result ≡ control_command_of control }
{
    if counts::bit(control, 7) {
        None
    } else if !counts::bit(control, 1) {
        Some(ControlCommand::DisableVoltage)
    } else if !counts::bit(control, 2) {
        Some(ControlCommand::QuickStop)
    } else if !counts::bit(control, 0) {
        Some(ControlCommand::Shutdown)
    } else if !counts::bit(control, 3) {
        Some(ControlCommand::SwitchOn)
    } else {
        Some(ControlCommand::EnableOperation)
    }
}

// Whether a control bit is set now and was not in the word before.
pub fn rising(before: u16, control: u16, place: u32) -> bool
    ensures { result ≡ bit_rises before control place }
{
    !counts::bit(before, place) && counts::bit(control, place)
}
