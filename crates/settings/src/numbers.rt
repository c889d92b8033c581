// The refusals' numbers. They stand apart from the settings, whose file the narrow gear names (`.ci/narrow` reads no `impl`).
ghost use Rattle.std.specs.Prelude.{◌≡◌};
ghost use Rattle.settings.specs.Refusal.{number_of};

use crate::Refusal;

impl From<Refusal> for u32 {
    ghost from_gives = { λ refusal number. number ≡ number_of refusal };

    fn from(refusal: Refusal) -> u32 {
        refusal as u32
    }
}
