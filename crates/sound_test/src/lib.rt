// The test for a sound table.
// Scope: Careful changes (Sound); refusal 20. Rules: S.
// For callers: `sound`.
#![tactic(auto)]

pub mod few;

ghost use Rattle.std.specs.Prelude.{◌≡◌};
ghost use Rattle.base.specs.Said.{answered};
ghost use Rattle.sound.specs.Sound.{sound_says};

use base::Refusal;
use table::{LOGICALS, MBR};

// The test on any table: rules G5 and S1 to S29.
#[tactic(auto, unfolding(sound::specs::Sound::sound_says))]
pub fn sound(t: MBR) -> Result<bool, Refusal>
    ensures { answered result ≡ sound_says t }
{
    if LOGICALS < t.count {
        return Err(Refusal::TooManyLogicals);
    }
    Ok(few::is_sound(t))
}
