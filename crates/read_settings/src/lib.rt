// Read settings (02, S-12): what a store's settings are to a reader of a version, and the rack's stretch.

#![tactic(auto)]

ghost use Rattle.std.specs.Prelude.{◌≡◌};
ghost use Rattle.answers.specs.Told.{told_shown};
ghost use Rattle.read_settings.specs.ReadSettings.{shown_if, read_settings};

use answers::{Refusal, Shown};

// What a version shows of a store that is sound for it. The one product of the library stands here.
fn shown(settings: &[u8], version: u32, show: f32) -> Result<Shown, Refusal>
    ensures { told_shown result ≡ shown_if version settings.now show }
{
    if !settings::all_fit(settings, version) {
        return Err(Refusal::Range);
    }
    if !values::is_stretch(show) {
        return Err(Refusal::Range);
    }
    let pitch = values::whole_in(settings::pitch(settings));
    let stretch = values::real_in(settings::stretch(settings));
    let rack = stretch * show;
    if version != 2 {
        return Ok(Shown::First(pitch, stretch, rack));
    }
    let level = values::whole_in(settings::level(settings));
    Ok(Shown::Second(pitch, stretch, level, rack))
}

pub fn read_settings(settings: &[u8], version: u32, show: f32) -> Result<Shown, Refusal>
    ensures { told_shown result ≡ read_settings version settings.now show }
{
    sound_settings::checked(settings, version)?;
    shown(settings, version, show)
}
