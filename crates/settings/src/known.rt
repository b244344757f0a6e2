// The values of the settings that a version knows.
ghost use Rattle.std.specs.Prelude.{◌≡◌};
ghost use Rattle.settings_spec.specs.Settings.{value_of, pitch_of, stretch_of, level_of, all_fit};

use crate::chain;
use values::{Known, Setting};

// The value of a name, another where it has no record.
#[tactic(auto, unfolding(settings_spec::specs::Settings::value_of))]
fn value_of(settings: &[u8], wanted: &[u8], missing: Setting) -> Setting
    ensures { result ≡ value_of settings.now wanted.now missing }
{
    let Some(i) = chain::record_of(settings, wanted) else {
        return missing;
    };
    let kind = records::byte_at(settings, chain::at(i) + 18);
    values::setting_of(
        u32::from(kind),
        records::u32_at(settings, chain::at(i) + 19),
    )
}

#[tactic(auto, unfolding(settings_spec::specs::Settings::pitch_of))]
pub fn pitch(settings: &[u8]) -> Setting
    ensures { result ≡ pitch_of settings.now }
{
    value_of(settings, b"pitch", Setting::Whole(100))
}

#[tactic(auto, unfolding(settings_spec::specs::Settings::stretch_of))]
pub fn stretch(settings: &[u8]) -> Setting
    ensures { result ≡ stretch_of settings.now }
{
    value_of(settings, b"stretch", Setting::Real(1.0))
}

#[tactic(auto, unfolding(settings_spec::specs::Settings::level_of))]
pub fn level(settings: &[u8]) -> Setting
    ensures { result ≡ level_of settings.now }
{
    value_of(settings, b"level", Setting::Whole(80))
}

// Whether every setting that a version knows is of its kind and in its range.
#[tactic(auto, unfolding(settings_spec::specs::Settings::all_fit))]
pub fn all_fit(settings: &[u8], version: u32) -> bool
    ensures { result ≡ all_fit version settings.now }
{
    values::fits(Some(Known::Pitch), pitch(settings))
        && values::fits(Some(Known::Stretch), stretch(settings))
        && (version != 2 || values::fits(Some(Known::Level), level(settings)))
}
