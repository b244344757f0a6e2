// What is wrong with a settings store for a reader (02, S-12): 2, 15 and 16.

#![tactic(auto)]

ghost use Rattle.std.specs.Prelude.{◌≡◌};
ghost use Rattle.answers.specs.Told.{told_done, refused};
ghost use Rattle.settings_spec.specs.Settings.{is_length, is_version, walks as walks_of, is_sound, store_refusal};

use answers::Refusal;

#[tactic(auto, unfolding(settings_spec::specs::Settings::is_length))]
fn is_length(n: usize) -> bool
    ensures { result ≡ is_length n }
{
    (32..=65536).contains(&n)
}

#[tactic(auto, unfolding(settings_spec::specs::Settings::is_version))]
fn is_version(v: u32) -> bool
    ensures { result ≡ is_version v }
{
    matches!(v, 1 | 2)
}

// Whether at most n records stand behind record 0, each right by itself, and then nothing.
#[tactic(auto, using(settings_spec::proofs::Laws::Turns::walks_turns))]
fn walks(settings: &[u8], n: usize) -> bool
    ensures { result ≡ walks_of settings.now n 0 }
{
    let mut p = 0;
    for _ in 0..n {
        let Some(q) = settings::next(settings, p) else {
            return true;
        };
        if !settings::is_record(settings, q) {
            return false;
        }
        p = q;
    }
    settings::next(settings, p).is_none()
}

// Whether there is no index outside, no circle, no length or kind out of range and no name twice.
#[tactic(auto, unfolding(settings_spec::specs::Settings::is_sound, settings_spec::specs::Settings::order))]
fn is_sound(settings: &[u8]) -> bool
    ensures { result ≡ is_sound settings.now }
{
    let n = settings.len() / 32;
    walks(settings, n) && setting_names::names_differ(settings, n)
}

// Refusals 2, 15 and 16 of a store for a reader of this version.
#[tactic(auto, unfolding(settings_spec::specs::Settings::store_refusal))]
pub fn checked(settings: &[u8], version: u32) -> Result<(), Refusal>
    ensures { told_done result ≡ refused (store_refusal version settings.now) 0 }
{
    if !is_length(settings.len()) {
        return Err(Refusal::Unsound);
    }
    if !is_version(version) || !is_version(u32::from(records::u16_at(settings, 0))) {
        return Err(Refusal::Version);
    }
    if !is_sound(settings) {
        return Err(Refusal::Records);
    }
    Ok(())
}
