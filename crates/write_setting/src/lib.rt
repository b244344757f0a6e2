// Write setting (02, S-12): the value of one setting of a store.

#![tactic(auto)]

ghost use Rattle.std.specs.Prelude.{◌≡◌, true};
ghost use Rattle.answers.specs.Told.{told_done, written};
ghost use Rattle.records.specs.Fields.{put32};
ghost use Rattle.values.specs.Values.{setting_of, bits_of};
ghost use Rattle.settings_spec.specs.Settings.{is_sound, record_of, value_at};
ghost use Rattle.write_setting.specs.WriteSetting.{written_if, write_setting, settings_after};
ghost use Rattle.write_setting.specs.Given.{given_after};

use answers::Refusal;
use values::Setting;

// Puts a value into the record of a name, in a store that is sound.
#[tactic(auto, using(crate::specs::Laws::Ways::ways, settings_spec::proofs::Sound::found_inside), unfolding(crate::specs::WriteSetting::written_if))]
fn put(settings: &mut [u8], version: u32, name: &[u8], value: Setting) -> Result<(), Refusal>
    requires { is_sound settings.old ≡ true }
    ensures result_value { told_done result ≡ written_if version settings.old name.now value }
    ensures settings_after { settings.new ≡ written (written_if version settings.old name.now value) settings.old (put32 settings.old (value_at (record_of settings.old name.now)) (bits_of value)) }
{
    let Some(known) = values::which(version, name) else {
        return Err(Refusal::Records);
    };
    let Some(i) = settings::record_of(settings, name) else {
        return Err(Refusal::Records);
    };
    if !settings::all_fit(settings, version) {
        return Err(Refusal::Range);
    }
    if !values::fits(Some(known), value) {
        return Err(Refusal::Range);
    }
    records::put_u32(settings, settings::at(i) + 19, values::bits_of(value));
    Ok(())
}

#[tactic(auto, using(crate::specs::Laws::Ways::writes, sound_settings::specs::Laws::Checked::none_refused, sound_settings::specs::Laws::Checked::sound_checked))]
pub fn write_setting(
    settings: &mut [u8],
    version: u32,
    name: &[u8],
    value: Setting,
) -> Result<(), Refusal>
    ensures result_value { told_done result ≡ write_setting version settings.old name.now value }
    ensures settings_after { settings.new ≡ settings_after version settings.old name.now value }
{
    sound_settings::checked(settings, version)?;
    put(settings, version, name, value)
}

// The same with a value handed in as a kind (1 whole, 2 float) and 32 bits.
pub fn write_given(
    settings: &mut [u8],
    version: u32,
    name: &[u8],
    kind: u32,
    bits: u32,
) -> Result<(), Refusal>
    ensures result_value { told_done result ≡ write_setting version settings.old name.now (setting_of kind bits) }
    ensures settings_after { settings.new ≡ given_after version settings.old name.now kind bits }
{
    write_setting(settings, version, name, values::setting_of(kind, bits))
}
