// The value of a voice setting (02, S-12): a whole number or a float, read from its kind and its 32 bits, range-checked, and written as 32 bits again.

#![tactic(auto)]

ghost use Rattle.std.specs.Prelude.{◌≡◌, ◌&&◌};
ghost use Rattle.std.specs.Float.{binary32};
ghost use Rattle.std.specs.Float.Ieee.{of_bits, to_bits};
ghost use Rattle.values.specs.Values.{whole_of, bits_of_whole, setting_of, bits_of, is_stretch, fits_known, known_as, whole_in, real_in};

use std::num::{f32_from_bits_with_nan, f32_to_bits_with_nan};

// As the original's `Value` has it.
#[derive(Clone, Copy, Debug, PartialEq)]
pub enum Setting {
    Whole(i32),
    Real(f32),
}

// The settings that some version knows.
#[derive(Clone, Copy, Debug, PartialEq, Eq)]
pub enum Known {
    Pitch,
    Stretch,
    Level,
}

// The i32 whose bits these are.
#[tactic(auto, unfolding(crate::specs::Values::whole_of))]
fn whole_of(bits: u32) -> i32
    ensures { result ≡ whole_of bits }
{
    bits.cast_signed()
}

// The bits of an i32.
pub fn bits_of_whole(n: i32) -> u32
    ensures { result ≡ bits_of_whole n }
{
    n.cast_unsigned()
}

// The f32 whose bits these are; every pattern of a NaN is the NaN.
pub fn real_of(bits: u32) -> f32
    ensures { result ≡ of_bits binary32 bits }
{
    f32_from_bits_with_nan(bits)
}

// The bits of an f32; those of a NaN are never asked for.
pub fn bits_of_real(x: f32) -> u32
    ensures { result ≡ to_bits binary32 x }
{
    f32_to_bits_with_nan(x)
}

// The value of a kind and 32 bits. Of neither kind, it is a NaN, which no setting takes.
#[tactic(auto, using(crate::specs::Laws::Bits::made_nan), unfolding(crate::specs::Values::setting_of))]
pub fn setting_of(kind: u32, bits: u32) -> Setting
    ensures { result ≡ setting_of kind bits }
{
    match kind {
        1 => Setting::Whole(whole_of(bits)),
        2 => Setting::Real(real_of(bits)),
        _ => Setting::Real(f32::NAN),
    }
}

// The 32 bits of a value.
pub fn bits_of(value: Setting) -> u32
    ensures { result ≡ bits_of value }
{
    match value {
        Setting::Whole(n) => bits_of_whole(n),
        Setting::Real(x) => bits_of_real(x),
    }
}

// Whether x is in stretch's range; a NaN is not.
pub fn is_stretch(x: f32) -> bool
    ensures { result ≡ is_stretch x }
{
    (0.25..=4.0).contains(&x)
}

// Whether a known setting may have this value; one that is not known takes none.
pub fn fits(known: Option<Known>, value: Setting) -> bool
    ensures { result ≡ fits_known known value }
{
    match (known, value) {
        (Some(Known::Pitch), Setting::Whole(n)) => (50..=400).contains(&n),
        (Some(Known::Stretch), Setting::Real(x)) => is_stretch(x),
        (Some(Known::Level), Setting::Whole(n)) => (0..=100).contains(&n),
        _ => false,
    }
}

// Which setting a reader of this version knows by this name.
#[tactic(auto, unfolding(crate::specs::Values::known_as, texts::specs::Text::same))]
pub fn which(version: u32, name: &[u8]) -> Option<Known>
    ensures { result ≡ known_as version name.now }
{
    match name {
        b"pitch" => Some(Known::Pitch),
        b"stretch" => Some(Known::Stretch),
        b"level" if version == 2 => Some(Known::Level),
        _ => None,
    }
}

// The whole number of a value, 0 of a float.
pub fn whole_in(value: Setting) -> i32
    ensures { result ≡ whole_in value }
{
    match value {
        Setting::Whole(n) => n,
        Setting::Real(_) => 0,
    }
}

// The float of a value, 0 of a whole number.
pub fn real_in(value: Setting) -> f32
    ensures { result ≡ real_in value }
{
    match value {
        Setting::Real(x) => x,
        Setting::Whole(_) => 0.0,
    }
}
