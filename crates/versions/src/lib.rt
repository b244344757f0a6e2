// The versions of a sheet (02, S-9), and the bytes that are stresses in each.

#![tactic(auto)]

ghost use Rattle.std.specs.Prelude.{◌≡◌};
ghost use Rattle.versions.specs.Versions.{is_sheet_version, is_stress};

// Whether a sheet may have this version: every number but these is unknown.
#[tactic(auto, unfolding(crate::specs::Versions::is_sheet_version))]
pub fn is_sheet_version(version: u32) -> bool
    ensures { result ≡ is_sheet_version version }
{
    matches!(version, 1 | 2)
}

// Whether a byte is a stress.
#[tactic(auto, unfolding(crate::specs::Versions::is_stress, crate::specs::Versions::digits, texts::specs::Lists::some))]
pub fn is_stress(version: u8, b: u8) -> bool
    ensures { result ≡ is_stress version b }
{
    match b {
        48 | 49 => true,
        50 => version != 1,
        _ => false,
    }
}
