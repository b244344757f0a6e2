// Whether a sheet is sound.
ghost use Rattle.std.specs.Prelude.{◌≡◌};
ghost use Rattle.utterance_spec.specs.Sheet.{is_sound};

use crate::order::is_ordered;
use utterance::{is_parent, is_sheet_length, item, used};

// Whether a sheet is sound.
#[tactic(auto, unfolding(utterance_spec::specs::Sheet::is_sound, utterance_spec::specs::Sheet::is_sheet_length), using(records::specs::Records::length_record_at))]
pub fn is_sound(sheet: &[u8]) -> bool
    ensures { result ≡ is_sound sheet.now }
{
    is_sheet_length(sheet.len())
        && items::is_head(item(sheet, 0))
        && usize::from(used(sheet)) < sheet.len() / 64
        && is_parent(sheet, 0)
        && is_ordered(sheet)
}
