// preview entries (02, S-2, the first step): fills the spare with what a text would make of the store, and tells what would change.

#![tactic(auto)]

ghost use Rattle.std.specs.Prelude.{◌≡◌};
ghost use Rattle.answers.specs.Told.{told_previewed};
ghost use Rattle.preview_entries.specs.PreviewEntries.{preview_entries, spare_after};

use answers::{AtLine, Previewed, Refusal};

#[tactic(auto, unfolding(crate::specs::PreviewEntries::preview_entries, crate::specs::PreviewEntries::spare_after, crate::specs::PreviewEntries::barred))]
pub fn preview_entries(
    table: &[u8],
    store: &[u8],
    spare: &mut [u8],
    text: &[u8],
) -> Result<Previewed, AtLine>
    ensures result_value { told_previewed result ≡ preview_entries table.now store.now spare.old text.now }
    ensures spare_after { spare.new ≡ spare_after table.now store.now spare.old text.now }
{
    if !data::is_phone_table(table) {
        return Err(Refusal::Section.into());
    }
    if !sound_store::is_sound(store) {
        return Err(Refusal::Unsound.into());
    }
    if spare.len() != store.len() {
        return Err(Refusal::Unsound.into());
    }
    if !texts::is_ascii(text) {
        return Err(Refusal::Text.into());
    }
    addtext::fill_and_tell(table, store, spare, text)
}
