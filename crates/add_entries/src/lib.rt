// add text (01, Lookup: Adding; both steps of 02, S-2, together): each entry line of a text added in turn, all of them or none.

#![tactic(auto)]

ghost use Rattle.std.specs.Prelude.{◌≡◌};
ghost use Rattle.answers.specs.Told.{told_lines};
ghost use Rattle.add_entries.specs.AddEntries.{add_entries, store_after, spare_after};

use answers::{AtLine, Refusal};

#[tactic(auto, unfolding(crate::specs::AddEntries::add_entries, crate::specs::AddEntries::store_after, crate::specs::AddEntries::spare_after, crate::specs::AddEntries::barred))]
pub fn add_entries(
    table: &[u8],
    store: &mut [u8],
    spare: &mut [u8],
    text: &[u8],
) -> Result<usize, AtLine>
    ensures result_value { told_lines result ≡ add_entries table.now store.old spare.old text.now }
    ensures store_after { store.new ≡ store_after table.now store.old spare.old text.now }
    ensures spare_after { spare.new ≡ spare_after table.now store.old spare.old text.now }
{
    if !data::is_phone_table(table) {
        return Err(Refusal::Section.into());
    }
    if !sound_store::is_sound(store) {
        return Err(Refusal::Unsound.into());
    }
    if spare.len() != store.len() {
        return Err(Refusal::Unsound.into());
    }
    if counting::count(store) == counting::largest() {
        return Err(Refusal::Count.into());
    }
    if !texts::is_ascii(text) {
        return Err(Refusal::Text.into());
    }
    addtext::fill_and_take(table, store, spare, text)
}
