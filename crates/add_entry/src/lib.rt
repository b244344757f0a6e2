// add entry (01, Lookup: Adding; the count of 02, S-2, and the exact entries of S-8).

#![tactic(auto)]

ghost use Rattle.std.specs.Prelude.{◌≡◌};
ghost use Rattle.answers.specs.Told.{told_done};
ghost use Rattle.add_entry.specs.AddEntry.{add_entry, store_after};

use answers::Refusal;

pub fn add_entry(
    table: &[u8],
    store: &mut [u8],
    word: &[u8],
    tag: &[u8],
    phones: &[u8],
    exact: bool,
) -> Result<(), Refusal>
    ensures result_value { told_done result ≡ add_entry table.now store.old word.now tag.now phones.now exact }
    ensures store_after { store.new ≡ store_after table.now store.old word.now tag.now phones.now exact }
{
    if !data::is_phone_table(table) {
        return Err(Refusal::Section);
    }
    if !sound_store::is_sound(store) {
        return Err(Refusal::Unsound);
    }
    let seen = counting::count(store);
    if seen == counting::largest() {
        return Err(Refusal::Count);
    }
    if !adding::are_texts(word, tag, phones) {
        return Err(Refusal::Text);
    }
    if !adding::may_add_all(table, phones) {
        return Err(Refusal::UnknownPhone);
    }
    if 24 < phones.len() / 16 {
        return Err(Refusal::Phones);
    }
    if adding::add(store, adding::added_tag(tag), word, phones, exact) {
        counting::set_count(store, seen + 1);
        return Ok(());
    }
    Err(Refusal::Full)
}
