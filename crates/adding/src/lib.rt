// Adding one pronunciation (01, Lookup: Adding; exact entries: 02, S-8).

#![tactic(auto)]

ghost use Rattle.std.specs.Prelude.{◌≡◌, true, false, not, ◌&&◌, map, ◌/◌, ◌≤◌, length};
ghost use Rattle.texts.specs.Text.{folded, is_word};
ghost use Rattle.cells.specs.Cells.{ascii_phones};
ghost use Rattle.data.specs.Sections.{is_phone_table};
ghost use Rattle.store_spec.specs.Store.{is_sound};
ghost use Rattle.store_spec.specs.Adding.{entry_for, is_full, kept};
ghost use Rattle.lexicon_spec.specs.Adding.{added_tag, may_add, may_add_cell, may_add_all, stored_word};

use slots::NewEntry;

// The tag that an entry gets.
#[tactic(auto, unfolding(lexicon_spec::specs::Adding::added_tag))]
pub fn added_tag(tag: &[u8]) -> u8
    ensures { result ≡ added_tag tag.now }
{
    if texts::same(tag, b"nil") {
        b'0'
    } else {
        texts::first_or_any(tag)
    }
}

// Whether a phone may be added.
#[tactic(auto, unfolding(lexicon_spec::specs::Adding::may_add))]
pub fn may_add(table: &[u8], phone: &[u8]) -> bool
    requires { is_phone_table table.now ≡ true }
    ensures { result ≡ may_add table.now phone.now }
{
    data::is_listed(table, phone) || phoneset::is_known(phone)
}

// Whether the phone in a cell may be added.
#[tactic(auto, unfolding(lexicon_spec::specs::Adding::may_add_cell, cells::specs::Cells::short_cell))]
fn may_add_cell(table: &[u8], cell: &[u8]) -> bool
    requires { (is_phone_table table.now ≡ true) × (length cell.now ≡ 16) }
    ensures { result ≡ may_add_cell table.now cell.now }
{
    cell[0] <= 15 && may_add(table, cells::text(cell))
}

// Whether every phone of a list may be added.
pub fn may_add_all(table: &[u8], list: &[u8]) -> bool
    requires { is_phone_table table.now ≡ true }
    ensures { result ≡ may_add_all table.now list.now }
{
    list.chunks_exact(16).all(|cell| may_add_cell(table, cell))
}

// Whether word, tag and phones are texts that the store may hold.
pub fn are_texts(word: &[u8], tag: &[u8], phones: &[u8]) -> bool
    ensures { result ≡ (is_word word.now && is_word tag.now && ascii_phones phones.now) }
{
    texts::is_word(word) && texts::is_word(tag) && cells::are_ascii(phones)
}

// Adds a word, folded, with its tag and phones to a sound store as an ordinary entry; whether there was a slot.
#[tactic(auto, unfolding(store_spec::specs::Adding::entry_for))]
pub fn add_folded(store: &mut [u8], tag: u8, word: &[u8], phones: &[u8]) -> bool
    requires { (is_sound store.old ≡ true) × (length word.now ≤ 47) × (length phones.now / 16 ≤ 24) }
    ensures value { result ≡ not (is_full store.old (entry_for tag (map folded word.now) phones.now false)) }
    ensures store_after { store.new ≡ kept store.old (entry_for tag (map folded word.now) phones.now false) }
{
    let mut room = [0u8; 47];
    slots::put_folded(&mut room, 0, word);
    let entry = NewEntry {
        tag,
        word: &room[..word.len()],
        phones,
        exact: false,
    };
    store::add(store, &entry)
}

// Adds a word, exact or ordinary, with its tag and phones to a sound store; whether there was a slot.
#[tactic(auto, unfolding(lexicon_spec::specs::Adding::stored_word, store_spec::specs::Adding::entry_for))]
pub fn add(store: &mut [u8], tag: u8, word: &[u8], phones: &[u8], exact: bool) -> bool
    requires { (is_sound store.old ≡ true) × (length word.now ≤ 47) × (length phones.now / 16 ≤ 24) }
    ensures value { result ≡ not (is_full store.old (entry_for tag (stored_word exact word.now) phones.now exact)) }
    ensures store_after { store.new ≡ kept store.old (entry_for tag (stored_word exact word.now) phones.now exact) }
{
    if exact {
        let entry = NewEntry {
            tag,
            word,
            phones,
            exact,
        };
        store::add(store, &entry)
    } else {
        add_folded(store, tag, word, phones)
    }
}
