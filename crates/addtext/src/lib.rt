// A text of entries (01, Lookup: Adding) below its calls: filling the spare, telling what was filled, and taking it.

#![tactic(auto)]

ghost use Rattle.std.specs.Prelude.{◌≡◌, ◌≢◌, true, length};
ghost use Rattle.texts.specs.Text.{ascii};
ghost use Rattle.data.specs.Sections.{is_phone_table};
ghost use Rattle.store_spec.specs.Store.{is_sound, count as count_of, largest as largest_count};
ghost use Rattle.answers.specs.Told.{told_lines, told_previewed};
ghost use Rattle.addtext_spec.specs.Filling.{text_filled, spare_filled, store_filled, told_filled};

use answers::{AtLine, Previewed};
use lines::Lines;

// Adds the lines of a text to a sound store, up to the first fault; how many added an entry.
fn add_lines(table: &[u8], store: &mut [u8], text: &[u8]) -> Result<usize, AtLine>
    requires { (is_phone_table table.now ≡ true) × (is_sound store.old ≡ true) × (ascii text.now ≡ true) }
    ensures result_value { told_lines result ≡ (text_filled table.now store.old text.now).answer }
    ensures store_after { store.new ≡ (text_filled table.now store.old text.now).store }
{
    let mut taken = 0;
    for (i, line) in Lines::of(text).enumerate() {
        match entryline::take_line(table, store, line) {
            Ok(added) => taken += usize::from(added),
            Err(refusal) => {
                return Err(AtLine {
                    refusal,
                    line: i + 1,
                });
            }
        }
    }
    Ok(taken)
}

// Fills the spare: the bytes of a sound store, and the lines of a text added to them. Where a line stops it, it gets the largest count.
fn fill_spare(table: &[u8], store: &[u8], spare: &mut [u8], text: &[u8]) -> Result<usize, AtLine>
    requires { (is_phone_table table.now ≡ true) × (is_sound store.now ≡ true) × (length spare.old ≡ length store.now) × (ascii text.now ≡ true) }
    ensures result_value { told_lines result ≡ (text_filled table.now store.now text.now).answer }
    ensures spare_after { spare.new ≡ spare_filled (text_filled table.now store.now text.now) }
{
    records::copy(spare, store);
    let filled = add_lines(table, spare, text);
    if filled.is_err() {
        counting::set_count(spare, counting::largest());
    }
    filled
}

// Fills the spare and tells what its lines did.
pub fn fill_and_tell(
    table: &[u8],
    store: &[u8],
    spare: &mut [u8],
    text: &[u8],
) -> Result<Previewed, AtLine>
    requires { (is_phone_table table.now ≡ true) × (is_sound store.now ≡ true) × (length spare.old ≡ length store.now) × (ascii text.now ≡ true) }
    ensures result_value { told_previewed result ≡ told_filled store.now text.now (text_filled table.now store.now text.now) }
    ensures spare_after { spare.new ≡ spare_filled (text_filled table.now store.now text.now) }
{
    let taken = fill_spare(table, store, spare, text)?;
    let newly = store::used(spare) - store::used(store);
    let replaced = taken - newly;
    Ok(Previewed {
        taken,
        newly,
        replaced,
    })
}

// Fills the spare and, if no line stopped it, takes it.
pub fn fill_and_take(
    table: &[u8],
    store: &mut [u8],
    spare: &mut [u8],
    text: &[u8],
) -> Result<usize, AtLine>
    requires { (is_phone_table table.now ≡ true) × (is_sound store.old ≡ true) × (length spare.old ≡ length store.old) × (count_of store.old ≢ largest_count) × (ascii text.now ≡ true) }
    ensures result_value { told_lines result ≡ (text_filled table.now store.old text.now).answer }
    ensures store_after { store.new ≡ store_filled store.old (text_filled table.now store.old text.now) }
    ensures spare_after { spare.new ≡ spare_filled (text_filled table.now store.old text.now) }
{
    let taken = fill_spare(table, store, spare, text)?;
    counting::take_spare(store, spare);
    Ok(taken)
}
