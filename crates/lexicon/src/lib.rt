// Looking a word up (01, Lookup; the exact entries of 02, S-8): runtime entries, then the addenda, then the compiled entries.

#![tactic(auto)]

ghost use Rattle.std.specs.Prelude.{◌≡◌, true, false, map, ◌++◌, ◌*◌, ◌/◌, ◌≤◌, ◌<◌, length, get_or, drop, IfSome};
ghost use Rattle.texts.specs.Lists.{first};
ghost use Rattle.texts.specs.Text.{folded};
ghost use Rattle.cells.specs.Cells.{phones_of, cells_of};
ghost use Rattle.addenda.specs.Addenda.{addenda, no_addendum};
ghost use Rattle.store_spec.specs.Store.{is_sound, is_wanted, entries};
ghost use Rattle.compiled_spec.specs.Entries.{is_spoken, entry_phones};
ghost use Rattle.answers.specs.Told.{told_looked};
ghost use Rattle.answers.specs.declared.Source.TheVariants.{Runtime, Addenda};
ghost use Rattle.lexicon_spec.specs.Lookup.{found, spoken, chosen_entry, told_finding, out_finding};
ghost use Rattle.lexicon.specs.Parts.{held, answer, compiled_in, find_in};

use answers::{Found, Refusal, Source};
use compiled::Lexicon;
use compiled_spec::Damaged;
use data::Table;
use store::Wanted;

// The slot of the oldest entry of a sound store with this word, exact or ordinary, whose tag agrees.
#[tactic(auto, using(crate::proofs::Parts::oldest))]
fn oldest(store: &[u8], exact: bool, word: &[u8], tag: u8) -> Option<usize>
    requires { is_sound store.now ≡ true }
    ensures which { held store.now result ≡ first (is_wanted exact true word.now tag) (entries store.now) }
    ensures inside { IfSome result (λ n. n < 65536) }
{
    let wanted = Wanted {
        exact,
        any: true,
        word,
        tag,
    };
    let p = store::seek(store, store::used(store), &wanted);
    let n = store::next(store, p);
    if n == 0 { None } else { Some(n) }
}

// The slot of the oldest exact one; a store without exact entries is not searched in order.
#[tactic(auto, using(crate::proofs::Parts::exactness))]
fn oldest_exact(store: &[u8], word: &[u8], tag: u8) -> Option<usize>
    requires { is_sound store.now ≡ true }
    ensures which { held store.now result ≡ first (is_wanted true true word.now tag) (entries store.now) }
    ensures inside { IfSome result (λ n. n < 65536) }
{
    if store::has_exact(store, store::used(store)) {
        oldest(store, true, word, tag)
    } else {
        None
    }
}

// The slot of the oldest ordinary one, folded against folded.
fn oldest_ordinary(store: &[u8], word: &[u8], tag: u8) -> Option<usize>
    requires { (is_sound store.now ≡ true) × (length word.now ≤ 47) }
    ensures which { held store.now result ≡ first (is_wanted false true (map folded word.now) tag) (entries store.now) }
    ensures inside { IfSome result (λ n. n < 65536) }
{
    let mut room = [0u8; 47];
    slots::put_folded(&mut room, 0, word);
    oldest(store, false, &room[..word.len()], tag)
}

// The slot of the runtime entry that answers.
#[tactic(auto, unfolding(lexicon_spec::specs::Lookup::chosen_entry))]
fn runtime(store: &[u8], word: &[u8], tag: u8) -> Option<usize>
    requires { (is_sound store.now ≡ true) × (length word.now ≤ 47) }
    ensures which { held store.now result ≡ chosen_entry (entries store.now) word.now tag }
    ensures inside { IfSome result (λ n. n < 65536) }
{
    oldest_exact(store, word, tag).or_else(|| oldest_ordinary(store, word, tag))
}

// So many phones from a source as an answer, if an output of so many bytes may take them.
fn answer(source: Source, phones: usize, room: usize) -> Result<Found, Refusal>
    ensures { result ≡ answer source phones room }
{
    if 96 < phones {
        return Err(Refusal::Phones);
    }
    if room < 16 * phones {
        return Err(Refusal::Short);
    }
    Ok(Found { source, phones })
}

// The phones in cells as an answer.
#[tactic(auto, using(crate::proofs::Parts::copied))]
fn give_cells(list: &[u8], out: &mut [u8]) -> Result<Option<Found>, Refusal>
    ensures result_value { told_looked result ≡ told_finding (found Runtime (phones_of list.now)) out.old }
    ensures out_after { out.new ≡ out_finding (found Runtime (phones_of list.now)) out.old }
{
    let cells = answer(Source::Runtime, list.len() / 16, out.len())?;
    cells::put_phones(out, 0, list);
    Ok(Some(cells))
}

// The phones of row n of the addenda as an answer.
fn give_row(n: usize, out: &mut [u8]) -> Result<Option<Found>, Refusal>
    requires { n < 42 }
    ensures result_value { told_looked result ≡ told_finding (found Addenda (get_or addenda n no_addendum).phones) out.old }
    ensures out_after { out.new ≡ out_finding (found Addenda (get_or addenda n no_addendum).phones) out.old }
{
    let row = answer(Source::Addenda, addenda::count(n), out.len())?;
    addenda::put_phones(out, n);
    Ok(Some(row))
}

// The phones of a compiled entry as cells at the front of out.
#[tactic(auto, using(crate::proofs::Parts::speaking))]
fn put_spoken(table: &Table, s: &[u8], out: &mut [u8])
    requires { (is_spoken table.now.bytes.now s.now ≡ true) × (16 * length (entry_phones table.now.bytes.now s.now) ≤ length out.old) }
    ensures { out.new ≡ cells_of (entry_phones table.now.bytes.now s.now) ++ drop (16 * length (entry_phones table.now.bytes.now s.now)) out.old }
{
    for (i, &n) in compiled::numbers(s).iter().enumerate() {
        cells::put_cell(out, i, table.phone(n));
    }
}

// The phones of a whole compiled entry as an answer; damage if a number has no phone.
#[tactic(auto, using(compiled_spec::proofs::Entries::length_spoken))]
fn give_spoken(lexicon: &Lexicon, s: &[u8], out: &mut [u8]) -> Result<Option<Found>, Refusal>
    ensures result_value { told_looked result ≡ told_finding (spoken lexicon.now.table.bytes.now s.now) out.old }
    ensures out_after { out.new ≡ out_finding (spoken lexicon.now.table.bytes.now s.now) out.old }
{
    if !lexicon.is_spoken(s) {
        return Err(Refusal::Damaged);
    }
    let entry = answer(Source::Compiled, compiled::numbers(s).len(), out.len())?;
    put_spoken(&lexicon.table, s, out);
    Ok(Some(entry))
}

// The compiled answer.
#[tactic(auto, unfolding(lexicon_spec::specs::Lookup::from_compiled), using(compiled_spec::proofs::Laws::Below::below))]
fn give_compiled(
    lexicon: &Lexicon,
    word: &[u8],
    tag: u8,
    out: &mut [u8],
) -> Result<Option<Found>, Refusal>
    ensures result_value { told_looked result ≡ told_finding (compiled_in lexicon.now word.now tag) out.old }
    ensures out_after { out.new ≡ out_finding (compiled_in lexicon.now word.now tag) out.old }
{
    match lexicon.choose(word, tag) {
        Err(Damaged) => Err(Refusal::Damaged),
        Ok(None) => Ok(None),
        Ok(Some(i)) => give_spoken(lexicon, lexicon.entry_in(i), out),
    }
}

// The word in a sound store's entries, the addenda or the compiled entries.
#[tactic(auto, unfolding(store_spec::specs::Store::entry_at), using(crate::proofs::Parts::finding))]
pub fn find(
    lexicon: &Lexicon,
    store: &[u8],
    word: &[u8],
    tag: u8,
    out: &mut [u8],
) -> Result<Option<Found>, Refusal>
    requires { (is_sound store.now ≡ true) × (length word.now ≤ 47) }
    ensures result_value { told_looked result ≡ told_finding (find_in lexicon.now (entries store.now) word.now tag) out.old }
    ensures out_after { out.new ≡ out_finding (find_in lexicon.now (entries store.now) word.now tag) out.old }
{
    if let Some(n) = runtime(store, word, tag) {
        return give_cells(slots::phones(store::slot(store, n)), out);
    }
    if let Some(row) = addenda::find(word, tag) {
        return give_row(row, out);
    }
    give_compiled(lexicon, word, tag, out)
}
