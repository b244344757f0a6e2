// Lines that stand for many calls, which would be too long for a file one by one.
ghost use Rattle.std.specs.Prelude.{◌<◌, length};

use answers::Refusal;
use caseline::{Arguments, Case};

// The refusal of lookup in a store whose byte k has its top bit flipped meanwhile, 0 where it is accepted.
fn flipped(arguments: &Arguments, store: &mut [u8], k: usize) -> u32
    requires { k < length store.old }
{
    let [phones, index, data, _, word, tag, ..] = *arguments;
    let mut out = [0; 1536];
    store[k] ^= 128;
    let a = lookup::lookup(phones, index, data, store, word, tag, &mut out);
    store[k] ^= 128;
    answers::told_looked(a).refusal
}

// The refusal of a store whose byte k was flipped: 2 for the first n, but for bytes 8 to 15, the count, which may be anything.
fn wanted(k: usize, n: usize) -> u32 {
    if n <= k || matches!(k, 8..=15) { 0 } else { 2 }
}

// damage PHONES INDEX DATA STORE WORD TAG -> N
pub fn damage(case: Case, out: &mut [u8]) -> bool {
    let n = caseline::load(out, case.arguments[3]);
    let store = &mut out[..n];
    let n = case.number(0) as usize;
    if store.len() < n {
        return false;
    }
    for k in 0..store.len() {
        if flipped(&case.arguments, store, k) != wanted(k, n) {
            return false;
        }
    }
    true
}

// An entry of word k of two letters, without phones.
fn add_word(phones: &[u8], store: &mut [u8], k: usize, tag: &[u8]) -> Result<(), Refusal> {
    let word = [b'a' + (k / 26 % 26) as u8, b'a' + (k % 26) as u8];
    add_entry::add_entry(phones, store, &word, tag, b"", false)
}

// Entries of ever new words, up to the first that is refused: how many were added, and how that ended.
fn add_words(phones: &[u8], store: &mut [u8]) -> (usize, Result<(), Refusal>) {
    for k in 0..676 {
        let added = add_word(phones, store, k, b"");
        if added.is_err() {
            return (k, added);
        }
    }
    (676, Ok(()))
}

// fill PHONES STORE -> COUNT REFUSAL
// A store that was filled takes the first word again, if it is there, and not with another tag.
pub fn fill(case: Case, out: &mut [u8]) -> bool {
    let [phones, before, ..] = case.arguments;
    let n = caseline::load(out, before);
    let store = &mut out[..n];
    if new_store::new_store(store).is_err() {
        return false;
    }
    let (count, ended) = add_words(phones, store);
    let again = if count == 0 { ended } else { Ok(()) };
    count as u64 == case.number(0)
        && u64::from(answers::told_done(ended).refusal) == case.number(1)
        && add_word(phones, store, 0, b"") == again
        && add_word(phones, store, 0, b"n") == ended
}
