// Sayable (01, Sayable): whether a word looks like one that can be said, by two machines over its letters.

#![tactic(auto)]

ghost use Rattle.std.specs.Prelude.{◌≡◌, List, ℕ, ◌≤◌, length};
ghost use Rattle.std.specs.Iterator.{IsFinite, AlwaysYields};
ghost use Rattle.texts.specs.Text.{folded};
ghost use Rattle.answers.specs.Told.{told_verdict};
ghost use Rattle.language.specs.Machine.{cells, symbol as symbol_of, step as step_from, moved, accepts as reach};
ghost use Rattle.language.specs.Call.{both_accept, is_sayable};

use answers::Refusal;
use std::ops::ControlFlow::{self, Break, Continue};

// n and m become N, vowels and y become V.
#[tactic(auto, unfolding(crate::specs::Machine::symbol, texts::specs::Lists::some, texts::specs::Text::is))]
fn symbol(b: u8) -> u8
    ensures { result ≡ symbol_of b }
{
    match b {
        b'm' | b'n' => b'N',
        b'a' | b'e' | b'i' | b'o' | b'u' | b'y' => b'V',
        _ => b,
    }
}

// The step on a symbol out of a state.
#[tactic(auto, using(crate::specs::Machine::scans), unfolding(crate::specs::Machine::step))]
fn step(table: &[u8], state: u16, symbol: u8) -> Option<u16>
    requires { 4 ≤ length table.now }
    ensures { result ≡ step_from (cells table.now) state symbol }
{
    let n = (table.len() - 4) / 2;
    for i in usize::from(state)..n {
        let cell = records::u16_in(table, 4 + 2 * i);
        if cell == 0 {
            return None;
        }
        if cell % 128 == u16::from(symbol) {
            return Some(cell / 128);
        }
    }
    None
}

// The step on a letter of a word: on to a state, or the walk ends, accepted at a vowel.
#[tactic(auto, unfolding(crate::specs::Machine::moved))]
fn letter(table: &[u8], state: u16, b: u8) -> ControlFlow<bool, u16>
    requires { 4 ≤ length table.now }
    ensures { result ≡ moved (cells table.now) state (symbol_of (folded b)) }
{
    let s = symbol(texts::fold(b));
    match step(table, state, s) {
        None => Break(false),
        Some(_) if s == b'V' => Break(true),
        Some(next) => Continue(next),
    }
}

// Whether letters reach a vowel from a state.
fn accepts<'a, I: Iterator<Item = &'a u8>>(table: &[u8], start: u16, letters: I) -> bool
    requires has_cells { 4 ≤ length table.now }
    requires can { I.can_next letters }
    requires ends { IsFinite (I.remaining letters) }
    ensures { (word : List ℕ) → AlwaysYields I.next_gives (λ x. x.now) letters word → result ≡ reach (cells table.now) start word }
{
    let mut state = start;
    for &b in letters {
        match letter(table, state, b) {
            Continue(next) => state = next,
            Break(accepted) => return accepted,
        }
    }
    false
}

// Whether both machines, from aswd.p's step on "#", accept the letters of a word: the first from the first on, the second from the last.
fn both_accept(prefix: &[u8], suffix: &[u8], word: &[u8]) -> bool
    requires { (4 ≤ length prefix.now) × (4 ≤ length suffix.now) }
    ensures { result ≡ both_accept prefix.now suffix.now word.now (step_from (cells prefix.now) 0 35) }
{
    let Some(start) = step(prefix, 0, b'#') else {
        return false;
    };
    accepts(prefix, start, word.iter()) && accepts(suffix, start, word.iter().rev())
}

#[tactic(auto, unfolding(crate::specs::Call::is_sayable))]
pub fn is_sayable(prefix: &[u8], suffix: &[u8], word: &[u8]) -> Result<bool, Refusal>
    ensures { told_verdict result ≡ is_sayable prefix.now suffix.now word.now }
{
    if !data::is_aswd(prefix) || !data::is_aswd(suffix) {
        return Err(Refusal::Section);
    }
    if !texts::is_word(word) {
        return Err(Refusal::Text);
    }
    Ok(both_accept(prefix, suffix, word))
}
