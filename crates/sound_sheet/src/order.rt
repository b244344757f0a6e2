// One walk over the items in reading order: whether all are met and well placed, each syllable has a stress and a phone,
// and the phones are chained.
ghost use Rattle.std.specs.Prelude.{◌≡◌, ◌<◌};
ghost use Rattle.utterance_spec.specs.Sheet.{at, used as used_of, items, is_placed};
ghost use Rattle.utterance_spec.specs.Laws.Turns.{is_tied, last_phone, is_last, is_met, is_ordered};

use items::{PHONE, follow, is_item, kind, prev};
use utterance::{after, inside, is_parent, is_sibling, is_sung, used};

// Whether an item is numbered 1 to used, sound by itself, and agrees with its neighbours.
#[tactic(auto, unfolding(utterance_spec::specs::Sheet::is_placed), using(records::specs::Records::length_record_at))]
fn is_placed(sheet: &[u8], i: u16) -> bool
    requires { used_of sheet.now < items sheet.now }
    ensures { result ≡ is_placed sheet.now i }
{
    i != 0
        && i <= used(sheet)
        && is_item(inside(sheet, i))
        && is_parent(sheet, i)
        && is_sibling(sheet, i)
}

// Whether item x, behind phone q, is tied to it both ways if it is a phone.
#[tactic(auto, unfolding(utterance_spec::specs::Sheet::at, utterance_spec::specs::Laws::Turns::is_tied))]
fn is_tied(sheet: &[u8], q: u16, x: u16) -> bool
    requires { (q < items sheet.now) × (x < items sheet.now) }
    ensures { result ≡ is_tied (at sheet.now) q x }
{
    let item = inside(sheet, x);
    kind(item) != PHONE || (follow(inside(sheet, q)) == x && prev(item) == q)
}

// The last phone once item x is passed, where it was q before.
#[tactic(auto, unfolding(utterance_spec::specs::Sheet::at, utterance_spec::specs::Laws::Turns::last_phone))]
fn last_phone(sheet: &[u8], q: u16, x: u16) -> u16
    requires { x < items sheet.now }
    ensures { result ≡ last_phone (at sheet.now) q x }
{
    if kind(inside(sheet, x)) == PHONE {
        x
    } else {
        q
    }
}

// Whether phone q, or item 0, is tied as the last.
#[tactic(auto, unfolding(utterance_spec::specs::Sheet::at, utterance_spec::specs::Laws::Turns::is_last))]
fn is_last(sheet: &[u8], q: u16) -> bool
    requires { q < items sheet.now }
    ensures { result ≡ is_last (at sheet.now) q }
{
    follow(inside(sheet, q)) == 0 && prev(inside(sheet, 0)) == q
}

// Whether item x, behind phone q, is well placed, has a stress and a phone if it is a syllable, and is tied to q if it is
// a phone.
#[tactic(auto, unfolding(utterance_spec::specs::Laws::Turns::is_met), using(utterance_spec::proofs::Laws::Turns::placed_inside))]
fn is_met(sheet: &[u8], q: u16, x: u16) -> bool
    requires { (used_of sheet.now < items sheet.now) × (q < items sheet.now) }
    ensures { result ≡ is_met sheet.now q x }
{
    is_placed(sheet, x) && is_sung(sheet, x) && is_tied(sheet, q, x)
}

// Whether as many items as are used stand behind item 0, and then nothing; each is met as it should be, and the last
// phone is tied as the last.
pub fn is_ordered(sheet: &[u8]) -> bool
    requires { used_of sheet.now < items sheet.now }
    ensures { result ≡ is_ordered sheet.now (used_of sheet.now) 0 0 }
{
    let mut p = 0;
    let mut q = 0;
    for _ in 0..used(sheet) {
        p = after(sheet, p);
        if !is_met(sheet, q, p) {
            return false;
        }
        q = last_phone(sheet, q, p);
    }
    after(sheet, p) == 0 && is_last(sheet, q)
}
