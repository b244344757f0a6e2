// An item's links: the item that comes behind it in reading order, and whether its fields agree with its neighbours'. The
// item is inside the sheet; a neighbour may be past its end, where fields read as zero.
ghost use Rattle.std.specs.Prelude.{◌≡◌, ◌<◌};
ghost use Rattle.utterance_spec.specs.Sheet.{at, items, after_syllable, after_phone, beyond as beyond_of, after as after_of, is_parent, is_sibling, is_sung, version};

use crate::fields::{inside, item};
use items::{PHONE, SYLLABLE, first, kind, last, next, parent, stress};

// The item behind the children of a syllable: its next sibling, or its word's.
#[tactic(auto, unfolding(utterance_spec::specs::Sheet::at, utterance_spec::specs::Sheet::after_syllable))]
fn after_syllable(sheet: &[u8], i: u16) -> u16
    ensures { result ≡ after_syllable (at sheet.now) i }
{
    let syllable = item(sheet, i);
    match next(syllable) {
        0 => next(item(sheet, parent(syllable))),
        n => n,
    }
}

// The item behind a phone.
#[tactic(auto, unfolding(utterance_spec::specs::Sheet::at, utterance_spec::specs::Sheet::after_phone))]
fn after_phone(sheet: &[u8], i: u16) -> u16
    requires { i < items sheet.now }
    ensures { result ≡ after_phone (at sheet.now) i }
{
    let phone = inside(sheet, i);
    match next(phone) {
        0 => after_syllable(sheet, parent(phone)),
        n => n,
    }
}

// The item behind the children of item i.
#[tactic(auto, unfolding(utterance_spec::specs::Sheet::at, utterance_spec::specs::Sheet::beyond))]
fn beyond(sheet: &[u8], i: u16) -> u16
    requires { i < items sheet.now }
    ensures { result ≡ beyond_of (at sheet.now) i }
{
    match kind(inside(sheet, i)) {
        PHONE => after_phone(sheet, i),
        SYLLABLE => after_syllable(sheet, i),
        _ => next(inside(sheet, i)),
    }
}

// The next item in reading order.
#[tactic(auto, unfolding(utterance_spec::specs::Sheet::at, utterance_spec::specs::Sheet::after))]
pub fn after(sheet: &[u8], i: u16) -> u16
    requires { i < items sheet.now }
    ensures { result ≡ after_of (at sheet.now) i }
{
    match first(inside(sheet, i)) {
        0 => beyond(sheet, i),
        f => f,
    }
}

// Whether an item's child fields agree with its first child.
#[tactic(auto, unfolding(utterance_spec::specs::Sheet::at, utterance_spec::specs::Sheet::is_parent))]
pub fn is_parent(sheet: &[u8], i: u16) -> bool
    requires { i < items sheet.now }
    ensures { result ≡ is_parent (at sheet.now) i }
{
    let own = inside(sheet, i);
    match first(own) {
        0 => last(own) == 0,
        f => {
            let child = item(sheet, f);
            parent(child) == i && u16::from(kind(child)) == u16::from(kind(own)) + 1
        }
    }
}

// Whether an item agrees with its next sibling, or with its parent where it is the last.
#[tactic(auto, unfolding(utterance_spec::specs::Sheet::at, utterance_spec::specs::Sheet::is_sibling))]
pub fn is_sibling(sheet: &[u8], i: u16) -> bool
    requires { i < items sheet.now }
    ensures { result ≡ is_sibling (at sheet.now) i }
{
    let own = inside(sheet, i);
    match next(own) {
        0 => last(item(sheet, parent(own))) == i,
        n => {
            let sibling = item(sheet, n);
            parent(sibling) == parent(own) && kind(sibling) == kind(own)
        }
    }
}

// Whether an item has a stress of the sheet's version, and a phone, if it is a syllable.
#[tactic(auto, unfolding(utterance_spec::specs::Sheet::at, utterance_spec::specs::Sheet::is_sung))]
pub fn is_sung(sheet: &[u8], i: u16) -> bool
    requires { i < items sheet.now }
    ensures { result ≡ is_sung (at sheet.now) (version sheet.now) i }
{
    let own = inside(sheet, i);
    kind(own) != SYLLABLE
        || (versions::is_stress(stress(inside(sheet, 0)), stress(own)) && first(own) != 0)
}
