// One item of the sheet (01, Store and sheet): 64 bytes, written whole and read.

#![tactic(auto)]

ghost use Rattle.std.specs.Prelude.{◌≡◌, ◌&&◌, ◌≤◌, eqb, leb, length};
ghost use Rattle.texts.specs.Text.{ascii};
ghost use Rattle.items_spec.specs.Item.{item as item_bytes, item_of, is_clean, is_source, is_word_item, is_syllable_item, is_phone_item, is_head_item, fits, is_item, is_head};

mod reading;

pub use reading::{first, follow, kind, last, next, parent, prev, stress, text};
use reading::{mark, source};

// The kinds of items.
pub const WORD: u8 = 1;

pub const SYLLABLE: u8 = 2;

pub const PHONE: u8 = 3;

// What is written of an item; its byte 14 is 0 as yet.
#[derive(Clone, Copy, Default)]
pub struct Fields<'a> {
    pub kind: u8,
    pub stress: u8,
    pub next: u16,
    pub first: u16,
    pub last: u16,
    pub parent: u16,
    pub prev: u16,
    pub follow: u16,
    pub source: u8,
    pub text: &'a [u8],
}

// An item into 64 bytes.
pub fn write(dst: &mut [u8], f: &Fields)
    requires { (length dst.old ≡ 64) × (length f.now.text.now ≤ 47) }
    ensures { dst.new ≡ item_bytes (record { kind = f.now.kind; stress = f.now.stress; next = f.now.next; first = f.now.first; last = f.now.last; parent = f.now.parent; prev = f.now.prev; follow = f.now.follow; mark = 0; source = f.now.source; text = f.now.text.now }) }
{
    let n = f.text.len();
    dst[0] = f.kind;
    dst[1] = f.stress;
    records::put_u16(dst, 2, f.next);
    records::put_u16(dst, 4, f.first);
    records::put_u16(dst, 6, f.last);
    records::put_u16(dst, 8, f.parent);
    records::put_u16(dst, 10, f.prev);
    records::put_u16(dst, 12, f.follow);
    dst[14] = 0;
    dst[15] = f.source;
    dst[16] = n as u8;
    records::copy_in(dst, 17, f.text);
    records::clear(dst, 17 + n, 47 - n);
}

// Whether the text has its place and the bytes past it are zero.
#[tactic(auto, unfolding(items_spec::specs::Item::is_clean))]
fn is_clean(item: &[u8]) -> bool
    requires { length item.now ≡ 64 }
    ensures { result ≡ is_clean item.now }
{
    let n = usize::from(item[16]);
    n <= 47 && records::are_zeros(&item[17 + n..])
}

// Whether an item has neither mark nor source.
fn is_unmarked(item: &[u8]) -> bool
    ensures { result ≡ (eqb (item_of item.now).mark 0 && eqb (item_of item.now).source 0) }
{
    mark(item) == 0 && source(item) == 0
}

// Whether an item has no place among the phones.
fn is_unlinked(item: &[u8]) -> bool
    ensures { result ≡ (eqb (item_of item.now).prev 0 && eqb (item_of item.now).follow 0) }
{
    prev(item) == 0 && follow(item) == 0
}

// Whether an item has no children.
fn is_leaf(item: &[u8]) -> bool
    ensures { result ≡ (eqb (item_of item.now).first 0 && eqb (item_of item.now).last 0) }
{
    first(item) == 0 && last(item) == 0
}

// Whether a byte names where a word came from.
#[tactic(auto, unfolding(items_spec::specs::Item::is_source))]
fn is_source(b: u8) -> bool
    ensures { result ≡ is_source b }
{
    matches!(b, 1..=4)
}

// Whether a text may be that of a phone.
fn is_phone(text: &[u8]) -> bool
    ensures { result ≡ (leb (length text.now) 15 && ascii text.now) }
{
    text.len() <= 15 && texts::is_ascii(text)
}

// Whether the fields of an item are those of a word, of a syllable, of a phone, and of item 0.
#[tactic(auto, unfolding(items_spec::specs::Item::is_word_item))]
fn is_word_item(item: &[u8]) -> bool
    ensures { result ≡ is_word_item (item_of item.now) }
{
    kind(item) == WORD
        && stress(item) == 0
        && is_unlinked(item)
        && mark(item) == 0
        && is_source(source(item))
        && texts::is_word(text(item))
}

#[tactic(auto, unfolding(items_spec::specs::Item::is_syllable_item))]
fn is_syllable_item(item: &[u8]) -> bool
    ensures { result ≡ is_syllable_item (item_of item.now) }
{
    kind(item) == SYLLABLE && is_unlinked(item) && is_unmarked(item) && text(item).is_empty()
}

#[tactic(auto, unfolding(items_spec::specs::Item::is_phone_item))]
fn is_phone_item(item: &[u8]) -> bool
    ensures { result ≡ is_phone_item (item_of item.now) }
{
    kind(item) == PHONE
        && stress(item) == 0
        && is_leaf(item)
        && is_unmarked(item)
        && is_phone(text(item))
}

#[tactic(auto, unfolding(items_spec::specs::Item::is_head_item))]
fn is_head_item(item: &[u8]) -> bool
    ensures { result ≡ is_head_item (item_of item.now) }
{
    kind(item) == 0
        && versions::is_sheet_version(u32::from(stress(item)))
        && next(item) == 0
        && is_unmarked(item)
        && text(item).is_empty()
}

// Whether an item that stands behind item 0 may be one of its kind.
#[tactic(auto, unfolding(items_spec::specs::Item::fits))]
fn is_fit(item: &[u8]) -> bool
    ensures { result ≡ fits (item_of item.now) }
{
    match kind(item) {
        WORD => is_word_item(item),
        SYLLABLE => is_syllable_item(item),
        _ => is_phone_item(item),
    }
}

// Whether an item is sound by itself.
#[tactic(auto, unfolding(items_spec::specs::Item::is_item))]
pub fn is_item(item: &[u8]) -> bool
    requires { length item.now ≡ 64 }
    ensures { result ≡ is_item item.now }
{
    is_clean(item) && is_fit(item)
}

// Whether item 0 is sound by itself.
#[tactic(auto, unfolding(items_spec::specs::Item::is_head))]
pub fn is_head(item: &[u8]) -> bool
    requires { length item.now ≡ 64 }
    ensures { result ≡ is_head item.now }
{
    is_clean(item) && is_head_item(item)
}
