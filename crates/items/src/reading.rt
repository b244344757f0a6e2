// The fields of an item; past the end of its bytes they read as zero.
#![tactic(auto, unfolding(items_spec::specs::Item::item_of))]

ghost use Rattle.std.specs.Prelude.{◌≡◌};
ghost use Rattle.items_spec.specs.Item.{item_of};

pub fn kind(item: &[u8]) -> u8
    ensures { result ≡ (item_of item.now).kind }
{
    records::byte_at(item, 0)
}

// Of item 0 the sheet's version.
pub fn stress(item: &[u8]) -> u8
    ensures { result ≡ (item_of item.now).stress }
{
    records::byte_at(item, 1)
}

// The next sibling.
pub fn next(item: &[u8]) -> u16
    ensures { result ≡ (item_of item.now).next }
{
    records::u16_at(item, 2)
}

// The first child.
pub fn first(item: &[u8]) -> u16
    ensures { result ≡ (item_of item.now).first }
{
    records::u16_at(item, 4)
}

// The last child.
pub fn last(item: &[u8]) -> u16
    ensures { result ≡ (item_of item.now).last }
{
    records::u16_at(item, 6)
}

pub fn parent(item: &[u8]) -> u16
    ensures { result ≡ (item_of item.now).parent }
{
    records::u16_at(item, 8)
}

// The phone before it.
pub fn prev(item: &[u8]) -> u16
    ensures { result ≡ (item_of item.now).prev }
{
    records::u16_at(item, 10)
}

// The phone behind it.
pub fn follow(item: &[u8]) -> u16
    ensures { result ≡ (item_of item.now).follow }
{
    records::u16_at(item, 12)
}

pub(crate) fn mark(item: &[u8]) -> u8
    ensures { result ≡ (item_of item.now).mark }
{
    records::byte_at(item, 14)
}

pub(crate) fn source(item: &[u8]) -> u8
    ensures { result ≡ (item_of item.now).source }
{
    records::byte_at(item, 15)
}

pub fn text(item: &[u8]) -> &[u8]
    ensures { result.now ≡ (item_of item.now).text }
{
    records::head(
        records::tail(item, 17),
        usize::from(records::byte_at(item, 16)),
    )
}
