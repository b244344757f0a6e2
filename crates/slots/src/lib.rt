// One slot of the store (01, Store and sheet): 512 bytes that hold an entry, written whole and read.

#![tactic(auto)]

ghost use Rattle.std.specs.Prelude.{◌≡◌, map, ◌+◌, ◌/◌, ◌≤◌, ◌<◌, length};
ghost use Rattle.std.proofs.Math.Seq.{paste};
ghost use Rattle.texts.specs.Lists.{every};
ghost use Rattle.texts.specs.Text.{folded};
ghost use Rattle.records.specs.Records.{records};
ghost use Rattle.cells.specs.Cells.{phones_of};
ghost use Rattle.slots_spec.specs.Slot.{slot as slot_of, entry_of, is_folded, is_slot};
ghost use Rattle.slots.specs.Given.{given};
ghost use Rattle.slots_spec.specs.Laws.Parts.{is_stored, is_key, is_blank, used_cells, is_tidy};

mod entry;

pub use entry::NewEntry;

// A word into dst from k on, folded.
pub fn put_folded(dst: &mut [u8], k: usize, word: &[u8])
    requires { k + length word.now ≤ length dst.old }
    ensures { dst.new ≡ paste dst.old k (map folded word.now) (length word.now) }
{
    for (j, &b) in word.iter().enumerate() {
        dst[k + j] = texts::fold(b);
    }
}

// An entry as a slot that nothing follows.
pub fn write(slot: &mut [u8], entry: &NewEntry)
    requires { length slot.old ≡ 512 }
    ensures { slot.new ≡ slot_of 0 (given entry.now) }
{
    let n = entry.word.len();
    let count = entry.phones.len() / 16;
    records::put_u16(slot, 0, 0);
    slot[2] = entry.tag;
    slot[3] = n as u8;
    records::copy_in(slot, 4, entry.word);
    records::clear(slot, 4 + n, 47 - n);
    slot[51] = count as u8;
    slot[52] = u8::from(entry.exact);
    records::clear(slot, 53, 11);
    cells::put_phones(slot, 4, entry.phones);
    records::clear(slot, 64 + 16 * count, 448 - 16 * count);
}

#[tactic(auto, unfolding(slots_spec::specs::Slot::entry_of))]
pub fn tag(slot: &[u8]) -> u8
    ensures { result ≡ (entry_of slot.now).tag }
{
    records::byte_at(slot, 2)
}

#[tactic(auto, unfolding(slots_spec::specs::Slot::entry_of))]
pub fn word(slot: &[u8]) -> &[u8]
    ensures { result.now ≡ (entry_of slot.now).word }
{
    records::head(
        records::tail(slot, 4),
        usize::from(records::byte_at(slot, 3)),
    )
}

// The cells that are used.
#[tactic(auto, unfolding(slots_spec::specs::Laws::Parts::used_cells))]
fn used_cells(slot: &[u8]) -> &[u8]
    ensures { result.now ≡ used_cells slot.now }
{
    records::head(
        records::tail(slot, 64),
        16 * usize::from(records::byte_at(slot, 51)),
    )
}

// The phones as cells.
#[tactic(auto, unfolding(slots_spec::specs::Slot::entry_of, slots_spec::specs::Laws::Parts::used_cells))]
pub fn phones(slot: &[u8]) -> &[u8]
    ensures { phones_of result.now ≡ (entry_of slot.now).phones }
{
    used_cells(slot)
}

#[tactic(auto, unfolding(slots_spec::specs::Slot::entry_of))]
pub fn is_exact(slot: &[u8]) -> bool
    ensures { result ≡ (entry_of slot.now).exact }
{
    records::byte_at(slot, 52) == 1
}

// Whether case folding leaves a word as it is.
#[tactic(auto, unfolding(slots_spec::specs::Slot::is_folded, slots_spec::specs::Slot::is_small))]
fn is_folded(word: &[u8]) -> bool
    ensures { result ≡ is_folded word.now }
{
    word.iter().all(|&b| texts::fold(b) == b)
}

// Whether the word may be that of an entry, exact or not as the slot has it.
#[tactic(auto, unfolding(slots_spec::specs::Laws::Parts::is_stored, slots_spec::specs::Slot::entry_of))]
fn is_stored(slot: &[u8]) -> bool
    ensures { result ≡ is_stored slot.now }
{
    is_exact(slot) || is_folded(word(slot))
}

// Whether tag, word and phone count may be those of an entry.
#[tactic(auto, unfolding(slots_spec::specs::Laws::Parts::is_key, slots_spec::specs::Slot::entry_of, texts::specs::Text::low))]
fn is_key(slot: &[u8]) -> bool
    ensures { result ≡ is_key slot.now }
{
    tag(slot) < 128
        && texts::is_word(word(slot))
        && is_stored(slot)
        && records::byte_at(slot, 51) <= 24
}

// Whether the bytes past the word, 53 to 63, and those past the phones are zero, and byte 52 is 0 or 1.
#[tactic(auto, unfolding(slots_spec::specs::Laws::Parts::is_blank))]
fn is_blank(slot: &[u8]) -> bool
    ensures { result ≡ is_blank slot.now }
{
    let n = usize::from(records::byte_at(slot, 3));
    let count = usize::from(records::byte_at(slot, 51));
    records::are_zeros(records::tail(records::head(slot, 51), 4 + n))
        && records::byte_at(slot, 52) <= 1
        && records::are_zeros(records::tail(records::head(slot, 64), 53))
        && records::are_zeros(records::tail(slot, 64 + 16 * count))
}

// Whether the length of a cell is at most 15, and the bytes past its text are zero.
#[tactic(auto, unfolding(slots_spec::specs::Laws::Parts::is_tidy))]
fn is_tidy(cell: &[u8]) -> bool
    requires { length cell.now ≡ 16 }
    ensures { result ≡ is_tidy cell.now }
{
    let n = usize::from(cell[0]);
    n <= 15 && records::are_zeros(&cell[1 + n..])
}

// Whether each of the cells is so.
fn are_tidy(list: &[u8]) -> bool
    ensures { result ≡ every is_tidy (records 16 list.now) }
{
    list.chunks_exact(16).all(is_tidy)
}

// Whether a slot is sound by itself.
pub fn is_slot(slot: &[u8]) -> bool
    requires { length slot.now ≡ 512 }
    ensures { result ≡ is_slot slot.now }
{
    is_key(slot)
        && is_blank(slot)
        && texts::is_ascii(used_cells(slot))
        && are_tidy(used_cells(slot))
}
