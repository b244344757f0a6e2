// Phone lists in cells of 16 bytes (01, Phones): a length byte and 15 bytes, zeros past the text.

#![tactic(auto)]

ghost use Rattle.std.specs.Prelude.{◌≡◌, [], ◌+◌, ◌*◌, ◌/◌, ◌<◌, ◌≤◌, min, length, get_or};
ghost use Rattle.std.proofs.Math.Seq.{paste};
ghost use Rattle.records.specs.Records.{put_record};
ghost use Rattle.cells.specs.Cells.{text as text_of, phones_of, ascii_phones, short_phones, cell, cells_of};

// The text of a cell.
#[tactic(auto, unfolding(crate::specs::Cells::text))]
pub fn text(cell: &[u8]) -> &[u8]
    requires { length cell.now ≡ 16 }
    ensures { result.now ≡ text_of cell.now }
{
    texts::counted(cell)
}

// Phone i of a list handed in.
pub fn phone(list: &[u8], i: usize) -> &[u8]
    requires { i < length list.now / 16 }
    ensures { result.now ≡ get_or (phones_of list.now) i [] }
{
    text(&list[16 * i..16 * i + 16])
}

// Whether no phone of a list handed in holds a byte of 128 or more.
pub fn are_ascii(list: &[u8]) -> bool
    ensures { result ≡ ascii_phones list.now }
{
    let (cells, _) = list.as_chunks::<16>();
    cells.iter().all(|cell| texts::is_ascii(text(cell)))
}

// Whether no cell of a list handed in has a length over 15.
pub fn are_short(list: &[u8]) -> bool
    ensures { result ≡ short_phones list.now }
{
    let (cells, _) = list.as_chunks::<16>();
    cells.iter().all(|cell| cell[0] <= 15)
}

// A phone as cell i of a list.
pub fn put_cell(list: &mut [u8], i: usize, phone: &[u8])
    requires { (16 * i + 16 ≤ length list.old) × (length phone.now ≤ 15) }
    ensures { list.new ≡ put_record 16 list.old i (cell phone.now) }
{
    let at = 16 * i;
    records::clear(list, at, 16);
    list[at] = phone.len() as u8;
    records::copy_in(list, at + 1, phone);
}

// The phones of a list handed in as cells from cell k on, with zeros past each text.
pub fn put_phones(dst: &mut [u8], k: usize, list: &[u8])
    requires { 16 * k + 16 * (length list.now / 16) ≤ length dst.old }
    ensures { dst.new ≡ paste dst.old (16 * k) (cells_of (phones_of list.now)) (16 * (length list.now / 16)) }
{
    for i in 0..list.len() / 16 {
        put_cell(dst, k + i, phone(list, i));
    }
}
