// The items of a sheet and what is read of them. A field past the sheet's end reads as zero.
#![tactic(auto, unfolding(utterance_spec::specs::Sheet::at))]

ghost use Rattle.std.specs.Prelude.{◌≡◌, ◌<◌};
ghost use Rattle.records.specs.Records.{record_at};
ghost use Rattle.utterance_spec.specs.Sheet.{at, items, used as used_of, version as version_of, is_sheet_length};

// The bytes of item n, as many as the sheet has.
#[tactic(auto, unfolding(records::specs::Records::record_at))]
pub fn item(sheet: &[u8], n: u16) -> &[u8]
    ensures { result.now ≡ record_at 64 sheet.now n }
{
    let start = 64 * usize::from(n);
    if start + 64 <= sheet.len() {
        return &sheet[start..start + 64];
    }
    records::head(records::tail(sheet, start), 64)
}

// The bytes of item n, which is inside the sheet: its fields are read without a test.
#[tactic(auto, unfolding(records::specs::Records::record_at))]
pub fn inside(sheet: &[u8], n: u16) -> &[u8]
    requires { n < items sheet.now }
    ensures { result.now ≡ record_at 64 sheet.now n }
{
    let start = 64 * usize::from(n);
    &sheet[start..start + 64]
}

// The last child.
pub fn last(sheet: &[u8], n: u16) -> u16
    ensures { result ≡ (at sheet.now n).last }
{
    items::last(item(sheet, n))
}

// The phone before item n.
pub fn prev(sheet: &[u8], n: u16) -> u16
    ensures { result ≡ (at sheet.now n).prev }
{
    items::prev(item(sheet, n))
}

// The phone behind item n.
pub fn follow(sheet: &[u8], n: u16) -> u16
    ensures { result ≡ (at sheet.now n).follow }
{
    items::follow(item(sheet, n))
}

// How many items are used.
pub fn used(sheet: &[u8]) -> u16
    ensures { result ≡ used_of sheet.now }
{
    items::parent(item(sheet, 0))
}

// The sheet's version (02, S-9).
pub fn version(sheet: &[u8]) -> u8
    ensures { result ≡ version_of sheet.now }
{
    items::stress(item(sheet, 0))
}

// The text of item n.
pub fn text(sheet: &[u8], n: u16) -> &[u8]
    ensures { result.now ≡ (at sheet.now n).text }
{
    items::text(item(sheet, n))
}

// Whether a sheet may have this length.
#[tactic(auto, unfolding(utterance_spec::specs::Sheet::is_sheet_length))]
pub fn is_sheet_length(n: usize) -> bool
    ensures { result ≡ is_sheet_length n }
{
    matches!(n, 64..=65536)
}
