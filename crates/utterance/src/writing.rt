// An item written whole on the sheet.
ghost use Rattle.std.specs.Prelude.{◌≡◌, ◌≤◌, ◌<◌, length};
ghost use Rattle.records.specs.Records.{put_record};
ghost use Rattle.items_spec.specs.Item.{item as item_bytes};
ghost use Rattle.utterance_spec.specs.Sheet.{items};

use items::Fields;

// Item n, whole.
pub fn put_item(sheet: &mut [u8], n: u16, f: &Fields)
    requires { (n < items sheet.old) × (length f.now.text.now ≤ 47) }
    ensures { sheet.new ≡ put_record 64 sheet.old n (item_bytes (record { kind = f.now.kind; stress = f.now.stress; next = f.now.next; first = f.now.first; last = f.now.last; parent = f.now.parent; prev = f.now.prev; follow = f.now.follow; mark = 0; source = f.now.source; text = f.now.text.now })) }
{
    let mut b = [0u8; 64];
    items::write(&mut b, f);
    records::copy_in(sheet, 64 * usize::from(n), &b);
}
