// new sheet (01, Store and sheet, and 02, S-9): item 0 of a sheet of a right length is cleared, and gets a known version.

#![tactic(auto)]

ghost use Rattle.std.specs.Prelude.{◌≡◌};
ghost use Rattle.answers.specs.Told.{told_done};
ghost use Rattle.new_sheet.specs.NewSheet.{new_sheet, new_bytes};

use answers::Refusal;

pub fn new_sheet(sheet: &mut [u8], version: u32) -> Result<(), Refusal>
    ensures result_value { told_done result ≡ new_sheet sheet.old version }
    ensures sheet_after { sheet.new ≡ new_bytes sheet.old version }
{
    if !utterance::is_sheet_length(sheet.len()) {
        return Err(Refusal::Unsound);
    }
    if !versions::is_sheet_version(version) {
        return Err(Refusal::Version);
    }
    let mut head = [0u8; 64];
    head[1] = version as u8;
    records::copy_in(sheet, 0, &head);
    Ok(())
}
