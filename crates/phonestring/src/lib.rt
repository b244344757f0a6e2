// phone string (01, Store and sheet): the phones of a sheet as one string.

#![tactic(auto)]

ghost use Rattle.std.specs.Prelude.{◌≡◌, ◌++◌, ◌+◌, ◌≤◌, length, drop};
ghost use Rattle.std.proofs.Math.Seq.{paste};
ghost use Rattle.answers.specs.Told.{told_count};
ghost use Rattle.phonestring.specs.PhoneString.{string, phone_string, string_after};
ghost use Rattle.phonestring.specs.Laws.Turns.{gap as gap_of};

use answers::Refusal;

// The blank before the phone behind item p takes no place behind item 0, else one byte.
#[tactic(auto, unfolding(crate::specs::Laws::Turns::gap))]
fn gap(p: u16) -> usize
    ensures { result ≡ length (gap_of p) }
{
    usize::from(p != 0)
}

// How many bytes the phone string has.
fn count(sheet: &[u8]) -> usize
    ensures { result ≡ length (string sheet.now) }
{
    let mut p = 0;
    let mut n = 0;
    for _ in 0..utterance::used(sheet) {
        let q = utterance::follow(sheet, p);
        if q == 0 {
            return n;
        }
        n += gap(p) + utterance::text(sheet, q).len();
        p = q;
    }
    n
}

// The text of the phone behind item p, with the blank before it, from byte k on; and where it ends.
#[tactic(auto, unfolding(crate::specs::Laws::Turns::gap))]
fn put(out: &mut [u8], k: usize, p: u16, text: &[u8]) -> usize
    requires { k + length (gap_of p ++ text.now) ≤ length out.old }
    ensures value { result ≡ k + length (gap_of p ++ text.now) }
    ensures out_after { out.new ≡ paste out.old k (gap_of p ++ text.now) (length (gap_of p ++ text.now)) }
{
    if p != 0 {
        out[k] = 32;
    }
    let start = k + gap(p);
    records::copy_in(out, start, text);
    start + text.len()
}

// The phone string at the front of out.
fn write(sheet: &[u8], out: &mut [u8])
    requires { length (string sheet.now) ≤ length out.old }
    ensures { out.new ≡ string sheet.now ++ drop (length (string sheet.now)) out.old }
{
    let mut p = 0;
    let mut k = 0;
    for _ in 0..utterance::used(sheet) {
        let q = utterance::follow(sheet, p);
        if q == 0 {
            return;
        }
        k = put(out, k, p, utterance::text(sheet, q));
        p = q;
    }
}

// The texts of a sheet's phones in order, with one blank between; how many bytes these are.
#[tactic(auto, unfolding(crate::specs::PhoneString::phone_string, crate::specs::PhoneString::string_after))]
pub fn phone_string(sheet: &[u8], out: &mut [u8]) -> Result<usize, Refusal>
    ensures result_value { told_count result ≡ phone_string sheet.now out.old }
    ensures out_after { out.new ≡ string_after sheet.now out.old }
{
    if !sound_sheet::is_sound(sheet) {
        return Err(Refusal::Unsound);
    }
    let n = count(sheet);
    if out.len() < n {
        return Err(Refusal::Short);
    }
    write(sheet, out);
    Ok(n)
}
