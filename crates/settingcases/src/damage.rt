// Lines that stand for many calls over settings: each byte of a store with each other value in turn.

use crate::calls::{Reader, Writer};
use answers::Settings;
use caseline::Case;

// Whether two answers of read_settings are the same, floats by their bits.
fn are_same(a: Settings, b: Settings) -> bool {
    a.refusal == b.refusal
        && a.count == b.count
        && a.pitch == b.pitch
        && values::bits_of_real(a.stretch) == values::bits_of_real(b.stretch)
        && a.level == b.level
        && values::bits_of_real(a.rack) == values::bits_of_real(b.rack)
}

// Whether write_setting on a store, in which b was put at place k, is refused or leaves other settings than `after`, but
// for b where it still stands at place k.
fn is_other(writer: Writer, store: &mut [u8], k: usize, b: u8, after: &[u8]) -> bool {
    if writer.write(store).is_err() {
        return true;
    }
    if store.get(k) == Some(&b) {
        store[k] = records::byte_at(after, k);
    }
    &*store != after
}

// A line that tells a count for each byte of its store: how many values there have an effect.
fn damage<Effect: Fn(&mut [u8], usize, u8) -> bool>(
    case: Case,
    room: &mut [u8],
    out: &mut [u8],
    has_effect: Effect,
) -> bool
    requires { Effect.IsAlwaysCallable has_effect }
{
    let before = case.arguments[0];
    let n = caseline::load(out, before);
    let store = &mut out[..n];
    let Some(wanted) = case.bytes(0, room) else {
        return false;
    };
    if wanted.len() != store.len() {
        return false;
    }
    for (k, &count) in wanted.iter().enumerate() {
        let mut effects = 0u32;
        for b in 0..=255 {
            caseline::load(store, before);
            store[k] = b;
            effects += u32::from(has_effect(store, k, b));
        }
        if effects != u32::from(count) {
            return false;
        }
    }
    true
}

// damage_read_settings SETTINGS VERSION SHOW -> COUNTS
pub fn damage_read_settings(case: Case, room: &mut [u8], out: &mut [u8]) -> bool {
    let Some(reader) = Reader::of(&case.arguments) else {
        return false;
    };
    let plain = reader.read(case.arguments[0]);
    damage(
        case,
        room,
        out,
        |store, _, _| !are_same(reader.read(store), plain),
    )
}

// damage_write_setting SETTINGS VERSION NAME KIND VALUE SETTINGS -> COUNTS
pub fn damage_write_setting(case: Case, room: &mut [u8], out: &mut [u8]) -> bool {
    let Some(writer) = Writer::of(&case.arguments) else {
        return false;
    };
    let after = case.arguments[5];
    damage(
        case,
        room,
        out,
        |store, k, b| is_other(writer, store, k, b, after),
    )
}
