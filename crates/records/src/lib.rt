// Little-endian fields and records of a fixed width in lent bytes. A read past the end gives zeros.

#![tactic(auto)]

ghost use Rattle.std.specs.Prelude.{◌≡◌, ◌+◌, ◌*◌, ◌<◌, ◌≤◌, length, get_or, take, drop, replicate};
ghost use Rattle.std.proofs.Math.Seq.{paste};
ghost use Rattle.texts.specs.Lists.{every};
ghost use Rattle.texts.specs.Text.{is};
ghost use Rattle.records.specs.Fields.{u16_at, u32_at, u64_at, put16, put32, put64};

// The byte at k.
pub fn byte_at(s: &[u8], k: usize) -> u8
    ensures { result ≡ get_or s.now k 0 }
{
    s.get(k).copied().unwrap_or(0)
}

// The bytes from k on.
pub fn tail(s: &[u8], k: usize) -> &[u8]
    ensures { result.now ≡ drop k s.now }
{
    &s[k.min(s.len())..]
}

// The first n bytes.
pub fn head(s: &[u8], n: usize) -> &[u8]
    ensures { result.now ≡ take n s.now }
{
    &s[..n.min(s.len())]
}

// The u16 at k, both bytes of which are inside: one load.
#[tactic(auto, unfolding(crate::specs::Fields::u16_at))]
pub fn u16_in(s: &[u8], k: usize) -> u16
    requires { k + 1 < length s.now }
    ensures { result ≡ u16_at s.now k }
{
    u16::from_le_bytes([s[k], s[k + 1]])
}

// The u16 at k.
#[tactic(auto, unfolding(crate::specs::Fields::u16_at))]
pub fn u16_at(s: &[u8], k: usize) -> u16
    ensures { result ≡ u16_at s.now k }
{
    if s.len() <= k {
        return 0;
    }
    if k + 1 < s.len() {
        return u16_in(s, k);
    }
    u16::from(s[k])
}

// The u32 at k, all four bytes of which are inside: one load.
#[tactic(auto, unfolding(crate::specs::Fields::u16_at, crate::specs::Fields::u32_at))]
pub fn u32_in(s: &[u8], k: usize) -> u32
    requires { k + 3 < length s.now }
    ensures { result ≡ u32_at s.now k }
{
    u32::from_le_bytes([s[k], s[k + 1], s[k + 2], s[k + 3]])
}

// The u64 at k, all eight bytes of which are inside: one load.
pub fn u64_in(s: &[u8], k: usize) -> u64
    requires { k + 7 < length s.now }
    ensures { result ≡ u64_at s.now k }
{
    u64::from_le_bytes(s[k..k + 8].try_into().unwrap())
}

// Whether every byte is zero, told eight at a time; the last eight overlap those before.
fn are_eights_zero(s: &[u8]) -> bool
    requires { 8 ≤ length s.now }
    ensures { result ≡ every (is 0) s.now }
{
    let (eights, _) = s.as_chunks::<8>();
    eights.iter().all(|eight| u64_in(eight, 0) == 0) && u64_in(s, s.len() - 8) == 0
}

// Whether every byte is zero.
pub fn are_zeros(s: &[u8]) -> bool
    ensures { result ≡ every (is 0) s.now }
{
    if s.len() < 8 {
        return texts::largest(s) == 0;
    }
    are_eights_zero(s)
}

// The u32 at k.
#[tactic(auto, unfolding(crate::specs::Fields::u16_at, crate::specs::Fields::u32_at))]
pub fn u32_at(s: &[u8], k: usize) -> u32
    ensures { result ≡ u32_at s.now k }
{
    if s.len() <= k {
        return 0;
    }
    if k + 3 < s.len() {
        return u32_in(s, k);
    }
    u32::from_le_bytes([s[k], byte_at(s, k + 1), byte_at(s, k + 2), 0])
}

// v at k.
pub fn put_u16(s: &mut [u8], k: usize, v: u16)
    requires { k + 1 < length s.old }
    ensures { s.new ≡ put16 s.old k v }
{
    s[k..k + 2].copy_from_slice(&v.to_le_bytes());
}

// v at k, as four bytes.
pub fn put_u32(s: &mut [u8], k: usize, v: u32)
    requires { k + 3 < length s.old }
    ensures { s.new ≡ put32 s.old k v }
{
    s[k..k + 4].copy_from_slice(&v.to_le_bytes());
}

// v at k, as eight bytes.
pub fn put_u64(s: &mut [u8], k: usize, v: u64)
    requires { k + 7 < length s.old }
    ensures { s.new ≡ put64 s.old k v }
{
    s[k..k + 8].copy_from_slice(&v.to_le_bytes());
}

// All of src into dst. The library's `copy_from_slice` would have the archive ask for memmove; of this loop the compiler makes memcpy.
pub fn copy(dst: &mut [u8], src: &[u8])
    requires { length src.now ≡ length dst.old }
    ensures { dst.new ≡ src.now }
{
    for (j, &b) in src.iter().enumerate() {
        dst[j] = b;
    }
}

// All of src into dst from k on.
pub fn copy_in(dst: &mut [u8], k: usize, src: &[u8])
    requires { k + length src.now ≤ length dst.old }
    ensures { dst.new ≡ paste dst.old k src.now (length src.now) }
{
    copy(&mut dst[k..k + src.len()], src);
}

// n zeros into dst from k on.
pub fn clear(dst: &mut [u8], k: usize, n: usize)
    requires { k + n ≤ length dst.old }
    ensures { dst.new ≡ paste dst.old k (replicate n 0) n }
{
    dst[k..k + n].fill(0);
}
