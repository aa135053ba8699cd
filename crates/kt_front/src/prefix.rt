//! What two byte lists begin with alike.

ghost use Rattle.std.specs.Prelude.{◌≡◌, ◌≤◌, length};
ghost use Rattle.kt_front.specs.Spelling.{base, shared};
ghost use Rattle.kt_front.specs.Walk as walk;

/// Every so many cells one shares nothing: there a stretch begins.
pub const STRETCH: u32 = 16;

/// What cell `i` may share bytes with, behind this item.
pub fn base_of(i: usize, before: &[u8]) -> &[u8]
    ensures { result.now ≡ base i before.now }
{
    if i % STRETCH as usize == 0 {
        &[]
    } else {
        before
    }
}

/// How many bytes they begin with alike.
pub fn common_prefix(a: &[u8], b: &[u8]) -> usize
    ensures value { result ≡ shared a.now b.now }
    ensures within_first { result ≤ length a.now }
    ensures within_second { result ≤ length b.now }
{
    let end = a.len().min(b.len());
    for i in 0..end {
        if a[i] != b[i] {
            return i;
        }
    }
    end
}

pub fn begin_alike(a: &[u8], b: &[u8]) -> bool
    ensures { result ≡ walk.begin_alike a.now b.now }
{
    match (a, b) {
        ([x, ..], [y, ..]) => x == y,
        _ => false,
    }
}
