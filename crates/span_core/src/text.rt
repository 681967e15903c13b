//! Texts, compared in few steps: names and targets are compared at each event.
ghost use Rattle.std.specs.Prelude.{◌≡◌, ◌↔◌, ◌≤◌, IsTrue, length, map};

/// Whether two lists of texts are the same, text by text.
#[inline(never)]
pub(crate) fn same_texts(a: &[&str], b: &[&str]) -> bool
    ensures { IsTrue result ↔ (map (λ text. text.now) a.now ≡ map (λ text. text.now) b.now) }
{
    match (a, b) {
        ([x, others @ ..], [y, rest @ ..]) => same_text(x, y) && same_texts(others, rest),
        ([], []) => true,
        _ => false,
    }
}

/// Whether two texts have the same bytes.
///
/// `==` takes the same number of steps for 8 bytes as for 32. Most names are shorter.
pub(crate) fn same_text(a: &str, b: &str) -> bool
    ensures { IsTrue result ↔ (a.now ≡ b.now) }
{
    if a.len() != b.len() {
        return false;
    }
    match a.len() {
        4..=8 => same_by_fours(a.as_bytes(), b.as_bytes()),
        9..=16 => same_by_eights(a.as_bytes(), b.as_bytes()),
        17..=32 => same_by_halves(a.as_bytes(), b.as_bytes()),
        _ => a == b,
    }
}

/// Whether two texts of at most 8 bytes are the same: the first four and the last four are
/// compared, which may overlap.
fn same_by_fours(a: &[u8], b: &[u8]) -> bool
    requires { (length a.now ≡ length b.now) × (length a.now ≤ 8) }
    ensures { IsTrue result ↔ (a.now ≡ b.now) }
{
    let (Some(a_first), Some(b_first)) = (a.first_chunk::<4>(), b.first_chunk::<4>()) else {
        return a == b;
    };
    let (Some(a_last), Some(b_last)) = (a.last_chunk::<4>(), b.last_chunk::<4>()) else {
        return a == b;
    };
    same_four(a_first, b_first) & same_four(a_last, b_last)
}

/// Whether two texts of at most 16 bytes are the same: the first eight and the last eight are
/// compared, which may overlap.
fn same_by_eights(a: &[u8], b: &[u8]) -> bool
    requires { (length a.now ≡ length b.now) × (length a.now ≤ 16) }
    ensures { IsTrue result ↔ (a.now ≡ b.now) }
{
    let (Some(a_first), Some(b_first)) = (a.first_chunk::<8>(), b.first_chunk::<8>()) else {
        return a == b;
    };
    let (Some(a_last), Some(b_last)) = (a.last_chunk::<8>(), b.last_chunk::<8>()) else {
        return a == b;
    };
    same_eight(a_first, b_first) & same_eight(a_last, b_last)
}

/// Whether two texts of 16 to 32 bytes are the same: the first 16 and the last 16 are compared,
/// which may overlap.
fn same_by_halves(a: &[u8], b: &[u8]) -> bool
    requires { (length a.now ≡ length b.now) × (16 ≤ length a.now) × (length a.now ≤ 32) }
    ensures { IsTrue result ↔ (a.now ≡ b.now) }
{
    let last = a.len() - 16;
    same_by_eights(&a[..16], &b[..16]) & same_by_eights(&a[last..], &b[last..])
}

fn same_four(a: &[u8; 4], b: &[u8; 4]) -> bool
    ensures { IsTrue result ↔ (a.now ≡ b.now) }
{
    u32::from_le_bytes(*a) == u32::from_le_bytes(*b)
}

fn same_eight(a: &[u8; 8], b: &[u8; 8]) -> bool
    ensures { IsTrue result ↔ (a.now ≡ b.now) }
{
    u64::from_le_bytes(*a) == u64::from_le_bytes(*b)
}
