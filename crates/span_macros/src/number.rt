//! Numbers of callsites: what the standard library's fast hasher makes of their texts.
//!
//! The hasher's own code isn't inlined in each caller. This is, so that a number is computed before
//! the program runs where the texts are literals.
ghost use Rattle.std.specs.Prelude.{◌≡◌, ◌+◌, ◌≤◌, length};
ghost use Rattle.std.specs.Hash.FoldHasher as hash;
ghost use Rattle.span_macros.specs.private.Number.{hasher_at};

use std::hash::{FoldHasher, Hasher};

const MULTIPLIER: u64 = 0x9e37_79b9_7f4a_7c15;

/// The hasher's state before the first text.
#[inline(always)]
pub(crate) fn first_state() -> u64
    ensures { hasher_at result ≡ hash.initial }
{
    FoldHasher::default().finish()
}

/// The hasher's state after a text, from its state before.
#[inline(always)]
pub(crate) fn state_after(state: u64, bytes: &[u8]) -> u64
    ensures { hasher_at result ≡ hash.write (hasher_at state) bytes.now }
{
    let len = bytes.len();
    if len <= 8 {
        return folded_multiply(state ^ read_short(bytes), MULTIPLIER ^ (2 * len as u64));
    }
    let mut state = state.wrapping_add(len as u64);
    let mut at = 0;
    while len - at > 16 {
        state = folded_multiply(
            read_u64(bytes, at) ^ state,
            read_u64(bytes, at + 8) ^ MULTIPLIER,
        );
        at += 16;
    }
    folded_multiply(
        read_u64(bytes, len.saturating_sub(16)) ^ state,
        read_u64(bytes, len - 8) ^ MULTIPLIER,
    )
}

/// The two halves of a product, joined by xor.
#[inline(always)]
fn folded_multiply(a: u64, b: u64) -> u64
    ensures { result ≡ hash.folded_multiply a b }
{
    let product = a as u128 * b as u128;
    (product & 0xFFFF_FFFF_FFFF_FFFF) as u64 ^ (product >> 64) as u64
}

/// Four bytes as a number, the lowest first.
#[inline(always)]
fn read_u32(bytes: &[u8], at: usize) -> u64
    requires { at + 4 ≤ length bytes.now }
    ensures { result ≡ hash.read_u32 bytes.now at }
{
    u32::from_le_bytes([bytes[at], bytes[at + 1], bytes[at + 2], bytes[at + 3]]) as u64
}

/// Eight bytes as a number, the lowest first.
#[inline(always)]
fn read_u64(bytes: &[u8], at: usize) -> u64
    requires { at + 8 ≤ length bytes.now }
    ensures { result ≡ hash.read_u64 bytes.now at }
{
    read_u32(bytes, at) | read_u32(bytes, at + 4) << 32
}

/// Up to eight bytes as one number, by reads that may overlap.
#[inline(always)]
fn read_short(bytes: &[u8]) -> u64
    ensures { result ≡ hash.read_short bytes.now }
{
    let len = bytes.len();
    if len >= 4 {
        read_u32(bytes, 0) | read_u32(bytes, len - 4) << 32
    } else if len > 0 {
        bytes[0] as u64 | (bytes[len / 2] as u64) << 8 | (bytes[len - 1] as u64) << 16
    } else {
        0
    }
}
