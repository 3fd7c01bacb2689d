//! Numbers in bytes, pieces of texts, and the entries of the form.
ghost use Rattle.std.specs.Prelude.{◌≡◌, ◌+◌, ◌≤◌, length, true, false, MatchOption};
ghost use Rattle.icu_locale_core.specs.TextSet.{text_cmp};
ghost use Rattle.icu_tables_flat.specs.Form.{number16, number32, is_boundary, is_piece, piece};

use std::cmp::Ordering;

// The number of two bytes at a place.
#[inline(always)]
#[tactic(auto, unfolding(crate::specs::Form::number16))]
pub(crate) fn number16(bytes: &[u8], at: usize) -> u16
    requires { at + 2 ≤ length bytes.now }
    ensures { result ≡ number16 bytes.now at }
{
    u16::from_le_bytes([bytes[at], bytes[at + 1]])
}

// The number of four bytes at a place.
#[inline(always)]
#[tactic(auto, unfolding(crate::specs::Form::number32))]
pub(crate) fn number32(bytes: &[u8], at: usize) -> u32
    requires { at + 4 ≤ length bytes.now }
    ensures { result ≡ number32 bytes.now at }
{
    u32::from_le_bytes([bytes[at], bytes[at + 1], bytes[at + 2], bytes[at + 3]])
}

// Whether a character of texts begins at a place, or they end there.
#[inline(always)]
#[tactic(auto, unfolding(crate::specs::Form::is_boundary))]
fn is_boundary(texts: &str, at: usize) -> bool
    ensures { result ≡ is_boundary texts.now at }
{
    let bytes = texts.as_bytes();
    if at < bytes.len() {
        bytes[at] < 128 || 192 <= bytes[at]
    } else {
        at == bytes.len()
    }
}

// The piece of texts at a place, of a length, if it is there.
#[inline(always)]
#[tactic(auto, unfolding(crate::specs::Form::is_piece))]
pub(crate) fn piece_of(texts: &str, place: u32, len: u32) -> Option<&str>
    ensures { MatchOption result (is_piece texts.now place len ≡ false)
        (λ t. (is_piece texts.now place len ≡ true) × (t.now ≡ piece texts.now place len)) }
{
    let from = place as usize;
    let to = from + len as usize;
    if is_boundary(texts, from) && is_boundary(texts, to) {
        Some(&texts[from..to])
    } else {
        None
    }
}

// The piece of texts at a place, of a length, that is there.
#[inline(always)]
pub(crate) fn piece_at(texts: &str, place: u32, len: u32) -> &str
    requires { is_piece texts.now place len ≡ true }
    ensures { result.now ≡ piece texts.now place len }
{
    let from = place as usize;
    &texts[from..from + len as usize]
}

// The order of two texts. Most of them differ in their first byte, which needs no call.
#[inline(always)]
pub(crate) fn compared(left: &str, right: &str) -> Ordering
    ensures { result ≡ text_cmp left.now right.now }
{
    match (left.as_bytes().first(), right.as_bytes().first()) {
        (Some(first), Some(other)) if first != other => first.cmp(other),
        _ => left.cmp(right),
    }
}
