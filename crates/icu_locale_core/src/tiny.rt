//! A short text of letters and digits, in an array and behind no pointer.
ghost use Rattle.std.specs.Prelude.{◌≡◌, ◌≤◌, ◌+◌, ◌++◌, ◌∷◌, [], take, codes, IsTrue, IfSome, is_some, length, List, ℕ, nat_eq};
ghost use Rattle.std.proofs.Common.{rules};
ghost use Rattle.std.specs.Cmp.{partial_order_from_own_ties};
ghost use Rattle.std.specs.Cmp.Lexicographic.{pointwise, slice_cmp};
ghost use Rattle.std.specs.Cmp.Rules.{comparing, hashing};
ghost use Rattle.std.specs.Ordering.{nat_cmp, as_partial_cmp};
ghost use Rattle.icu_locale_core.specs.Numbers.{IsNumberOf};
ghost use Rattle.icu_locale_core.specs.Subtag.{is_alphanumeric, IsWritten};
ghost use Rattle.icu_locale_core.specs.inner.Class.{is_member, written_case, longest};
ghost use Rattle.icu_locale_core.specs.inner.Padded.{unpadded, padded, IsPadded};
ghost use Rattle.std.specs.Hash as fed;

use crate::classes::Class;
use std::cmp::Ordering;
use std::fmt;
use std::hash::{Hash, Hasher};
use std::marker::Model;

/// A text of at most `N` letters and digits.
#[derive(Clone, Copy)]
pub struct TinyText<const N: usize> {
    // The text, and zeros after it.
    pub(crate) bytes: [u8; N],
}

impl<const N: usize> Model for TinyText<N> {
    ghost Value = { List ℕ };

    ghost view = { λ a. unpadded a.bytes };

    ghost invariant = { λ a. IsPadded N a.bytes };

    ghost inverse = { λ t. record { bytes = padded N t } };

    ghost inverse_ok = { λ a h. λ i. record { bytes = h.zeros i } };
}

impl<const N: usize> TinyText<N> {
    // The text in the written case of a class, where it belongs to the class: one walk tells both.
    #[inline(always)]
    pub fn read(class: Class, text: &[u8]) -> Option<Self>
        requires long { longest class ≤ N }
        requires small { N ≤ 8 }
        ensures text { IfSome result (λ x. x ≡ written_case class text.now) }
        ensures accepted { is_some result ≡ is_member class text.now }
        ensures known { IfSome result (IsWritten (is_member class) (written_case class)) }
    {
        let kind = class.characters(text)?;
        let mut bytes = [0; N];
        for (place, byte) in text.iter().enumerate() {
            if !kind.has(*byte) {
                return None;
            }
            bytes[place] = class.written_byte(place, *byte);
        }
        Some(TinyText { bytes })
    }

    // How many bytes the text has.
    pub fn len(&self) -> usize
        ensures { result ≡ length self.now }
    {
        let mut length = 0;
        for byte in &self.bytes {
            if *byte == 0 {
                break;
            }
            length += 1;
        }
        length
    }

    pub fn as_str(&self) -> &str
        ensures text { result.now ≡ self.now }
        ensures plain { IsTrue (is_alphanumeric self.now) }
    {
        let text = &self.bytes[..self.len()];
        unsafe { str::from_utf8_unchecked(text) }
    }

    // Puts the text into a buffer at a place. What follows it there is lost.
    #[inline(always)]
    pub fn put(&self, buffer: &mut [u8], at: usize)
        requires { at + N ≤ length buffer.old }
        ensures text { take (at + length self.now) buffer.new ≡ take at buffer.old ++ self.now }
        ensures size { length buffer.new ≡ length buffer.old }
        ensures short { length self.now ≤ N }
        ensures plain { IsTrue (is_alphanumeric self.now) }
    {
        buffer[at..at + N].copy_from_slice(&self.bytes);
    }

    // Puts `-` and the text into a buffer at a place. What follows it there is lost.
    #[inline(always)]
    pub fn put_after_dash(&self, buffer: &mut [u8], at: usize)
        requires { at + (1 + N) ≤ length buffer.old }
        ensures text { take (at + (1 + length self.now)) buffer.new
            ≡ take at buffer.old ++ (codes "-" ++ self.now) }
        ensures size { length buffer.new ≡ length buffer.old }
        ensures short { length self.now ≤ N }
        ensures plain { IsTrue (is_alphanumeric self.now) }
    {
        buffer[at] = b'-';
        self.put(buffer, at + 1);
    }

    // The text with the zeros after it as one number. Numbers are in the order of the texts.
    #[inline(always)]
    pub fn number(&self) -> u64
        ensures { IsNumberOf N self.now result }
    {
        let mut number = 0;
        for byte in &self.bytes {
            number = number * 256 + u64::from(*byte);
        }
        number
    }

    // The text with the zeros after it.
    fn padded(&self) -> &str
        ensures value { result.now ≡ padded N self.now }
        ensures short { length self.now ≤ N }
        ensures plain { IsTrue (is_alphanumeric self.now) }
    {
        unsafe { str::from_utf8_unchecked(&self.bytes) }
    }
}

impl TinyText<4> {
    #[inline(always)]
    pub fn of_two(first: u8, second: u8) -> Self
        requires { IsTrue (is_alphanumeric (first ∷ second ∷ [])) }
        ensures { result ≡ first ∷ second ∷ [] }
    {
        TinyText {
            bytes: [first, second, 0, 0],
        }
    }

    #[inline(always)]
    pub fn of_three(first: u8, second: u8, third: u8) -> Self
        requires { IsTrue (is_alphanumeric (first ∷ second ∷ third ∷ [])) }
        ensures { result ≡ first ∷ second ∷ third ∷ [] }
    {
        TinyText {
            bytes: [first, second, third, 0],
        }
    }

    #[inline(always)]
    pub fn of_four(first: u8, second: u8, third: u8, fourth: u8) -> Self
        requires { IsTrue (is_alphanumeric (first ∷ second ∷ third ∷ fourth ∷ [])) }
        ensures { result ≡ first ∷ second ∷ third ∷ fourth ∷ [] }
    {
        TinyText {
            bytes: [first, second, third, fourth],
        }
    }

    // How many bytes a text of two or three has: the third byte tells, with no branch.
    #[inline(always)]
    pub fn two_or_three(&self) -> usize
        requires least { 2 ≤ length self.now }
        requires most { length self.now ≤ 3 }
        ensures { result ≡ length self.now }
    {
        2 + usize::from(self.bytes[2] != 0)
    }
}

impl<const N: usize> PartialEq for TinyText<N> {
    ghost eq = { pointwise nat_eq };

    ghost laws = { Prim.search (comparing, rules) };

    fn eq(&self, other: &Self) -> bool {
        self.padded() == other.padded()
    }
}

impl<const N: usize> Eq for TinyText<N> {
    ghost laws = { Prim.search (comparing, rules) };
}

impl<const N: usize> PartialOrd for TinyText<N> {
    ghost partial_cmp = { as_partial_cmp (slice_cmp nat_cmp) };

    ghost laws = { partial_order_from_own_ties
        (Prim.search (comparing, rules)) (Prim.search (comparing, rules)) };

    fn partial_cmp(&self, other: &Self) -> Option<Ordering> {
        Some(self.cmp(other))
    }
}

impl<const N: usize> Ord for TinyText<N> {
    ghost cmp = { slice_cmp nat_cmp };

    ghost total = { Prim.search (comparing, rules) };

    ghost matches_partial_cmp = { Prim.search (comparing, rules) };

    ghost matches_eq = { Prim.search (comparing, rules) };

    fn cmp(&self, other: &Self) -> Ordering {
        self.number().cmp(&other.number())
    }
}

impl<const N: usize> Hash for TinyText<N> {
    ghost hash_input = { λ t. fed.str t };

    ghost respects_eq = { Prim.search (hashing, rules) };

    fn hash<H: Hasher>(&self, state: &mut H) {
        self.as_str().hash(state);
    }
}

impl<const N: usize> fmt::Debug for TinyText<N> {
    fn fmt<W: fmt::Write>(&self, f: &mut fmt::Formatter<W>) -> fmt::Result {
        f.write_str(self.as_str())
    }
}
