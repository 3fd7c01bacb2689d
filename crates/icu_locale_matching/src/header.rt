//! Reading the header.
ghost use Rattle.std.specs.Prelude.{◌≡◌, ◌==◌, ◌++◌, ◌∷◌, [], ◌≤◌, List, length, map, nat_lt, filter, AllPairs, Some, None, IfSome, IfOk, IsOk, OnOk, MatchOption};
ghost use Rattle.std.specs.List.{slice_split, cons_option, position, position_or_len, list_any};
ghost use Rattle.icu_locale_matching.specs.Header.{AreByWeight, Wish, shown, wanted, refused, is_any, refuses_any, wants_any, has_weight, is_blank, is_weight, weight, read_element, wishes_of};
ghost use Rattle.icu_locale_matching.specs.inner.Parts.{elements_if_any, parts_if_any, shown_if_any};

use crate::parts::{cut, halves, trimmed};
use crate::weights::qvalue;
use std::alloc::{AllocError, Global};
use std::marker::Model;

// As many wishes as most headers have.
const FEW: usize = 8;

/// A language range, and its weight in thousandths: 0 where it is refused.
#[derive(Clone, Copy, Debug, PartialEq, Eq)]
pub struct LentWish<'h> {
    /// The range, as it was written.
    pub range: &'h [u8],
    /// Its weight.
    pub weight: u16,
}

/// The header Accept-Language (RFC 9110, section 12.5.4): the wishes of its first hundred elements by falling weight,
/// those of equal weight in their order. What cannot be read is passed over. Several headers are one, joined by `,`.
/// An empty element is none. Contracts see the list of wishes.
#[derive(Debug, Drop)]
pub struct AcceptLanguage<'h> {
    wishes: Vec<LentWish<'h>>,
}

impl<'h> Model for AcceptLanguage<'h> {
    ghost Value = { List Wish };

    ghost view = { λ h. map shown h.wishes.items };

    ghost invariant = { λ h. AllPairs (λ v w. w.1 ≤ v.1) (map shown h.wishes.items) };
}

impl<'h> AcceptLanguage<'h> {
    /// Reads the header. It takes memory for the list of wishes alone.
    ///
    /// # Errors
    ///
    /// `AllocError` where that was refused: never where no element can be read.
    pub fn try_from_bytes(alloc: Global, header: &'h [u8]) -> Result<Self, AllocError>
        ensures read { IfOk result (AreByWeight (wishes_of header.now)) }
        ensures free { wishes_of header.now ≡ [] → IsOk result }
    {
        let wishes = read_wishes(alloc, header)?;
        Ok(AcceptLanguage { wishes })
    }

    /// Whether there is no wish. It takes no memory.
    pub fn is_empty(&self) -> bool
        ensures { result ≡ (length self.now == 0) }
    {
        self.wishes.is_empty()
    }

    /// The wishes that are wanted, the most wanted first. It takes no memory.
    pub fn wanted(&self) -> &[LentWish<'h>]
        ensures { map shown result.now ≡ wanted self.now }
    {
        let (wanted, _) = wanted_and_refused(&self.wishes);
        wanted
    }

    /// The wishes that are refused: those of weight 0, in their order. It takes no memory.
    pub fn refused(&self) -> &[LentWish<'h>]
        ensures { map shown result.now ≡ refused self.now }
    {
        let (_, refused) = wanted_and_refused(&self.wishes);
        refused
    }

    /// Whether `*` is refused: what is served is to be named. It takes no memory.
    pub fn refuses_any(&self) -> bool
        ensures { result ≡ refuses_any self.now }
    {
        some_any(self.refused())
    }

    /// Whether any language is wanted, by `*`. It takes no memory.
    pub fn wants_any(&self) -> bool
        ensures { result ≡ wants_any self.now }
    {
        some_any(self.wanted())
    }
}

// Whether one of these is `*`.
fn some_any(wishes: &[LentWish<'_>]) -> bool
    ensures { result ≡ list_any is_any (map shown wishes.now) }
{
    any_of(wishes)
}

fn any_of(wishes: &[LentWish<'_>]) -> bool
    ensures { result ≡ list_any (λ w. is_any (shown w)) wishes.now }
{
    wishes.iter().any(|wish| wish.range == b"*".as_slice())
}

// The wishes of the first hundred elements, by falling weight.
fn read_wishes(alloc: Global, header: &[u8]) -> Result<Vec<LentWish<'_>>, AllocError>
    ensures read { IfOk result
        (λ list. AreByWeight (wishes_of header.now) (map shown list.items)) }
    ensures free { wishes_of header.now ≡ [] → IsOk result }
{
    let mut list = Vec::new(alloc);
    let mut rest = Some(header);
    for i in 0..100usize {
        let (first, others) = match next_element(rest) {
            Some(found) => found,
            None => return Ok(list),
        };
        add_element(&mut list, first)?;
        rest = others;
    }
    Ok(list)
}

// The first part that is not empty, and what is left behind it.
fn next_element(text: Option<&[u8]>) -> Option<(&[u8], Option<&[u8]>)>
    ensures { MatchOption result (elements_if_any text.entry ≡ [])
        (λ found. elements_if_any text.entry ≡ found.0.now ∷ elements_if_any found.1) }
{
    let mut rest = text;
    while let Some(text) = rest {
        let (first, others) = cut(text, b',');
        if !is_blank(first) {
            return Some((first, others));
        }
        rest = others;
    }
    None
}

// Whether a part is empty, white space aside.
fn is_blank(part: &[u8]) -> bool
    ensures { result ≡ is_blank part.now }
{
    trimmed(part).is_empty()
}

// The wishes that are wanted, and those that are refused, of a list by falling weight.
fn wanted_and_refused<'l, 'h>(list: &'l [LentWish<'h>]) -> (&'l [LentWish<'h>], &'l [LentWish<'h>])
    requires { AllPairs (λ v w. w.1 ≤ v.1) (map shown list.now) }
    ensures wanted { map shown result.0.now ≡ wanted (map shown list.now) }
    ensures refused { map shown result.1.now ≡ refused (map shown list.now) }
{
    list.split_at(place_for(list, 1))
}

// Puts the wish of an element, if it can be read, to its place.
fn add_element<'h>(list: &mut Vec<LentWish<'h>>, text: &'h [u8]) -> Result<(), AllocError>
    ensures added { OnOk result ((wishes : List Wish)
        → AreByWeight wishes (map shown list.old.items)
        → AreByWeight (wishes ++ cons_option (read_element text.now) [])
        (map shown list.new.items)) }
    ensures free { read_element text.now ≡ None → IsOk result }
{
    match read_element(text) {
        Some(wish) => add_wish(list, wish),
        None => Ok(()),
    }
}

// Puts a wish after those that have no less weight.
fn add_wish<'h>(list: &mut Vec<LentWish<'h>>, wish: LentWish<'h>) -> Result<(), AllocError>
    ensures { OnOk result ((wishes : List Wish) → AreByWeight wishes (map shown list.old.items)
        → AreByWeight (wishes ++ shown wish.entry ∷ []) (map shown list.new.items)) }
{
    make_room(list)?;
    let place = place_for(list, wish.weight);
    list.insert(place, wish)?;
    Ok(())
}

// Makes room for the first wishes, as many as most headers have.
fn make_room(list: &mut Vec<LentWish<'_>>) -> Result<(), AllocError>
    ensures { OnOk result (list.new.items ≡ list.old.items) }
{
    if list.is_empty() {
        list.reserve(FEW)?;
    }
    Ok(())
}

// Where the first wish with less weight is, or the end.
fn place_for(list: &[LentWish<'_>], weight: u16) -> usize
    ensures place { result ≡ position_or_len (λ w. nat_lt w.weight weight) list.now }
    ensures within { result ≤ length list.now }
{
    match lighter(list, weight) {
        Some(place) => place,
        None => list.len(),
    }
}

fn lighter(list: &[LentWish<'_>], weight: u16) -> Option<usize>
    ensures { result ≡ position (λ w. nat_lt w.weight weight) list.now }
{
    list.iter().position(|wish| wish.weight < weight)
}

// An element as a wish, if it can be read.
fn read_element(text: &[u8]) -> Option<LentWish<'_>>
    ensures { shown_if_any result ≡ read_element text.now }
{
    let (range, parameters) = cut(text, b';');
    let range = trimmed(range);
    if range.is_empty() {
        return None;
    }
    match weight(parameters) {
        Some(weight) => Some(LentWish { range, weight }),
        None => None,
    }
}

// The weight that parameters give.
fn weight(parameters: Option<&[u8]>) -> Option<u16>
    ensures { result ≡ weight (parts_if_any 59 parameters.entry) }
{
    match parameters {
        Some(text) => weight_of(text),
        None => Some(1000),
    }
}

// The weight that the parameters of a text give.
fn weight_of(text: &[u8]) -> Option<u16>
    ensures { result ≡ weight (slice_split (λ b. b == 59) text.now) }
{
    match tenths(text) {
        Some(weight) => Some(weight),
        None => searched_weight(Some(text)),
    }
}

// The weight of a text as most headers have it.
fn tenths(text: &[u8]) -> Option<u16>
    ensures { IfSome result (λ w. weight (slice_split (λ b. b == 59) text.now) ≡ Some w) }
{
    if text.len() != 5 {
        return None;
    }
    if text == b"q=0.9".as_slice() {
        return Some(900);
    }
    if text == b"q=0.8".as_slice() {
        return Some(800);
    }
    if text == b"q=0.7".as_slice() {
        return Some(700);
    }
    if text == b"q=0.6".as_slice() {
        return Some(600);
    }
    if text == b"q=0.5".as_slice() {
        return Some(500);
    }
    if text == b"q=0.4".as_slice() {
        return Some(400);
    }
    if text == b"q=0.3".as_slice() {
        return Some(300);
    }
    if text == b"q=0.2".as_slice() {
        return Some(200);
    }
    if text == b"q=0.1".as_slice() {
        return Some(100);
    }
    None
}

// The weight that parameters give, by a search for the first that is one.
fn searched_weight(parameters: Option<&[u8]>) -> Option<u16>
    ensures { result ≡ weight (parts_if_any 59 parameters.entry) }
{
    let mut rest = parameters;
    while let Some(text) = rest {
        let (first, others) = cut(text, b';');
        if is_weight(first) {
            let (_, value) = halves(first, b'=');
            return qvalue(trimmed(value));
        }
        rest = others;
    }
    Some(1000)
}

// Whether a parameter is the weight.
fn is_weight(parameter: &[u8]) -> bool
    ensures { result ≡ is_weight parameter.now }
{
    let (name, _) = halves(parameter, b'=');
    match trimmed(name) {
        [byte] => byte.to_ascii_lowercase() == b'q',
        _ => false,
    }
}
