//! A walk through the pieces of a name.
ghost use Rattle.std.specs.Prelude.{◌≡◌, ◌∷◌, ◌++◌, [], map, MatchOption};
ghost use Rattle.std.specs.Iterator.{YieldsFirstBy, item_count};
ghost use Rattle.icu_locale_names.specs.LanguageNames.{pieces_by_parts};
ghost use Rattle.icu_locale_names.specs.LentNames.{parts_by, shown_head};
ghost use Rattle.icu_locale_names.specs.Shown.{piece_of, lent_piece, lent_pieces};
ghost use Rattle.icu_locale_names.specs.Walk.{qualifier_pieces, pieces_from_script, pieces_from_region, pieces_of_items, pieces_left, pieces_not_ready};

use crate::language::parts::Parts;
use crate::shown::{LentPiece, Shown, lend_if_any, plain_if_any};
use icu_locale_core::Variant;
use icu_provider::PatternItem;

/// The qualifiers of a name that are left, in their order. It takes no memory.
#[derive(Clone, Copy, Debug)]
pub struct Qualifiers<'a> {
    pub extension: Option<LentPiece<'a>>,
    pub script: Option<LentPiece<'a>>,
    pub region: Option<LentPiece<'a>>,
    pub variants: &'a [Shown<'a, Variant>],
}

impl<'a> Qualifiers<'a> {
    // No qualifiers.
    #[inline(always)]
    fn none() -> Self
        ensures { qualifier_pieces result ≡ [] }
    {
        Qualifiers {
            extension: None,
            script: None,
            region: None,
            variants: &[],
        }
    }

    // The qualifiers of these parts, with these variants behind them.
    #[inline(always)]
    pub(super) fn of(parts: &'a Parts<'a>, variants: &'a [Shown<'a, Variant>]) -> Self
        ensures { qualifier_pieces result
            ≡ (shown_head parts.now).qualifiers ++ map piece_of variants.now }
    {
        Qualifiers {
            extension: plain_if_any(parts.extension),
            script: lend_if_any(&parts.script),
            region: lend_if_any(&parts.region),
            variants,
        }
    }

    // The first of them, and those after it.
    #[inline(always)]
    fn split_first(&self) -> Option<(LentPiece<'a>, Qualifiers<'a>)>
        ensures { MatchOption result (qualifier_pieces self.now ≡ [])
            (λ r. qualifier_pieces self.now ≡ lent_piece r.0 ∷ qualifier_pieces r.1) }
    {
        match self.extension {
            Some(piece) => {
                let rest = Qualifiers {
                    extension: None,
                    script: self.script,
                    region: self.region,
                    variants: self.variants,
                };
                Some((piece, rest))
            }
            None => self.split_from_script(),
        }
    }

    // The same of the script and what follows it.
    #[inline(always)]
    fn split_from_script(&self) -> Option<(LentPiece<'a>, Qualifiers<'a>)>
        ensures { MatchOption result (pieces_from_script self.now ≡ [])
            (λ r. pieces_from_script self.now ≡ lent_piece r.0 ∷ qualifier_pieces r.1) }
    {
        match self.script {
            Some(piece) => {
                let rest = Qualifiers {
                    extension: None,
                    script: None,
                    region: self.region,
                    variants: self.variants,
                };
                Some((piece, rest))
            }
            None => self.split_from_region(),
        }
    }

    // The same of the region and what follows it.
    #[inline(always)]
    fn split_from_region(&self) -> Option<(LentPiece<'a>, Qualifiers<'a>)>
        ensures { MatchOption result (pieces_from_region self.now ≡ [])
            (λ r. pieces_from_region self.now ≡ lent_piece r.0 ∷ qualifier_pieces r.1) }
    {
        match self.region {
            Some(piece) => {
                let rest = Qualifiers {
                    extension: None,
                    script: None,
                    region: None,
                    variants: self.variants,
                };
                Some((piece, rest))
            }
            None => self.split_variants(),
        }
    }

    // The same of the variants.
    #[inline(always)]
    fn split_variants(&self) -> Option<(LentPiece<'a>, Qualifiers<'a>)>
        ensures { MatchOption result (map piece_of self.now.variants.now ≡ [])
            (λ r. map piece_of self.now.variants.now ≡ lent_piece r.0 ∷ qualifier_pieces r.1) }
    {
        let (first, variants) = self.variants.split_first()?;
        let rest = Qualifiers {
            extension: None,
            script: None,
            region: None,
            variants,
        };
        Some((first.lend(), rest))
    }
}

impl<'a> Iterator for Qualifiers<'a> {
    type Item = LentPiece<'a>;

    ghost next_gives = { YieldsFirstBy lent_piece qualifier_pieces };

    ghost remaining = { item_count qualifier_pieces };

    fn next(&mut self) -> Option<LentPiece<'a>> {
        let (piece, after) = self.split_first()?;
        *self = after;
        Some(piece)
    }
}

// What the places of a pattern stand for: the base, and the first qualifier with the others after it.
#[derive(Clone, Copy, Debug)]
pub struct Frame<'a> {
    pub base: LentPiece<'a>,
    pub first: LentPiece<'a>,
    pub others: Qualifiers<'a>,
    pub separator: &'a str,
}

/// A walk through the pieces of a name. It takes no memory.
// A piece that is ready comes first, then the qualifiers that are left of a place,
// each after a separator, and then the items of the pattern.
#[derive(Clone, Copy, Debug)]
pub struct PieceWalk<'a> {
    pub frame: Frame<'a>,
    pub ready: Option<LentPiece<'a>>,
    pub pending: Qualifiers<'a>,
    pub items: &'a [PatternItem],
}

impl<'a> PieceWalk<'a> {
    // The walk through a name of these parts: the base alone where there are no qualifiers, else the pattern.
    pub fn new(
        parts: &'a Parts<'a>,
        variants: &'a [Shown<'a, Variant>],
        pattern: &'a [PatternItem],
        separator: &'a str,
    ) -> Self
        ensures { pieces_left result
            ≡ pieces_by_parts (parts_by parts.now variants.now pattern.now separator.now) }
    {
        let base = parts.base.lend();
        let qualifiers = Qualifiers::of(parts, variants);
        match qualifiers.split_first() {
            None => PieceWalk {
                frame: Frame {
                    base,
                    first: base,
                    others: qualifiers,
                    separator,
                },
                ready: Some(base),
                pending: Qualifiers::none(),
                items: &[],
            },
            Some((first, others)) => PieceWalk {
                frame: Frame {
                    base,
                    first,
                    others,
                    separator,
                },
                ready: None,
                pending: Qualifiers::none(),
                items: pattern,
            },
        }
    }

    // The first piece, and the walk after it.
    #[inline(always)]
    fn step(&self) -> Option<(LentPiece<'a>, PieceWalk<'a>)>
        ensures { MatchOption result (pieces_left self.now ≡ [])
            (λ r. pieces_left self.now ≡ lent_piece r.0 ∷ pieces_left r.1) }
    {
        match self.ready {
            Some(piece) => {
                let after = PieceWalk {
                    frame: self.frame,
                    ready: None,
                    pending: self.pending,
                    items: self.items,
                };
                Some((piece, after))
            }
            None => self.step_through_pending(),
        }
    }

    // The same where no piece is ready: what comes first is a separator, if a qualifier is left.
    #[inline(always)]
    fn step_through_pending(&self) -> Option<(LentPiece<'a>, PieceWalk<'a>)>
        ensures { MatchOption result (pieces_not_ready self.now ≡ [])
            (λ r. pieces_not_ready self.now ≡ lent_piece r.0 ∷ pieces_left r.1) }
    {
        match self.pending.split_first() {
            Some((piece, pending)) => {
                let after = PieceWalk {
                    frame: self.frame,
                    ready: Some(piece),
                    pending,
                    items: self.items,
                };
                Some((LentPiece::plain(self.frame.separator), after))
            }
            None => self.step_through_items(),
        }
    }

    // The first piece of what the items stand for, and the walk after it.
    #[inline(always)]
    fn step_through_items(&self) -> Option<(LentPiece<'a>, PieceWalk<'a>)>
        ensures { MatchOption result (pieces_of_items self.now.frame self.now.items.now ≡ [])
            (λ r. pieces_of_items self.now.frame self.now.items.now
            ≡ lent_piece r.0 ∷ pieces_left r.1) }
    {
        let (item, items) = self.items.split_first()?;
        match item {
            PatternItem::Literal(text) => {
                Some((LentPiece::plain(text.as_str()), self.at_items(items)))
            }
            PatternItem::First => Some((self.frame.base, self.at_items(items))),
            PatternItem::Second => {
                let after = PieceWalk {
                    frame: self.frame,
                    ready: None,
                    pending: self.frame.others,
                    items,
                };
                Some((self.frame.first, after))
            }
        }
    }

    // The walk through these items alone.
    #[inline(always)]
    fn at_items(&self, items: &'a [PatternItem]) -> PieceWalk<'a>
        ensures { pieces_left result ≡ pieces_of_items self.now.frame items.now }
    {
        PieceWalk {
            frame: self.frame,
            ready: None,
            pending: Qualifiers::none(),
            items,
        }
    }
}

impl<'a> Iterator for PieceWalk<'a> {
    type Item = LentPiece<'a>;

    ghost next_gives = { YieldsFirstBy lent_piece pieces_left };

    ghost remaining = { item_count pieces_left };

    #[inline(always)]
    fn next(&mut self) -> Option<LentPiece<'a>> {
        let (piece, after) = self.step()?;
        *self = after;
        Some(piece)
    }
}
