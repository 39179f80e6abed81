//! The text of a field, character by character.
ghost use Rattle.std.specs.Prelude.{◌≡◌, ◌∷◌, List, [], MatchOption};
ghost use Rattle.std.specs.Iterator.{YieldsFirst, item_count};
ghost use Rattle.shadow.specs.FieldTexts.{text_in};
ghost use Rattle.shadow.specs.declared.cell_belief.CellBelief.{CellBelief as CellBeliefKind};

use crate::cell_belief::CellBelief;
use crate::cell_beliefs::{Ahead, CellBeliefs};
use datastream::Ring;
use std::marker::Model;

/// Which cells of a field hold the characters of its text.
#[derive(Clone, Copy)]
pub(crate) enum TextPlaces {
    /// Those whose characters are known.
    Known,
    /// The `Unplaced` ones.
    Unplaced,
    /// None: there is no text.
    Nowhere,
}

/// An iterator over the text of a field's fact (`Shadow::text`). Contracts see the list of the characters left.
#[derive(Drop)]
pub struct FieldText<'a> {
    ahead: Ahead<'a>,
    text_places: TextPlaces,
}

impl<'a> Model for FieldText<'a> {
    ghost use Rattle.std.specs.Prelude.{List, ℕ};
    ghost use Rattle.shadow.specs.FieldTexts.{text_in};

    ghost Value = { List ℕ };

    ghost view = { λ text. text_in text.text_places text.ahead };
}

/// The character that a cell has of the text, if it has one.
fn character_at(text_places: TextPlaces, place: CellBelief) -> Option<u8>
    ensures { (rest : List CellBeliefKind) → MatchOption result (text_in text_places (place ∷ rest) ≡ [])
        (λ char. text_in text_places (place ∷ rest) ≡ char ∷ text_in text_places rest) }
{
    match (text_places, place) {
        (TextPlaces::Known, CellBelief::Known(char)) => Some(char),
        (TextPlaces::Unplaced, CellBelief::Unplaced(char)) => Some(char),
        _ => None,
    }
}

impl<'a> FieldText<'a> {
    /// The text that begins at the first of these cells.
    pub(crate) fn new(ahead: Ahead<'a>, text_places: TextPlaces) -> FieldText<'a>
        ensures { result ≡ text_in text_places ahead.entry }
    {
        FieldText { ahead, text_places }
    }

    /// The empty text.
    pub(crate) fn none(beliefs: &'a CellBeliefs) -> FieldText<'a>
        ensures { result ≡ [] }
    {
        FieldText {
            ahead: Ring::all(beliefs),
            text_places: TextPlaces::Nowhere,
        }
    }
}

impl<'a> Iterator for FieldText<'a> {
    type Item = u8;

    ghost next_gives = { YieldsFirst (λ text. text) };

    ghost remaining = { item_count (λ text. text) };

    fn next(&mut self) -> Option<u8> {
        let place = match self.ahead.next() {
            Some(place) => place,
            None => CellBelief::Unknown,
        };
        match character_at(self.text_places, place) {
            Some(char) => Some(char),
            None => {
                self.text_places = TextPlaces::Nowhere;
                None
            }
        }
    }
}
