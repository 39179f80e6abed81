//! What the host believes of one cell.
ghost use Rattle.std.specs.Prelude.{◌≡◌};

use crate::mdt_state::MdtState;
use codes3270::Attr;
use std::marker::Model;

/// What is known of the text of a field.
#[derive(Clone, Copy, PartialEq, Eq)]
pub(crate) enum TextKnowledge {
    /// Each cell says itself whether its character is known.
    Cells,
    /// The field's characters are the text of its `Unplaced` cells, or all nulls.
    ExactOrNulls,
    /// The field's characters without nulls are the text of its `Unplaced` cells.
    Text,
    /// The field's characters without nulls are the text of its `Unplaced` cells, or all are nulls.
    TextOrNulls,
}

/// What the host believes of one cell.
#[derive(Clone, Copy)]
pub(crate) enum CellBelief {
    /// An attribute (held with MDT off), what is known of its MDT, and what is known of its field's text.
    Attr(Attr, MdtState, TextKnowledge),
    /// A character that is known.
    Known(u8),
    /// A character of the field's text. Which cell of the field holds it isn't known; this one only stores it.
    Unplaced(u8),
    /// A character of which nothing is known.
    Unknown,
}

/// What was known of a field's text, or that there was no field.
#[derive(Clone, Copy)]
enum Kept {
    NoField,
    Cells,
    ExactOrNulls,
    Text,
    TextOrNulls,
}

/// What was known of the text of the field whose attribute this cell held, if it held one. It is an option in a single
/// byte, so that a screen of them takes little room. Contracts see the option.
#[derive(Clone, Copy)]
pub(crate) struct PriorKnowledge {
    kept: Kept,
}

impl Model for PriorKnowledge {
    ghost use Rattle.std.specs.Prelude.{Option};
    ghost use Rattle.std.proofs.Common.{ap};
    ghost use Rattle.shadow.specs.declared.cell_belief.Kept.{Kept};
    ghost use Rattle.shadow.specs.declared.cell_belief.TextKnowledge.{TextKnowledge};
    ghost use Rattle.shadow.specs.PriorKnowledge.{kept_of, knowledge_kept, kept_again};

    ghost Value = { Option TextKnowledge };

    ghost view = { λ former. knowledge_kept former.kept };

    ghost inverse = { λ knowledge. record { kept = kept_of knowledge } };

    ghost inverse_ok = { λ former _. ap (λ (kept : Kept). record { kept = kept }) (kept_again former.kept) };
}

/// The cell held no attribute.
pub(crate) const NO_FIELD: PriorKnowledge = PriorKnowledge {
    kept: Kept::NoField,
};

impl PriorKnowledge {
    pub(crate) fn new(knowledge: Option<TextKnowledge>) -> PriorKnowledge
        ensures { result ≡ knowledge }
    {
        let kept = match knowledge {
            None => Kept::NoField,
            Some(TextKnowledge::Cells) => Kept::Cells,
            Some(TextKnowledge::ExactOrNulls) => Kept::ExactOrNulls,
            Some(TextKnowledge::Text) => Kept::Text,
            Some(TextKnowledge::TextOrNulls) => Kept::TextOrNulls,
        };
        PriorKnowledge { kept }
    }

    pub(crate) fn get(self) -> Option<TextKnowledge>
        ensures { result ≡ self }
    {
        match self.kept {
            Kept::NoField => None,
            Kept::Cells => Some(TextKnowledge::Cells),
            Kept::ExactOrNulls => Some(TextKnowledge::ExactOrNulls),
            Kept::Text => Some(TextKnowledge::Text),
            Kept::TextOrNulls => Some(TextKnowledge::TextOrNulls),
        }
    }
}

/// A cell before a write: what was known of its field's text, if it held an attribute; and whether the write has stored
/// in it since (`fresh`).
#[derive(Clone, Copy)]
pub(crate) struct BeforeWrite {
    pub knowledge: PriorKnowledge,
    pub fresh: bool,
}
