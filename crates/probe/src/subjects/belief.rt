//! What shadow believes of a screen, and the paint of a wanted screen (`cells`), by Debug.
//!
//! ```text
//! take MODEL BYTES  a terminal of a model carried out a command: whether it is plain, or the fault
//! hear FORM BYTES   inbound data of a form from a screen of the believed size: whether it can be, or the fault
//! paint             appends what paints the wanted screen, if what is to be kept is there
//! at ADDR           the fact of the field whose attribute is there; the cell; the text
//! ```
ghost use Rattle.std.specs.Prelude.{IsTrue};
ghost use Rattle.codes3270.specs.Size.{cells_in};
ghost use Rattle.shadow.specs.Belief.{IsOfSize};

use crate::subjects::cells::{cell_at, change, form, put_belief, put_wanted, size_of};
use crate::talk::{Answer, Subject, Words};
use codes3270::{Model, Size};
use datastream::{
    CommandCode, CommandFault, Form, InboundFault, Want, Wanted, read_command, read_inbound,
};
use shadow::{HeardFault, Shadow, any_keep, plain};

#[derive(Drop)]
pub(crate) struct Painter {
    belief: Shadow,
    wanted: Wanted,
}

fn has_size(shadow: &Shadow, size: Size) -> bool
    ensures { IsTrue result → IsOfSize (cells_in size) shadow.now }
{
    size_of(shadow).cells() == size.cells()
}

fn put_place(answer: &mut Answer, shadow: &Shadow, place: u16) {
    let addr = cell_at(shadow, place);
    answer.line(&shadow.fact(addr));
    answer.line(&shadow.known(addr));
    answer.each("text", shadow.text(addr))
}

impl Painter {
    pub(crate) fn new() -> Painter {
        Painter {
            belief: Shadow::blank(),
            wanted: Wanted::filled(Want::Keep, Size::base()),
        }
    }

    fn sent(&mut self, model: Model, bytes: &[u8]) -> Result<bool, CommandFault> {
        let command = read_command(bytes, size_of(&self.belief), model.alternate())?;
        let is_sized = command.code() != CommandCode::Write
            || has_size(&self.belief, command.size());
        let is_taken = is_sized && plain(&command);
        if is_taken {
            self.belief.sent_taken(&command);
        }
        Ok(is_taken)
    }

    fn hear(&mut self, form: Form, bytes: &[u8]) -> Result<Option<HeardFault>, InboundFault> {
        let inbound = read_inbound(bytes, form, size_of(&self.belief))?;
        // It has that size.
        if !has_size(&self.belief, inbound.size()) {
            return Ok(Some(HeardFault::Contradiction));
        }
        Ok(self.belief.heard(&inbound).err())
    }

    fn paint(&self, answer: &mut Answer) {
        if !any_keep(self.wanted.cells()) || self.belief.fits(&self.wanted) {
            let called = self.belief.paint(&mut answer.out, &self.wanted);
            answer.done(called)
        }
    }
}

impl Subject for Painter {
    fn take(&mut self, word: &str, words: &mut Words<'_>, answer: &mut Answer) {
        match word {
            "new" => self.belief = Shadow::blank(),
            "take" => answer.line(&self.sent(words.model(), words.bytes())),
            "hear" => answer.line(&self.hear(form(words), words.bytes())),
            "show" => put_belief(answer, &self.belief),
            "fits" => answer.line(&self.belief.fits(&self.wanted)),
            "paint" => self.paint(answer),
            "doubt" => self.belief.doubt(),
            "size" => answer.line(&self.belief.size()),
            "settled" => answer.line(&self.belief.is_settled()),
            "at" => put_place(answer, &self.belief, words.number()),
            "wanted" => put_wanted(answer, &self.wanted),
            _ => change(words, &mut self.wanted, word),
        }
    }
}
