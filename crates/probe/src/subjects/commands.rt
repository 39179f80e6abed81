//! Data streams of datastream. The size is the alternate one of MODEL.
//!
//! ```text
//! read NOW ALTERNATE BYTES    a command for a screen of the size of NOW, whose own model is ALTERNATE
//! inbound FORM MODEL BYTES    data of a form (modified, all, buffer)
//! replace BYTES               appends inbound data with its graphic escapes replaced: whether there were any
//! begin CODE WCC; sba ADDR; sf BYTE; chars BYTES; ra ADDR BYTE; ic    a writer appends it
//! ```
use crate::subjects::cells::{are_storable, at, character, form};
use crate::talk::{Answer, Fault, Hex, Put, Subject, Words};
use codes3270::{Attr, Size, Wcc, aid_byte};
use datastream::{
    Cells, Command, CommandCode, CommandWriter, Form, Inbound, WithoutEscapes, has_escapes,
    read_command, read_inbound,
};
use std::fmt::{Debug, Display};

#[derive(Drop)]
pub(crate) struct Commands;

static CODES: [CommandCode; 7] = [
    CommandCode::Write,
    CommandCode::EraseWrite,
    CommandCode::EraseWriteAlternate,
    CommandCode::ReadBuffer,
    CommandCode::ReadModified,
    CommandCode::ReadModifiedAll,
    CommandCode::EraseAllUnprotected,
];

/// Adds a run of characters and the item after it, and says whether there was one.
fn put_run<T: Debug + Drop>(answer: &mut Answer, run: &[u8], item: Option<T>) -> bool {
    match &item {
        Some(item) => write!(answer, "{} {item:?} ", Hex(run)),
        None => writeln!(answer, "{}", Hex(run)),
    }
    item.is_some()
}

fn put_command(answer: &mut Answer, command: &Command<'_>) {
    let code = command.code();
    answer.line(&(code, code.has_orders(), command.size(), command.wcc()));
    answer.each("orders", command.orders());
    write!(answer, "runs ");
    let mut orders = command.orders();
    for _ in 0..u64::MAX {
        if !put_run(answer, orders.characters(), orders.next()) {
            break;
        }
    }
}

fn put_cells(answer: &mut Answer, cells: Cells<'_>) {
    let mut others = cells.copy();
    answer.each("cells", cells);
    write!(answer, "runs ");
    for _ in 0..u64::MAX {
        if !put_run(answer, others.characters(), others.next()) {
            break;
        }
    }
}

fn put_inbound(answer: &mut Answer, inbound: &Inbound<'_>) {
    let (form, aid) = (inbound.form(), [aid_byte(inbound.aid())]);
    let text = inbound.leading_text();
    answer.line(&(form, inbound.size(), aid, inbound.cursor(), text));
    answer.each("fields", inbound.returned());
    answer.each("parts", inbound.parts());
    answer.each("as-cells", inbound.parts().map(|part| part.cell()));
    if let Form::Buffer = form {
        put_cells(answer, inbound.cells())
    }
}

fn put_fault<F: Debug + Display>(answer: &mut Answer, fault: &F) {
    writeln!(answer, "fault {fault:?}: {fault}")
}

fn read(answer: &mut Answer, now: Size, alternate: Size, bytes: &[u8]) {
    match read_command(bytes, now, alternate) {
        Ok(command) => put_command(answer, &command),
        Err(fault) => put_fault(answer, &fault),
    }
}

fn read_data(answer: &mut Answer, form: Form, size: Size, bytes: &[u8]) {
    match read_inbound(bytes, form, size) {
        Ok(inbound) => put_inbound(answer, &inbound),
        Err(fault) => put_fault(answer, &fault),
    }
}

fn put_plain(out: &mut Vec<u8>, bytes: &[u8]) -> Put {
    for byte in WithoutEscapes::new(bytes) {
        out.push(byte)?;
    }
    Ok(())
}

fn replace(answer: &mut Answer, bytes: &[u8]) {
    let replaced = put_plain(&mut answer.out, bytes);
    let escapes = has_escapes(bytes);
    answer.done(replaced);
    writeln!(answer, "escapes {escapes}")
}

fn put_text(words: &mut Words<'_>, to: &mut CommandWriter<'_>) -> Put {
    let text = words.bytes();
    if are_storable(text) {
        return to.chars(text);
    }
    Ok(words.fail(Fault::Line))
}

fn put_repeat(words: &mut Words<'_>, to: &mut CommandWriter<'_>) -> Put {
    let (end, digits) = (at(words.number(), Size::base()), words.word());
    to.ra(end, character(words, digits))
}

fn write(words: &mut Words<'_>, answer: &mut Answer, word: &str) {
    let mut to = CommandWriter::new(&mut answer.out);
    let called = match word {
        "begin" => {
            let code = words.named(&CODES, CommandCode::Write);
            to.begin(code, Wcc::from_byte(words.byte()))
        }
        "sba" => to.sba(at(words.number(), Size::base())),
        "sf" => to.sf(Attr::from_code(words.byte())),
        "ra" => put_repeat(words, &mut to),
        "ic" => to.ic(),
        "chars" => put_text(words, &mut to),
        _ => Ok(words.fail(Fault::Line)),
    };
    answer.done(called)
}

impl Subject for Commands {
    fn take(&mut self, word: &str, words: &mut Words<'_>, answer: &mut Answer) {
        match word {
            "read" => read(answer, words.size(), words.size(), words.bytes()),
            "inbound" => read_data(answer, form(words), words.size(), words.bytes()),
            "replace" => replace(answer, words.bytes()),
            _ => write(words, answer, word),
        }
    }
}
