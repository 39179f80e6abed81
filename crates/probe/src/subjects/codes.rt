//! Calls of codes3270, by Debug. The size is the alternate one of MODEL.
//!
//! ```text
//! walk MODEL NUMBER N     from an address: the next one, N cells on, N cells back, and the cells up to the last
//! attr BYTE               the attribute's codes: as it is, without MDT and with it; and what it says
//! ```
use crate::talk::{Answer, Fault, Subject, Words};
use codes3270::{
    Addr, Aid, Attr, Cell, MOST_CELLS, MOST_COLUMNS, PaNo, PfNo, Size, Wcc, addr_from_bytes,
    addr_to_bytes, aid_byte, aid_from_byte, attr_code, from_latin1, storable, to_latin1,
};

#[derive(Drop)]
pub(crate) struct Codes;

fn put_size(answer: &mut Answer, size: Size) {
    answer.line(&(size.rows(), size.cols(), size.cells()))
}

fn put_aid(answer: &mut Answer, aid: Option<Aid>) {
    match aid {
        Some(aid) => {
            let (code, is_short) = (aid_byte(aid), aid.is_short());
            writeln!(answer, "{aid:?} {code:02X} {is_short}")
        }
        None => writeln!(answer, "None"),
    }
}

fn put_attr(answer: &mut Answer, attr: Attr) {
    let (without, with) = (attr.with_mdt(false), attr.with_mdt(true));
    let codes = [attr_code(attr), attr_code(without), attr_code(with)];
    let kind = (attr.protected(), attr.numeric(), attr.autoskip());
    let looks = (attr.bright(), attr.hidden());
    answer.line(&(codes, attr.display, kind, looks, attr.mdt()))
}

fn put_read(words: &mut Words<'_>, answer: &mut Answer) {
    let (size, bytes) = (words.size(), words.bytes());
    for pair in bytes.as_chunks::<2>().0 {
        answer.called(&addr_from_bytes(*pair, size));
    }
}

fn put_address(words: &mut Words<'_>, answer: &mut Answer) {
    let size = words.size();
    let addr = Addr::new(words.number(), size);
    answer.line(&addr.map(|addr| (addr, addr_to_bytes(addr))))
}

fn put_walk(words: &mut Words<'_>, answer: &mut Answer) {
    let size = words.size();
    match (Addr::new(words.number(), size), words.number()) {
        (Some(addr), count) if count <= size.cells() => answer.line(&(
            addr.next(size),
            addr.forward(count, size),
            addr.backward(count, size),
            addr.room(size),
        )),
        _ => words.fail(Fault::Line),
    }
}

fn put_cells(answer: &mut Answer, byte: u8) {
    for cell in [Cell::Attr(Attr::from_code(byte)), Cell::Char(byte)] {
        let is_open = cell.is_unprotected_attribute();
        answer.line(&(cell.attribute(), cell.is_character(), is_open));
    }
}

impl Subject for Codes {
    fn take(&mut self, word: &str, words: &mut Words<'_>, answer: &mut Answer) {
        match word {
            "constants" => {
                put_size(answer, Size::base());
                answer.line(&(MOST_CELLS, MOST_COLUMNS))
            }
            "size" => put_size(answer, words.size()),
            "addresses" => answer.each("each", Addr::all(words.size())),
            "address" => put_address(words, answer),
            "read" => put_read(words, answer),
            "walk" => put_walk(words, answer),
            "attr" => put_attr(answer, Attr::from_code(words.byte())),
            "cell" => put_cells(answer, words.byte()),
            "wcc" => {
                let wcc = Wcc::from_byte(words.byte());
                answer.line(&([wcc.byte()], wcc.alarm(), wcc.restore(), wcc.reset()))
            }
            "aid" => put_aid(answer, aid_from_byte(words.byte())),
            "pf" => put_aid(answer, PfNo::new(words.number()).map(Aid::Pf)),
            "pa" => put_aid(answer, PaNo::new(words.number()).map(Aid::Pa)),
            "storable" => answer.line(&storable(words.byte())),
            "latin" => answer.line(&to_latin1(words.byte()).map(u32::from)),
            "code" => answer.line(&char::from_u32(words.number()).and_then(|it| from_latin1(it))),
            _ => words.fail(Fault::Line),
        }
    }
}
