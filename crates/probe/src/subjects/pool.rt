//! Calls of lu_pool, by Debug. `ask CONN BYTES` asks for the LU of a name, or for any if there are no bytes.
use crate::talk::{Answer, Done, Fault, Subject, Words};
use lu_pool::{Pool, PoolFault};

#[derive(Drop)]
pub(crate) struct Pools {
    pub(crate) pool: Option<Pool>,
}

fn ask(answer: &mut Answer, pool: &mut Pool, conn: usize, name: &[u8]) -> Done {
    let name = if name.is_empty() { None } else { Some(name) };
    match pool.lu_held_by(conn) {
        Some(_) => Err(Fault::Line),
        None => Ok(answer.called(&pool.ask(conn, name))),
    }
}

fn read(words: &mut Words<'_>) -> Result<Pool, PoolFault> {
    let mut names = Vec::new(words.alloc);
    for word in words.rest().split_whitespace() {
        match String::from_utf8(words.bytes_of(word)) {
            Ok(name) => if names.push(name).is_err() {
                words.fail(Fault::NoMemory)
            },
            Err(_) => words.fail(Fault::Line),
        }
    }
    Pool::read(words.alloc, names.as_slice())
}

impl Subject for Pools {
    fn take(&mut self, word: &str, words: &mut Words<'_>, answer: &mut Answer) {
        match (word, &mut self.pool) {
            ("read", pool) => match read(words) {
                Ok(read) => answer.done(Ok(*pool = Some(read))),
                Err(fault) => answer.say(&fault),
            },
            ("ask", Some(pool)) => {
                let done = ask(answer, pool, words.number(), words.bytes());
                words.note(done)
            }
            ("held", Some(pool)) => answer.line(&pool.lu_held_by(words.number())),
            ("give-back", Some(pool)) => pool.give_back(words.number()),
            ("free-all", Some(pool)) => pool.free_all(),
            _ => words.fail(Fault::Line),
        }
    }
}
