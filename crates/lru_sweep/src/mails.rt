//! Messages put into a mailbox: a refused push hands its message back and changes nothing.
use lru_mailbox::{MailError, MailState};
use std::alloc::Global;
use std::io;
use std::io::Write;

fn shown(mail: &MailState<u8>) -> [u64; 4] {
    [mail.len() as u64, mail.pushed(), mail.taken(), mail.lost()]
}

// Puts a message, and once more where memory refused it.
fn push(mail: &mut MailState<u8>, message: u8) -> Result<(), MailError<u8>> {
    let before = shown(mail);
    match mail.push(message) {
        Err(MailError::Memory(held)) if held == message && before == shown(mail) => {
            mail.push(message)
        }
        answer => answer,
    }
}

pub fn script<W: Write>(alloc: Global, out: &mut W) -> io::Result<()> {
    let mut mail = MailState::new(alloc);
    for message in 0..20u8 {
        let put = push(&mut mail, message).is_ok();
        writeln!(out, "pushed {message} {put}")?;
    }
    let first = mail.pop();
    let all = shown(&mail);
    writeln!(out, "first {first:?}, then {all:?}")
}
