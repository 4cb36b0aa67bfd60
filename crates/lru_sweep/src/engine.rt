//! A run of the program's engine: it gives up, or a reply is that memory was refused, and the run made again answers as if nothing
//! had been. One that gives up with no request refused writes something else.
use log::sink::Discard;
use lru_tool_inside::engine::run;
use pingora_lru_files::persistence::MemoryFolder;
use std::alloc::{AllocError, Global};
use std::io;
use std::io::Write;

const INPUT: &[u8] = b"admit 1 1 1\nadmit 3 3 1\nadmit 5 5 1\nlru 1\nlimit\ntotal\n";

fn words(alloc: Global) -> Result<Vec<String>, AllocError> {
    let mut words = Vec::new(alloc);
    for word in ["0", "-", "1"] {
        words.push(String::from_str(alloc, word)?)?;
    }
    Ok(words)
}

/// The status of the run, and what it wrote in this room.
fn run_in<'a>(alloc: Global, words: &[String], room: &'a mut [u8; 256]) -> (u8, &'a [u8]) {
    let mut reader = INPUT;
    let mut writer = io::Cursor::new(room.as_mut_slice());
    let status = run(
        alloc,
        &mut MemoryFolder::new(alloc),
        &Discard,
        words,
        &mut reader,
        &mut writer,
    );
    let written = writer.position().min(256) as usize;
    (status, &room[..written])
}

/// Whether a text tells that memory was refused.
fn is_refused(text: &[u8]) -> bool {
    text.windows(6).any(|part| part == b"memory".as_slice())
}

/// Writes the status and the text of the run, at the second try where the first was refused memory.
pub fn script<W: Write>(alloc: Global, writer: &mut W) -> io::Result<()> {
    for _ in 0..2u8 {
        let mut room = [0_u8; 256];
        if let Ok(words) = words(alloc) {
            let (status, text) = run_in(alloc, &words, &mut room);
            if !is_refused(text) {
                writeln!(writer, "status {status}")?;
                return writer.write_all(text);
            }
        }
    }
    writeln!(writer, "refused twice")
}
