//! What the program does with wrong arguments, and where its input, its output or memory fails.
ghost use Rattle.std.specs.Prelude.{⊤};

use crate::run_tests::words;
use log::sink::Discard;
use lru_lines::input::{Input, InputError, read_to_end};
use lru_tool_inside::arguments;
use lru_tool_inside::engine::run;
use pingora_lru_files::persistence::MemoryFolder;
use std::alloc::{AllocError, Global};
use std::env::{Env, FillError};
use std::test::Fail;
use std::{env, io};

// An input that no read gives.
#[derive(Drop)]
struct Broken {
    kind: io::ErrorKind,
}

impl io::Read for Broken {
    fn read(&mut self, _: &mut [u8]) -> io::Result<usize> {
        Err(io::Error::from(self.kind))
    }
}

impl Input for Broken {
    ghost has_failed = { λ _. ⊤ };

    fn read_all(&mut self, input: &mut Vec<u8>) -> Result<(), InputError> {
        read_to_end(self, input)
    }
}

// Arguments of which the last one may be any bytes.
#[derive(Drop)]
struct Given<'a> {
    last: &'a [u8],
}

impl Env for Given<'_> {
    fn arg(&self, i: usize, buf: &mut [u8]) -> Result<usize, FillError> {
        let word = match i {
            0 => b"lru_tool".as_slice(),
            1 => b"4".as_slice(),
            2 => b"-".as_slice(),
            3 => self.last,
            _ => return Err(FillError::NotPresent),
        };
        if word.len() > buf.len() {
            return Err(FillError::TooLong);
        }
        buf[..word.len()].copy_from_slice(word);
        Ok(word.len())
    }

    fn var(&self, _: &str, _: &mut [u8]) -> Result<usize, FillError> {
        Err(FillError::NotPresent)
    }

    fn var_at(&self, _: usize, _: &mut [u8]) -> Result<usize, FillError> {
        Err(FillError::NotPresent)
    }
}

/// The status of a run with these arguments over an empty folder, whose input is this one, and what is written.
fn run_given<R: Input + Drop>(
    alloc: Global,
    last: &[u8],
    mut reader: R,
) -> Result<(u8, Vec<u8>), AllocError> {
    let arguments = arguments::words_of(alloc, env::args(&(Given { last }, alloc)))?;
    let mut writer = Vec::new(alloc);
    let status = run(
        alloc,
        &mut MemoryFolder::new(alloc),
        &Discard,
        &arguments,
        &mut reader,
        &mut writer,
    );
    Ok((status, writer))
}

fn refuses_what_is_not_text(alloc: Global) -> Result<bool, AllocError> {
    let (whole, text) = run_given(alloc, b"7", b"total\n".as_slice())?;
    let is_whole = (whole, text.as_slice()) == (0, b"0 0 0 0\n".as_slice());
    let kind = io::ErrorKind::TimedOut;
    let (first, one) = run_given(alloc, b"\xff", Broken { kind })?;
    let (second, two) = run_given(alloc, b"7\xc3", Broken { kind })?;
    let usage = b"usage: lru_tool LIMIT WATERMARK SEED\n".as_slice();
    Ok(
        is_whole
            & ((first, one.as_slice()) == (2, usage))
            & ((second, two.as_slice()) == (2, usage)),
    )
}

// Where the last argument is no UTF-8, the usage is told before anything is read.
#[test]
fn refuses_an_argument_that_is_not_text(rt: HostRuntime) -> Result<(), Fail> {
    assert!(rt; refuses_what_is_not_text(rt.alloc())?);
    Ok(())
}

/// How the input fails, and what is told.
static FAILURES: [(io::ErrorKind, &str); 2] = [
    (io::ErrorKind::TimedOut, "error input\n"),
    (io::ErrorKind::OutOfMemory, "error memory\n"),
];

/// Whether such a failure is told so, and the folder keeps its file.
fn tells_failure(alloc: Global, kind: io::ErrorKind, text: &str) -> Result<bool, AllocError> {
    let arguments = words(alloc, "4 - 7")?;
    let mut folder = MemoryFolder::new(alloc).with("d/c.0", b"kept")?;
    let mut writer = Vec::new(alloc);
    let status = run(
        alloc,
        &mut folder,
        &Discard,
        &arguments,
        &mut Broken { kind },
        &mut writer,
    );
    let kept = folder.get("d/c.0");
    Ok((status, writer.as_slice(), kept) == (1, text.as_bytes(), Some(b"kept".as_slice())))
}

/// The first of them, if there is one, that is told otherwise.
fn wrong_failure(alloc: Global) -> Result<Option<usize>, AllocError> {
    for (place, (kind, text)) in FAILURES.iter().enumerate() {
        if !tells_failure(alloc, *kind, text)? {
            return Ok(Some(place));
        }
    }
    Ok(None)
}

// The folder keeps its files.
#[test]
fn tells_that_the_input_failed(rt: HostRuntime) -> Result<(), Fail> {
    assert_eq!(rt; wrong_failure(rt.alloc())?, None);
    Ok(())
}

/// The status of a run whose output has room for three bytes.
fn run_in_three(alloc: Global, arguments: &str, input: &str) -> Result<u8, AllocError> {
    let arguments = words(alloc, arguments)?;
    let mut reader = input.as_bytes();
    let mut room = [0_u8; 3];
    let mut writer = room.as_mut_slice();
    Ok(run(
        alloc,
        &mut MemoryFolder::new(alloc),
        &Discard,
        &arguments,
        &mut reader,
        &mut writer,
    ))
}

#[test]
fn ends_at_a_failed_write(rt: HostRuntime) -> Result<(), Fail> {
    let first = run_in_three(rt.alloc(), "4 - 7", "admit 1 1 1\ntotal\n")?;
    let second = run_in_three(rt.alloc(), "4 - 7", "bad\n")?;
    let third = run_in_three(rt.alloc(), "4 -", "total\n")?;
    assert_eq!(rt; (first, second, third), (1, 1, 1));
    Ok(())
}

// With ample memory, with one row refused, and with the eviction cut short.
static TEXTS: [&str; 11] = [
    "1\n1\n1\n1\n1\n5 1:1:1 3:3:1 5:5:1 7:7:1 9:9:1\n0 0 5 5\n",
    "refused memory\n1\n1\n1\n1\n4 3:3:1 5:5:1 7:7:1 9:9:1\n0 0 4 4\n",
    "1\nrefused memory\n1\n1\n1\n4 1:1:1 5:5:1 7:7:1 9:9:1\n0 0 4 4\n",
    "1\n1\nrefused memory\n1\n1\n4 1:1:1 3:3:1 7:7:1 9:9:1\n0 0 4 4\n",
    "1\n1\n1\nrefused memory\n1\n4 1:1:1 3:3:1 5:5:1 9:9:1\n0 0 4 4\n",
    "1\n1\n1\n1\nrefused memory\n4 1:1:1 3:3:1 5:5:1 7:7:1\n0 0 4 4\n",
    "1\n1\n1\n1\n1\nrefused memory 0\n5 5 0 0\n",
    "1\n1\n1\n1\n1\nrefused memory 1 1:1:1\n4 4 1 1\n",
    "1\n1\n1\n1\n1\nrefused memory 2 1:1:1 3:3:1\n3 3 2 2\n",
    "1\n1\n1\n1\n1\nrefused memory 3 1:1:1 3:3:1 5:5:1\n2 2 3 3\n",
    "1\n1\n1\n1\n1\nrefused memory 4 1:1:1 3:3:1 5:5:1 7:7:1\n1 1 4 4\n",
];

/// Whether the program answers by one of those texts where its status is 0, and else that memory was refused.
fn tells_one(alloc: Global) -> bool {
    let Ok(arguments) = words(alloc, "0 - 1") else {
        return true;
    };
    let mut reader =
        b"admit 1 1 1\nadmit 3 3 1\nadmit 5 5 1\nadmit 7 7 1\nadmit 9 9 1\nlimit\ntotal\n".as_slice();
    let mut room = [0_u8; 128];
    let mut writer = io::Cursor::new(room.as_mut_slice());
    let status = run(
        alloc,
        &mut MemoryFolder::new(alloc),
        &Discard,
        &arguments,
        &mut reader,
        &mut writer,
    );
    let written = writer.position() as usize;
    if written > 128 {
        return false;
    }
    let text = &room[..written];
    if status == 1 {
        text == b"error memory\n".as_slice()
    } else {
        (status == 0) & TEXTS.iter().any(|allowed| allowed.as_bytes() == text)
    }
}

// The gate runs this with memory for all; `rt try --test --fail-alloc N` refuses the request number N. Where the
// input or the core finds no memory, that is all that is written; a row or an eviction that finds none is told on its own
// line, and the lines after it are answered.
#[test]
fn tells_where_memory_is_refused(rt: HostRuntime) -> Result<(), Fail> {
    assert!(rt; tells_one(rt.alloc()));
    Ok(())
}
