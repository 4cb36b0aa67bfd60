//! Reads and writes that fail.
ghost use Rattle.std.specs.Prelude.{⊤};

use crate::tool_fixture::{Run, empty, other_run, words};
use checkpoint_tool_inside::engine::{run, run_buffered};
use checkpoint_tool_inside::program;
use checkpoint_tool_inside::requests::WordsError;
use lru_lines::input::{Input, InputError, read_to_end};
use std::alloc::{AllocError, Global};
use std::io;
use std::io::BufWriter;
use std::process::ExitCode;
use std::test::Fail;

// An input that no read gives.
#[derive(Drop)]
struct Broken {
    kind: io::ErrorKind,
}

impl io::Read for Broken {
    fn read(&mut self, _: &mut [u8]) -> io::Result<usize> {
        Err(io::Error::from(self.kind))
    }
}

impl Input for Broken {
    ghost has_failed = { λ _. ⊤ };

    fn read_all(&mut self, input: &mut Vec<u8>) -> Result<(), InputError> {
        read_to_end(self, input)
    }
}

/// How the input fails, and what is told.
static FAILURES: [(io::ErrorKind, &str); 2] = [
    (io::ErrorKind::TimedOut, "failed: the input was not read\n"),
    (io::ErrorKind::OutOfMemory, "failed: out of memory\n"),
];

// Whether a save of an input that fails so tells this, and leaves no file.
fn is_told(alloc: Global, kind: io::ErrorKind, text: &str) -> Result<bool, AllocError> {
    let words = words(alloc, "save d c")?;
    let mut folder = empty(alloc)?;
    let mut writer = Vec::new(alloc);
    let mut reader = Broken { kind };
    let status = run(alloc, &mut folder, &words, &mut reader, &mut writer).unwrap_or(9);
    let has_none = folder.paths()?.is_empty();
    Ok(has_none & ((status, writer.as_slice()) == (1, text.as_bytes())))
}

#[test]
fn an_input_that_fails_saves_nothing(rt: HostRuntime) -> Result<(), Fail> {
    for (kind, text) in FAILURES.iter() {
        assert!(rt; is_told(rt.alloc(), *kind, text)?);
    }
    Ok(())
}

static SHOWN: [Run; 1] = [("show d c", "", 0, "generation 0\n1 1 1\n")];

#[test]
fn a_write_that_fails_is_told_and_the_checkpoint_stays(rt: HostRuntime) -> Result<(), Fail> {
    let alloc = rt.alloc();
    let words = words(alloc, "save d c")?;
    let mut folder = empty(alloc)?;
    let mut reader = b"1 1 1\n".as_slice();
    let mut room = [0_u8; 3];
    let mut writer = room.as_mut_slice();
    let has_failed = run(alloc, &mut folder, &words, &mut reader, &mut writer).is_err();
    let shown = other_run(alloc, &mut folder, &SHOWN)?;
    assert_eq!(rt; (has_failed, shown), (true, None));
    Ok(())
}

#[test]
fn what_is_buffered_is_written(rt: HostRuntime) -> Result<(), Fail> {
    let alloc = rt.alloc();
    let words = words(alloc, "save d c")?;
    let mut folder = empty(alloc)?;
    let mut reader = b"1 1 1\n".as_slice();
    let writer = BufWriter::new(alloc, Vec::new(alloc))?;
    let (status, written) = run_buffered(alloc, &mut folder, &words, &mut reader, writer);
    let is_written = written.is_some_and(|text| text.as_slice()
        == b"generation 0 rows 1\n".as_slice());
    assert!(rt; status == 0 && is_written);
    Ok(())
}

// Whether words that were not read end with this status and this text, and leave no file.
fn is_told_of_words(
    alloc: Global,
    error: WordsError,
    status: u8,
    text: &str,
) -> Result<bool, AllocError> {
    let mut folder = empty(alloc)?;
    let mut reader = b"1 1 1\n".as_slice();
    let mut errors = Vec::new(alloc);
    let output = Vec::new(alloc);
    let ended = program::run(
        alloc,
        &mut folder,
        Err(error),
        &mut reader,
        output,
        &mut errors,
    );
    let is_written = ended
        .written
        .is_some_and(|output| output.as_slice() == text.as_bytes());
    let has_none = folder.paths()?.is_empty();
    Ok((ended.code == ExitCode::from(status)) & is_written & has_none & errors.is_empty())
}

/// Why the words were not read, the status, and what is told.
static NO_WORDS: [(WordsError, u8, &str); 2] = [
    (WordsError::NoText, 2, "error: a word is no text in UTF-8\n"),
    (WordsError::Memory, 1, "failed: out of memory\n"),
];

#[test]
fn words_that_were_not_read_are_told(rt: HostRuntime) -> Result<(), Fail> {
    for (error, status, text) in NO_WORDS.iter() {
        assert!(rt; is_told_of_words(rt.alloc(), *error, *status, text)?);
    }
    Ok(())
}

#[test]
fn an_output_that_is_full_is_told_on_the_other_stream(rt: HostRuntime) -> Result<(), Fail> {
    let alloc = rt.alloc();
    let words = words(alloc, "save d c")?;
    let mut folder = empty(alloc)?;
    let mut reader = b"1 1 1\n".as_slice();
    let mut room = [0_u8; 3];
    let mut errors = Vec::new(alloc);
    let ended = program::run(
        alloc,
        &mut folder,
        Ok(words),
        &mut reader,
        room.as_mut_slice(),
        &mut errors,
    );
    let shown = other_run(alloc, &mut folder, &SHOWN)?;
    assert!(rt; (ended.code == ExitCode::from(1)) & ended.written.is_none());
    assert_eq!(rt;
        (errors.as_slice(), shown),
        (b"failed: the output was not written\n".as_slice(), None)
    );
    Ok(())
}
