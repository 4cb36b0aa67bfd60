//! Worked texts. They were written by hand.
use crate::tool_fixture::{Run, answers, empty, other_run_on_empty};
use lru_frames::row::Row;
use lru_generations::generations::save;
use std::alloc::{AllocError, Global};
use std::test::Fail;

#[rattlefmt::skip]
static ROWS: [Run; 7] = [
    ("save d c", "4 40 1\n8 80 2\n5 50 3\n", 0, "generation 0 rows 3\n"),
    ("show d c", "", 0, "generation 0\n8 80 2\n4 40 1\n5 50 3\n"),
    ("save d c", "7 1 0", 0, "generation 1 rows 1\n"),
    ("show d c", "", 0, "generation 1\n7 1 0\n"),
    ("show --before d c", "", 0, "generation 0\n8 80 2\n4 40 1\n5 50 3\n"),
    ("check d c", "", 0, "generation 1 whole\ngeneration 0 whole\n"),
    ("show d other", "", 1, "no checkpoint\n"),
];

#[test]
fn rows_are_saved_and_shown(rt: HostRuntime) -> Result<(), Fail> {
    assert_eq!(rt; other_run_on_empty(rt.alloc(), &ROWS)?, (None, true));
    Ok(())
}

#[rattlefmt::skip]
static NO_ROWS: [Run; 4] = [
    ("save d c", "", 0, "generation 0 rows 0\n"),
    ("show d c", "", 0, "generation 0\n"),
    ("show --before d c", "", 1, "no checkpoint\n"),
    ("check d c", "", 0, "generation 0 whole\n"),
];

#[test]
fn no_rows_are_a_checkpoint_too(rt: HostRuntime) -> Result<(), Fail> {
    assert_eq!(rt; other_run_on_empty(rt.alloc(), &NO_ROWS)?, (None, true));
    Ok(())
}

#[rattlefmt::skip]
static LARGEST: [Run; 2] = [
    (
        "save d c",
        "18446744073709551615 18446744073709551615 18446744073709551615\n",
        0,
        "generation 0 rows 1\n",
    ),
    ("show d c", "", 0, "generation 0\n18446744073709551615 18446744073709551615 18446744073709551615\n"),
];

#[test]
fn the_largest_numbers_are_rows(rt: HostRuntime) -> Result<(), Fail> {
    assert_eq!(rt; other_run_on_empty(rt.alloc(), &LARGEST)?, (None, true));
    Ok(())
}

#[rattlefmt::skip]
static BAD: [Run; 6] = [
    ("save d c", "1 1 1\n1 1\n", 2, "error: line 2 is no row\n"),
    ("save d c", "1 1 1\n1 1 1 1\n", 2, "error: line 2 is no row\n"),
    ("save d c", "1 1 1\n\n1 1 1\n", 2, "error: line 2 is no row\n"),
    ("save d c", "1 1 1\n1  1 1\n", 2, "error: line 2 is no row\n"),
    ("save d c", "1 1 1\nx 1 1\n", 2, "error: line 2 is no row\n"),
    ("save d c", "1 1 1\n18446744073709551616 1 1\n2", 2, "error: line 2 is no row\n"),
];

#[test]
fn a_bad_line_saves_nothing(rt: HostRuntime) -> Result<(), Fail> {
    assert_eq!(rt; other_run_on_empty(rt.alloc(), &BAD)?, (None, false));
    Ok(())
}

#[rattlefmt::skip]
static WRONG: [Run; 13] = [
    ("save d", "1 1 1\n", 2, "error: these are not as many words as a command has\n"),
    ("save", "1 1 1\n", 2, "error: these are not as many words as a command has\n"),
    ("show d c c", "", 2, "error: these are not as many words as a command has\n"),
    ("load d c", "", 2, "error: no such command\n"),
    ("save d c/c", "1 1 1\n", 2, "error: the name of the file has a slash\n"),
    ("save d ", "1 1 1\n", 2, "error: the name of the file is empty\n"),
    ("save  c", "1 1 1\n", 2, "error: the name of the folder is empty\n"),
    ("check  ", "", 2, "error: the name of the folder is empty\n"),
    ("show --before d ", "", 2, "error: the name of the file is empty\n"),
    ("show --before  c", "", 2, "error: the name of the folder is empty\n"),
    ("show --before d c/c", "", 2, "error: the name of the file has a slash\n"),
    ("save --before d c", "1 1 1\n", 2, "error: these are not as many words as a command has\n"),
    ("show --after d c", "", 2, "error: these are not as many words as a command has\n"),
];

#[test]
fn wrong_words_are_told(rt: HostRuntime) -> Result<(), Fail> {
    assert_eq!(rt; other_run_on_empty(rt.alloc(), &WRONG)?, (None, false));
    Ok(())
}

#[rattlefmt::skip]
static HELP: [Run; 1] = [(
    "--help",
    "",
    0,
    "checkpoint_tool saves, shows and checks checkpoints of rows: whole, or refused.\nsave DIR FILE   saves the rows of the input as the next checkpoint, KEY VALUE WEIGHT a line, last used last\nshow DIR FILE   writes the rows of the newest whole checkpoint, most recent first, shard by shard\nshow --before DIR FILE  writes those of the next whole one below it\ncheck DIR FILE  tells of each generation in the folder whether it is whole, highest first\nA generation that is damaged is passed over; its files stay until a newer checkpoint is kept.\n",
)];

#[test]
fn help_has_a_line_for_each_command(rt: HostRuntime) -> Result<(), Fail> {
    assert_eq!(rt; other_run_on_empty(rt.alloc(), &HELP)?, (None, false));
    Ok(())
}

// Whether a checkpoint whose rows are texts is told whole, as one of numbers is.
fn are_texts_whole(alloc: Global) -> Result<bool, AllocError> {
    let mut folder = empty(alloc)?;
    let (key, data) = (
        String::from_str(alloc, "a")?,
        String::from_str(alloc, "bc")?,
    );
    let mut rows = Vec::new(alloc);
    rows.push(Row {
        key,
        data,
        weight: 1,
    })?;
    let mut shards = Vec::new(alloc);
    shards.push(rows)?;
    let saved = save(alloc, &mut folder, "d", "c", &shards.as_slice());
    let is_whole = answers(
        alloc,
        &mut folder,
        "check d c",
        "",
        0,
        "generation 0 whole\n",
    )?;
    Ok(saved.is_ok() && is_whole)
}

#[test]
fn a_checkpoint_of_texts_is_whole(rt: HostRuntime) -> Result<(), Fail> {
    assert!(rt; are_texts_whole(rt.alloc())?);
    Ok(())
}
