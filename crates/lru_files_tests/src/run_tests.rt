//! The program's answers, status and text, to inputs that its stored run does not have.
use log::sink::Discard;
use lru_tool_inside::engine::run;
use pingora_lru_files::persistence::MemoryFolder;
use std::alloc::{AllocError, Global};
use std::test::Fail;

pub fn words(alloc: Global, line: &str) -> Result<Vec<String>, AllocError> {
    let mut words = Vec::new(alloc);
    for word in line.split(' ') {
        words.push(String::from_str(alloc, word)?)?;
    }
    Ok(words)
}

/// Whether these arguments and this input are answered so, over an empty folder.
pub fn answers(
    alloc: Global,
    arguments: &str,
    input: &str,
    status: u8,
    text: &str,
) -> Result<bool, AllocError> {
    let arguments = words(alloc, arguments)?;
    let mut reader = input.as_bytes();
    let mut writer = Vec::new(alloc);
    let answer = run(
        alloc,
        &mut MemoryFolder::new(alloc),
        &Discard,
        &arguments,
        &mut reader,
        &mut writer,
    );
    Ok((answer, writer.as_slice()) == (status, text.as_bytes()))
}

/// Arguments that are wrong.
static WRONG: [&str; 7] = [
    "4",
    "4 -",
    "4 - 7 7",
    "- - 7",
    "4 x 7",
    "4 - -",
    "18446744073709551616 - 7",
];

/// The first of them, if there is one, for which the usage is not told.
fn wrong_usage(alloc: Global) -> Result<Option<usize>, AllocError> {
    let usage = "usage: lru_tool LIMIT WATERMARK SEED\n";
    for (place, wrong) in WRONG.iter().enumerate() {
        if !answers(alloc, wrong, "total\n", 2, usage)? {
            return Ok(Some(place));
        }
    }
    Ok(None)
}

#[test]
fn tells_its_usage(rt: HostRuntime) -> Result<(), Fail> {
    assert_eq!(rt; wrong_usage(rt.alloc())?, None);
    Ok(())
}

/// The arguments, the input, the status and the text.
static RUNS: [(&str, &str, u8, &str); 11] = [
    // A weight above the cap is refused.
    (
        "4 - 7",
        "admit 1 1 9223372036854775808\nadmit 3 3 9223372036854775807\ntotal\n",
        0,
        "refused weight\n1\n1 9223372036854775807 0 0\n",
    ),
    // Each call is refused for weight. Shard 1 weighs as much as it may. A row of weight 0 fits, and a refused update keeps
    // the value that it wrote.
    (
        "4 - 7",
        "admit 1 10 9223372036854775807\ntail 3 30 1\ntail 3 30 0\nincr 3 31 1 -\nincr 5 50 1 9\nupdate 3 32 1\nupdate 5 50 1\nsetw 3 7\nlist 1\ntotal\n",
        0,
        "1\nrefused weight\ntrue\nrefused weight\nrefused weight\nrefused weight\nrefused weight\nrefused weight\n2 1:10:9223372036854775807 3:32:0\n2 9223372036854775807 0 0\n",
    ),
    // It stops at a bad line after a look.
    (
        "4 - 7",
        "peek 1\nadmit 1 1\npeek 1\n",
        2,
        "false\nerror line 2\n",
    ),
    // It evicts to its limit, whatever the draws are.
    (
        "0 - 1",
        "admit 1 10 5\nlimit\ntotal\n",
        0,
        "1\n1 1:10:5\n0 0 1 5\n",
    ),
    // It evicts to its watermark. One shard has all rows, so that no draw matters; the watermark counts them.
    (
        "9 1 7",
        "tail 2 20 0\ntail 4 40 0\ntail 6 60 0\nlimit\nlimit\nlist 0\ntotal\n",
        0,
        "true\ntrue\ntrue\n2 6:60:0 4:40:0\n0\n1 2:20:0\n1 0 2 0\n",
    ),
    // It promotes past the first. Keys 4, 2 and 6 are the rows of shard 0, and the order is told after each promotion.
    (
        "99 - 7",
        "admit 6 6 6\nadmit 4 4 4\nadmit 2 2 2\ntop 4 3\nlist 0\ntop 4 2\nlist 0\ntop 6 2\nlist 0\ntop 4 0\nlist 0\ntop 7 1\npromote 2\nlist 0\n",
        0,
        "0\n0\n0\ntrue\n3 2:2:2 4:4:4 6:6:6\ntrue\n3 2:2:2 4:4:4 6:6:6\ntrue\n3 6:6:6 2:2:2 4:4:4\ntrue\n3 4:4:4 6:6:6 2:2:2\nfalse\ntrue\n3 2:2:2 4:4:4 6:6:6\n",
    ),
    // The longest and the largest numbers.
    (
        "18446744073709551615 - 0",
        "admit 00000000000000000001 007 0\nsetlimit 18446744073709551615\nincr 1 7 5 18446744073709551615\nlru 18446744073709551615\nevict 18446744073709551615",
        0,
        "1\nok\n6\nnone\n1 7 6\n",
    ),
    // No input.
    ("4 - 7", "", 0, ""),
    // A bad last line without an end.
    ("9 - 7", "load d c/", 2, "error line 1\n"),
    // The watermark counts the rows.
    (
        "9 1 7",
        "admit 2 20 1\nadmit 4 40 1\nstep 0 0\nlist 0\n",
        0,
        "0\n0\n2 20 1\n1 4:40:1\n",
    ),
    // Nothing is refused without cause.
    (
        "0 - 1",
        "admit 1 1 1\nadmit 3 3 1\nadmit 5 5 1\nadmit 7 7 1\nadmit 9 9 1\nlimit\ntotal\n",
        0,
        "1\n1\n1\n1\n1\n5 1:1:1 3:3:1 5:5:1 7:7:1 9:9:1\n0 0 5 5\n",
    ),
];

/// The first run, if there is one, that ends otherwise.
fn wrong_run(alloc: Global) -> Result<Option<usize>, AllocError> {
    for (place, (arguments, input, status, text)) in RUNS.iter().enumerate() {
        if !answers(alloc, arguments, input, *status, text)? {
            return Ok(Some(place));
        }
    }
    Ok(None)
}

#[test]
fn runs_and_their_answers(rt: HostRuntime) -> Result<(), Fail> {
    assert_eq!(rt; wrong_run(rt.alloc())?, None);
    Ok(())
}

/// Lines that are bad.
static BAD: [&str; 45] = [
    // no word, and space where none belongs
    "",
    " ",
    " total",
    "total ",
    "total\r",
    "peek  1",
    "peek\t1",
    // names
    "admits 1 1 1",
    "Total",
    "peekW 1",
    "\u{e9} 1",
    "1 peek",
    // a word too few, and one too many
    "admit 1 1",
    "admit 1 1 1 1",
    "tail 1 1",
    "incr 1 1 1",
    "incr 1 1 1 - 1",
    "update 1 1",
    "setw 1",
    "promote",
    "top 1",
    "remove",
    "evict",
    "step 1",
    "limit 1",
    "setlimit",
    "peek 1 1",
    "peekw",
    "lru",
    "list",
    "total 1",
    // no number
    "peek x",
    "peek -",
    "peek +1",
    "peek -1",
    "peek 1x",
    "peek 000000000000000000001",
    "peek 18446744073709551616",
    "setlimit -",
    "incr 1 1 1 x",
    "incr 1 1 - 1",
    "incr 1 1 1 --",
    // no such shard
    "step 2 0",
    "step 0 2",
    "list 2",
];

/// The first of them, if there is one, at which the program does not stop.
fn wrong_line(alloc: Global) -> Result<Option<usize>, AllocError> {
    for (place, bad) in BAD.iter().enumerate() {
        let input = format!(in alloc; "admit 1 1 1\n{bad}\ntotal\n")?;
        if !answers(alloc, "4 - 7", &input, 2, "1\nerror line 2\n")? {
            return Ok(Some(place));
        }
    }
    Ok(None)
}

#[test]
fn stops_at_a_bad_line(rt: HostRuntime) -> Result<(), Fail> {
    assert_eq!(rt; wrong_line(rt.alloc())?, None);
    Ok(())
}
