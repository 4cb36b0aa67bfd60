//! What the words of the program ask for, and the texts of tables.
use std::alloc::{AllocError, Global};
use std::test::Fail;
use trace_player_inside::compared::{Head, TableLine, is_exact, row_of};
use trace_player_inside::player::Request;
use trace_player_inside::sampling::Estimate;
use trace_player_inside::words::{Asked, asked_of};

// Words, and what they ask for.
static WORDS: [(&str, &str); 16] = [
    ("1K", "other"),
    ("--help", "help"),
    ("compare --help", "more"),
    (
        "compare --name t --svg - 2 1K 2",
        "compare Some(\"t\") Some(\"-\") [2, 1024]",
    ),
    ("compare 7", "compare None None [7]"),
    ("compare", "no limit is given"),
    ("compare --svg", "--svg: nothing stands behind it"),
    ("compare --png 1", "--png: there is no such option"),
    ("sample 100 2 1K", "sample 100 [2, 1024]"),
    (
        "sample 10001 2",
        "10001: a rate is a number from 1 to 10000",
    ),
    ("sample 0 2", "0: a rate is a number from 1 to 10000"),
    ("sample 5", "no limit is given"),
    ("make zipf 4 3 2 1", "make Zipf 4 3 2 1"),
    (
        "make zipf 4 3 2",
        "make: KIND KEYS REQUESTS CACHE SEED have to stand behind it",
    ),
    (
        "make walk 4 3 2 1",
        "walk: a kind is zipf, scan, loop, shift or mixed",
    ),
    ("make zipf x 3 2 1", "x: it has to be a number"),
];

fn told_of(alloc: Global, asked: &Asked) -> Result<String, AllocError> {
    match asked {
        Asked::Other => format!(in alloc; "other"),
        Asked::Help => format!(in alloc; "help"),
        Asked::HelpMore => format!(in alloc; "more"),
        Asked::Compare(how) => format!(in alloc;
            "compare {:?} {:?} {:?}",
            how.name, how.svg, how.limits
        ),
        Asked::Sample { rate, limits } => format!(in alloc; "sample {rate} {limits:?}"),
        Asked::Make(recipe) => {
            let kind = recipe.kind;
            let (keys, requests) = (recipe.keys, recipe.requests);
            format!(in alloc;
                "make {kind:?} {keys} {requests} {} {}",
                recipe.cache, recipe.seed
            )
        }
        Asked::Misused(misuse) => format!(in alloc; "{misuse}"),
    }
}

fn split(alloc: Global, text: &str) -> Result<Vec<String>, AllocError> {
    let mut words = Vec::new(alloc);
    for word in text.split_whitespace() {
        words.push(String::from_str(alloc, word)?)?;
    }
    Ok(words)
}

fn wrong_words(alloc: Global) -> Result<String, AllocError> {
    for (words, wanted) in &WORDS {
        let told = told_of(alloc, &asked_of(alloc, &split(alloc, words)?)?)?;
        if told.as_str() != *wanted {
            return format!(in alloc; "{words}: {told}");
        }
    }
    Ok(String::new(alloc))
}

// A table of a trace of three requests, two of them for one object, and a line of a sample.
fn table(alloc: Global) -> Result<String, AllocError> {
    let mut requests = Vec::new(alloc);
    for (key, size) in [(1u64, 2usize), (2, 1), (1, 2)] {
        requests.push(Request { key, size })?;
    }
    let head = Head {
        is_exact: is_exact(&requests),
    };
    let estimate = Estimate {
        limit: 9,
        requests: 1000,
        misses: 400,
        error: 123,
    };
    match row_of(alloc, 3, &requests) {
        Ok(row) => {
            let line = TableLine {
                row: &row,
                requests: 3,
            };
            format!(in alloc; "{head}\n{line}\n{estimate}")
        }
        Err(refusal) => format!(in alloc; "{refusal:?}"),
    }
}

static TABLE: &str =
    "limit lru% fifo% segmented-0.5% segmented-0.8% admission% bound%\n3 33.33 33.33 33.33 33.33 33.33 33.33\n9 60.00 1.23";

fn wrong_texts(alloc: Global) -> Result<String, AllocError> {
    let wrong = wrong_words(alloc)?;
    if !wrong.is_empty() {
        return Ok(wrong);
    }
    let told = table(alloc)?;
    if told.as_str() == TABLE {
        Ok(wrong)
    } else {
        Ok(told)
    }
}

#[test]
fn words_and_tables_are_as_told(rt: HostRuntime) -> Result<(), Fail> {
    let wrong = wrong_texts(rt.alloc())?;
    assert_eq!(rt; wrong.as_str(), "");
    Ok(())
}
