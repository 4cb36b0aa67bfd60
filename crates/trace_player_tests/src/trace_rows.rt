//! Tables of lines, of shares and of limits, each gone through by one function.
use std::alloc::{AllocError, Global};
use std::io;
use std::test::Fail;
use trace_player_inside::limits::{LimitFault, add_limit, limit_of};
use trace_player_inside::numbers::NumberFault;
use trace_player_inside::one_pass::{are_of_size_one, play_all};
use trace_player_inside::plain_program::{BadLine, read_trace};
use trace_player_inside::player::{Request, Tally, play};
use trace_player_inside::plot::{CountedUnit, Plot};
use trace_player_inside::requests::{Format, LineFault, format_of, read_request, request_of};
use trace_player_inside::settings::{Asked, asked_by};
use trace_player_inside::table::Percent;

#[rattlefmt::skip]
const LINES: [(&str, Option<Request>); 12] = [
    ("1 2", Some(Request { key: 1, size: 2 })),
    ("10 1 2", Some(Request { key: 1, size: 2 })),
    ("12\t2\t1", Some(Request { key: 2, size: 1 })),
    ("  3   4  ", Some(Request { key: 3, size: 4 })),
    ("now 3 4", Some(Request { key: 3, size: 4 })),
    ("18446744073709551615 0", Some(Request { key: 18446744073709551615, size: 0 })),
    ("18446744073709551616 0", None),
    ("1", None),
    ("", None),
    ("1 x", None),
    ("1 -2", None),
    ("1 2 3 4", None),
];

// Lines that are no requests, and what is told of each.
#[rattlefmt::skip]
const FAULTS: [(&str, &str); 9] = [
    ("", "no key"),
    ("5", "no size"),
    ("x 1", "the key is no number"),
    ("7 x 1", "the key is no number"),
    ("1 -2", "the size is no number"),
    ("18446744073709551616 0", "the key is too large"),
    ("1 000000000000000000001", "the size is too large"),
    ("x", "the key is no number"),
    ("1 2 3 4", "more than a time, a key and a size"),
];

// Words that the program is called with, and what they ask for: limits, the file of a plot, whether times are told.
#[rattlefmt::skip]
const ARGUMENTS: [(&str, &str); 10] = [
    ("512 64k 512", "[512, 65536] None false"),
    ("--svg --help 1 --time", "[1] Some(\"--help\") true"),
    ("1 --help x", "help"),
    ("-h", "help"),
    ("1 --svg", "--svg: no file is given"),
    ("--time", "no limit is given"),
    ("1 0k", "0k: a limit of 0 keeps nothing, it has to be at least 1"),
    ("1 x --help", "x: a limit is a number of bytes, such as 512, 64K, 1M or 1G"),
    ("1 --fast", "--fast: there is no such option"),
    ("99999999999999999999", "99999999999999999999: the limit is too large"),
];

// Rows with commas, and the request of each or what is told of it.
#[rattlefmt::skip]
const CELLS: [(&str, Result<Request, LineFault>); 10] = [
    ("5,7,300", Ok(Request { key: 7, size: 300 })),
    (" 5 , 7\t, 300 \r\n", Ok(Request { key: 7, size: 300 })),
    (",7,0", Ok(Request { key: 7, size: 0 })),
    ("a b,7,300", Ok(Request { key: 7, size: 300 })),
    ("5,7 8,300", Err(LineFault::Key(NumberFault::NotDigits))),
    ("5,,300", Err(LineFault::Key(NumberFault::Missing))),
    ("5,7", Err(LineFault::Size(NumberFault::Missing))),
    ("5,7,", Err(LineFault::Size(NumberFault::Missing))),
    ("5 7 300", Err(LineFault::Key(NumberFault::Missing))),
    ("5,7,300,1", Err(LineFault::TooMany)),
];

// First lines, and the format that each tells.
#[rattlefmt::skip]
const FIRST: [(&str, Result<Format, LineFault>); 5] = [
    ("time,key,size\n", Ok(Format::Commas)),
    ("5 7 300\n", Ok(Format::Words)),
    ("5,3 7 300\n", Ok(Format::Words)),
    ("time key size\n", Ok(Format::Words)),
    ("5,7,300\n", Err(LineFault::NoHeader)),
];

// Words, and the limit that each is; 2^34 G are 2^64 bytes.
#[rattlefmt::skip]
const WORDS: [(&str, Result<usize, LimitFault>); 18] = [
    ("512", Ok(512)),
    ("64K", Ok(65536)),
    ("64k", Ok(65536)),
    ("1M", Ok(1048576)),
    ("2m", Ok(2097152)),
    ("1G", Ok(1073741824)),
    ("3g", Ok(3221225472)),
    ("18446744073709551615", Ok(18446744073709551615)),
    ("18446744073709551616", Err(LimitFault::TooLarge)),
    ("17179869183G", Ok(18446744072635809792)),
    ("17179869184G", Err(LimitFault::TooLarge)),
    ("0", Err(LimitFault::Zero)),
    ("00M", Err(LimitFault::Zero)),
    ("", Err(LimitFault::NotNumber)),
    ("K", Err(LimitFault::NotNumber)),
    ("1KB", Err(LimitFault::NotNumber)),
    ("1.5M", Err(LimitFault::NotNumber)),
    ("-1", Err(LimitFault::NotNumber)),
];

#[rattlefmt::skip]
const SHARES: [(u64, u64, &str); 6] = [
    (0, 0, "-"),
    (0, 7, "0.00"),
    (7, 7, "100.00"),
    (2, 19, "10.52"),
    (1, 10000, "0.01"),
    (18446744073709551615, 18446744073709551615, "100.00"),
];

// A request for 1 of size 2, 2 of size 1, 1, 3 of size 3, 2, 4 of size 5, 1 and 3.
#[rattlefmt::skip]
const TRACE: [Request; 8] = [
    Request { key: 1, size: 2 }, Request { key: 2, size: 1 }, Request { key: 1, size: 2 }, Request { key: 3, size: 3 }, Request { key: 2, size: 1 }, Request { key: 4, size: 5 }, Request { key: 1, size: 2 }, Request { key: 3, size: 3 },
];

// Under each limit: how many hits, their bytes, and how many evictions.
const LIMITS: [(usize, u64, u64, u64); 5] = [
    (0, 0, 0, 0),
    (2, 0, 0, 4),
    (4, 1, 2, 5),
    (6, 2, 3, 4),
    (100, 4, 8, 0),
];

// The same keys, each of size 1: 1, 2, 1, 3, 2, 4, 1 and 3. Since its last use, 1 object was used before the second request
// for 1, 2 before that for 2, 3 before the third for 1, and 3 before the second for 3.
#[rattlefmt::skip]
const ONES: [Request; 8] = [
    Request { key: 1, size: 1 }, Request { key: 2, size: 1 }, Request { key: 1, size: 1 }, Request { key: 3, size: 1 }, Request { key: 2, size: 1 }, Request { key: 4, size: 1 }, Request { key: 1, size: 1 }, Request { key: 3, size: 1 },
];

// Limits in no order, and under each: how many hits, and how many evictions.
const AT_ONCE: [usize; 7] = [4, 0, 2, 1, 3, 2, 18446744073709551615];

const TALLIES: [(u64, u64); 7] = [(4, 0), (0, 0), (1, 5), (0, 7), (2, 3), (1, 5), (4, 0)];

// Limits in no order, and of 8 requests with 19 bytes how many hits and of how many bytes.
type Drawn = [(usize, u64, u64); 4];

// What is drawn between 70 and 590 from left to right, and between 60 and 360 down, and what else the picture says.
//
// From 2 to 100 it is 50 times, so by logarithms: those of 2, 4, 6 and 100 to the base 2 are 1024, 2048, 2647 and 6803 parts of
// 1024, and 520 * 1024 / 5779 is 92, 520 * 1623 / 5779 is 146. From 1 to 41 a step of 1 is 13 wide, and from 10 to 40 one of 10 is
// 173 and a third. Those of 1024, 3000, 2^20 and 3 * 2^30 are 10240, 11827, 20480 and 32343: 0, 37, 240 and 520 of 520.
// From 0 to 50 percent in steps of 10, 12.5 are 75 of 300; bytes of 10.52 percent are 63, 15.78 are 94, 42.10 are 252. From 0 to 100
// in steps of 20 they are 37, 31, 47 and 126. From 50 to 65 in steps of 5, 62.5 percent are 250, 52.63 are 52 and 57.89 are 157.
#[rattlefmt::skip]
const PICTURES: [(Drawn, &str, &str, &str); 4] = [
    ([(100, 4, 8), (2, 0, 0), (6, 2, 3), (4, 1, 2)],
        "points=\"70,360 162,285 216,210 590,60 \"", "points=\"70,360 162,297 216,266 590,108 \"", "on a logarithmic scale"),
    ([(3, 1, 3), (1, 0, 2), (41, 8, 19), (21, 4, 8)],
        "points=\"70,360 96,323 330,210 590,60 \"", "points=\"70,329 96,313 330,234 590,60 \"", "in percent</text>"),
    ([(10, 4, 10), (20, 5, 11), (30, 4, 11), (40, 5, 10)],
        "points=\"70,360 243,110 416,360 590,110 \"", "points=\"70,308 243,203 416,203 590,308 \"", "(the axis begins at 50)"),
    ([(1024, 0, 0), (3000, 0, 0), (1048576, 0, 0), (3221225472, 0, 0)],
        "points=\"70,360 107,360 310,360 590,360 \"", "points=\"70,360 107,360 310,360 590,360 \"", ">2.92K</text>"),
];

// What stands first in the table and is read otherwise, as a text; empty where all is as it should be.
fn wrong_line(alloc: Global) -> Result<String, AllocError> {
    for (line, wanted) in &LINES {
        let request = request_of(line.as_bytes());
        if request != *wanted {
            return format!(in alloc; "{line}: {request:?}");
        }
    }
    Ok(String::new(alloc))
}

fn wrong_fault(alloc: Global) -> Result<String, AllocError> {
    for (line, wanted) in &FAULTS {
        let Err(fault) = read_request(Format::Words, line.as_bytes()) else {
            return format!(in alloc; "{line}");
        };
        let text = format!(in alloc; "{fault}")?;
        if text.as_str() != *wanted {
            return format!(in alloc; "{line}: {text}");
        }
    }
    // (a word that is no UTF-8 may be a time)
    if read_request(Format::Words, b"\xff 1 2").is_err() {
        return format!(in alloc; "a time that is no text");
    }
    if read_request(Format::Words, b"1 \xff") != Err(LineFault::NotText) {
        return format!(in alloc; "a size that is no text");
    }
    Ok(String::new(alloc))
}

fn told_of(alloc: Global, asked: &Asked) -> Result<String, AllocError> {
    match asked {
        Asked::Help => format!(in alloc; "help"),
        Asked::Play(settings) => {
            format!(in alloc;
                "{:?} {:?} {}",
                settings.limits, settings.svg, settings.is_timed
            )
        }
        Asked::Misused(misuse) => format!(in alloc; "{misuse}"),
    }
}

fn wrong_arguments(alloc: Global) -> Result<String, AllocError> {
    for (line, wanted) in &ARGUMENTS {
        let mut words = Vec::new(alloc);
        for word in line.split(' ') {
            words.push(String::from_str(alloc, word)?)?;
        }
        let told = told_of(alloc, &asked_by(alloc, words)?)?;
        if told.as_str() != *wanted {
            return format!(in alloc; "{line}: {told}");
        }
    }
    Ok(String::new(alloc))
}

fn wrong_cells(alloc: Global) -> Result<String, AllocError> {
    for (line, wanted) in &CELLS {
        let read = read_request(Format::Commas, line.as_bytes());
        if read != *wanted {
            return format!(in alloc; "{line}: {read:?}");
        }
    }
    for (line, wanted) in &FIRST {
        let told = format_of(line.as_bytes());
        if told != *wanted {
            return format!(in alloc; "{line}: {told:?}");
        }
    }
    Ok(String::new(alloc))
}

fn wrong_limit(alloc: Global) -> Result<String, AllocError> {
    for (word, wanted) in &WORDS {
        let limit = limit_of(word.as_bytes());
        if limit != *wanted {
            return format!(in alloc; "{word}: {limit:?}");
        }
    }
    let mut limits = Vec::new(alloc);
    for limit in [1024, 2, 1024, 3, 2] {
        add_limit(&mut limits, limit)?;
    }
    if limits.as_slice() != [1024, 2, 3].as_slice() {
        return format!(in alloc; "{limits:?}");
    }
    Ok(String::new(alloc))
}

fn wrong_share(alloc: Global) -> Result<String, AllocError> {
    for (part, whole, wanted) in SHARES {
        let text = format!(in alloc; "{}", Percent { part, whole })?;
        if text.as_str() != wanted {
            return format!(in alloc; "{part} of {whole}: {text}");
        }
    }
    Ok(String::new(alloc))
}

fn wrong_tally(alloc: Global) -> Result<String, AllocError> {
    for (limit, hits, hit_bytes, evictions) in LIMITS {
        let wanted = Tally {
            requests: 8,
            hits,
            bytes: 19,
            hit_bytes,
            evictions,
        };
        let tally = play(alloc, limit, &TRACE);
        if tally != Ok(wanted) {
            return format!(in alloc; "{limit}: {tally:?}");
        }
    }
    Ok(String::new(alloc))
}

fn wrong_pass(alloc: Global) -> Result<String, AllocError> {
    if are_of_size_one(&TRACE) {
        return format!(in alloc; "sizes");
    }
    if !are_of_size_one(&ONES) {
        return format!(in alloc; "size 1");
    }
    let tallies = play_all(alloc, &AT_ONCE, &ONES)?;
    for (limit, tally) in AT_ONCE.iter().zip(&tallies) {
        if play(alloc, *limit, &ONES) != Ok(*tally) {
            return format!(in alloc; "{limit}: {tally:?}");
        }
    }
    for (tally, (hits, evictions)) in tallies.iter().zip(&TALLIES) {
        let wanted = Tally {
            requests: 8,
            hits: *hits,
            bytes: 8,
            hit_bytes: *hits,
            evictions: *evictions,
        };
        if *tally != wanted {
            return format!(in alloc; "{tally:?}");
        }
    }
    Ok(String::new(alloc))
}

fn wrong_picture(alloc: Global) -> Result<String, AllocError> {
    for (drawn, hits, bytes, said) in PICTURES {
        let mut rows = drawn.map(tallied);
        let text = format!(in alloc; "{}", Plot::new(&mut rows, CountedUnit::Bytes))?;
        if !text.contains(hits) || !text.contains(bytes) || !text.contains(said) {
            return Ok(text);
        }
        // Where all sizes are 1, the share of bytes is that of requests.
        let text = format!(in alloc; "{}", Plot::new(&mut rows, CountedUnit::Objects))?;
        if !text.contains("limit in objects") || text.contains("byte") {
            return Ok(text);
        }
    }
    Ok(String::new(alloc))
}

// A limit and what it made of 8 requests for 19 bytes: so many hits, for so many bytes.
fn tallied((limit, hits, hit_bytes): (usize, u64, u64)) -> (usize, Tally) {
    let tally = Tally {
        requests: 8,
        hits,
        bytes: 19,
        hit_bytes,
        evictions: 0,
    };
    (limit, tally)
}

#[test]
fn plays_and_tells_what_it_should(rt: HostRuntime) -> Result<(), Fail> {
    let mut wrong = wrong_line(rt.alloc())?;
    wrong.push_str(&wrong_fault(rt.alloc())?)?;
    wrong.push_str(&wrong_arguments(rt.alloc())?)?;
    wrong.push_str(&wrong_cells(rt.alloc())?)?;
    wrong.push_str(&wrong_limit(rt.alloc())?)?;
    wrong.push_str(&wrong_share(rt.alloc())?)?;
    wrong.push_str(&wrong_tally(rt.alloc())?)?;
    wrong.push_str(&wrong_pass(rt.alloc())?)?;
    wrong.push_str(&wrong_picture(rt.alloc())?)?;
    assert_eq!(rt; wrong.as_str(), "");
    Ok(())
}

// Inputs, and what is read: how many requests, or the number of the first bad line, and what is wrong with it.
#[rattlefmt::skip]
const INPUTS: [(&str, Result<usize, (u64, LineFault)>); 11] = [
    ("", Ok(0)),
    ("1 2\n2 1\n", Ok(2)),
    ("1 2\n2 1", Ok(2)),
    ("time,key,size\n", Ok(0)),
    ("time,key,size\n5,7,300\n6,8,500", Ok(2)),
    ("time,key,size\n5,7,300\n6 8 500\n", Err((3, LineFault::Key(NumberFault::Missing)))),
    ("5,7,300\n6,8,500\n", Err((1, LineFault::NoHeader))),
    ("7 300\n5,7,300\n", Err((2, LineFault::Key(NumberFault::NotDigits)))),
    ("x", Err((1, LineFault::Key(NumberFault::NotDigits)))),
    ("1 2\n\n3 4\n", Err((2, LineFault::Key(NumberFault::Missing)))),
    ("1 2\n2 1\n1 -2\nx\n", Err((3, LineFault::Size(NumberFault::NotDigits)))),
];

// The place of the first input that is read otherwise.
fn wrong_input(rt: HostRuntime) -> io::Result<Option<usize>> {
    for (place, (input, wanted)) in INPUTS.iter().enumerate() {
        let read = match read_trace(rt, &mut input.as_bytes())? {
            Ok(requests) => Ok(requests.len()),
            Err(BadLine { number, fault }) => Err((number, fault)),
        };
        if read != *wanted {
            return Ok(Some(place));
        }
    }
    Ok(None)
}

#[test]
fn tells_the_first_bad_line(rt: HostRuntime) -> Result<(), Fail> {
    assert!(rt; matches!(wrong_input(rt), Ok(None)));
    Ok(())
}
