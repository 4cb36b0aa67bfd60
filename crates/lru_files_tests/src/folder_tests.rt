//! What the folders answer.
use lru_test_folders::told::told_names;
use pingora_lru_files::persistence::{Folder, FolderFault, HostFolder, MemoryFolder};
use std::alloc::{AllocError, Global};
use std::test::Fail;

/// A call that answers no value.
#[derive(Clone, Copy, Debug)]
enum Asked<'a> {
    Make(&'a str),
    Create(&'a str),
    Remove(&'a str),
}

fn ask(folder: &mut MemoryFolder, asked: Asked<'_>) -> Result<(), FolderFault> {
    match asked {
        Asked::Make(dir) => folder.make(dir),
        Asked::Create(path) => folder.create(path),
        Asked::Remove(path) => folder.remove(path),
    }
}

const NOT_FOUND: Result<(), FolderFault> = Err(FolderFault::NotFound);

const FAILED: Result<(), FolderFault> = Err(FolderFault::Io);

/// Whether the calls, one after another, answer so.
fn answer_so(folder: &mut MemoryFolder, calls: &[(Asked<'_>, Result<(), FolderFault>)]) -> bool {
    for (asked, answer) in calls {
        if ask(folder, *asked) != *answer {
            return false;
        }
    }
    true
}

/// The calls where the second one fails.
static ONE_FAILS: [(Asked<'static>, Result<(), FolderFault>); 3] = [
    (Asked::Make("e"), Ok(())),
    (Asked::Make("f"), FAILED),
    (Asked::Make("f"), Ok(())),
];

/// The calls where all fail.
static ALL_FAIL: [(Asked<'static>, Result<(), FolderFault>); 2] = [
    (Asked::Remove("d/a"), FAILED),
    (Asked::Remove("d/a"), FAILED),
];

/// The calls where none fails any more.
static MENDED: [(Asked<'static>, Result<(), FolderFault>); 2] = [
    (Asked::Remove("d/a"), Ok(())),
    (Asked::Remove("d/a"), NOT_FOUND),
];

fn follows_its_plans(alloc: Global) -> Result<bool, AllocError> {
    let mut folder = MemoryFolder::new(alloc).with("d/a", b"1")?;
    folder.fail_at(1, 0);
    let fails = answer_so(&mut folder, &ONE_FAILS);
    folder.stop_at(0, 0);
    let stops = answer_so(&mut folder, &ALL_FAIL);
    folder.mend();
    Ok(fails & stops & answer_so(&mut folder, &MENDED))
}

#[test]
fn a_plan_fails_one_call_or_all(rt: HostRuntime) -> Result<(), Fail> {
    assert!(rt; follows_its_plans(rt.alloc())?);
    Ok(())
}

/// Calls in an empty folder.
static MADE: [(Asked<'static>, Result<(), FolderFault>); 6] = [
    (Asked::Create("a/b/c"), NOT_FOUND),
    (Asked::Make("a/b/"), Ok(())),
    (Asked::Create("a/b/c"), Ok(())),
    (Asked::Create("a/x"), Ok(())),
    (Asked::Create("x"), Ok(())),
    (Asked::Create("/x"), Ok(())),
];

#[test]
fn folders_are_made_with_their_parents(rt: HostRuntime) -> Result<(), Fail> {
    assert!(rt; answer_so(&mut MemoryFolder::new(rt.alloc()), &MADE));
    Ok(())
}

fn are_listed(alloc: Global) -> Result<bool, AllocError> {
    let mut folder = MemoryFolder::new(alloc)
        .with("d/b", b"")?
        .with("d/a", b"")?
        .with("d/e/f", b"")?
        .with("da", b"")?;
    let names = told_names(alloc, &mut folder, "d")?;
    let empty = told_names(alloc, &mut folder, "")?;
    let other = told_names(alloc, &mut folder, "x")?;
    Ok((names.as_str(), empty.as_str(), other.as_str()) == ("a b ", "not found", "not found"))
}

#[test]
fn names_are_listed_in_byte_order(rt: HostRuntime) -> Result<(), Fail> {
    assert!(rt; are_listed(rt.alloc())?);
    Ok(())
}

/// The calls of which the third finds nothing and the fifth fails: they count as the others do.
static COUNTED: [(Asked<'static>, Result<(), FolderFault>); 5] = [
    (Asked::Create("d/c"), Ok(())),
    (Asked::Remove("d/a"), Ok(())),
    (Asked::Remove("d/a"), NOT_FOUND),
    (Asked::Make("e"), Ok(())),
    (Asked::Create("d/f"), FAILED),
];

fn tells_paths_and_calls(alloc: Global) -> Result<bool, AllocError> {
    let mut folder = MemoryFolder::new(alloc)
        .with("d/b", b"1")?
        .with("d/a", b"")?;
    folder.fail_at(4, 0);
    let before = folder.calls();
    let answered = answer_so(&mut folder, &COUNTED);
    let mut paths = String::new(alloc);
    for path in &folder.paths()? {
        write!(paths, "{path} ")?;
    }
    Ok(answered & (before == 0) & (folder.calls() == 5) & (paths.as_str() == "d/b d/c "))
}

#[test]
fn a_folder_in_memory_tells_its_paths_and_how_many_calls_it_had(
    rt: HostRuntime,
) -> Result<(), Fail> {
    assert!(rt; tells_paths_and_calls(rt.alloc())?);
    Ok(())
}

/// Whether the five bytes of that file are read in pieces of at most two.
fn is_read_in_pieces(folder: &mut MemoryFolder, path: &str) -> Result<bool, FolderFault> {
    let len = folder.open(path)?;
    let first = folder.read(2)?;
    let second = folder.read(2)?;
    let third = folder.read(2)?;
    let end = folder.read(2)?;
    let fronts = (first.as_slice(), second.as_slice()) == (b"12".as_slice(), b"34".as_slice());
    Ok((len == 5) & fronts & (third.as_slice() == b"5".as_slice()) & end.is_empty())
}

#[test]
fn a_file_is_read_in_pieces(rt: HostRuntime) -> Result<(), Fail> {
    let mut folder = MemoryFolder::new(rt.alloc()).with("a", b"12345")?;
    let missing = folder.open("b");
    let is_read = is_read_in_pieces(&mut folder, "a");
    assert!(rt; (missing, is_read) == (Err(FolderFault::NotFound), Ok(true)));
    Ok(())
}

#[test]
fn a_real_folder_answers_like_one_in_memory(rt: HostRuntime) -> Result<(), Fail> {
    let mut folder = HostFolder::new(rt);
    let answers = [
        folder.make(""),
        folder.create("no_such_folder/a"),
        folder.open("no_such_file").map(|_| ()),
        folder.remove("no_such_file"),
        folder.rename("no_such_file", "b"),
        folder.list("no_such_folder").map(|_| ()),
        folder.list("").map(|_| ()),
    ];
    assert!(rt;
        answers
            == [
                Ok(()),
                NOT_FOUND,
                NOT_FOUND,
                NOT_FOUND,
                NOT_FOUND,
                NOT_FOUND,
                NOT_FOUND
            ]
    );
    Ok(())
}
