//! The folders that a folder in memory has, and the names in them.
ghost use Rattle.std.specs.Prelude.{◌≡◌, ◌==◌, ◌&&◌, not, length, string_bytes, None, Some, MatchOption, OnErr, OnOk};
ghost use Rattle.std.specs.Option.{option_map};
ghost use Rattle.std.specs.FinSet.{insert};
ghost use Rattle.std.specs.List.{list_any};
ghost use Rattle.std.specs.Str.{bytes_eq};
ghost use Rattle.lru_memory_folder.specs.MadeInside.{folders_in};
ghost use Rattle.lru_memory_folder.specs.Memory.{has_another};
ghost use Rattle.lru_folder.specs.Names.{has_slash};
ghost use Rattle.lru_folder.specs.Places.{folder_of, is_there, name_after, without_last_slash, MakesAll, MakesSome};

use std::alloc::{AllocError, Global};

/// The text of a folder without the slash at its end, but for `/` itself.
pub(crate) fn without_last_slash(dir: &[u8]) -> &[u8]
    ensures { result.now ≡ without_last_slash dir.now }
{
    let len = dir.len();
    if len > 1 && dir[len - 1] == b'/' {
        &dir[..len - 1]
    } else {
        dir
    }
}

/// The folder of a path: the text before its last slash.
pub(crate) fn folder_of(path: &str) -> &[u8]
    ensures { result.now ≡ folder_of path.now }
{
    match path.rfind('/') {
        Some(at) => &path.as_bytes()[..at],
        None => b"",
    }
}

/// Whether the folder was made.
fn has(made: &[Vec<u8>], text: &[u8]) -> bool
    ensures { result ≡ list_any (λ folder. bytes_eq folder.items text.now) made.now }
{
    made.iter().any(|folder| folder.as_slice() == text)
}

/// Whether the folder is there.
pub(crate) fn is_there(made: &[Vec<u8>], dir: &[u8]) -> bool
    ensures { result ≡ is_there (folders_in made.now) dir.now }
{
    let text = without_last_slash(dir);
    text.is_empty() || text == b"/".as_slice() || has(made, text)
}

/// Whether another saver has claimed this folder.
pub(crate) fn is_claimed(elsewhere: &Option<String>, dir: &str) -> bool
    ensures { result ≡ has_another (option_map string_bytes elsewhere.now) dir.now }
{
    match elsewhere {
        Some(claimed) => {
            without_last_slash(claimed.as_bytes()) == without_last_slash(dir.as_bytes())
        }
        None => false,
    }
}

/// Adds a folder.
fn add(alloc: Global, made: &mut Vec<Vec<u8>>, text: &[u8]) -> Result<(), AllocError>
    ensures ok { OnOk result (folders_in made.new.items ≡ insert (folders_in made.old.items) text.now) }
    ensures err { OnErr result (made.new.items ≡ made.old.items) }
{
    if !has(made, text) {
        made.push(text.to_vec(alloc)?)?;
    }
    Ok(())
}

/// Makes a folder and its parents, the texts before each slash. An error leaves some of them.
pub(crate) fn make_all(alloc: Global, made: &mut Vec<Vec<u8>>, dir: &[u8]) -> Result<(), AllocError>
    ensures all { OnOk result (MakesAll dir.now (folders_in made.old.items) (folders_in made.new.items)) }
    ensures some { MakesSome dir.now (folders_in made.old.items) (folders_in made.new.items) }
{
    let text = without_last_slash(dir);
    for (at, byte) in text.iter().enumerate() {
        if *byte == b'/' {
            add(alloc, made, &text[..at])?;
        }
    }
    add(alloc, made, text)?;
    Ok(())
}

/// Whether a text is a file's name.
fn is_name(text: &str) -> bool
    ensures { result ≡ (not (length text.now == 0) && not (has_slash text.now)) }
{
    !text.is_empty() && !text.contains('/')
}

/// The name behind this front of a path, if it is one.
pub(crate) fn name_after<'a>(front: &str, path: &'a str) -> Option<&'a str>
    ensures { MatchOption result (name_after front.now path.now ≡ None)
        (λ name. name_after front.now path.now ≡ Some name.now) }
{
    match path.strip_prefix(front) {
        Some(name) => { if is_name(name) { Some(name) } else { None } }
        None => None,
    }
}
