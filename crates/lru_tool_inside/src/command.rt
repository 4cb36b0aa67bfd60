//! The commands of the program: what the lines of an input ask for.
ghost use Rattle.std.specs.Prelude.{◌≡◌, option_map};
ghost use Rattle.lru_tool_inside.specs.Commands.{asked, text_of, file_name_of, of_name_and_two, bare, with_one, with_two, with_three, with_four, command_of, Possible};
ghost use Rattle.lru_lines.specs.Lines.{now_of};

use lru_lines::numbers::{number, number_or_dash};
use lru_lines::parts::cut;
use pingora_lru::calls::Call;
use pingora_lru_files::snapshot::Keyed;

/// What a line asks for.
#[derive(Drop)]
pub enum Command<'a> {
    /// A call of the core.
    Do(Call<Keyed>),
    /// The rows of a shard, 0 or 1.
    List { shard: usize },
    /// The core saved into the folder `dir`, each shard in a file under this name.
    Save { dir: &'a str, file_name: &'a str },
    /// The core loaded from there.
    Load { dir: &'a str, file_name: &'a str },
}

/// The command of a line, if it is one: words with single spaces between them.
pub fn command_from(line: &[u8]) -> Option<Command<'_>>
    ensures read { option_map asked result ≡ command_of line.now }
    ensures possible { Possible (option_map asked result) }
{
    from_words(line)
}

// It is a function of its own, so that each of its ways out has one statement.
fn from_words(line: &[u8]) -> Option<Command<'_>>
    ensures { option_map asked result ≡ command_of line.now }
{
    let (name, rest) = cut(line, b' ');
    let Some(rest) = rest else {
        return bare(name);
    };
    let (a, rest) = cut(rest, b' ');
    let Some(rest) = rest else {
        return with_one(name, number(a)?);
    };
    let (b, rest) = cut(rest, b' ');
    let Some(rest) = rest else {
        return of_name_and_two(name, a, b);
    };
    let (c, rest) = cut(rest, b' ');
    let Some(rest) = rest else {
        return with_three(name, number(a)?, number(b)?, number(c)?);
    };
    let (most, rest) = cut(rest, b' ');
    if rest.is_some() {
        return None;
    }
    with_four(
        name,
        number(a)?,
        number(b)?,
        number(c)?,
        number_or_dash(most)?,
    )
}

// A name with a folder and a file's name, or with two numbers.
fn of_name_and_two<'a>(name: &[u8], a: &'a [u8], b: &'a [u8]) -> Option<Command<'a>>
    ensures { option_map asked result ≡ of_name_and_two name.now a.now b.now }
{
    if name == b"save".as_slice() {
        let (dir, file_name) = (text(a)?, file_name(b)?);
        return Some(Command::Save { dir, file_name });
    }
    if name == b"load".as_slice() {
        let (dir, file_name) = (text(a)?, file_name(b)?);
        return Some(Command::Load { dir, file_name });
    }
    with_two(name, number(a)?, number(b)?)
}

// A word of UTF-8 that is not empty.
fn text(word: &[u8]) -> Option<&str>
    ensures { option_map now_of result ≡ text_of word.now }
{
    if word.is_empty() {
        return None;
    }
    match str::from_utf8(word) {
        Ok(text) => Some(text),
        Err(_) => None,
    }
}

// Such a word without a slash.
fn file_name(word: &[u8]) -> Option<&str>
    ensures { option_map now_of result ≡ file_name_of word.now }
{
    if word.contains(&b'/') {
        return None;
    }
    text(word)
}

fn bare(name: &[u8]) -> Option<Command<'static>>
    ensures { option_map asked result ≡ bare name.now }
{
    let call = if name == b"limit".as_slice() {
        Call::EvictToLimit
    } else if name == b"total".as_slice() {
        Call::Totals
    } else {
        return None;
    };
    Some(Command::Do(call))
}

fn with_one(name: &[u8], a: u64) -> Option<Command<'static>>
    ensures { option_map asked result ≡ with_one name.now a }
{
    let call = if name == b"promote".as_slice() {
        Call::Promote { key: a }
    } else if name == b"remove".as_slice() {
        Call::Remove { key: a }
    } else if name == b"evict".as_slice() {
        Call::EvictShard { shard: a }
    } else if name == b"setlimit".as_slice() {
        Call::SetWeightLimit { limit: a as usize }
    } else if name == b"peek".as_slice() {
        Call::Peek { key: a }
    } else if name == b"peekw".as_slice() {
        Call::PeekWeight { key: a }
    } else if name == b"lru".as_slice() {
        Call::PeekLru { shard: a as usize }
    } else if name == b"list".as_slice() && a < 2 {
        return Some(Command::List { shard: a as usize });
    } else {
        return None;
    };
    Some(Command::Do(call))
}

fn with_two(name: &[u8], a: u64, b: u64) -> Option<Command<'static>>
    ensures { option_map asked result ≡ with_two name.now a b }
{
    let call = if name == b"setw".as_slice() {
        Call::SetWeight {
            key: a,
            weight: b as usize,
        }
    } else if name == b"top".as_slice() {
        Call::PromoteTopN {
            key: a,
            top: b as usize,
        }
    } else if name == b"step".as_slice() && a < 2 && b < 2 {
        Call::EvictStep {
            a: a as usize,
            b: b as usize,
        }
    } else {
        return None;
    };
    Some(Command::Do(call))
}

// Of `update`, a row that is there and a new one get the same value.
fn with_three(name: &[u8], key: u64, value: u64, weight: u64) -> Option<Command<'static>>
    ensures { option_map asked result ≡ with_three name.now key value weight }
{
    let data = Keyed { key, value };
    let weight = weight as usize;
    let call = if name == b"admit".as_slice() {
        Call::Admit { key, data, weight }
    } else if name == b"tail".as_slice() {
        Call::InsertTail { key, data, weight }
    } else if name == b"update".as_slice() {
        Call::UpdateOrAdmit {
            key,
            present: data,
            missing: data,
            delta: weight,
        }
    } else {
        return None;
    };
    Some(Command::Do(call))
}

fn with_four(
    name: &[u8],
    key: u64,
    value: u64,
    delta: u64,
    most: Option<u64>,
) -> Option<Command<'static>>
    ensures { option_map asked result ≡ with_four name.now key value delta most }
{
    if name != b"incr".as_slice() {
        return None;
    }
    let max_weight = match most {
        Some(most) => Some(most as usize),
        None => None,
    };
    Some(Command::Do(Call::IncrementWeight {
        key,
        data: Keyed { key, value },
        delta: delta as usize,
        max_weight,
    }))
}
