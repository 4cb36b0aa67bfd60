//! An input of ten thousand lines, and shard files of a hundred thousand bytes.
use crate::file_tests::answers_over;
use crate::run_tests::answers;
use pingora_lru_files::persistence::MemoryFolder;
use std::alloc::{AllocError, Global};
use std::test::Fail;

/// Lines that admit so many keys with weight 1, and their answers.
fn admit_all(keys: u64, input: &mut String, text: &mut String) -> Result<(), AllocError> {
    for key in 0..keys {
        let shard = key % 2;
        write!(input, "admit {key} {key} 1\n")?;
        write!(text, "{shard}\n")?;
    }
    Ok(())
}

/// Lines that ask for the weights of so many keys, and their answers.
fn peek_all(keys: u64, input: &mut String, text: &mut String) -> Result<(), AllocError> {
    for key in 0..keys {
        write!(input, "peekw {key}\n")?;
        text.push_str("1\n")?;
    }
    Ok(())
}

fn are_answered(alloc: Global) -> Result<bool, AllocError> {
    let mut input = String::new(alloc);
    let mut text = String::new(alloc);
    admit_all(5000, &mut input, &mut text)?;
    peek_all(4999, &mut input, &mut text)?;
    input.push_str("total\n")?;
    text.push_str("5000 5000 0 0\n")?;
    answers(alloc, "9999 - 7", &input, 0, &text)
}

#[test]
fn answers_ten_thousand_lines(rt: HostRuntime) -> Result<(), Fail> {
    assert!(rt; are_answered(rt.alloc())?);
    Ok(())
}

// The file of that shard: its 4,167 rows, most recent first, each with key, value and weight as 8 bytes, lowest first.
fn file_of(alloc: Global, shard: u64) -> Result<Vec<u8>, AllocError> {
    let mut bytes = Vec::new(alloc);
    for half in (0..4167u64).rev() {
        let key = (half << 1) | (shard & 1);
        for number in [key, key, 1] {
            bytes.extend_from_slice(&number.to_le_bytes())?;
        }
    }
    Ok(bytes)
}

fn are_saved(alloc: Global, folder: &mut MemoryFolder) -> Result<bool, AllocError> {
    let mut input = String::new(alloc);
    let mut text = String::new(alloc);
    admit_all(8334, &mut input, &mut text)?;
    input.push_str("save d c\n")?;
    text.push_str("saved 2 failed 0\n")?;
    answers_over(alloc, folder, input.as_bytes(), 0, &text)
}

fn is_file(
    alloc: Global,
    folder: &MemoryFolder,
    path: &str,
    shard: u64,
) -> Result<bool, AllocError> {
    let bytes = file_of(alloc, shard)?;
    Ok(folder.get(path) == Some(bytes.as_slice()))
}

fn are_kept(alloc: Global) -> Result<bool, AllocError> {
    let mut folder = MemoryFolder::new(alloc);
    let is_saved = are_saved(alloc, &mut folder)?;
    let are_files = is_file(alloc, &folder, "d/c.0", 0)? & is_file(alloc, &folder, "d/c.1", 1)?;
    let input = b"load d c\ntotal\nlru 0\nlru 1\nevict 0\n".as_slice();
    let text = "loaded 2 missing 0 errored 0 removed 0\n8334 8334 0 0\n0 0 1\n1 1 1\n0 0 1\n";
    Ok(is_saved & are_files & answers_over(alloc, &mut folder, input, 0, text)?)
}

#[test]
fn keeps_files_of_many_pages(rt: HostRuntime) -> Result<(), Fail> {
    assert!(rt; are_kept(rt.alloc())?);
    Ok(())
}
