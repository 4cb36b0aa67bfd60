//! Frames whose bytes are written out.
use lru_frames::errors::FrameError;
use lru_frames::frame::{Frame, Header, decode, encode, encode_and_decode};
use lru_frames::row::Row;
use std::alloc::{AllocError, Global};
use std::test::Fail;

const HEADER: Header = Header {
    shards: 4,
    shard: 1,
    generation: 7,
};

// A frame of one row. The last 8 bytes are the check, which was computed by another program.
static ONE_ROW: [u8; 88] = [
    b'L', b'R', b'U', b'F', b'R', b'A', b'M', b'E', // magic
    2, 0, 0, 0, 0, 0, 0, 0, // version
    88, 0, 0, 0, 0, 0, 0, 0, // length
    4, 0, 0, 0, 0, 0, 0, 0, // shards
    1, 0, 0, 0, 0, 0, 0, 0, // shard
    7, 0, 0, 0, 0, 0, 0, 0, // generation
    1, 0, 0, 0, 0, 0, 0, 0, // rows
    5, 0, 0, 0, 0, 0, 0, 0, // key
    9, 0, 0, 0, 0, 0, 0, 0, // data
    3, 0, 0, 0, 0, 0, 0, 0, // weight
    244, 240, 42, 191, 39, 46, 49, 128, // check
];

// A frame of one row of text, bytes and a number, which is no whole number of words.
static TEXT_ROW: [u8; 99] = [
    b'L', b'R', b'U', b'F', b'R', b'A', b'M', b'E', 2, 0, 0, 0, 0, 0, 0, 0, // magic, version
    99, 0, 0, 0, 0, 0, 0, 0, // length
    1, 0, 0, 0, 0, 0, 0, 0, 0, 0, 0, 0, 0, 0, 0, 0, // shards, shard
    0, 0, 0, 0, 0, 0, 0, 0, 1, 0, 0, 0, 0, 0, 0, 0, // generation, rows
    1, 0, 0, 0, 0, 0, 0, 0, b'a', // key
    2, 0, 0, 0, 0, 0, 0, 0, b'x', b'y', 2, 1, 0, 0, 0, 0, 0, 0, // data
    2, 0, 0, 0, 0, 0, 0, 0, // weight
    86, 109, 163, 134, 107, 78, 249, 119, // check
];

fn one_row(alloc: Global) -> Result<Vec<Row<u64, u64>>, AllocError> {
    let mut rows = Vec::new(alloc);
    rows.push(Row {
        key: 5,
        data: 9,
        weight: 3,
    })?;
    Ok(rows)
}

fn is_written(alloc: Global) -> Result<bool, AllocError> {
    let rows = one_row(alloc)?;
    Ok(encode(alloc, HEADER, &rows)?.as_slice() == ONE_ROW.as_slice())
}

#[test]
fn writes_these_bytes(rt: HostRuntime) -> Result<(), Fail> {
    assert!(rt; is_written(rt.alloc())?);
    Ok(())
}

fn is_read(alloc: Global) -> Result<bool, FrameError> {
    let Frame { header, rows } = decode::<u64, u64>(alloc, &ONE_ROW)?;
    match rows.as_slice() {
        [row] => Ok((header == HEADER) & ((row.key, row.data, row.weight) == (5, 9, 3))),
        _ => Ok(false),
    }
}

#[test]
fn reads_these_bytes(rt: HostRuntime) -> Result<(), Fail> {
    assert!(rt; is_read(rt.alloc())?);
    Ok(())
}

// A row of text, bytes and a number.
type TextRow = Row<String, (Vec<u8>, u64)>;

const TEXT_HEADER: Header = Header {
    shards: 1,
    shard: 0,
    generation: 0,
};

fn text_row(alloc: Global) -> Result<Vec<TextRow>, AllocError> {
    let data = (Vec::from_slice(alloc, b"xy")?, 258u64);
    let key = String::from_str(alloc, "a")?;
    let mut rows = Vec::new(alloc);
    rows.push(Row {
        key,
        data,
        weight: 2,
    })?;
    Ok(rows)
}

fn is_text_written(alloc: Global) -> Result<bool, AllocError> {
    let rows = text_row(alloc)?;
    Ok(encode(alloc, TEXT_HEADER, &rows)?.as_slice() == TEXT_ROW.as_slice())
}

#[test]
fn writes_text(rt: HostRuntime) -> Result<(), Fail> {
    assert!(rt; is_text_written(rt.alloc())?);
    Ok(())
}

// Whether these are the key "a", the bytes "xy", the number 258 and the weight 2.
fn is_text_row(row: &TextRow) -> bool {
    row.key.as_str() == "a"
        && row.data.0.as_slice() == b"xy".as_slice()
        && (row.data.1, row.weight) == (258, 2)
}

fn is_text_read(alloc: Global) -> Result<bool, FrameError> {
    let Frame { header, rows } = decode::<String, (Vec<u8>, u64)>(alloc, &TEXT_ROW)?;
    match rows.as_slice() {
        [row] => Ok((header == TEXT_HEADER) & is_text_row(row)),
        _ => Ok(false),
    }
}

#[test]
fn reads_text(rt: HostRuntime) -> Result<(), Fail> {
    assert!(rt; is_text_read(rt.alloc())?);
    Ok(())
}

// So many rows, each of numbers of its own.
fn numbered(alloc: Global, count: u64) -> Result<Vec<Row<u64, u64>>, AllocError> {
    let mut rows = Vec::new(alloc);
    for key in 0..count {
        let data = key.wrapping_mul(key);
        rows.push(Row {
            key,
            data,
            weight: 1,
        })?;
    }
    Ok(rows)
}

// Whether a frame of so many rows tells them again, in order.
fn tells_again(alloc: Global, count: u64) -> Result<bool, Fail> {
    let rows = numbered(alloc, count)?;
    let frame = encode_and_decode(alloc, HEADER, &rows)?;
    if frame.rows.len() != rows.len() {
        return Ok(false);
    }
    let same = frame.rows.iter().zip(rows.iter()).all(|(read, row)| read.key == row.key
        && read.data == row.data
        && read.weight == row.weight);
    Ok(same)
}

#[test]
fn none_one_and_many_rows(rt: HostRuntime) -> Result<(), Fail> {
    let few = tells_again(rt.alloc(), 0)? & tells_again(rt.alloc(), 1)?;
    assert!(rt; few & tells_again(rt.alloc(), 1000)?);
    Ok(())
}
