//! Frames that are changed, cut short, or have bytes behind them.
use lru_frames::errors::{FrameError, Part};
use lru_frames::frame::{Frame, Header, decode, encode};
use lru_frames::row::Row;
use std::alloc::{AllocError, Global};
use std::test::Fail;

// A frame of two rows.
fn two_rows(alloc: Global) -> Result<Vec<u8>, AllocError> {
    let mut rows = Vec::new(alloc);
    rows.push(Row {
        key: 1u64,
        data: 10u64,
        weight: 2,
    })?;
    rows.push(Row {
        key: 3u64,
        data: 30u64,
        weight: 1,
    })?;
    encode(
        alloc,
        Header {
            shards: 2,
            shard: 1,
            generation: 5,
        },
        &rows,
    )
}

fn read(alloc: Global, bytes: &[u8]) -> Result<Frame<u64, u64>, FrameError> {
    decode(alloc, bytes)
}

// The part that is told as damaged, if one is.
fn damage(alloc: Global, bytes: &[u8]) -> Option<Part> {
    match read(alloc, bytes) {
        Err(FrameError::Damaged(part)) => Some(part),
        _ => None,
    }
}

// The first place at which a change to some other byte is not told as damage.
fn first_unseen(alloc: Global, bytes: &mut Vec<u8>) -> Option<usize> {
    for place in 0..bytes.len() {
        for change in 1..=255u8 {
            bytes[place] ^= change;
            let seen = damage(alloc, bytes).is_some();
            bytes[place] ^= change;
            if !seen {
                return Some(place);
            }
        }
    }
    None
}

// How many bytes there are, that place, and whether the frame is read as it is.
fn changed(alloc: Global) -> Result<(usize, Option<usize>, bool), AllocError> {
    let mut bytes = two_rows(alloc)?;
    let unseen = first_unseen(alloc, &mut bytes);
    Ok((bytes.len(), unseen, read(alloc, &bytes).is_ok()))
}

#[test]
fn each_changed_byte(rt: HostRuntime) -> Result<(), Fail> {
    assert_eq!(rt; changed(rt.alloc())?, (112, None, true));
    Ok(())
}

// The shortest beginning that is not told by its length.
fn first_uncut(alloc: Global, bytes: &[u8]) -> Option<usize> {
    (0..bytes.len()).find(|&end| damage(alloc, &bytes[..end]) != Some(Part::Length))
}

#[test]
fn each_cut(rt: HostRuntime) -> Result<(), Fail> {
    let bytes = two_rows(rt.alloc())?;
    assert_eq!(rt; first_uncut(rt.alloc(), &bytes), None);
    Ok(())
}

// The first of 40 bytes behind a frame, put there one by one, that is not told by its length.
fn first_taken(alloc: Global, bytes: &mut Vec<u8>) -> Result<Option<u8>, AllocError> {
    for byte in 0..40u8 {
        bytes.push(byte)?;
        if damage(alloc, bytes) != Some(Part::Length) {
            return Ok(Some(byte));
        }
    }
    Ok(None)
}

#[test]
fn bytes_behind(rt: HostRuntime) -> Result<(), Fail> {
    let mut bytes = two_rows(rt.alloc())?;
    assert_eq!(rt; first_taken(rt.alloc(), &mut bytes)?, None);
    Ok(())
}

// The frame with another byte at a place, and which part is told as damaged.
fn damage_at(alloc: Global, bytes: &mut Vec<u8>, place: usize) -> Option<Part> {
    if place >= bytes.len() {
        return None;
    }
    bytes[place] ^= 1;
    let part = damage(alloc, bytes);
    bytes[place] ^= 1;
    part
}

// Places, and the part that is told where another byte stands there.
static PARTS: [(usize, Part); 5] = [
    (0, Part::Magic),
    (8, Part::Version),
    (16, Part::Length),
    (24, Part::Check),
    (111, Part::Check),
];

// The first place at which another part is told.
fn first_other_part(alloc: Global) -> Result<Option<usize>, AllocError> {
    let mut bytes = two_rows(alloc)?;
    for (place, part) in &PARTS {
        if damage_at(alloc, &mut bytes, *place) != Some(*part) {
            return Ok(Some(*place));
        }
    }
    Ok(None)
}

#[test]
fn which_part(rt: HostRuntime) -> Result<(), Fail> {
    assert_eq!(rt; first_other_part(rt.alloc())?, None);
    Ok(())
}

#[test]
fn other_types(rt: HostRuntime) -> Result<(), Fail> {
    let bytes = two_rows(rt.alloc())?;
    let read = decode::<String, u64>(rt.alloc(), &bytes);
    assert!(rt; matches!(read, Err(FrameError::Damaged(Part::Rows))));
    Ok(())
}

// The check of the bytes, as it is defined: bit by bit.
fn check_of(bytes: &[u8]) -> u64 {
    let mut check = u64::MAX;
    for byte in bytes {
        check ^= u64::from(*byte);
        for _ in 0..8 {
            let low = check & 1;
            check >>= 1;
            if low == 1 {
                check ^= 0xC96C_5795_D787_0F42;
            }
        }
    }
    !check
}

// A frame whose check is right, with these numbers after its version.
pub(crate) fn sealed(alloc: Global, version: u64, numbers: &[u64]) -> Result<Vec<u8>, AllocError> {
    let mut bytes = Vec::from_slice(alloc, b"LRUFRAME")?;
    bytes.extend_from_slice(&version.to_le_bytes())?;
    for number in numbers {
        bytes.extend_from_slice(&number.to_le_bytes())?;
    }
    let check = check_of(&bytes);
    bytes.extend_from_slice(&check.to_le_bytes())?;
    Ok(bytes)
}

// Numbers of a frame, and the part that is told as damaged: length, shards, shard, generation, rows; key, data and weight of
// each row.
#[rattlefmt::skip]
static SEALED: [(&[u64], Option<Part>); 7] = [
    (&[88, 1, 0, 0, 1, 5, 9, 3], None),
    // a shard too great
    (&[88, 1, 1, 0, 1, 5, 9, 3], Some(Part::Header)),
    // no header
    (&[48, 1, 0], Some(Part::Header)),
    // rows that are missing, that are not told, and that are too many to count
    (&[88, 1, 0, 0, 2, 5, 9, 3], Some(Part::Rows)),
    (&[88, 1, 0, 0, 0, 5, 9, 3], Some(Part::Rows)),
    (&[88, 1, 0, 0, u64::MAX, 5, 9, 3], Some(Part::Rows)),
    // more rows than there is memory for: none is asked for before they are read
    (&[88, 1, 0, 0, 0x10_0000_0000, 5, 9, 3], Some(Part::Rows)),
];

// The first of these of which another part is told, or none.
fn first_mended(alloc: Global) -> Result<Option<usize>, AllocError> {
    for (place, (numbers, wanted)) in SEALED.iter().enumerate() {
        if damage(alloc, &sealed(alloc, 2, numbers)?) != *wanted {
            return Ok(Some(place));
        }
    }
    Ok(None)
}

#[test]
fn what_a_right_check_does_not_mend(rt: HostRuntime) -> Result<(), Fail> {
    assert_eq!(rt; first_mended(rt.alloc())?, None);
    Ok(())
}

#[test]
fn another_version(rt: HostRuntime) -> Result<(), Fail> {
    let bytes = sealed(rt.alloc(), 1, &[88, 1, 0, 0, 1, 5, 9, 3])?;
    assert_eq!(rt; damage(rt.alloc(), &bytes), Some(Part::Version));
    Ok(())
}
