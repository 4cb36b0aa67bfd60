//! Values stored and loaded again, each kind through the trait.
use lru_frames::stored::{Stored, StoredError};
use std::alloc::{AllocError, Global};
use std::sync::Arc;
use std::test::Fail;

// The bytes of a value, and then two more.
fn stored<T: Stored>(alloc: Global, value: &T) -> Result<Vec<u8>, AllocError> {
    let mut bytes = Vec::new(alloc);
    value.store(&mut bytes)?;
    bytes.extend_from_slice(b"ab")?;
    Ok(bytes)
}

// Whether a value is stored as these bytes.
fn is_stored_as<T: Stored>(alloc: Global, value: &T, wanted: &[u8]) -> Result<bool, AllocError> {
    Ok(stored(alloc, value)?.as_slice() == wanted)
}

// Whether a value is loaded again, and two bytes are left.
fn comes_back<T: Stored + PartialEq + Drop>(alloc: Global, value: &T) -> Result<bool, Fail> {
    let bytes = stored(alloc, value)?;
    let (read, rest) = T::load(alloc, &bytes)?;
    Ok(read == *value && rest == b"ab".as_slice())
}

// Whether a value is stored as these bytes, and loaded again.
fn is_right<T: Stored + PartialEq + Drop>(
    alloc: Global,
    value: &T,
    wanted: &[u8],
) -> Result<bool, Fail> {
    Ok(is_stored_as(alloc, value, wanted)? & comes_back(alloc, value)?)
}

#[test]
fn numbers(rt: HostRuntime) -> Result<(), Fail> {
    let bytes = [1, 2, 3, 4, 5, 6, 7, 8, b'a', b'b'];
    assert!(rt; is_right(rt.alloc(), &0x0807_0605_0403_0201u64, &bytes)?);
    Ok(())
}

// The number 200.
static SMALL: [u8; 10] = [200, 0, 0, 0, 0, 0, 0, 0, b'a', b'b'];

fn are_smaller_right(alloc: Global) -> Result<bool, Fail> {
    let are_short = is_right(alloc, &200u8, &SMALL)? & is_right(alloc, &200u16, &SMALL)?;
    Ok(are_short & is_right(alloc, &200u32, &SMALL)? & is_right(alloc, &200usize, &SMALL)?)
}

#[test]
fn smaller_numbers(rt: HostRuntime) -> Result<(), Fail> {
    assert!(rt; are_smaller_right(rt.alloc())?);
    Ok(())
}

// What is one below zero is stored as bytes of ones, and two below it as one less, whatever the number's own bytes.
static BELOW: [u8; 10] = [254, 255, 255, 255, 255, 255, 255, 255, b'a', b'b'];

static LEAST: [u8; 10] = [0, 0, 0, 0, 0, 0, 0, 128, b'a', b'b'];

fn are_stored_below_zero(alloc: Global) -> Result<bool, AllocError> {
    let are_short = is_stored_as(alloc, &-2i8, &BELOW)? & is_stored_as(alloc, &-2i16, &BELOW)?;
    let are_long = is_stored_as(alloc, &-2i32, &BELOW)? & is_stored_as(alloc, &-2i64, &BELOW)?;
    let are_others = is_stored_as(alloc, &i64::MIN, &LEAST)?
        & is_stored_as(alloc, &200i16, &SMALL)?;
    Ok(are_short & are_long & are_others & is_stored_as(alloc, &-2isize, &BELOW)?)
}

#[test]
fn numbers_below_zero(rt: HostRuntime) -> Result<(), Fail> {
    assert!(rt; are_stored_below_zero(rt.alloc())?);
    Ok(())
}

// Whether all of these are loaded again.
fn all_come_back<T: Stored + PartialEq + Drop>(alloc: Global, values: &[T]) -> Result<bool, Fail> {
    for value in values {
        if !comes_back(alloc, value)? {
            return Ok(false);
        }
    }
    Ok(true)
}

fn all_come_back_below_zero(alloc: Global) -> Result<bool, Fail> {
    let are_short = all_come_back(alloc, &[i8::MIN, -1, 0, i8::MAX])?
        & all_come_back(alloc, &[i16::MIN, -1, 0, i16::MAX])?;
    let are_long = all_come_back(alloc, &[i32::MIN, -1, 0, i32::MAX])?
        & all_come_back(alloc, &[i64::MIN, -1, 0, i64::MAX])?;
    let are_wide = all_come_back(alloc, &[isize::MIN, -1, 0, isize::MAX])?
        & all_come_back(alloc, &[i128::MIN, -1, 0, i128::MAX])?;
    Ok(are_short & are_long & are_wide)
}

#[test]
fn numbers_below_zero_come_back(rt: HostRuntime) -> Result<(), Fail> {
    assert!(rt; all_come_back_below_zero(rt.alloc())?);
    Ok(())
}

#[rattlefmt::skip]
static WIDE: [u8; 18] = [1, 2, 3, 4, 5, 6, 7, 8, 9, 10, 11, 12, 13, 14, 15, 16, b'a', b'b'];

#[rattlefmt::skip]
static WIDE_BELOW: [u8; 18] = [254, 255, 255, 255, 255, 255, 255, 255, 255, 255, 255, 255, 255, 255, 255, 255, b'a', b'b'];

fn are_wide_right(alloc: Global) -> Result<bool, Fail> {
    let is_wide = is_right(alloc, &0x100f_0e0d_0c0b_0a09_0807_0605_0403_0201u128, &WIDE)?;
    let are_ends = all_come_back(alloc, &[0, u128::MAX])?;
    Ok(is_wide & are_ends & is_stored_as(alloc, &-2i128, &WIDE_BELOW)?)
}

#[test]
fn wide_numbers(rt: HostRuntime) -> Result<(), Fail> {
    assert!(rt; are_wide_right(rt.alloc())?);
    Ok(())
}

#[test]
fn truths(rt: HostRuntime) -> Result<(), Fail> {
    let bytes = [1, 0, 0, 0, 0, 0, 0, 0, b'a', b'b'];
    assert!(rt; is_right(rt.alloc(), &true, &bytes)? & comes_back(rt.alloc(), &false)?);
    Ok(())
}

#[test]
fn what_may_be_there(rt: HostRuntime) -> Result<(), Fail> {
    let none: Option<u64> = None;
    let bytes = [0, 0, 0, 0, 0, 0, 0, 0, b'a', b'b'];
    assert!(rt; is_right(rt.alloc(), &none, &bytes)? & comes_back(rt.alloc(), &Some(7u64))?);
    Ok(())
}

fn is_shared_right(alloc: Global) -> Result<bool, Fail> {
    let shared = Arc::new(alloc, 9u64)?;
    let bytes = [9, 0, 0, 0, 0, 0, 0, 0, b'a', b'b'];
    let is_stored = is_stored_as(alloc, &shared, &bytes)?;
    let (read, _) = Arc::<u64>::load(alloc, &bytes)?;
    Ok(is_stored & (*read == 9))
}

#[test]
fn what_is_shared(rt: HostRuntime) -> Result<(), Fail> {
    assert!(rt; is_shared_right(rt.alloc())?);
    Ok(())
}

#[test]
fn nothing(rt: HostRuntime) -> Result<(), Fail> {
    assert!(rt; is_right(rt.alloc(), &(), b"ab")?);
    Ok(())
}

fn are_bytes_right(alloc: Global) -> Result<bool, Fail> {
    let bytes = [3, 0, 0, 0, 0, 0, 0, 0, 0, 255, 7, b'a', b'b'];
    is_right(alloc, &Vec::from_slice(alloc, &[0, 255, 7])?, &bytes)
}

#[test]
fn bytes(rt: HostRuntime) -> Result<(), Fail> {
    assert!(rt; are_bytes_right(rt.alloc())?);
    Ok(())
}

fn are_texts_right(alloc: Global) -> Result<bool, Fail> {
    let bytes = [3, 0, 0, 0, 0, 0, 0, 0, b'n', 0xC3, 0xA9, b'a', b'b'];
    is_right(alloc, &String::from_str(alloc, "né")?, &bytes)
}

#[test]
fn texts(rt: HostRuntime) -> Result<(), Fail> {
    assert!(rt; are_texts_right(rt.alloc())?);
    Ok(())
}

fn do_pairs_come_back(alloc: Global) -> Result<bool, Fail> {
    comes_back(alloc, &(String::from_str(alloc, "k")?, (5u64, 6u64)))
}

#[test]
fn pairs(rt: HostRuntime) -> Result<(), Fail> {
    assert!(rt; do_pairs_come_back(rt.alloc())?);
    Ok(())
}

// Whether these bytes are told as damage.
fn is_damaged<T: Stored + Drop>(alloc: Global, bytes: &[u8]) -> bool {
    T::load(alloc, bytes).err() == Some(StoredError::Damaged)
}

// Whether each of these is damage: a number too short, bytes longer than there are, bytes as long as any, no text, half of a
// pair, a number too great, and a number that is no truth, nor tells whether there is something.
fn are_damaged(alloc: Global) -> [bool; 8] {
    [
        is_damaged::<u64>(alloc, &[1; 7]),
        is_damaged::<Vec<u8>>(alloc, &[9, 0, 0, 0, 0, 0, 0, 0, b'a']),
        is_damaged::<Vec<u8>>(alloc, &[255; 16]),
        is_damaged::<String>(alloc, &[1, 0, 0, 0, 0, 0, 0, 0, 0xFF]),
        is_damaged::<(u64, u64)>(alloc, &[1; 15]),
        is_damaged::<u8>(alloc, &[0, 1, 0, 0, 0, 0, 0, 0]),
        is_damaged::<bool>(alloc, &[2, 0, 0, 0, 0, 0, 0, 0]),
        is_damaged::<Option<u64>>(alloc, &[2; 16]),
    ]
}

// Whether each of these is damage: one more and one less than the number's own bytes hold, and half of a wide number.
fn are_damaged_below_zero(alloc: Global) -> [bool; 6] {
    [
        is_damaged::<i8>(alloc, &[128, 0, 0, 0, 0, 0, 0, 0]),
        is_damaged::<i8>(alloc, &[127, 255, 255, 255, 255, 255, 255, 255]),
        is_damaged::<i16>(alloc, &[0, 128, 0, 0, 0, 0, 0, 0]),
        is_damaged::<i32>(alloc, &[255, 255, 255, 127, 255, 255, 255, 255]),
        is_damaged::<i64>(alloc, &[1; 7]),
        is_damaged::<i128>(alloc, &[1; 15]),
    ]
}

// The same of what is wide: one and a half, and less than one, of the words that it is stored as.
fn are_wide_damaged(alloc: Global) -> bool {
    is_damaged::<u128>(alloc, &[1; 15]) & is_damaged::<u128>(alloc, &[1; 7])
}

#[test]
fn what_is_no_value(rt: HostRuntime) {
    let alloc = rt.alloc();
    let damaged = (
        are_damaged(alloc),
        are_damaged_below_zero(alloc),
        are_wide_damaged(alloc),
    );
    assert_eq!(rt; damaged, ([true; 8], [true; 6], true));
}

// Bytes as many as a value of some megabytes has.
fn many_bytes(alloc: Global) -> Result<Vec<u8>, AllocError> {
    let mut bytes = Vec::with_capacity(alloc, 3 << 20)?;
    for place in 0..3u32 << 20 {
        bytes.push((place % 251) as u8)?;
    }
    Ok(bytes)
}

#[test]
fn a_value_of_megabytes(rt: HostRuntime) -> Result<(), Fail> {
    let alloc: Global = rt.alloc();
    assert!(rt; comes_back(alloc, &many_bytes(alloc)?)?);
    Ok(())
}
