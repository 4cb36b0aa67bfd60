//! The check of bytes: as it was published, and as it comes bit by bit.
use lru_frames::crc64;
use std::test::Fail;

// The check bit by bit, with nothing of the code above.
fn plain(bytes: &[u8]) -> u64 {
    let mut check = u64::MAX;
    for byte in bytes {
        check ^= u64::from(*byte);
        for _ in 0..8 {
            let low = check & 1;
            check >>= 1;
            if low == 1 {
                check ^= 0xC96C_5795_D787_0F42;
            }
        }
    }
    check ^ u64::MAX
}

#[test]
fn published_check(rt: HostRuntime) -> Result<(), Fail> {
    assert_eq!(rt; crc64(b"123456789"), 0x995D_C9BB_DF19_39FA);
    assert_eq!(rt; crc64(b""), 0);
    Ok(())
}

#[test]
fn as_bit_by_bit(rt: HostRuntime) -> Result<(), Fail> {
    let mut bytes = Vec::new(rt.alloc());
    for length in 0..140u64 {
        assert_eq!(rt; crc64(&bytes), plain(&bytes), "at a length of {length}");
        bytes.push((length.wrapping_mul(167) >> 1 & 0xff) as u8)?;
    }
    Ok(())
}

// As many bytes as tables take, as a window takes, and as go behind a window at once, and one more and less.
#[test]
fn many_as_bit_by_bit(rt: HostRuntime) -> Result<(), Fail> {
    let mut bytes: Vec<u8> = Vec::new(rt.alloc());
    for place in 0..20_000u64 {
        bytes.push((place.wrapping_mul(place) >> 3 & 0xff) as u8)?;
    }
    for length in [
        4095usize, 4096, 4097, 5240, 5241, 5242, 9336, 9337, 9338, 20_000,
    ] {
        let Some(front) = bytes.get(..length) else {
            return Err(Fail::from("fewer bytes"));
        };
        assert_eq!(rt; crc64(front), plain(front), "at a length of {length}");
    }
    Ok(())
}
