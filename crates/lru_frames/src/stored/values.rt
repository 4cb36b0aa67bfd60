//! Nothing, numbers, bytes, text and pairs as bytes.
ghost use Rattle.std.specs.Prelude.{◌≡◌, ◌<◌, ◌^◌, ◌++◌, [], length, string_bytes, IsUtf8};
ghost use Rattle.lru_frames.specs.Words.{word, counted};
ghost use Rattle.lru_frames.specs.WordLaws.{one_word, one_counted, one_nothing, one_pair};

use crate::stored::{Stored, StoredError};
use crate::words::{put_counted, put_word, take_counted, take_word};
use std::alloc::{AllocError, Global};
use std::str;

impl Stored for u64 {
    ghost bytes_of = { word };

    ghost is_value = { λ number. number < 2 ^ 64 };

    ghost is_same = { λ a b. a ≡ b };

    ghost tells_its_end = { one_word };

    fn store(&self, out: &mut Vec<u8>) -> Result<(), AllocError> {
        put_word(out, *self)
    }

    fn load(_alloc: Global, bytes: &[u8]) -> Result<(u64, &[u8]), StoredError> {
        match take_word(bytes) {
            None => Err(StoredError::Damaged),
            Some(found) => Ok(found),
        }
    }
}

/// No data: no bytes. Rows of keys and weights alone have it.
impl Stored for () {
    ghost bytes_of = { λ nothing. [] };

    ghost is_value = { λ nothing. Unit {0} };

    ghost is_same = { λ a b. a ≡ b };

    ghost tells_its_end = { one_nothing };

    fn store(&self, _out: &mut Vec<u8>) -> Result<(), AllocError> {
        Ok(())
    }

    fn load(_alloc: Global, bytes: &[u8]) -> Result<((), &[u8]), StoredError> {
        Ok(((), bytes))
    }
}

impl Stored for Vec<u8> {
    ghost bytes_of = { λ vec. counted vec.items };

    ghost is_value = { λ vec. length vec.items < 2 ^ 64 };

    ghost is_same = { λ a b. a.items ≡ b.items };

    ghost tells_its_end = { λ a b. one_counted a.items b.items };

    fn store(&self, out: &mut Vec<u8>) -> Result<(), AllocError> {
        put_counted(out, self)
    }

    fn load(alloc: Global, bytes: &[u8]) -> Result<(Vec<u8>, &[u8]), StoredError> {
        match take_counted(bytes) {
            None => Err(StoredError::Damaged),
            Some((data, rest)) => Ok((Vec::from_slice(alloc, data)?, rest)),
        }
    }
}

impl Stored for String {
    ghost bytes_of = { λ text. counted (string_bytes text) };

    ghost is_value = { λ text. (length (string_bytes text) < 2 ^ 64) × IsUtf8 (string_bytes text) };

    ghost is_same = { λ a b. string_bytes a ≡ string_bytes b };

    ghost tells_its_end = { λ a b x y p q. one_counted (string_bytes a) (string_bytes b) x y p.0 q.0 };

    fn store(&self, out: &mut Vec<u8>) -> Result<(), AllocError> {
        put_counted(out, self.as_str().as_bytes())
    }

    fn load(alloc: Global, bytes: &[u8]) -> Result<(String, &[u8]), StoredError> {
        match take_counted(bytes) {
            None => Err(StoredError::Damaged),
            Some((text, rest)) => match str::from_utf8(text) {
                Err(_) => Err(StoredError::Damaged),
                Ok(text) => Ok((String::from_str(alloc, text)?, rest)),
            },
        }
    }
}

impl<A: Stored, B: Stored> Stored for (A, B) {
    ghost bytes_of = { λ pair. A.bytes_of pair.0 ++ B.bytes_of pair.1 };

    ghost is_value = { λ pair. A.is_value pair.0 × B.is_value pair.1 };

    ghost is_same = { λ a b. A.is_same a.0 b.0 × B.is_same a.1 b.1 };

    ghost tells_its_end = { λ a b x y p q. one_pair A.bytes_of A.is_value A.is_same B.bytes_of B.is_value B.is_same A.tells_its_end B.tells_its_end a b x y p q };

    fn store(&self, out: &mut Vec<u8>) -> Result<(), AllocError> {
        self.0.store(out)?;
        self.1.store(out)
    }

    fn load(alloc: Global, bytes: &[u8]) -> Result<((A, B), &[u8]), StoredError> {
        let (first, rest) = A::load(alloc, bytes)?;
        let (second, rest) = B::load(alloc, rest)?;
        Ok(((first, second), rest))
    }
}
