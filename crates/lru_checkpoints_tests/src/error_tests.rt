//! The number and the text of each error.
use lru_frames::errors::{FrameError, Part};
use lru_frames::stored::StoredError;
use std::alloc::{AllocError, Global};
use std::fmt::Display;
use std::test::Fail;

// Errors, their numbers and how they are shown.
static ERRORS: [(FrameError, u8, &str); 7] = [
    (FrameError::Memory, 1, "out of memory"),
    (FrameError::Damaged(Part::Length), 2, "damaged length"),
    (FrameError::Damaged(Part::Magic), 3, "damaged magic"),
    (FrameError::Damaged(Part::Version), 4, "damaged version"),
    (FrameError::Damaged(Part::Check), 5, "damaged check"),
    (FrameError::Damaged(Part::Header), 6, "damaged header"),
    (FrameError::Damaged(Part::Rows), 7, "damaged rows"),
];

fn is_shown<D: Display>(alloc: Global, value: &D, text: &str) -> Result<bool, AllocError> {
    Ok(value.to_string(alloc)?.as_str() == text)
}

// The first error, if there is one, that has another number or is shown otherwise.
fn wrong_error(alloc: Global) -> Result<Option<FrameError>, AllocError> {
    for &(error, number, text) in &ERRORS {
        if error.number() != number || !is_shown(alloc, &error, text)? {
            return Ok(Some(error));
        }
    }
    Ok(None)
}

#[test]
fn numbers_and_texts(rt: HostRuntime) -> Result<(), Fail> {
    let wrong = wrong_error(rt.alloc())?;
    let damaged = is_shown(rt.alloc(), &StoredError::Damaged, "damaged")?;
    let memory = is_shown(rt.alloc(), &StoredError::Memory, "out of memory")?;
    assert_eq!(rt; (wrong, damaged, memory), (None, true, true));
    Ok(())
}
