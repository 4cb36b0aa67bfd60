//! What is noted of an answer.
ghost use Rattle.std.specs.Prelude.{◌≡◌};
ghost use Rattle.lru_recording.specs.Replies.{refused, weighed, admitted, inserted, new_weight, incremented, paired, set};

use crate::entry::Reply;
use lru_shard::unit::{Cause, Refused};

/// What is noted of a refusal: nothing where memory was wanting.
pub fn refused(cause: Cause) -> Option<Reply>
    ensures { result ≡ refused cause }
{
    match cause {
        Cause::Memory => None,
        Cause::Weight | Cause::Length => Some(Reply::Refused(cause)),
    }
}

/// A weight, if there is one.
pub fn weighed(weight: Option<usize>) -> Reply
    ensures { result ≡ weighed weight }
{
    match weight {
        None => Reply::NotFound,
        Some(weight) => Reply::Found(weight),
    }
}

/// What is noted of a row's data and weight, if there is one.
pub fn paired<T>(pair: &Option<(T, usize)>) -> Reply
    ensures { result ≡ paired pair.now }
{
    match pair {
        None => Reply::NotFound,
        Some((_, weight)) => Reply::Found(*weight),
    }
}

/// What is noted of an `admit`.
pub fn admitted<D>(answer: &Result<usize, Refused<D>>) -> Option<Reply>
    ensures { result ≡ admitted answer.now }
{
    match answer {
        Ok(was) => Some(Reply::Weight(*was)),
        Err(r) => refused(r.cause),
    }
}

/// What is noted of an `insert_tail`.
pub fn inserted<D>(answer: &Result<bool, Refused<D>>) -> Option<Reply>
    ensures { result ≡ inserted answer.now }
{
    match answer {
        Ok(added) => Some(Reply::Flag(*added)),
        Err(r) => refused(r.cause),
    }
}

/// The weight that an `increment_weight` left.
pub fn new_weight(answer: Result<(usize, usize, bool), Cause>) -> Result<usize, Cause>
    ensures { result ≡ new_weight answer }
{
    match answer {
        Ok((_, weight, _)) => Ok(weight),
        Err(cause) => Err(cause),
    }
}

/// What is noted of an `increment_weight`.
pub fn incremented(answer: Result<usize, Cause>) -> Option<Reply>
    ensures { result ≡ incremented answer }
{
    match answer {
        Ok(weight) => Some(Reply::Weight(weight)),
        Err(cause) => refused(cause),
    }
}

/// What is noted of a `set_weight`.
pub fn set(answer: Result<Option<usize>, Cause>) -> Option<Reply>
    ensures { result ≡ set answer }
{
    match answer {
        Ok(was) => Some(weighed(was)),
        Err(cause) => refused(cause),
    }
}
