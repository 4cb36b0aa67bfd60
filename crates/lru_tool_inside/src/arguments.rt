//! The words that the program is called with.
ghost use Rattle.std.specs.Prelude.{◌≡◌, [], drop, IfOk, MatchResult};
ghost use Rattle.std.specs.Vec.Iter.{into_iter_items};

use std::alloc::{AllocError, Global};
use std::env::Args;
use std::io;
use std::io::ErrorKind;

// The words behind the first one.
fn behind_first(alloc: Global, arguments: Args) -> Result<Vec<String>, AllocError>
    ensures { IfOk result (λ words. words.items ≡ drop 1 (into_iter_items arguments)) }
{
    let mut rest = arguments;
    let _program = rest.next();
    let mut words = Vec::new(alloc);
    'rest: while let Some(word) = rest.next() {
        words.push(word)?;
    }
    Ok(words)
}

/// The words after the program's name, of its arguments. A word that is not UTF-8 leaves none at all, which are then too few; an
/// error is want of memory.
pub fn words_of(alloc: Global, arguments: io::Result<Args>) -> Result<Vec<String>, AllocError>
    ensures { IfOk result (λ words. MatchResult arguments (λ arguments. words.items ≡ drop 1 (into_iter_items arguments)) (λ _. words.items ≡ [])) }
{
    match arguments {
        Ok(arguments) => behind_first(alloc, arguments),
        Err(error) => match error.kind() {
            ErrorKind::OutOfMemory => Err(AllocError),
            _ => Ok(Vec::new(alloc)),
        },
    }
}
