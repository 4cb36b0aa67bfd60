//! Why a message was not sent, and why nothing was built.
ghost use Rattle.std.specs.Prelude.{◌≡◌};
ghost use Rattle.lru_async.specs.Refusals.{number_of, number_of_build, SameCause};

use std::error::Error;
use std::fmt;
use std::fmt::Display;

/// Why a message was not sent, or not answered. It hands back what was given by value.
#[derive(Debug, Drop)]
pub enum SendRefused<T> {
    /// Number 1: there was no memory for the message, or for its reply.
    Memory(T),
    /// Number 2: after a shutdown no message is taken.
    Closed(T),
}

impl<T> Display for SendRefused<T> {
    ghost use Rattle.std.specs.Prelude.{Some};
    ghost use Rattle.lru_async.specs.Refusals.{text_of};

    ghost output = { λ refused. Some (text_of refused) };

    fn fmt<W: fmt::Write>(&self, f: &mut fmt::Formatter<W>) -> fmt::Result {
        match self {
            SendRefused::Memory(_) => f.write_str("out of memory"),
            SendRefused::Closed(_) => f.write_str("closed"),
        }
    }
}

impl<T> SendRefused<T> {
    /// The number of this refusal.
    pub fn number(&self) -> u8
        ensures { result ≡ number_of self.now }
    {
        match self {
            SendRefused::Memory(_) => 1,
            SendRefused::Closed(_) => 2,
        }
    }
}

impl<T: Drop> SendRefused<T> {
    /// The same refusal, of a call that was given nothing by value.
    pub fn bare(self) -> SendRefused<()>
        ensures { SameCause self result }
    {
        match self {
            SendRefused::Memory(_) => SendRefused::Memory(()),
            SendRefused::Closed(_) => SendRefused::Closed(()),
        }
    }
}

/// Why nothing was built. Threads that were started are told to stop, and have ended their work.
#[derive(Clone, Copy, Debug, PartialEq, Eq)]
pub enum BuildError {
    /// Number 1: there was no memory.
    Memory,
    /// Number 2: the system gave no thread.
    Thread,
    /// Number 3: nobody would call the callback.
    NoCallbackWorkers,
}

impl Display for BuildError {
    ghost use Rattle.std.specs.Prelude.{Some};
    ghost use Rattle.lru_async.specs.Refusals.{text_of_build};

    ghost output = { λ error. Some (text_of_build error) };

    fn fmt<W: fmt::Write>(&self, f: &mut fmt::Formatter<W>) -> fmt::Result {
        match self {
            BuildError::Memory => f.write_str("out of memory"),
            BuildError::Thread => f.write_str("no thread"),
            BuildError::NoCallbackWorkers => f.write_str("no callback workers"),
        }
    }
}

impl Error for BuildError {}

impl BuildError {
    /// The number of this refusal.
    pub fn number(&self) -> u8
        ensures { result ≡ number_of_build self.now }
    {
        match self {
            BuildError::Memory => 1,
            BuildError::Thread => 2,
            BuildError::NoCallbackWorkers => 3,
        }
    }
}

impl From<std::alloc::AllocError> for BuildError {
    ghost use Rattle.lru_async.specs.declared.refusals.BuildError.TheVariants.{Memory};

    ghost from_gives = { λ _ error. error ≡ Memory };

    fn from(_refused: std::alloc::AllocError) -> Self {
        Self::Memory
    }
}
