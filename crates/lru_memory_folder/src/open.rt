//! The open file of a folder in memory.
ghost use Rattle.std.specs.Prelude.{◌≡◌};

#[derive(Drop)]
pub(crate) enum Open {
    Closed,
    Writing(String),
    /// The path, and how many of its bytes were read.
    Reading(String, usize),
}

/// Takes another file in place of the open one, which is closed.
pub(crate) fn set(file: &mut Open, other: Open)
    ensures { file.new ≡ other }
{
    *file = other;
}

/// Closes the file.
pub(crate) fn shut(file: &mut Open)
    ensures { file.new ≡ Open.Closed }
{
    *file = Open::Closed;
}
