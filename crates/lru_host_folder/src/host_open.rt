//! The open file of a folder of the operating system, with its path.
ghost use Rattle.std.specs.Prelude.{◌≡◌};

#[derive(Drop)]
pub(crate) enum HostOpen<T> {
    Closed,
    Writing(T, String),
    Reading(T, String),
}

/// Closes the file.
pub(crate) fn shut<T: Drop>(file: &mut HostOpen<T>)
    ensures { file.new ≡ HostOpen.Closed }
{
    *file = HostOpen::Closed;
}
