//! What a folder lists.

/// A file of a folder.
#[derive(Debug, Drop)]
pub enum Listed {
    /// The file's name.
    Name(String),
    /// A name that is no UTF-8.
    Unreadable,
}
