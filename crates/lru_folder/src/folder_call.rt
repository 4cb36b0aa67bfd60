//! The calls of a folder, by name.

/// A call of a folder.
#[derive(Clone, Copy, Debug, PartialEq, Eq)]
pub enum FolderCall {
    Make,
    Create,
    Write,
    Flush,
    Sync,
    Rename,
    Open,
    Read,
    List,
    Remove,
    Claim,
}
