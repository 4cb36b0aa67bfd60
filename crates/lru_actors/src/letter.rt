//! A message with its cell.
ghost use Rattle.std.specs.Prelude.{◌≡◌, Some, None};

use crate::message::LruMsg;
use crate::reply_cell::ReplyCell;
use std::alloc::Global;
use std::sync::Arc;

/// A message for an actor, and where it asks for something the cell for what it is told. Who sends it makes the cell.
#[derive(Drop)]
pub struct Letter<K: Drop, T: Drop> {
    /// The message.
    pub message: LruMsg<K>,
    /// The cell for what it is told.
    pub cell: Option<Arc<ReplyCell<T>, Global>>,
}

impl<K: Drop, T: Drop> Letter<K, T> {
    /// A message that asks for nothing.
    pub fn new(message: LruMsg<K>) -> Self
        ensures { (result.message ≡ message) × (result.cell ≡ None) }
    {
        Letter {
            message,
            cell: None,
        }
    }

    /// A message that is to be told in this cell what it asks for.
    pub fn asking(message: LruMsg<K>, cell: Arc<ReplyCell<T>, Global>) -> Self
        ensures { (result.message ≡ message) × (result.cell ≡ Some cell) }
    {
        Letter {
            message,
            cell: Some(cell),
        }
    }
}
