//! The cell in which a reply is given.
ghost use Rattle.std.specs.Prelude.{◌≡◌, IfOk, IfErr};
ghost use Rattle.std.specs.Arc.{arc_value};
ghost use Rattle.lru_async.specs.declared.refusals.SendRefused.TheVariants.{Memory};

use crate::refusals::SendRefused;
use lru_actors::ReplyCell;
use std::alloc::{AllocError, Global};
use std::sync::Arc;

/// A cell for two: for who waits, and for who fills it.
pub fn cell_and_clone<T: Drop>(
    alloc: Global,
) -> Result<(Arc<ReplyCell<T>, Global>, Arc<ReplyCell<T>, Global>), AllocError>
    ensures { IfOk result (λ cells. arc_value cells.0 ≡ arc_value cells.1) }
{
    let Ok(cell) = Arc::new(alloc, ReplyCell::new()) else {
        return Err(AllocError);
    };
    let clone = Arc::try_clone(&cell)?;
    Ok((cell, clone))
}

/// The cell of a question, for two. It is refused for want of memory alone.
pub fn cell_of_question<T: Drop>(
    alloc: Global,
) -> Result<(Arc<ReplyCell<T>, Global>, Arc<ReplyCell<T>, Global>), SendRefused<()>>
    ensures cells { IfOk result (λ cells. arc_value cells.0 ≡ arc_value cells.1) }
    ensures refused { IfErr result (λ r. r ≡ Memory tt) }
{
    match cell_and_clone(alloc) {
        Ok(cells) => Ok(cells),
        Err(_) => Err(SendRefused::Memory(())),
    }
}
