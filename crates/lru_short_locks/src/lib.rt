//! What threads share, whatever it is that they share. Locks for short calls: who finds one taken tries again a few times
//! before it waits. A call on a shard is over long before a thread that fell asleep would be awake again, and who waits for
//! the lock in turn holds up all who come after. What lies behind a lock is known by its type alone.
//!
//! Beside the locks stand the words and the lemmas on hands, with no code. Each token of a table speaks for one hand, and
//! the table's law is about all of them: so the laws of receipts (`lru_recording`), of slips (`lru_boxes`) and of logs
//! (`lru_inbox`) are laws on lists of hands.
//!
//! It stands on the locks of std, and on the tables of `atomic_table`.
#![tactic(auto)]

mod short_lock;
mod short_mutex;

pub use short_lock::ShortLock;
pub use short_mutex::ShortMutex;
use std::hint;

// How often a lock is tried before the thread waits for it: for about as long as it takes to put a thread to sleep and to wake it.
const TRIES: u32 = 64;

// How many hints to the processor that the thread spins stand between two tries.
const SPINS: u32 = 8;

// Lets some time pass, and tells the processor that this thread does nothing but wait.
fn spin() {
    for _ in 0..SPINS {
        hint::spin_loop();
    }
}
