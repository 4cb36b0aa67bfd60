//! What the calls keep of a box and its shares.
ghost use Rattle.lru_mailbox.specs.Ledger.{PutsKeepTies, TakesKeepTies, EndsKeepTies};

/// The shares of a box are tied to it by what they have: what was put is told in one of them, what was taken in
/// another, and the rest waits or is lost in the box. The contract of this function, which does nothing, is that
/// each call on a box and one of its shares keeps this, for any number of shares; so `settle` may be called at
/// any time with all of them.
pub fn ties_law<K>()
    ensures puts { PutsKeepTies K }
    ensures takes { TakesKeepTies K }
    ensures ends { EndsKeepTies K }
{}
