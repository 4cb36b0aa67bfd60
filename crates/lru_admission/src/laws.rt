//! Who is let in, after any uses.
ghost use Rattle.lru_admission.specs.Laws.{NeverTurnedAway};

use crate::sketch_laws::estimates_law;

/// The contract of this function, which does nothing, is about every list of uses from the first on, however many halvings
/// were among them: a key that was used more often since the last halving, counted up to 15, than each entry that would have
/// to go is estimated, is let in.
pub fn admission_law<K, V>()
    ensures { NeverTurnedAway K V }
{
    estimates_law();
}
