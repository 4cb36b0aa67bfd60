//! What an answer tells where no message was refused.
ghost use Rattle.lru_inbox.specs.Replies.{WeightsAreExact, RepliesAreExact};

/// Of messages none of which was refused, a look tells the weight, and a reply tells of the rows, that all of them leave.
///
/// It does nothing: its contract is this.
pub fn exact_law<K: Clone>()
    ensures weights { WeightsAreExact K }
    ensures replies { RepliesAreExact K.is_clone }
{}
