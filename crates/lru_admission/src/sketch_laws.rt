//! What estimates tell, after any uses.
ghost use Rattle.lru_admission.specs.SketchLaws.{NeverTooLow, NeverSinks, HalvesEstimates};

/// The contract of this function, which does nothing, is about every sketch.
///
/// After any uses from the first on, however many halvings were among them, the estimate of a hash is at least as many as
/// there were of it since the last halving, up to 15. A use raises its own hash's estimate by one, up to 15, and lets
/// no other sink. A halving halves each estimate, rounded down.
pub fn estimates_law()
    ensures counted { NeverTooLow }
    ensures used { NeverSinks }
    ensures halved { HalvesEstimates }
{}
