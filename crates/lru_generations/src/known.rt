//! A checkpoint that is known to be whole.
ghost use Rattle.std.specs.Prelude.{◌≡◌, option_copied};

use crate::manifest::Manifest;
use std::marker::Model;

/// A checkpoint that was whole when a load or a save of this process had it: what its manifest told then.
///
/// It tells a later save what that need not read again. Only a load and a save make one.
#[derive(Debug, Drop)]
pub struct Known {
    manifest: Manifest,
}

impl Model for Known {
    ghost use Rattle.lru_generations.specs.declared.manifest.Manifest.{Manifest};

    ghost Value = { Manifest };

    ghost view = { λ known. known.manifest };
}

impl Known {
    // What this manifest tells.
    pub(crate) fn new(manifest: Manifest) -> Self
        ensures { result ≡ manifest }
    {
        Known { manifest }
    }
}

// The manifest of what is known, if anything is.
pub(crate) fn manifest_of(known: Option<&Known>) -> Option<&Manifest>
    ensures { option_copied result ≡ option_copied known.entry }
{
    match known {
        None => None,
        Some(known) => Some(&known.manifest),
    }
}
