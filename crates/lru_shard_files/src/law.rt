//! The law of crashes.
ghost use Rattle.lru_shard_files.specs.Crashes.{ComesBack, ComesBackFromLoss, LoadBefore, SaveThenLoad};

use lru_folder::folder::Folder;

/// A core is saved into a folder. A stop or a loss of power at any moment since the save began leaves something of it, and
/// a core without rows loads its shards from a folder that holds just that. Then each shard has the rows that its file told
/// in the old folder, which is one for all shards, or those that were saved. If it has none and should have some, the report
/// names it: memory was refused, the device failed, or its old file could not be loaded.
///
/// The same holds where the save came after a load, and the stop or the loss at any moment since that load began.
///
/// It does nothing: its contract is the law.
pub fn crash_law<F: Folder, const N: usize>()
    ensures stop { (run : SaveThenLoad F.meaning N) → F.meaning.stopped_since run.new (F.meaning.clock run.old) (F.meaning.files run.found)
        → ComesBack run (F.meaning.files run.old) }
    ensures loss { (run : SaveThenLoad F.meaning N) → F.meaning.lost_since run.new (F.meaning.clock run.old) (F.meaning.files run.found)
        → ComesBackFromLoss run run.old }

    ensures stop_since_load { (run : SaveThenLoad F.meaning N) → (first : LoadBefore run) → F.meaning.stopped_since run.new (F.meaning.clock first.begun) (F.meaning.files run.found)
        → ComesBack run (F.meaning.files first.begun) }
    ensures loss_since_load { (run : SaveThenLoad F.meaning N) → (first : LoadBefore run) → F.meaning.lost_since run.new (F.meaning.clock first.begun) (F.meaning.files run.found)
        → ComesBackFromLoss run first.begun }
{}
