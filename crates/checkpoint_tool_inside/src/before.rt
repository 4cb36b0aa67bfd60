//! The checkpoint below the newest one.
ghost use Rattle.std.specs.Prelude.{◌≡◌, ◌↔◌, false, IfErr, IfOk};
ghost use Rattle.lru_folder.specs.Names.{has_slash};
ghost use Rattle.checkpoint_tool_inside.specs.Outcomes.{IsShownBefore, IsUnread};

use lru_folder::folder::Folder;
use lru_generations::errors::CheckpointError;
use lru_generations::newest_loading::{Loaded, load, load_below};
use std::alloc::Global;

// Loads the newest checkpoint below the newest one, or none where there is none, and the generations between them that were
// passed over. Where there is no newest one, the generations are all that have a manifest. All files are as they were.
pub(crate) fn load_before<F: Folder>(
    alloc: Global,
    folder: &mut F,
    dir: &str,
    file_name: &str,
) -> Result<Loaded<u64, u64>, CheckpointError>
    requires { has_slash file_name.now ≡ false }
    ensures shown { F.meaning.keeps folder.old → IfOk result (IsShownBefore F.meaning dir.now file_name.now folder.old folder.new) }
    ensures unread { F.meaning.keeps folder.old → IfErr result (IsUnread F.meaning dir.now file_name.now folder.old folder.new) }
    ensures files { F.meaning.keeps folder.old → F.meaning.files folder.new ≡ F.meaning.files folder.old }
    ensures kept { F.meaning.keeps folder.old ↔ F.meaning.keeps folder.new }
{
    let loaded = load(alloc, folder, dir, file_name)?;
    let newest = match &loaded.newest {
        None => return Ok(loaded),
        Some(newest) => newest.generation,
    };
    load_below(alloc, folder, dir, file_name, Some(newest))
}
