//! Checkpoints loaded, to show their rows or to tell whether they are whole.
ghost use Rattle.std.specs.Prelude.{◌≡◌, ◌↔◌, false};
ghost use Rattle.lru_folder.specs.Names.{has_slash};
ghost use Rattle.checkpoint_tool_inside.specs.Outcomes.{ComesOfShow, ComesOfShowBefore, ComesOfCheck};

use crate::before::load_before;
use crate::outcome::Outcome;
use lru_folder::folder::Folder;
use lru_generations::generation_checks::check_all;
use lru_generations::newest_loading::load;
use std::alloc::Global;

/// Loads the newest checkpoint, whole, or tells that there is none. All files are as they were.
pub fn show<F: Folder>(alloc: Global, folder: &mut F, dir: &str, file_name: &str) -> Outcome
    requires { has_slash file_name.now ≡ false }
    ensures outcome { F.meaning.keeps folder.old → ComesOfShow F.meaning dir.now file_name.now folder.old folder.new result }
    ensures files { F.meaning.keeps folder.old → F.meaning.files folder.new ≡ F.meaning.files folder.old }
    ensures kept { F.meaning.keeps folder.old ↔ F.meaning.keeps folder.new }
{
    match load(alloc, folder, dir, file_name) {
        Err(error) => Outcome::Refused(error),
        Ok(loaded) => Outcome::Shown(loaded),
    }
}

/// Loads the newest checkpoint below that one, whole, or tells that there is none. All files are as they were.
pub fn show_before<F: Folder>(alloc: Global, folder: &mut F, dir: &str, file_name: &str) -> Outcome
    requires { has_slash file_name.now ≡ false }
    ensures outcome { F.meaning.keeps folder.old → ComesOfShowBefore F.meaning dir.now file_name.now folder.old folder.new result }
    ensures files { F.meaning.keeps folder.old → F.meaning.files folder.new ≡ F.meaning.files folder.old }
    ensures kept { F.meaning.keeps folder.old ↔ F.meaning.keeps folder.new }
{
    match load_before(alloc, folder, dir, file_name) {
        Err(error) => Outcome::Refused(error),
        Ok(loaded) => Outcome::Shown(loaded),
    }
}

/// Tells of each generation whether it is whole. All files are as they were.
pub fn check<F: Folder>(alloc: Global, folder: &mut F, dir: &str, file_name: &str) -> Outcome
    requires { has_slash file_name.now ≡ false }
    ensures outcome { F.meaning.keeps folder.old → ComesOfCheck F.meaning dir.now file_name.now folder.old folder.new result }
    ensures files { F.meaning.keeps folder.old → F.meaning.files folder.new ≡ F.meaning.files folder.old }
    ensures kept { F.meaning.keeps folder.old ↔ F.meaning.keeps folder.new }
{
    match check_all(alloc, folder, dir, file_name) {
        Err(error) => Outcome::Refused(error),
        Ok(told) => Outcome::Checked(told),
    }
}
