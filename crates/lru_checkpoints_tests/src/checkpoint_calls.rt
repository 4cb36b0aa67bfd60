//! Which calls of the system a save of a checkpoint makes, in which order.
use crate::script::Script;
use lru_frames::row::Row;
use lru_generations::generations::save;
use lru_host_folder::host_folder::SystemFolder;
use std::io::ErrorKind;
use std::test::Fail;

// Of one shard, in a folder without a checkpoint. The name of the frame is synced before the manifest gets its own.
const SAVED: &str = "is folder a
open a
lock
list a
sync folder a
create a/f.0.0
lock
is at a/f.0.0
write
flush
sync
sync folder a
close
create a/f.0.manifest.tmp
lock
is at a/f.0.manifest.tmp
write
flush
sync
rename a/f.0.manifest.tmp
sync folder a
close
sync folder a
close
";

#[test]
fn names_are_synced_before_the_manifest_has_its_own(rt: HostRuntime) -> Result<(), Fail> {
    let alloc = rt.alloc();
    let rows: Vec<Row<u64, u64>> = Vec::new(alloc);
    let mut folder = SystemFolder::over(Script::new(alloc, 1000, ErrorKind::Other, false));
    let is_saved = save(alloc, &mut folder, "a", "f", &[rows].as_slice()).is_ok();
    assert!(rt; is_saved);
    assert_eq!(rt; folder.system().told(), SAVED);
    Ok(())
}
