//! Which calls of the system are made, in which order.
use crate::failing_calls::{load, save};
use crate::script::Script;
use lru_folder::folder::Folder;
use lru_folder::listed::Listed;
use lru_host_folder::host_folder::SystemFolder;
use std::io::ErrorKind;
use std::test::Fail;

const SAVED: &str = "make a
sync folder .
make a/b
sync folder a
is folder a/b
open a/b
lock
create a/b/t
is file a/b/t
open a/b/t
lock
is at a/b/t
remove a/b/t
close
create a/b/t
lock
is at a/b/t
write
flush
sync
rename a/b/t
sync folder a/b
close
sync folder a/b
close
";

fn are_listed(listed: &[Listed]) -> bool {
    matches!(
        listed,
        [Listed::Name(a), Listed::Name(b), Listed::Name(c), Listed::Unreadable]
            if a.as_str() == "a" && b.as_str() == "b" && c.as_str() == "c"
    )
}

#[test]
fn a_save_asks_for_so_much(rt: HostRuntime) -> Result<(), Fail> {
    let script = Script::new(rt.alloc(), 1000, ErrorKind::Other, true);
    let mut folder = SystemFolder::over(script);
    assert!(rt; save(&mut folder).is_ok());
    assert_eq!(rt; folder.system().told(), SAVED);
    let listed = load(&mut folder)?;
    assert!(rt; are_listed(&listed));
    Ok(())
}

#[test]
fn a_read_that_is_interrupted_is_made_again(rt: HostRuntime) -> Result<(), Fail> {
    let script = Script::new(rt.alloc(), 3, ErrorKind::Interrupted, false);
    let mut folder = SystemFolder::over(script);
    folder.open("f")?;
    assert_eq!(rt; folder.read(3)?.as_slice(), b"xxx".as_slice());
    assert_eq!(rt;
        folder.system().told(),
        "is file f\nopen f\nlen\nread\nread\n"
    );
    Ok(())
}
