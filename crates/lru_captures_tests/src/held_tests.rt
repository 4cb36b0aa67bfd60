//! A save that is held holds up no call: each shard is copied before it is written, and no lock is held meanwhile.
ghost use Rattle.std.specs.Prelude.{◌≤◌};
ghost use Rattle.lru_generations.specs.Checkpoints.{most_shards};

use lru_folder::folder::Folder;
use lru_frames::frame::Header;
use lru_frames::mark::Mark;
use lru_frames::row::Row;
use lru_frames::source::Source;
use lru_frames::stored::Stored;
use lru_generations::errors::CheckpointError;
use lru_generations::generations::save;
use lru_generations::newest_loading::{Loaded, load};
use lru_memory_folder::memory_folder::MemoryFolder;
use lru_order_checkpoints::shared_captures::LruSource;
use lru_shared_order::lru::Lru;
use std::alloc::{AllocError, Global};
use std::sync::Wait;
use std::sync::atomic::{AtomicBool, Ordering};
use std::test::Fail;
use std::thread;
use std::thread::Threads;

// Whether a flag is raised soon.
fn is_raised(flag: &AtomicBool) -> bool {
    for _ in 0..1_000_000u32 {
        if flag.load(Ordering::SeqCst) {
            return true;
        }
        thread::yield_now();
    }
    false
}

// A source that holds the save once the first shard is copied, until calls on both shards are done.
#[derive(Drop)]
struct Held<'a, S> {
    inner: S,
    captured: &'a AtomicBool,
    called: &'a AtomicBool,
}

impl<'a, K: Stored, V: Stored, S: Source<K, V>> Source<K, V> for Held<'a, S> {
    ghost count = { λ held. S.count held.inner };

    ghost hands_out = { λ held shard rows. S.hands_out held.inner shard rows };

    fn shards(&self) -> usize {
        self.inner.shards()
    }

    fn frame(&self, alloc: Global, header: Header) -> Result<(Vec<u8>, Mark), AllocError> {
        let copied = self.inner.frame(alloc, header)?;
        if header.shard == 0 {
            self.captured.store(true, Ordering::SeqCst);
            let _ = is_raised(self.called);
        }
        Ok(copied)
    }
}

// Whether a shard has one row, which is this key's with this number.
fn has_row(rows: &[Row<u64, u64>], key: u64, number: u64) -> bool {
    match rows {
        [row] => (row.key == key) & (row.data == number),
        _ => false,
    }
}

// Saves while calls are made. Whether the first shard is loaded as it stood before them, and the second, which was copied
// later, as it stood after them.
fn saves_while_called<S: Source<u64, u64>>(
    alloc: Global,
    source: &S,
) -> Result<bool, CheckpointError>
    requires { S.count source.now ≤ most_shards }
{
    let mut folder = MemoryFolder::new(alloc);
    if folder.make("d").is_err() {
        return Ok(false);
    }
    save(alloc, &mut folder, "d", "c", source)?;
    let Loaded { newest, .. } = load(alloc, &mut folder, "d", "c")?;
    let Some(checkpoint) = newest else {
        return Ok(false);
    };
    match checkpoint.shards.as_slice() {
        [first, second] => Ok(has_row(first, 0, 7) & has_row(second, 3, 8)),
        _ => Ok(false),
    }
}

// Calls on both shards while the save is held. Whether it was, and they were answered.
fn calls<R: Wait>(
    rt: &R,
    lru: &Lru<(u64, u64), 2>,
    captured: &AtomicBool,
    called: &AtomicBool,
) -> bool {
    let is_held = is_raised(captured);
    let is_admitted = lru.admit(rt, 2, (2, 8), 1).is_ok() & lru.admit(rt, 3, (3, 8), 1).is_ok();
    let is_gone = lru.remove(rt, 0).is_some() & lru.remove(rt, 1).is_some();
    called.store(true, Ordering::SeqCst);
    is_held & is_admitted & is_gone
}

fn goes_on<R: Threads + Wait + Sync>(rt: &R, alloc: Global) -> Result<bool, Fail> {
    let lru: Lru<(u64, u64), 2> = Lru::with_capacity(alloc, 100, 4)?;
    let is_put = lru.admit(rt, 0, (0, 7), 1).is_ok() & lru.admit(rt, 1, (1, 7), 1).is_ok();
    let (first, second) = (AtomicBool::new(false), AtomicBool::new(false));
    let (captured, called, shared) = (&first, &second, &lru);
    let (saved, called) = thread::join(
        rt,
        move || {
            let inner = LruSource { rt, lru: shared };
            let held = Held {
                inner,
                captured,
                called,
            };
            saves_while_called(alloc, &held).is_ok_and(|is_saved| is_saved)
        },
        move || calls(rt, shared, captured, called),
    );
    Ok(is_put & saved & called)
}

#[test]
fn a_held_save_holds_up_no_call(rt: HostRuntime) -> Result<(), Fail> {
    let is_right = goes_on(&rt, rt.alloc())?;
    assert!(rt; is_right);
    Ok(())
}
