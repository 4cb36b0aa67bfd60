//! Cores, and what is shown of them.
ghost use Rattle.std.specs.Prelude.{◌<◌};

use pingora_lru::lru_core::LruCore;
use pingora_lru_files::snapshot::Keyed;
use std::alloc::{AllocError, Global};
use std::io;
use std::io::Write;

/// The first four rows of a shard: keys, values and weights.
pub type Rows = [(u64, u64, usize); 4];

pub fn rows_of<const N: usize>(core: &LruCore<Keyed, N>, shard: usize) -> Rows
    requires { shard < N }
{
    let mut rows = [(u64::MAX, 0, 0); 4];
    let mut slots = rows.iter_mut();
    for (data, weight) in core.iter_shard(shard) {
        if let Some(slot) = slots.next() {
            *slot = (data.key, data.value, weight);
        }
    }
    rows
}

/// A core without rows, at the second try where the first one found no memory.
pub fn empty<const N: usize>(alloc: Global) -> Result<LruCore<Keyed, N>, AllocError>
    requires { 0 < N }
{
    match LruCore::with_capacity(alloc, 100, 0) {
        Ok(core) => Ok(core),
        Err(_) => LruCore::with_capacity(alloc, 100, 0),
    }
}

/// A core with the rows that the bytes of the two shards tell.
pub fn filled(alloc: Global) -> Result<LruCore<Keyed, 2>, AllocError> {
    let mut core = empty::<2>(alloc)?;
    for (key, value, weight) in [(4, 40, 1), (2, 20, 3), (7, 70, 2)] {
        let data = Keyed { key, value };
        if core.insert_tail(key, data, weight).is_err()
            && core.insert_tail(key, data, weight).is_err()
        {
            return Err(AllocError);
        }
    }
    Ok(core)
}

/// Whether each shard of the first core is empty, or has the rows of the second.
pub fn is_part<const N: usize>(part: &LruCore<Keyed, N>, whole: &LruCore<Keyed, N>) -> bool {
    for shard in 0..N {
        if part.shard_len(shard) > 0 && rows_of(part, shard) != rows_of(whole, shard) {
            return false;
        }
    }
    true
}

pub fn write_rows<W: Write, const N: usize>(
    core: &LruCore<Keyed, N>,
    writer: &mut W,
) -> io::Result<()> {
    for shard in 0..N {
        let rows = rows_of(core, shard);
        let rows = &rows[..core.shard_len(shard).min(4)];
        writeln!(writer, "shard {shard}: {rows:?}")?;
    }
    Ok(())
}
