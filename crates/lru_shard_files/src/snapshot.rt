//! The rows of a shard as bytes: 24 bytes for each row, most recent first.
ghost use Rattle.std.specs.Prelude.{◌≡◌, ◌<◌, ◌≤◌, ◌+◌, ◌++◌, ◌↔◌, ◌^◌, ℕ, List, IfOk, OnOk, IsTrue, map, length};
ghost use Rattle.pingora_lru.specs.Core.{list_at, with_list, IsCore};
ghost use Rattle.pingora_lru.specs.Limits.{cap_of};
ghost use Rattle.pingora_lru.specs.Row.{Row, pair_of};
ghost use Rattle.lru_shard_files.specs.declared.snapshot.Keyed.{Keyed};
ghost use Rattle.lru_shard_files.specs.Snapshot.{bytes_of, pair_bytes, pairs_of, pair_in, number_at};
ghost use Rattle.lru_shard_files.specs.SnapshotLoads.{row_of_pair, rows_of, TellTheirKeys, AreHome, Joins, limit_passed, PutsLast, Loads};
ghost use Rattle.lru_shard_files.specs.declared.snapshot.LoadError.TheVariants as unloaded;
ghost use Rattle.lru_shard.specs.declared.unit.Cause.TheVariants.{Memory};

mod cores;

/// Each shard of a core saved into its file, and loaded from it.
pub use cores::{load_core, save_and_load, save_core};
use pingora_lru::linked_list::MOST_ITEMS;
use pingora_lru::lru_core::LruCore;
use pingora_lru::unit::Cause;
use std::alloc::{AllocError, Global};
use std::collections::HashSet;
use std::error::Error;
use std::fmt;
use std::fmt::Display;

/// A value that knows its key.
#[derive(Clone, Copy, Debug, PartialEq, Eq)]
pub struct Keyed {
    /// The key of the row.
    pub key: u64,
    /// What the row is for.
    pub value: u64,
}

/// Why the bytes of a shard were not loaded.
#[derive(Clone, Copy, Debug, PartialEq, Eq)]
pub enum LoadError {
    /// The bytes are no whole number of rows, or they have a row whose key is of another shard,
    /// stands twice, or is held already.
    Damaged,
    /// The shard may not have these rows too: it would pass the most rows or the greatest weight
    /// that it may have, or no memory was found.
    Unit(Cause),
}

impl Display for LoadError {
    ghost use Rattle.std.specs.Prelude.{Some};
    ghost use Rattle.lru_shard_files.specs.SnapshotTexts.{load_error_text};

    ghost output = { λ error. Some (load_error_text error) };

    fn fmt<W: fmt::Write>(&self, f: &mut fmt::Formatter<W>) -> fmt::Result {
        match self {
            LoadError::Damaged => f.write_str("damaged"),
            LoadError::Unit(Cause::Memory) => f.write_str("refused memory"),
            LoadError::Unit(Cause::Weight) => f.write_str("refused weight"),
            LoadError::Unit(Cause::Length) => f.write_str("refused length"),
        }
    }
}

impl Error for LoadError {}

impl From<AllocError> for LoadError {
    ghost from_gives = { λ _ error. error ≡ unloaded.Unit Memory };

    fn from(_: AllocError) -> Self {
        LoadError::Unit(Cause::Memory)
    }
}

// Puts the bytes of a row last, all at once.
fn put_row(bytes: &mut Vec<u8>, keyed: Keyed, weight: usize) -> Result<(), AllocError>
    ensures put { OnOk result (bytes.new.items ≡ bytes.old.items ++ pair_bytes (keyed, weight)) }
    ensures narrow { (keyed.key < 2 ^ 64) × (keyed.value < 2 ^ 64) × (weight < 2 ^ 64) }
{
    let row = [
        keyed.key.to_le_bytes(),
        keyed.value.to_le_bytes(),
        weight.to_le_bytes(),
    ];
    bytes.extend_from_slice(row.as_flattened())?;
    Ok(())
}

/// The bytes of a shard: key, value and weight of each row, most recent first, each as 8 bytes,
/// the lowest first. The key is the one that the data tell; where it is each row's own, the bytes
/// tell the rows of the shard again.
pub fn shard_bytes<const N: usize>(
    alloc: Global,
    core: &LruCore<Keyed, N>,
    shard: usize,
) -> Result<Vec<u8>, AllocError>
    requires { shard < N }
    ensures bytes { IfOk result (λ bytes. bytes.items ≡ bytes_of (map pair_of (list_at core.now shard))) }
    ensures back { IfOk result (λ bytes. pairs_of bytes.items ≡ map pair_of (list_at core.now shard)) }
    ensures rows { IfOk result (λ bytes. TellTheirKeys (list_at core.now shard) → rows_of bytes.items ≡ list_at core.now shard) }
{
    let mut bytes = Vec::with_capacity(alloc, core.shard_len(shard).saturating_mul(24))?;
    let mut rest = core.iter_shard(shard);
    while let Some((data, weight)) = rest.next() {
        put_row(&mut bytes, *data, weight)?;
    }
    Ok(bytes)
}

// The number in 8 bytes, from a place on.
fn number_at(bytes: &[u8; 24], place: usize) -> u64
    requires { place + 8 ≤ 24 }
    ensures { result ≡ number_at place bytes.now }
{
    u64::from_le_bytes([
        bytes[place],
        bytes[place + 1],
        bytes[place + 2],
        bytes[place + 3],
        bytes[place + 4],
        bytes[place + 5],
        bytes[place + 6],
        bytes[place + 7],
    ])
}

// The data and the weight of a row.
fn pair_in(bytes: &[u8; 24]) -> (Keyed, usize)
    ensures { result ≡ pair_in bytes.now }
{
    let key = number_at(bytes, 0);
    let value = number_at(bytes, 8);
    (Keyed { key, value }, number_at(bytes, 16) as usize)
}

// The data and the weight of each row.
fn pairs_in(alloc: Global, records: &[[u8; 24]]) -> Result<Vec<(Keyed, usize)>, AllocError>
    ensures { IfOk result (λ pairs. pairs.items ≡ map pair_in records.now) }
{
    let mut pairs = Vec::with_capacity(alloc, records.len())?;
    for record in records {
        pairs.push(pair_in(record))?;
    }
    Ok(pairs)
}

// Whether each key is of this shard.
fn are_home<const N: usize>(
    core: &LruCore<Keyed, N>,
    shard: usize,
    pairs: &[(Keyed, usize)],
) -> bool
    ensures answer { IsTrue result ↔ AreHome core.now shard (map row_of_pair pairs.now) }
    ensures valid { IsCore N core.now }
{
    let shards = core.shards() as u64;
    for (data, _) in pairs {
        if data.key % shards != shard as u64 {
            return false;
        }
    }
    true
}

// Whether no key of these, which are all of this shard, stands twice or is held already.
fn are_new<const N: usize>(
    alloc: Global,
    core: &LruCore<Keyed, N>,
    shard: usize,
    pairs: &[(Keyed, usize)],
) -> Result<bool, AllocError>
    requires valid { IsCore N core.now }
    requires shard { shard < N }
    requires homes { AreHome core.now shard (map row_of_pair pairs.now) }
    ensures { IfOk result (λ yes. IsTrue yes ↔ Joins core.now shard (map row_of_pair pairs.now)) }
{
    let mut seen: HashSet<u64> = HashSet::with_capacity(alloc, pairs.len())?;
    for (data, _) in pairs {
        let key = data.key;
        if core.peek(key) {
            return Ok(false);
        }
        if !seen.insert(key)? {
            return Ok(false);
        }
    }
    Ok(true)
}

// The limit that the shard would pass with these rows too.
fn limit_passed<const N: usize>(
    core: &LruCore<Keyed, N>,
    shard: usize,
    pairs: &[(Keyed, usize)],
) -> Option<Cause>
    requires { shard < N }
    ensures { result ≡ limit_passed (cap_of N) (list_at core.now shard ++ map row_of_pair pairs.now) }
{
    let cap = usize::MAX / core.shards();
    let free_rows = cap.min(MOST_ITEMS) - core.shard_len(shard);
    if free_rows < pairs.len() {
        return Some(Cause::Length);
    }
    let mut free_weight = cap - core.shard_weight(shard);
    for (_, weight) in pairs {
        if free_weight < *weight {
            return Some(Cause::Weight);
        }
        free_weight -= *weight;
    }
    None
}

// Takes rows out again that were put last in a shard.
fn take_back<const N: usize>(core: &mut LruCore<Keyed, N>, shard: usize, pairs: &[(Keyed, usize)])
    requires { shard < length core.old.lists }
    ensures { (held : List (Row Keyed)) → Joins (with_list core.old shard held) shard (map row_of_pair pairs.now) → list_at core.old shard ≡ held ++ map row_of_pair pairs.now → core.new ≡ with_list core.old shard held }
{
    for (data, _) in pairs {
        core.remove(data.key);
    }
}

// Puts rows last in a shard, in order; where a key is held already, or a row is refused, none of them. Rows that pass no
// limit are refused for want of memory alone.
fn put_last<const N: usize>(
    core: &mut LruCore<Keyed, N>,
    shard: usize,
    pairs: &[(Keyed, usize)],
) -> Result<(), LoadError>
    requires valid { IsCore N core.old }
    requires shard { shard < N }
    requires homes { AreHome core.old shard (map row_of_pair pairs.now) }
    ensures { PutsLast core.old shard (map row_of_pair pairs.now) result core.new }
{
    for (put, (data, weight)) in pairs.iter().enumerate() {
        match core.insert_tail(data.key, *data, *weight) {
            Ok(true) => {}
            Ok(false) => {
                take_back(core, shard, &pairs[..put]);
                return Err(LoadError::Damaged);
            }
            Err(_) => {
                take_back(core, shard, &pairs[..put]);
                return Err(LoadError::Unit(Cause::Memory));
            }
        }
    }
    Ok(())
}

/// Puts the rows that bytes tell last in a shard, in order, and answers their count. The bytes are
/// those of `shard_bytes`.
///
/// It may make the core over, and evicts nothing. A refusal changes nothing, though room that was made for the
/// rows may stay. `Damaged` comes first,
/// then `Length` and `Weight`, exactly where the shard with all these rows would pass that limit;
/// `Memory` may come before any of them is found.
pub fn load_shard<const N: usize>(
    alloc: Global,
    core: &mut LruCore<Keyed, N>,
    shard: usize,
    bytes: &[u8],
) -> Result<usize, LoadError>
    requires { shard < N }
    ensures { Loads core.old shard bytes.now result core.new }
{
    let (records, rest) = bytes.as_chunks::<24>();
    if !rest.is_empty() {
        return Err(LoadError::Damaged);
    }
    let pairs = pairs_in(alloc, records)?;
    if !are_home(core, shard, &pairs) {
        return Err(LoadError::Damaged);
    }
    if let Some(cause) = limit_passed(core, shard, &pairs) {
        // Damage is told before a limit.
        if !are_new(alloc, core, shard, &pairs)? {
            return Err(LoadError::Damaged);
        }
        return Err(LoadError::Unit(cause));
    }
    core.reserve_shard(shard, pairs.len())?;
    put_last(core, shard, &pairs)?;
    Ok(pairs.len())
}
