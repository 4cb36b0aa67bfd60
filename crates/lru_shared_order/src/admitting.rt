//! A batch, as far as it is for one shard.
ghost use Rattle.std.specs.Prelude.{◌≡◌, ◌<◌};
ghost use Rattle.lru_shared_order.specs.Batches.{AdmitsOne, AdmitsEach};

use crate::admission::{Admission, Fate};
use lru_shard::unit::LruUnit;
use std::mem;

/// Admits those of a batch that wait for this shard of N, one after the other in the batch's order, and answers each in its
/// place. The others stay as they are. A weight of 0 counts as 1, and each is refused as the shard refuses it.
pub fn admit_each<T: Drop, const N: usize>(
    unit: &mut LruUnit<T>,
    batch: &mut Vec<Admission<T>>,
    shard: usize,
)
    requires { 0 < N }
    ensures { AdmitsEach N shard unit.old batch.old.items batch.new.items unit.new }
{
    for place in 0..batch.len() {
        admit_one::<T, N>(unit, &mut batch[place], shard);
    }
}

// Admits one, if it waits for this shard.
fn admit_one<T: Drop, const N: usize>(
    unit: &mut LruUnit<T>,
    admission: &mut Admission<T>,
    shard: usize,
)
    requires { 0 < N }
    ensures { AdmitsOne N shard unit.old admission.old admission.new unit.new }
{
    if !admission.waits_for::<N>(shard) {
        return;
    }
    let Fate::Waiting(data) = mem::replace(&mut admission.fate, Fate::Admitted(shard)) else {
        unreachable!()
    };
    if let Err(refused) = unit.admit(admission.key, data, admission.weight.max(1)) {
        admission.fate = Fate::HandedBack(refused);
    }
}
