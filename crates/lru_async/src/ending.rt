//! What shards came to, once their threads have ended.
ghost use Rattle.std.specs.Prelude.{◌≡◌, ◌≤◌, [], map, vec_len, vec_capacity};
ghost use Rattle.std.specs.Option.{ForSome};
ghost use Rattle.lru_shard.specs.Limits.{cap_of};
ghost use Rattle.lru_inbox.specs.Logs.{log_of};
ghost use Rattle.lru_workers.specs.Accounts.{IsAccount};
ghost use Rattle.lru_async.specs.Accounts.{Accounts};

use lru_boxes::{BoxRegistry, PutSeat};
use lru_inbox::tie::Archive;
use lru_workers::ShardEnd;
use lru_workers::world::ShardPlace;
use std::sync::Wait;
use std::thread;

// Gathers what each of so many shards came to, and its seat, in order. There is room for all.
pub(crate) fn end_all<K: Clone + Drop, B: BoxRegistry + Archive>(
    rt: &impl Wait,
    places: Vec<ShardPlace<K, B>>,
    count: usize,
    ends: &mut Vec<ShardEnd<K, B>>,
    seats: &mut Vec<PutSeat<B>>,
)
    requires ends { (ends.old.items ≡ []) × (count ≤ vec_capacity ends.old) }
    requires seats { (seats.old.items ≡ []) × (count ≤ vec_capacity seats.old) }
    ensures accounts { Accounts (cap_of B.shards) 0 ends.new.items (map (λ s. s.share.slips) seats.new.items) }
    ensures count { vec_len ends.new ≡ count }
{
    let mut places = places.into_iter();
    for shard in 0..count {
        let (end, seat) = next_end(rt, places.next(), shard);
        ends.push_reserved(end);
        seats.push_reserved(seat);
    }
}

// What the shard of this number came to, and its seat. Were its place that of another, this would wait for ever.
fn next_end<K: Clone + Drop, B: BoxRegistry + Archive>(
    rt: &impl Wait,
    place: Option<ShardPlace<K, B>>,
    shard: usize,
) -> (ShardEnd<K, B>, PutSeat<B>)
    ensures shard { result.0.shard ≡ shard }
    ensures account { ∥ IsAccount (cap_of B.shards) (log_of result.0.log.token.me.0).taken result.0.state result.1.share.slips ∥₁ }
{
    if let Some(end) = end_of(place, shard) {
        return end;
    }
    for _ in rt.forever() {
        thread::yield_now();
    }
    unreachable!()
}

// What the shard of this number came to, and its seat, if its place is this one.
fn end_of<K: Clone + Drop, B: BoxRegistry + Archive>(
    place: Option<ShardPlace<K, B>>,
    shard: usize,
) -> Option<(ShardEnd<K, B>, PutSeat<B>)>
    ensures shard { ForSome result (λ r. r.0.shard ≡ shard) }
    ensures account { ForSome result (λ r. ∥ IsAccount (cap_of B.shards) (log_of r.0.log.token.me.0).taken r.0.state r.1.share.slips ∥₁) }
{
    let (inbox, rows) = place?.into_parts();
    rows?.end(inbox, shard)
}
