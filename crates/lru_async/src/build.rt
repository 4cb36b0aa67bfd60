//! How an order whose history is accounted for is made.
ghost use Rattle.std.specs.Prelude.{◌≡◌, ◌<◌, IfOk};
ghost use Rattle.std.specs.Arc.{arc_value};
ghost use Rattle.lru_async.specs.Orders.{HasWorkers, limits_of, limits_told};
ghost use Rattle.lru_async.specs.AccountedOrders.{order_in};

use crate::accounted_lru::{AccountRoom, AccountedLru};
use crate::builder::AsyncLruBuilder;
use crate::refusals::BuildError;
use lru_actors::message::LruMsg;
use lru_boxes::{Blanks, BoxRegistry};
use lru_inbox::tie::{Archive, BlankLogs};
use lru_workers::callback::{AsyncEvictionCallback, Gate};
use std::hash::Hash;
use std::sync::Wait;
use std::thread::Threads;

/// Starts the threads of a builder's order, by a blank for the logs of N shards, and by blanks for N who put, the shards, and for as
/// many who take as there are callback workers. Without callback workers the pairs are left in the box.
pub fn build_accounted<
    K: Hash + Eq + Clone + Drop + Send + Sync + 'static,
    C: AsyncEvictionCallback<K> + Drop + 'static,
    const N: usize,
    G: Gate + Drop + 'static,
    R: Threads + Wait + Copy + Send + 'static,
    B: BoxRegistry + Archive + Send + Sync + 'static,
>(
    builder: AsyncLruBuilder<K, C, N, G>,
    rt: R,
    blank: BlankLogs<LruMsg<K>>,
    blanks: Blanks,
) -> Result<AccountedLru<K, N, B>, BuildError>
    requires some { 0 < N }
    requires ready { C.ready (arc_value builder.callback) }
    requires table { blank.tie.table.shared.table_id ≡ B.log }
    requires shards { (blank.tie.table.shared.key ≡ N) × (B.shards ≡ N) }
    requires tables { (blanks.puts.tie.table.shared.table_id ≡ B.puts) × (blanks.takes.tie.table.shared.table_id ≡ B.takes) }
    requires counts { (B.putters ≡ blanks.putters) × (B.takers ≡ blanks.takers) }
    requires actors { blanks.putters ≡ N }
    requires workers { blanks.takers ≡ builder.settings.num_callback_workers }
    ensures limits { IfOk result (λ made. limits_of (order_in made) ≡ limits_told builder.settings) }
    ensures workers { IfOk result (λ made. HasWorkers (order_in made) builder.settings) }
{
    let takers = builder.settings.num_callback_workers;
    // what the end needs is there before a thread is started
    let room = AccountRoom::new(builder.alloc(), N, takers)?;
    match builder.build_over_logs_and_ledger::<R, B>(rt, blank, blanks) {
        Ok((lru, ledger)) => Ok(AccountedLru::over(lru, ledger, room)),
        Err(refused) => Err(refused),
    }
}
