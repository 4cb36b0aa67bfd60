//! How an order served by actors is made.
ghost use Rattle.std.specs.Prelude.{◌≡◌, ◌<◌, [], All, Err, Some, IfOk};
ghost use Rattle.std.specs.Arc.{arc_value};
ghost use Rattle.lru_async.specs.Orders.{HasWorkers, limits_of, limits_told, order_of, untold};
ghost use Rattle.lru_async.specs.declared.refusals.BuildError.TheVariants.{NoCallbackWorkers};

use crate::async_lru::AsyncLru;
use crate::launching::launch;
use crate::ledger_lru::LedgerLru;
use crate::receiver::EvictionReceiver;
use crate::refusals::BuildError;
use lru_actors::message::LruMsg;
use lru_boxes::{Blanks, BoxRegistry, LedgerBox, PutSeat, TakeSeat};
use lru_inbox::tie::{Archive, BlankLogs};
use lru_inbox::voice::Voice;
use lru_mailbox::Mailbox;
use lru_workers::callback::{AsyncEvictionCallback, Gate, NoGate};
use lru_workers::outlet::Outlet;
use std::alloc::{AllocError, Global};
use std::hash::Hash;
use std::marker::{Brand, PhantomData};
use std::sync::{Arc, Wait};
use std::thread::Threads;

/// What a builder was told.
#[derive(Clone, Copy, Debug, PartialEq, Eq)]
pub struct BuilderSettings {
    /// The most that all rows may weigh before rows are evicted.
    pub weight_limit: usize,
    /// The most rows that there may be before rows are evicted, if that is limited.
    pub len_watermark: Option<usize>,
    /// For how many rows each shard has room from the start.
    pub capacity: usize,
    /// How many threads ask for evictions.
    pub num_eviction_workers: usize,
    /// How many threads call the callback.
    pub num_callback_workers: usize,
    /// From this the eviction workers' draws are made: worker i, from 0 on, draws from a generator of `seed` plus i.
    pub seed: u64,
}

// Refuses settings without callback workers.
fn want_callback_workers(settings: &BuilderSettings) -> Result<(), BuildError>
    ensures { settings.now.num_callback_workers ≡ 0 → result ≡ Err NoCallbackWorkers }
{
    if settings.num_callback_workers == 0 {
        return Err(BuildError::NoCallbackWorkers);
    }
    Ok(())
}

// What speaks for all logs of a blank.
fn voice_of<E, B: Archive>(alloc: Global, blank: BlankLogs<E>) -> Result<Voice<E, B>, BuildError>
    requires { blank.tie.table.shared.table_id ≡ B.log }
    ensures { IfOk result (λ v. v.token ≡ blank.token) }
{
    let BlankLogs { tie, token } = blank;
    match Arc::new(alloc, tie) {
        Ok(tie) => Ok(Voice::new(tie, token)),
        Err(_) => Err(BuildError::Memory),
    }
}

// A box made of blanks, the outlet that leads into it, and the seats of those who put and of those who take.
fn ledger_of<K: Drop, B: BoxRegistry>(
    alloc: Global,
    blanks: Blanks,
) -> Result<
    (
        Arc<LedgerBox<K, B>, Global>,
        Outlet<K, B>,
        Vec<PutSeat<B>>,
        Vec<TakeSeat<B>>,
    ),
    BuildError,
>
    requires tables { (blanks.puts.tie.table.shared.table_id ≡ B.puts) × (blanks.takes.tie.table.shared.table_id ≡ B.takes) }
    requires counts { (B.putters ≡ blanks.putters) × (B.takers ≡ blanks.takers) }
    ensures { IfOk result (λ made. All (λ s. s.share.slips ≡ []) made.2.items) }
{
    let (ledger, puts, takes) = LedgerBox::new(alloc, blanks)?;
    let Ok(ledger) = Arc::new(alloc, ledger) else {
        return Err(BuildError::Memory);
    };
    let outlet = Outlet::Ledger(Arc::try_clone(&ledger)?);
    Ok((ledger, outlet, puts, takes))
}

// Lists with room for so many seats.
fn rooms<B: BoxRegistry>(
    alloc: Global,
    putters: usize,
    takers: usize,
) -> Result<(Vec<PutSeat<B>>, Vec<TakeSeat<B>>), AllocError> {
    Ok((
        Vec::with_capacity(alloc, putters)?,
        Vec::with_capacity(alloc, takers)?,
    ))
}

/// Makes an [`AsyncLru`]. Each setter answers the builder with one setting changed.
#[derive(Drop)]
pub struct AsyncLruBuilder<K, C, const N: usize, G = NoGate> {
    /// What it was told.
    pub settings: BuilderSettings,
    /// What is called with each evicted pair.
    pub callback: Arc<C, Global>,
    /// What an actor passes before each message, if there is one.
    pub gate: Option<Arc<G, Global>>,
    alloc: Global,
    keys: PhantomData<K>,
}

impl<K, C, const N: usize, G> AsyncLruBuilder<K, C, N, G> {
    // A builder with the settings that stand where none is changed.
    pub(crate) fn new(
        alloc: Global,
        weight_limit: usize,
        callback: Arc<C, Global>,
        gate: Option<Arc<G, Global>>,
    ) -> Self
        ensures settings { result.settings ≡ untold weight_limit }
        ensures callback { result.callback ≡ callback }
        ensures gate { result.gate ≡ gate }
    {
        AsyncLruBuilder {
            settings: BuilderSettings {
                weight_limit,
                len_watermark: None,
                capacity: 0,
                num_eviction_workers: 1,
                num_callback_workers: 1,
                seed: 0,
            },
            callback,
            gate,
            alloc,
            keys: PhantomData,
        }
    }

    // What memory of what it makes comes from.
    pub(crate) fn alloc(&self) -> Global {
        self.alloc
    }

    /// For how many rows each shard has room from the start; 0 where it is not told.
    pub fn capacity(self, capacity: usize) -> Self
        ensures settings { result.settings ≡ record self.settings { capacity = capacity } }
        ensures callback { result.callback ≡ self.callback }
        ensures gate { result.gate ≡ self.gate }
    {
        let settings = BuilderSettings {
            capacity,
            ..self.settings
        };
        AsyncLruBuilder { settings, ..self }
    }

    /// The most rows that there may be before rows are evicted; no limit where it is not told.
    pub fn len_watermark(self, watermark: usize) -> Self
        ensures settings { result.settings ≡ record self.settings { len_watermark = Some watermark } }
        ensures callback { result.callback ≡ self.callback }
        ensures gate { result.gate ≡ self.gate }
    {
        let settings = BuilderSettings {
            len_watermark: Some(watermark),
            ..self.settings
        };
        AsyncLruBuilder { settings, ..self }
    }

    /// How many threads ask for evictions; 1 where it is not told. With 0 nothing is evicted.
    pub fn num_eviction_workers(self, workers: usize) -> Self
        ensures settings { result.settings ≡ record self.settings { num_eviction_workers = workers } }
        ensures callback { result.callback ≡ self.callback }
        ensures gate { result.gate ≡ self.gate }
    {
        let settings = BuilderSettings {
            num_eviction_workers: workers,
            ..self.settings
        };
        AsyncLruBuilder { settings, ..self }
    }

    /// How many threads call the callback; 1 where it is not told.
    pub fn num_callback_workers(self, workers: usize) -> Self
        ensures settings { result.settings ≡ record self.settings { num_callback_workers = workers } }
        ensures callback { result.callback ≡ self.callback }
        ensures gate { result.gate ≡ self.gate }
    {
        let settings = BuilderSettings {
            num_callback_workers: workers,
            ..self.settings
        };
        AsyncLruBuilder { settings, ..self }
    }

    /// From this the eviction workers' draws are made; 0 where it is not told.
    pub fn seed(self, seed: u64) -> Self
        ensures settings { result.settings ≡ record self.settings { seed = seed } }
        ensures callback { result.callback ≡ self.callback }
        ensures gate { result.gate ≡ self.gate }
    {
        let settings = BuilderSettings {
            seed,
            ..self.settings
        };
        AsyncLruBuilder { settings, ..self }
    }
}

impl<
    K: Hash + Eq + Clone + Drop + Send + Sync + 'static,
    C: AsyncEvictionCallback<K> + Drop + 'static,
    const N: usize,
    G: Gate + Drop + 'static,
> AsyncLruBuilder<K, C, N, G> {
    /// Starts the threads. Without callback workers it is refused.
    pub fn build<R: Threads + Wait + Copy + Send + 'static>(
        self,
        rt: R,
    ) -> Result<AsyncLru<K, N>, BuildError>
        requires some { 0 < N }
        requires ready { C.ready (arc_value self.callback) }
        ensures refused { self.settings.num_callback_workers ≡ 0 → result ≡ Err NoCallbackWorkers }
        ensures limits { IfOk result (λ lru. limits_of lru ≡ limits_told self.settings) }
        ensures workers { IfOk result (λ lru. HasWorkers lru self.settings) }
    {
        want_callback_workers(&self.settings)?;
        let alloc = self.alloc;
        let puts: Vec<PutSeat<Brand>> = Vec::new(alloc);
        let takes: Vec<TakeSeat<Brand>> = Vec::new(alloc);
        let outlet = Outlet::Mailbox(Mailbox::new(alloc));
        launch::<K, C, N, G, R, Brand>(rt, alloc, self, None, outlet, puts, takes)
    }

    /// Starts the threads, and gives a receiver of evicted pairs. Callback workers, if there are any, go on beside it.
    pub fn build_with_eviction_receiver<R: Threads + Wait + Copy + Send + 'static>(
        self,
        rt: R,
    ) -> Result<(AsyncLru<K, N>, EvictionReceiver<K>), BuildError>
        requires some { 0 < N }
        requires ready { C.ready (arc_value self.callback) }
        ensures limits { IfOk result (λ made. limits_of made.0 ≡ limits_told self.settings) }
        ensures workers { IfOk result (λ made. HasWorkers made.0 self.settings) }
    {
        let alloc = self.alloc;
        let alone = self.settings.num_callback_workers == 0;
        let puts: Vec<PutSeat<Brand>> = Vec::new(alloc);
        let takes: Vec<TakeSeat<Brand>> = Vec::new(alloc);
        let outlet = Outlet::Mailbox(Mailbox::new(alloc));
        let lru = launch::<K, C, N, G, R, Brand>(rt, alloc, self, None, outlet, puts, takes)?;
        lru.with_receiver(&rt, alone)
    }

    /// Starts the threads of an order that keeps a log of each shard's messages, by a blank for N shards. Without callback workers
    /// it is refused. The calls of the order itself say nothing of the logs; those of a `LoggedLru`, which has it built, do.
    pub fn build_over_logs<
        R: Threads + Wait + Copy + Send + 'static,
        B: BoxRegistry + Archive + Send + Sync + 'static,
    >(self, rt: R, blank: BlankLogs<LruMsg<K>>) -> Result<AsyncLru<K, N, B>, BuildError>
        requires some { 0 < N }
        requires ready { C.ready (arc_value self.callback) }
        requires table { blank.tie.table.shared.table_id ≡ B.log }
        requires counts { (blank.tie.table.shared.key ≡ N) × (B.shards ≡ N) }
        ensures refused { self.settings.num_callback_workers ≡ 0 → result ≡ Err NoCallbackWorkers }
        ensures limits { IfOk result (λ lru. limits_of lru ≡ limits_told self.settings) }
        ensures workers { IfOk result (λ lru. HasWorkers lru self.settings) }
    {
        want_callback_workers(&self.settings)?;
        let alloc = self.alloc;
        let logs = Some(voice_of(alloc, blank)?);
        let puts: Vec<PutSeat<B>> = Vec::new(alloc);
        let takes: Vec<TakeSeat<B>> = Vec::new(alloc);
        let outlet = Outlet::Mailbox(Mailbox::new(alloc));
        launch::<K, C, N, G, R, B>(rt, alloc, self, logs, outlet, puts, takes)
    }

    /// Starts the threads round a box that counts every evicted pair: it is made of blanks for N who put, the actors, and as
    /// many who take as there are callback workers. Without callback workers the pairs are left in the box.
    pub fn build_with_ledger<
        R: Threads + Wait + Copy + Send + 'static,
        B: BoxRegistry + Archive + Send + Sync + 'static,
    >(self, rt: R, blanks: Blanks) -> Result<LedgerLru<K, N, B>, BuildError>
        requires some { 0 < N }
        requires ready { C.ready (arc_value self.callback) }
        requires tables { (blanks.puts.tie.table.shared.table_id ≡ B.puts) × (blanks.takes.tie.table.shared.table_id ≡ B.takes) }
        requires counts { (B.putters ≡ blanks.putters) × (B.takers ≡ blanks.takers) }
        requires actors { blanks.putters ≡ N }
        requires workers { blanks.takers ≡ self.settings.num_callback_workers }
        ensures limits { IfOk result (λ ledger. limits_of (order_of ledger) ≡ limits_told self.settings) }
        ensures workers { IfOk result (λ ledger. HasWorkers (order_of ledger) self.settings) }
    {
        let alloc = self.alloc;
        let takers = self.settings.num_callback_workers;
        let (room_for_puts, room_for_takes) = rooms(alloc, N, takers)?;
        let (ledger, outlet, puts, takes) = ledger_of::<K, B>(alloc, blanks)?;
        let lru = launch::<K, C, N, G, R, B>(rt, alloc, self, None, outlet, puts, takes)?;
        Ok(LedgerLru::new(lru, ledger, takers, room_for_puts, room_for_takes))
    }

    /// As `build_over_logs`, round a box that counts every evicted pair, as `build_with_ledger` makes it: the rows of each shard have
    /// the seat of those who put, and the slips of what was evicted. Where there is no memory all is let go.
    pub fn build_over_logs_and_ledger<
        R: Threads + Wait + Copy + Send + 'static,
        B: BoxRegistry + Archive + Send + Sync + 'static,
    >(
        self,
        rt: R,
        blank: BlankLogs<LruMsg<K>>,
        blanks: Blanks,
    ) -> Result<(AsyncLru<K, N, B>, Arc<LedgerBox<K, B>, Global>), BuildError>
        requires some { 0 < N }
        requires ready { C.ready (arc_value self.callback) }
        requires table { blank.tie.table.shared.table_id ≡ B.log }
        requires shards { (blank.tie.table.shared.key ≡ N) × (B.shards ≡ N) }
        requires tables { (blanks.puts.tie.table.shared.table_id ≡ B.puts) × (blanks.takes.tie.table.shared.table_id ≡ B.takes) }
        requires counts { (B.putters ≡ blanks.putters) × (B.takers ≡ blanks.takers) }
        requires actors { blanks.putters ≡ N }
        requires workers { blanks.takers ≡ self.settings.num_callback_workers }
        ensures limits { IfOk result (λ made. limits_of made.0 ≡ limits_told self.settings) }
        ensures workers { IfOk result (λ made. HasWorkers made.0 self.settings) }
    {
        let alloc = self.alloc;
        let logs = Some(voice_of(alloc, blank)?);
        let (ledger, outlet, puts, takes) = ledger_of::<K, B>(alloc, blanks)?;
        let lru = launch::<K, C, N, G, R, B>(rt, alloc, self, logs, outlet, puts, takes)?;
        Ok((lru, ledger))
    }
}
