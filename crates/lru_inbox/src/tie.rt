//! The table that ties those who put messages to those who take them. It has one word, which says nothing; what is known lies
//! in its tokens, which take no bytes.
ghost use Rattle.std.specs.Prelude.{◌≡◌, [], ◌∷◌, ◌++◌, map, take, drop, IfOk};
ghost use Rattle.lru_inbox.specs.Logs.{log, front, hand, accepted, of_log, of_taker, of_fronts, log_of, taken_by, blank_logs, blank_fronts, front_of, begun, put_in, taken_from, Logs, Puts, Takes, Looks, Shows, joined, Begins};

use crate::hand::LogHand;
use atomic_table::{Join, Play, Seat, Split, Table, TableRule};
use std::alloc::{AllocError, Global};
use std::marker::{Brand, PhantomData};

/// Names the table of the logs of one order, and tells how many shards there are.
pub trait Archive {
    ghost use Rattle.std.specs.Prelude.{ℕ};
    ghost use Rattle.atomic_table.specs.Seated.{TableId};

    ghost log: { TableId };

    ghost shards: { ℕ };
}

impl Archive for Brand {
    ghost use Rattle.lru_short_locks.specs.Hands.{no_table};

    ghost log = { no_table };

    ghost shards = { 0 };
}

// Says what a step puts.
trait Saying<E> {
    ghost use Rattle.std.specs.Prelude.{List};

    ghost said: { List E };
}

impl<E> Saying<E> for Brand {
    ghost use Rattle.std.specs.Prelude.{[]};

    ghost said = { [] };
}

// Says how many a step takes.
trait Counting {
    ghost use Rattle.std.specs.Prelude.{ℕ};

    ghost count: { ℕ };
}

impl Counting for Brand {
    ghost count = { 0 };
}

/// The rule of the table.
pub struct LogRule<E>(PhantomData<E>);

impl<E> TableRule<(), LogHand<E>, u64> for LogRule<E> {
    ghost holds = { λ _ s. Logs s.views };

    ghost first = { λ count. hand (blank_logs 0 count) (blank_fronts 0 count) [] };
}

struct Putting<E, S: Saying<E>>(PhantomData<(E, S)>);

impl<E, S: Saying<E>> Play<(), LogHand<E>> for Putting<E, S> {
    ghost then = { Puts S.said };
}

struct Taking<E, C: Counting>(PhantomData<(E, C)>);

impl<E, C: Counting> Play<(), LogHand<E>> for Taking<E, C> {
    ghost then = { Takes C.count };
}

struct Looking<E>(PhantomData<E>);

impl<E> Play<(), LogHand<E>> for Looking<E> {
    ghost then = { Looks };
}

// All that a token has goes.
struct Lend<E>(PhantomData<E>);

impl<E> Split<LogHand<E>> for Lend<E> {
    ghost left = { λ v. hand [] [] [] };

    ghost right = { λ v. v };
}

// Nothing goes.
struct Nothing<E>(PhantomData<E>);

impl<E> Split<LogHand<E>> for Nothing<E> {
    ghost left = { λ v. v };

    ghost right = { λ v. hand [] [] [] };
}

// The logs stay; what was seen goes, and the logs as they are.
struct Seen<E>(PhantomData<E>);

impl<E> Split<LogHand<E>> for Seen<E> {
    ghost left = { λ v. hand v.logs v.takers [] };

    ghost right = { λ v. hand [] [] (map front_of v.logs ++ v.fronts) };
}

// The logs stay, those who take go.
struct Parts<E>(PhantomData<E>);

impl<E> Split<LogHand<E>> for Parts<E> {
    ghost left = { λ v. hand v.logs [] v.fronts };

    ghost right = { λ v. hand [] v.takers [] };
}

// The first so many that were taken are seen by another too.
struct Shown<E, C: Counting>(PhantomData<(E, C)>);

impl<E, C: Counting> Split<LogHand<E>> for Shown<E, C> {
    ghost left = { λ v. v };

    ghost right = { λ v. hand [] [] (map (begun C.count) v.takers) };
}

// All that was seen is seen by another too.
struct Copied<E>(PhantomData<E>);

impl<E> Split<LogHand<E>> for Copied<E> {
    ghost left = { λ v. v };

    ghost right = { λ v. hand [] [] (map front_of v.logs ++ v.fronts) };
}

// The first log goes.
struct DealLog<E>(PhantomData<E>);

impl<E> Split<LogHand<E>> for DealLog<E> {
    ghost left = { λ v. hand (drop 1 v.logs) v.takers v.fronts };

    ghost right = { λ v. hand (take 1 v.logs) [] [] };
}

// The first of those who take goes.
struct DealTaker<E>(PhantomData<E>);

impl<E> Split<LogHand<E>> for DealTaker<E> {
    ghost left = { λ v. hand v.logs (drop 1 v.takers) v.fronts };

    ghost right = { λ v. hand [] (take 1 v.takers) [] };
}

struct Both<E>(PhantomData<E>);

impl<E> Join<LogHand<E>> for Both<E> {
    ghost both = { joined };

    ghost spent = { hand [] [] [] };
}

/// Speaks for a log, for one who takes, or for what was seen.
pub type LogToken<E> = Seat<(), LogHand<E>>;

/// The table itself.
pub type LogTable<E> = Table<(), LogHand<E>, u64, LogRule<E>, Global>;

/// Ties those who put to those who take.
#[derive(Drop)]
pub struct LogTie<E> {
    /// The table.
    pub table: LogTable<E>,
    ghost one: { table.shared.table_id.words ≡ 1 },
}

impl<E> LogTie<E> {
    /// A tie for so many shards, with empty logs, and the token that speaks for all of them and for those who take.
    pub fn new(alloc: Global, shards: u64) -> Result<(LogTie<E>, LogToken<E>), AllocError>
        ensures { IfOk result (λ r. (r.1.table_id ≡ r.0.table.shared.table_id) × (r.0.table.shared.key ≡ shards) × (r.1.me ≡ (hand (blank_logs 0 shards) (blank_fronts 0 shards) [], []))) }
    {
        let (table, token) = Table::of_words(alloc, &[0], &shards)?;
        Ok((LogTie { table }, token))
    }

    /// A token for the first log.
    pub fn next_log(&self, rest: &mut LogToken<E>) -> LogToken<E>
        requires id { rest.old.table_id ≡ self.now.table.shared.table_id }
        requires free { rest.old.me.1 ≡ [] }
        ensures ids { (rest.new.table_id ≡ rest.old.table_id) × (result.table_id ≡ rest.old.table_id) }
        ensures one { result.me ≡ (hand (take 1 rest.old.me.0.logs) [] [], []) }
        ensures rest { rest.new.me ≡ (hand (drop 1 rest.old.me.0.logs) rest.old.me.0.takers rest.old.me.0.fronts, []) }
    {
        self.table.shared.split_seat::<DealLog<E>>(rest)
    }

    /// A token for the first of those who take.
    pub fn next_taker(&self, rest: &mut LogToken<E>) -> LogToken<E>
        requires id { rest.old.table_id ≡ self.now.table.shared.table_id }
        requires free { rest.old.me.1 ≡ [] }
        ensures ids { (rest.new.table_id ≡ rest.old.table_id) × (result.table_id ≡ rest.old.table_id) }
        ensures one { result.me ≡ (hand [] (take 1 rest.old.me.0.takers) [], []) }
        ensures rest { rest.new.me ≡ (hand rest.old.me.0.logs (drop 1 rest.old.me.0.takers) rest.old.me.0.fronts, []) }
    {
        self.table.shared.split_seat::<DealTaker<E>>(rest)
    }

    /// A token that has seen nothing. The one that it is made of stays as it is.
    pub fn fresh(&self, any: &mut LogToken<E>) -> LogToken<E>
        requires id { any.old.table_id ≡ self.now.table.shared.table_id }
        requires free { any.old.me.1 ≡ [] }
        ensures ids { (any.new.table_id ≡ any.old.table_id) × (result.table_id ≡ any.old.table_id) }
        ensures same { any.new.me ≡ any.old.me }
        ensures none { result.me ≡ (of_fronts [], []) }
    {
        self.table.shared.split_seat::<Nothing<E>>(any)
    }

    fn show_counted<C: Counting>(&self, taker: &mut LogToken<E>, count: u64) -> LogToken<E>
        requires count { C.count ≡ count }
        requires id { taker.old.table_id ≡ self.now.table.shared.table_id }
        requires free { taker.old.me.1 ≡ [] }
        ensures ids { (taker.new.table_id ≡ taker.old.table_id) × (result.table_id ≡ taker.old.table_id) }
        ensures same { taker.new.me ≡ taker.old.me }
        ensures shown { result.me ≡ (of_fronts (map (begun count) taker.old.me.0.takers), []) }
    {
        self.table.shared.split_seat::<Shown<E, C>>(taker)
    }

    /// A token that has seen the first so many messages that one who takes had. That one's stays as it is.
    pub fn show(&self, taker: &mut LogToken<E>, count: u64) -> LogToken<E>
        requires id { taker.old.table_id ≡ self.now.table.shared.table_id }
        requires free { taker.old.me.1 ≡ [] }
        ensures ids { (taker.new.table_id ≡ taker.old.table_id) × (result.table_id ≡ taker.old.table_id) }
        ensures same { taker.new.me ≡ taker.old.me }
        ensures shown { result.me ≡ (of_fronts (map (begun count) taker.old.me.0.takers), []) }
    {
        self.show_counted::<Brand>(taker, count)
    }

    /// A token that has seen what another has, the logs that it speaks for among it. That one stays as it is.
    pub fn seen(&self, any: &mut LogToken<E>) -> LogToken<E>
        requires id { any.old.table_id ≡ self.now.table.shared.table_id }
        requires free { any.old.me.1 ≡ [] }
        ensures ids { (any.new.table_id ≡ any.old.table_id) × (result.table_id ≡ any.old.table_id) }
        ensures same { any.new.me ≡ any.old.me }
        ensures seen { result.me ≡ (of_fronts (map front_of any.old.me.0.logs ++ any.old.me.0.fronts), []) }
    {
        self.table.shared.split_seat::<Copied<E>>(any)
    }

    /// What two tokens show together of what was seen: of one shard, all begins one log. They stay as they are.
    pub fn compare(&self, one: &mut LogToken<E>, other: &mut LogToken<E>)
        requires ids { (one.old.table_id ≡ self.now.table.shared.table_id) × (other.old.table_id ≡ self.now.table.shared.table_id) }
        requires one { one.old.me ≡ (of_fronts one.old.me.0.fronts, []) }
        requires other { other.old.me ≡ (of_fronts other.old.me.0.fronts, []) }
        ensures ids { (one.new.table_id ≡ one.old.table_id) × (other.new.table_id ≡ other.old.table_id) }
        ensures same { (one.new.me ≡ one.old.me) × (other.new.me ≡ other.old.me) }
        ensures shows { Shows (of_fronts (one.old.me.0.fronts ++ other.old.me.0.fronts)) }
    {
        let mut both = self.seen(one);
        let copy = self.seen(other);
        self.join(&mut both, copy);
        self.look(&mut both);
    }

    /// Puts two tokens together.
    pub fn join(&self, one: &mut LogToken<E>, other: LogToken<E>)
        requires ids { (one.old.table_id ≡ self.now.table.shared.table_id) × (other.table_id ≡ self.now.table.shared.table_id) }
        requires free { (one.old.me.1 ≡ []) × (other.me.1 ≡ []) }
        ensures id { one.new.table_id ≡ one.old.table_id }
        ensures both { one.new.me ≡ (joined one.old.me.0 other.me.0, []) }
    {
        self.table.shared.join_seat::<Both<E>>(one, other);
    }

    /// What a token shows of what it knows. It stays as it is.
    pub fn look(&self, token: &mut LogToken<E>)
        requires id { token.old.table_id ≡ self.now.table.shared.table_id }
        ensures same { token.new ≡ token.old }
        ensures shows { Shows token.old.me.0 }
    {
        self.table.shared.load::<Looking<E>>(token, 0);
    }

    fn put_said<S: Saying<E>>(&self, desk: &mut LogToken<E>, said: &E)
        requires said { S.said ≡ said.now ∷ [] }
        requires id { desk.old.table_id ≡ self.now.table.shared.table_id }
        requires desk { desk.old.me ≡ (of_log (log_of desk.old.me.0), []) }
        ensures id { desk.new.table_id ≡ desk.old.table_id }
        ensures desk { desk.new.me ≡ (of_log (put_in (log_of desk.old.me.0) (said.now ∷ [])), []) }
    {
        self.table.shared.load::<Putting<E, S>>(desk, 0);
    }

    /// Notes at a log that a message was put.
    pub fn put(&self, desk: &mut LogToken<E>, said: &E)
        requires id { desk.old.table_id ≡ self.now.table.shared.table_id }
        requires desk { desk.old.me ≡ (of_log (log_of desk.old.me.0), []) }
        ensures id { desk.new.table_id ≡ desk.old.table_id }
        ensures desk { desk.new.me ≡ (of_log (put_in (log_of desk.old.me.0) (said.now ∷ [])), []) }
    {
        self.put_said::<Brand>(desk, said);
    }

    fn send_said<S: Saying<E>>(&self, desk: &mut LogToken<E>, caller: &mut LogToken<E>, said: &E)
        requires said { S.said ≡ said.now ∷ [] }
        requires ids { (desk.old.table_id ≡ self.now.table.shared.table_id) × (caller.old.table_id ≡ self.now.table.shared.table_id) }
        requires desk { desk.old.me ≡ (of_log (log_of desk.old.me.0), []) }
        requires caller { caller.old.me ≡ (of_fronts caller.old.me.0.fronts, []) }
        ensures ids { (desk.new.table_id ≡ desk.old.table_id) × (caller.new.table_id ≡ caller.old.table_id) }
        ensures desk { desk.new.me ≡ (of_log (put_in (log_of desk.old.me.0) (said.now ∷ [])), []) }
        ensures caller { caller.new.me ≡ (of_fronts (front (log_of desk.old.me.0).shard (accepted (log_of desk.old.me.0) ++ said.now ∷ []) ∷ caller.old.me.0.fronts), []) }
        ensures shows { Shows (hand (log_of desk.old.me.0 ∷ []) [] caller.old.me.0.fronts) }
    {
        let lent = self.table.shared.split_seat::<Lend<E>>(caller);
        self.table.shared.join_seat::<Both<E>>(desk, lent);
        self.table.shared.load::<Putting<E, S>>(desk, 0);
        *caller = self.table.shared.split_seat::<Seen<E>>(desk);
    }

    /// Notes at a log that a message was put, and at the one who put it: that one has seen the log up to and with it.
    pub fn send(&self, desk: &mut LogToken<E>, caller: &mut LogToken<E>, said: &E)
        requires ids { (desk.old.table_id ≡ self.now.table.shared.table_id) × (caller.old.table_id ≡ self.now.table.shared.table_id) }
        requires desk { desk.old.me ≡ (of_log (log_of desk.old.me.0), []) }
        requires caller { caller.old.me ≡ (of_fronts caller.old.me.0.fronts, []) }
        ensures ids { (desk.new.table_id ≡ desk.old.table_id) × (caller.new.table_id ≡ caller.old.table_id) }
        ensures desk { desk.new.me ≡ (of_log (put_in (log_of desk.old.me.0) (said.now ∷ [])), []) }
        ensures caller { caller.new.me ≡ (of_fronts (front (log_of desk.old.me.0).shard (accepted (log_of desk.old.me.0) ++ said.now ∷ []) ∷ caller.old.me.0.fronts), []) }
        ensures shows { Shows (hand (log_of desk.old.me.0 ∷ []) [] caller.old.me.0.fronts) }
    {
        self.send_said::<Brand>(desk, caller, said);
    }

    fn take_counted<C: Counting>(
        &self,
        desk: &mut LogToken<E>,
        taker: &mut LogToken<E>,
        shard: usize,
        count: usize,
    )
        requires count { C.count ≡ count }
        requires ids { (desk.old.table_id ≡ self.now.table.shared.table_id) × (taker.old.table_id ≡ self.now.table.shared.table_id) }
        requires desk { desk.old.me ≡ (of_log (log_of desk.old.me.0), []) }
        requires taker { taker.old.me ≡ (of_taker shard (taken_by taker.old.me.0), []) }
        requires shard { (log_of desk.old.me.0).shard ≡ shard }
        ensures ids { (desk.new.table_id ≡ desk.old.table_id) × (taker.new.table_id ≡ taker.old.table_id) }
        ensures known { (log_of desk.old.me.0).taken ≡ taken_by taker.old.me.0 }
        ensures desk { desk.new.me ≡ (of_log (taken_from (log_of desk.old.me.0) count), []) }
        ensures taker { taker.new.me ≡ (of_taker shard (taken_by taker.old.me.0 ++ take count (log_of desk.old.me.0).left), []) }
    {
        let lent = self.table.shared.split_seat::<Lend<E>>(taker);
        self.table.shared.join_seat::<Both<E>>(desk, lent);
        self.table.shared.load::<Taking<E, C>>(desk, 0);
        *taker = self.table.shared.split_seat::<Parts<E>>(desk);
    }

    /// Notes at a log, and at the one who takes, that so many more were taken. Before it that one had all that was taken.
    pub fn take(&self, desk: &mut LogToken<E>, taker: &mut LogToken<E>, shard: usize, count: usize)
        requires ids { (desk.old.table_id ≡ self.now.table.shared.table_id) × (taker.old.table_id ≡ self.now.table.shared.table_id) }
        requires desk { desk.old.me ≡ (of_log (log_of desk.old.me.0), []) }
        requires taker { taker.old.me ≡ (of_taker shard (taken_by taker.old.me.0), []) }
        requires shard { (log_of desk.old.me.0).shard ≡ shard }
        ensures ids { (desk.new.table_id ≡ desk.old.table_id) × (taker.new.table_id ≡ taker.old.table_id) }
        ensures known { (log_of desk.old.me.0).taken ≡ taken_by taker.old.me.0 }
        ensures desk { desk.new.me ≡ (of_log (taken_from (log_of desk.old.me.0) count), []) }
        ensures taker { taker.new.me ≡ (of_taker shard (taken_by taker.old.me.0 ++ take count (log_of desk.old.me.0).left), []) }
    {
        self.take_counted::<Brand>(desk, taker, shard, count);
    }
}

/// A new tie, and the token that speaks for all logs and for those who take.
#[derive(Drop)]
pub struct BlankLogs<E> {
    /// The tie.
    pub tie: LogTie<E>,
    /// The token.
    pub token: LogToken<E>,
    pub ghost here: { token.table_id ≡ tie.table.shared.table_id },
    pub ghost all: { token.me ≡ (hand (blank_logs 0 tie.table.shared.key) (blank_fronts 0 tie.table.shared.key) [], []) },
}

impl<E> BlankLogs<E> {
    /// A blank for so many shards.
    pub fn new(alloc: Global, shards: usize) -> Result<BlankLogs<E>, AllocError>
        ensures { IfOk result (λ blank. blank.tie.table.shared.key ≡ shards) }
    {
        let (tie, token) = LogTie::new(alloc, shards as u64)?;
        Ok(BlankLogs { tie, token })
    }
}
