//! The table that ties receipts to entries. It has one word, which says nothing; what is known lies in its tokens, which
//! take no bytes.
ghost use Rattle.std.specs.Prelude.{◌≡◌, [], ◌∷◌, ◌++◌, take, drop, IfOk};
ghost use Rattle.atomic_table.specs.Seated.{TableId};
ghost use Rattle.lru_short_locks.specs.Hands.{up, Among, no_table};
ghost use Rattle.lru_recording.specs.Ties.{hand, Ties, Stamps, Looks, Shows, joined};

use crate::entry::{Hand, Names, Stamp};
use atomic_table::{Join, Play, Seat, Split, Table, TableRule};
use std::alloc::{AllocError, Global};
use std::marker::Brand;

/// Names one table, all that is tied by it, and how many seats there are.
pub trait Registry {
    ghost use Rattle.std.specs.Prelude.{ℕ};
    ghost use Rattle.atomic_table.specs.Seated.{TableId};

    ghost table: { TableId };

    ghost seats: { ℕ };
}

impl Registry for Brand {
    ghost table = { no_table };

    ghost seats = { 0 };
}

/// The rule of the table.
pub struct Tied;

impl TableRule<Stamp, Hand, Names> for Tied {
    ghost holds = { λ k s. Ties k s.views };

    ghost first = { λ k. hand (up 0 k.shards) (up 0 k.seats) [] [] };
}

struct Stamping;

impl Play<Stamp, Hand> for Stamping {
    ghost then = { Stamps };
}

struct Looking;

impl Play<Stamp, Hand> for Looking {
    ghost then = { Looks };
}

// All that a token has goes.
struct Lend;

impl Split<Hand> for Lend {
    ghost left = { λ v. hand [] [] [] [] };

    ghost right = { λ v. v };
}

struct Both;

impl Join<Hand> for Both {
    ghost both = { joined };

    ghost spent = { hand [] [] [] [] };
}

// The shards with their book stay, the seats with their slips go.
struct Parts;

impl Split<Hand> for Parts {
    ghost left = { λ v. hand v.shards [] v.book [] };

    ghost right = { λ v. hand [] v.seats [] v.slips };
}

// The seats with their slips stay, the shards with their book go.
struct Apart;

impl Split<Hand> for Apart {
    ghost left = { λ v. hand [] v.seats [] v.slips };

    ghost right = { λ v. hand v.shards [] v.book [] };
}

// The first shard goes, of a token without stamps.
struct DealShard;

impl Split<Hand> for DealShard {
    ghost left = { λ v. hand (drop 1 v.shards) v.seats [] [] };

    ghost right = { λ v. hand (take 1 v.shards) [] [] [] };
}

// The first seat goes, of a token without stamps.
struct DealSeat;

impl Split<Hand> for DealSeat {
    ghost left = { λ v. hand v.shards (drop 1 v.seats) [] [] };

    ghost right = { λ v. hand [] (take 1 v.seats) [] [] };
}

/// Speaks for some shards and seats.
pub type Token = Seat<Stamp, Hand>;

/// The table itself.
pub type TieTable = Table<Stamp, Hand, Names, Tied, Global>;

/// Ties the entries of some shards to the receipts of some seats.
#[derive(Drop)]
pub struct Tie {
    /// The table.
    pub table: TieTable,
    ghost one: { table.shared.table_id.words ≡ 1 },
}

impl Tie {
    /// A tie for so many shards and seats, and the token that speaks for all of them.
    pub fn new(alloc: Global, names: Names) -> Result<(Tie, Token), AllocError>
        ensures { IfOk result (λ r. (r.1.table_id ≡ r.0.table.shared.table_id) × ((r.0.table.shared.key ≡ names) × (r.1.me ≡ (hand (up 0 names.shards) (up 0 names.seats) [] [], [])))) }
    {
        let (table, token) = Table::of_words(alloc, &[0], &names)?;
        Ok((Tie { table }, token))
    }

    /// One stamp more in a shard's book and among a seat's slips. What the book had of that seat is among its slips.
    pub fn stamp(&self, book: &mut Token, seat: &mut Token, said: &Stamp)
        requires ids { (book.old.table_id ≡ self.now.table.shared.table_id) × (seat.old.table_id ≡ self.now.table.shared.table_id) }
        requires book { book.old.me ≡ (hand (said.now.shard ∷ []) [] book.old.me.0.book [], []) }
        requires seat { seat.old.me ≡ (hand [] (said.now.seat ∷ []) [] seat.old.me.0.slips, []) }
        ensures ids { (book.new.table_id ≡ book.old.table_id) × (seat.new.table_id ≡ seat.old.table_id) }
        ensures book { book.new.me ≡ (hand (said.now.shard ∷ []) [] (book.old.me.0.book ++ said.now ∷ []) [], []) }
        ensures seat { seat.new.me ≡ (hand [] (said.now.seat ∷ []) [] (seat.old.me.0.slips ++ said.now ∷ []), []) }
        ensures known { (x : _) → Among x book.old.me.0.book → x.seat ≡ said.now.seat → Among x seat.old.me.0.slips }
    {
        let lent = self.table.shared.split_seat::<Lend>(seat);
        self.table.shared.join_seat::<Both>(book, lent);
        self.table
            .shared
            .compare_exchange_with::<Stamping>(book, 0, 0, 0, said);
        *seat = self.table.shared.split_seat::<Parts>(book);
    }

    /// Puts two tokens together.
    pub fn join(&self, one: &mut Token, other: Token)
        requires ids { (one.old.table_id ≡ self.now.table.shared.table_id) × (other.table_id ≡ self.now.table.shared.table_id) }
        requires free { (one.old.me.1 ≡ []) × (other.me.1 ≡ []) }
        ensures id { one.new.table_id ≡ one.old.table_id }
        ensures both { one.new.me ≡ (joined one.old.me.0 other.me.0, []) }
    {
        self.table.shared.join_seat::<Both>(one, other);
    }

    /// A token for the first shard of one without stamps.
    pub fn next_shard(&self, rest: &mut Token) -> Token
        requires id { rest.old.table_id ≡ self.now.table.shared.table_id }
        requires free { (rest.old.me.1 ≡ []) × ((rest.old.me.0.book ≡ []) × (rest.old.me.0.slips ≡ [])) }
        ensures ids { (rest.new.table_id ≡ rest.old.table_id) × (result.table_id ≡ rest.old.table_id) }
        ensures one { result.me ≡ (hand (take 1 rest.old.me.0.shards) [] [] [], []) }
        ensures rest { rest.new.me ≡ (hand (drop 1 rest.old.me.0.shards) rest.old.me.0.seats [] [], []) }
    {
        self.table.shared.split_seat::<DealShard>(rest)
    }

    /// A token for the first seat of one without stamps.
    pub fn next_seat(&self, rest: &mut Token) -> Token
        requires id { rest.old.table_id ≡ self.now.table.shared.table_id }
        requires free { (rest.old.me.1 ≡ []) × ((rest.old.me.0.book ≡ []) × (rest.old.me.0.slips ≡ [])) }
        ensures ids { (rest.new.table_id ≡ rest.old.table_id) × (result.table_id ≡ rest.old.table_id) }
        ensures one { result.me ≡ (hand [] (take 1 rest.old.me.0.seats) [] [], []) }
        ensures rest { rest.new.me ≡ (hand rest.old.me.0.shards (drop 1 rest.old.me.0.seats) [] [], []) }
    {
        self.table.shared.split_seat::<DealSeat>(rest)
    }

    /// What a token shows of what it speaks for. It stays as it is.
    pub fn look(&self, token: &mut Token, names: Names)
        requires id { token.old.table_id ≡ self.now.table.shared.table_id }
        requires key { self.now.table.shared.key ≡ names }
        ensures same { token.new ≡ token.old }
        ensures shows { Shows names.shards names.seats token.old.me.0 }
    {
        self.table
            .shared
            .compare_exchange::<Looking>(token, 0, names.shards, names.seats);
    }

    /// What shards with their book and seats with their slips show together. The token of the seats stays as it is, and
    /// that of the shards knows what it knew.
    pub fn compare(&self, book: &mut Token, seat: &mut Token, names: Names)
        requires ids { (book.old.table_id ≡ self.now.table.shared.table_id) × (seat.old.table_id ≡ self.now.table.shared.table_id) }
        requires key { self.now.table.shared.key ≡ names }
        requires book { book.old.me ≡ (hand book.old.me.0.shards [] book.old.me.0.book [], []) }
        requires seat { seat.old.me ≡ (hand [] seat.old.me.0.seats [] seat.old.me.0.slips, []) }
        ensures book { (book.new.table_id ≡ book.old.table_id) × (book.new.me ≡ book.old.me) }
        ensures seat { seat.new ≡ seat.old }
        ensures shows { Shows names.shards names.seats (hand book.old.me.0.shards seat.old.me.0.seats book.old.me.0.book seat.old.me.0.slips) }
    {
        let lent = self.table.shared.split_seat::<Lend>(book);
        self.table.shared.join_seat::<Both>(seat, lent);
        self.look(seat, names);
        *book = self.table.shared.split_seat::<Apart>(seat);
    }
}

/// A new tie, and the token that speaks for all its shards and seats.
#[derive(Drop)]
pub struct Blank {
    /// The tie.
    pub tie: Tie,
    /// The token.
    pub token: Token,
    ghost here: { token.table_id ≡ tie.table.shared.table_id },
    ghost all: { token.me ≡ (hand (up 0 tie.table.shared.key.shards) (up 0 tie.table.shared.key.seats) [] [], []) },
}

impl Blank {
    /// A blank for so many shards and seats.
    pub fn new(alloc: Global, names: Names) -> Result<Blank, AllocError>
        ensures { IfOk result (λ blank. blank.tie.table.shared.key ≡ names) }
    {
        let (tie, token) = Tie::new(alloc, names)?;
        Ok(Blank { tie, token })
    }
}
