//! The table that ties a desk to its seats. It has one word, which says nothing; what is known lies in its tokens, which take
//! no bytes.
ghost use Rattle.std.specs.Prelude.{◌≡◌, [], ◌∷◌, ◌++◌, take, drop, slice_get, slice_set, Some, IfOk};
ghost use Rattle.lru_short_locks.specs.Hands.{no_table};
ghost use Rattle.lru_boxes.specs.Ties.{hand, of_desk, of_seat, known, own, blank_lists, blank_seats, Ties, Notes, Looks, Shows, joined};

use crate::hand::DeskHand;
use atomic_table::{Join, Play, Seat, Split, Table, TableRule};
use lru_mailbox::Slip;
use std::alloc::{AllocError, Global};
use std::marker::{Brand, PhantomData};

/// Names the two tables of one box, that of those who put and that of those who take, and how many of each there are.
pub trait BoxRegistry {
    ghost use Rattle.std.specs.Prelude.{ℕ};
    ghost use Rattle.atomic_table.specs.Seated.{TableId};

    ghost puts: { TableId };

    ghost takes: { TableId };

    ghost putters: { ℕ };

    ghost takers: { ℕ };
}

impl BoxRegistry for Brand {
    ghost puts = { no_table };

    ghost takes = { no_table };

    ghost putters = { 0 };

    ghost takers = { 0 };
}

// Says which slip a step notes.
trait Saying {
    ghost use Rattle.lru_mailbox.specs.declared.slip.Slip.{Slip};

    ghost said: { Slip };
}

impl Saying for Brand {
    ghost use Rattle.lru_mailbox.specs.Slips.{slip_of};

    ghost said = { slip_of 0 0 0 };
}

/// The rule of the table.
pub struct DeskRule;

impl TableRule<(), DeskHand, u64> for DeskRule {
    ghost holds = { λ _ s. Ties s.views };

    ghost first = { λ count. hand (blank_lists count ∷ []) (blank_seats 0 count) };
}

struct Noting<S: Saying>(PhantomData<S>);

impl<S: Saying> Play<(), DeskHand> for Noting<S> {
    ghost then = { Notes S.said };
}

struct Looking;

impl Play<(), DeskHand> for Looking {
    ghost then = { Looks };
}

// All that a token has goes.
struct Lend;

impl Split<DeskHand> for Lend {
    ghost left = { λ v. hand [] [] };

    ghost right = { λ v. v };
}

struct Both;

impl Join<DeskHand> for Both {
    ghost both = { joined };

    ghost spent = { hand [] [] };
}

// The desk stays, the seats go.
struct Parts;

impl Split<DeskHand> for Parts {
    ghost left = { λ v. hand v.desks [] };

    ghost right = { λ v. hand [] v.seats };
}

// The first seat goes.
struct DealSeat;

impl Split<DeskHand> for DealSeat {
    ghost left = { λ v. hand v.desks (drop 1 v.seats) };

    ghost right = { λ v. hand [] (take 1 v.seats) };
}

/// Speaks for the desk, or for some seats.
pub type DeskToken = Seat<(), DeskHand>;

/// The table itself.
pub type DeskTable = Table<(), DeskHand, u64, DeskRule, Global>;

/// Ties a desk to its seats.
#[derive(Drop)]
pub struct DeskTie {
    /// The table.
    pub table: DeskTable,
    ghost one: { table.shared.table_id.words ≡ 1 },
}

impl DeskTie {
    /// A tie for a desk and so many seats, without slips, and the token that speaks for all of them.
    pub fn new(alloc: Global, seats: u64) -> Result<(DeskTie, DeskToken), AllocError>
        ensures { IfOk result (λ r. (r.1.table_id ≡ r.0.table.shared.table_id) × (r.0.table.shared.key ≡ seats) × (r.1.me ≡ (hand (blank_lists seats ∷ []) (blank_seats 0 seats), []))) }
    {
        let (table, token) = Table::of_words(alloc, &[0], &seats)?;
        Ok((DeskTie { table }, token))
    }

    /// A token for the first seat.
    pub fn next_seat(&self, rest: &mut DeskToken) -> DeskToken
        requires id { rest.old.table_id ≡ self.now.table.shared.table_id }
        requires free { rest.old.me.1 ≡ [] }
        ensures ids { (rest.new.table_id ≡ rest.old.table_id) × (result.table_id ≡ rest.old.table_id) }
        ensures one { result.me ≡ (hand [] (take 1 rest.old.me.0.seats), []) }
        ensures rest { rest.new.me ≡ (hand rest.old.me.0.desks (drop 1 rest.old.me.0.seats), []) }
    {
        self.table.shared.split_seat::<DealSeat>(rest)
    }

    /// Puts two tokens together.
    pub fn join(&self, one: &mut DeskToken, other: DeskToken)
        requires ids { (one.old.table_id ≡ self.now.table.shared.table_id) × (other.table_id ≡ self.now.table.shared.table_id) }
        requires free { (one.old.me.1 ≡ []) × (other.me.1 ≡ []) }
        ensures id { one.new.table_id ≡ one.old.table_id }
        ensures both { one.new.me ≡ (joined one.old.me.0 other.me.0, []) }
    {
        self.table.shared.join_seat::<Both>(one, other);
    }

    /// What a token shows of what it speaks for. It stays as it is.
    pub fn look(&self, token: &mut DeskToken)
        requires id { token.old.table_id ≡ self.now.table.shared.table_id }
        ensures same { token.new ≡ token.old }
        ensures shows { Shows token.old.me.0 }
    {
        self.table.shared.load::<Looking>(token, 0);
    }

    fn note_said<S: Saying>(
        &self,
        desk: &mut DeskToken,
        seat: &mut DeskToken,
        number: usize,
        said: &Slip,
    )
        requires said { S.said ≡ said.now }
        requires ids { (desk.old.table_id ≡ self.now.table.shared.table_id) × (seat.old.table_id ≡ self.now.table.shared.table_id) }
        requires desk { desk.old.me ≡ (of_desk (known desk.old.me.0), []) }
        requires seat { seat.old.me ≡ (of_seat number (own seat.old.me.0), []) }
        ensures ids { (desk.new.table_id ≡ desk.old.table_id) × (seat.new.table_id ≡ seat.old.table_id) }
        ensures known { slice_get (known desk.old.me.0) number ≡ Some (own seat.old.me.0) }
        ensures desk { desk.new.me ≡ (of_desk (slice_set (known desk.old.me.0) number (own seat.old.me.0 ++ said.now ∷ [])), []) }
        ensures seat { seat.new.me ≡ (of_seat number (own seat.old.me.0 ++ said.now ∷ []), []) }
    {
        let lent = self.table.shared.split_seat::<Lend>(seat);
        self.table.shared.join_seat::<Both>(desk, lent);
        self.table.shared.load::<Noting<S>>(desk, 0);
        *seat = self.table.shared.split_seat::<Parts>(desk);
    }

    /// Notes a slip more of one seat, at the desk and at the seat. Before it the desk knew what the seat had.
    pub fn note(&self, desk: &mut DeskToken, seat: &mut DeskToken, number: usize, said: &Slip)
        requires ids { (desk.old.table_id ≡ self.now.table.shared.table_id) × (seat.old.table_id ≡ self.now.table.shared.table_id) }
        requires desk { desk.old.me ≡ (of_desk (known desk.old.me.0), []) }
        requires seat { seat.old.me ≡ (of_seat number (own seat.old.me.0), []) }
        ensures ids { (desk.new.table_id ≡ desk.old.table_id) × (seat.new.table_id ≡ seat.old.table_id) }
        ensures known { slice_get (known desk.old.me.0) number ≡ Some (own seat.old.me.0) }
        ensures desk { desk.new.me ≡ (of_desk (slice_set (known desk.old.me.0) number (own seat.old.me.0 ++ said.now ∷ [])), []) }
        ensures seat { seat.new.me ≡ (of_seat number (own seat.old.me.0 ++ said.now ∷ []), []) }
    {
        self.note_said::<Brand>(desk, seat, number, said);
    }
}

/// A new tie, and the token that speaks for its desk and all its seats.
#[derive(Drop)]
pub struct BlankSeats {
    /// The tie.
    pub tie: DeskTie,
    /// The token.
    pub token: DeskToken,
    ghost here: { token.table_id ≡ tie.table.shared.table_id },
    ghost all: { token.me ≡ (hand (blank_lists tie.table.shared.key ∷ []) (blank_seats 0 tie.table.shared.key), []) },
}

impl BlankSeats {
    /// A blank for so many seats.
    pub fn new(alloc: Global, seats: usize) -> Result<BlankSeats, AllocError>
        ensures { IfOk result (λ blank. blank.tie.table.shared.key ≡ seats) }
    {
        let (tie, token) = DeskTie::new(alloc, seats as u64)?;
        Ok(BlankSeats { tie, token })
    }
}

/// The blanks for a box: one for those who put, one for those who take.
#[derive(Drop)]
pub struct Blanks {
    /// How many seats there are for those who put.
    pub putters: usize,
    /// How many seats there are for those who take.
    pub takers: usize,
    /// For those who put.
    pub puts: BlankSeats,
    /// For those who take.
    pub takes: BlankSeats,
    pub ghost put_key: { puts.tie.table.shared.key ≡ putters },
    pub ghost take_key: { takes.tie.table.shared.key ≡ takers },
}

impl Blanks {
    /// Blanks for so many who put and so many who take.
    pub fn new(alloc: Global, putters: usize, takers: usize) -> Result<Blanks, AllocError>
        ensures { IfOk result (λ blanks. (blanks.putters ≡ putters) × (blanks.takers ≡ takers)) }
    {
        Ok(Blanks {
            putters,
            takers,
            puts: BlankSeats::new(alloc, putters)?,
            takes: BlankSeats::new(alloc, takers)?,
        })
    }
}
