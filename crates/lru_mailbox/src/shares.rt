//! Shares of a box: the slips that one putter put, or one taker took.
ghost use Rattle.std.specs.Prelude.{◌≡◌, ◌<◌, ◌++◌, ◌∷◌, [], IsOk, IsErr};

use crate::slip::Slip;
use std::alloc::{AllocError, Global};
use std::marker::{Model, PhantomData};

/// The side of a box that puts.
#[derive(Drop)]
pub struct PutSide;

/// The side of a box that takes.
#[derive(Drop)]
pub struct TakeSide;

/// The slips of one putter or taker, in order. The side is in the type, so that no one takes with the share of a
/// putter, and costs no byte.
#[derive(Drop)]
pub struct SideShare<Side> {
    slips: Vec<Slip>,
    side: PhantomData<Side>,
}

/// The slips that one putter put, in order.
pub type PutShare = SideShare<PutSide>;

/// The slips of the pairs that one taker took, in order.
pub type TakeShare = SideShare<TakeSide>;

impl<Side> Model for SideShare<Side> {
    ghost use Rattle.std.specs.Prelude.{◌-◌, vec_len, vec_capacity};
    ghost use Rattle.lru_mailbox.specs.Slips.{Share, share_of, share_code};

    ghost Value = { Share };

    ghost coded = { share_code };

    ghost view = { λ s. share_of s.slips.items (vec_capacity s.slips - vec_len s.slips) };
}

impl<Side> SideShare<Side> {
    /// A share without slips.
    pub fn new(alloc: Global) -> Self
        ensures { result.slips ≡ [] }
    {
        SideShare {
            slips: Vec::new(alloc),
            side: PhantomData,
        }
    }

    /// The slips, in the order of the puts or takes.
    pub fn slips(&self) -> &[Slip]
        ensures { result.now ≡ self.now.slips }
    {
        self.slips.as_slice()
    }

    // Makes room for one more slip.
    pub(crate) fn reserve_one(&mut self) -> Result<(), AllocError>
        ensures same { self.new.slips ≡ self.old.slips }
        ensures room { IsOk result → 0 < self.new.room }
        ensures refused { IsErr result → self.old.room ≡ 0 }
    {
        self.slips.reserve(1)
    }

    // Notes a slip, for which there is room.
    pub(crate) fn note(&mut self, slip: Slip)
        requires { 0 < self.old.room }
        ensures { self.new.slips ≡ self.old.slips ++ slip ∷ [] }
    {
        self.slips.push_reserved(slip);
    }

    /// The slips, in their order.
    pub fn into_slips(self) -> Vec<Slip>
        ensures { result.items ≡ self.slips }
    {
        let SideShare { slips, .. } = self;
        slips
    }
}
