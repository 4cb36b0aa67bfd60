//! Bytes by tables, eight at a time, and four such words at once where there are many. No word waits for the table of another
//! one, so the tables are read side by side.
ghost use Rattle.std.specs.Prelude.{◌≡◌, ℕ, length, bit_xor};
ghost use Rattle.std.specs.List.{fold};
ghost use Rattle.lru_frames.specs.Crc.{step};
ghost use Rattle.lru_frames.specs.CrcLanes.{joined};

use crate::crc_words::{far, near, stepped, word};

// How many bytes are taken at once where there are many, and where there are few.
const MANY: usize = 32;

const FEW: usize = 8;

// Words one behind the other, that the state is made of.
#[derive(Clone, Copy)]
pub(crate) struct Lanes {
    pub(crate) first: u64,
    pub(crate) second: u64,
    pub(crate) third: u64,
    pub(crate) fourth: u64,
}

impl Lanes {
    // The words of 32 bytes.
    #[inline(always)]
    pub(crate) fn new(bytes: &[u8]) -> Lanes
        requires { length bytes.now ≡ 32 }
        ensures { (state : ℕ) → fold step state bytes.now
            ≡ joined (bit_xor state result.first) result.second result.third result.fourth }
    {
        let (front, back) = bytes.split_at(16);
        let (first, second) = front.split_at(8);
        let (third, fourth) = back.split_at(8);
        Lanes {
            first: word(first),
            second: word(second),
            third: word(third),
            fourth: word(fourth),
        }
    }

    // With 32 bytes more.
    #[inline(always)]
    pub(crate) fn with(self, bytes: &[u8]) -> Lanes
        requires { length bytes.now ≡ 32 }
        ensures { joined result.first result.second result.third result.fourth
            ≡ fold step (joined self.first self.second self.third self.fourth) bytes.now }
    {
        let more = Lanes::new(bytes);
        Lanes {
            first: far(self.first) ^ more.first,
            second: far(self.second) ^ more.second,
            third: far(self.third) ^ more.third,
            fourth: far(self.fourth) ^ more.fourth,
        }
    }

    // The state after them.
    #[inline(always)]
    pub(crate) fn join(self) -> u64
        ensures { result ≡ joined self.first self.second self.third self.fourth }
    {
        near(near(near(near(self.first) ^ self.second) ^ self.third) ^ self.fourth)
    }
}

// The state after the first bytes, and the bytes behind them.
fn after_many(state: u64, bytes: &[u8]) -> (u64, &[u8])
    ensures { fold step result.0 result.1.now ≡ fold step state bytes.now }
{
    if bytes.len() < MANY {
        return (state, bytes);
    }
    let (front, mut rest) = bytes.split_at(MANY);
    let mut lanes = Lanes::new(front);
    lanes.first ^= state;
    while rest.len() >= MANY {
        let (front, back) = rest.split_at(MANY);
        lanes = lanes.with(front);
        rest = back;
    }
    (lanes.join(), rest)
}

// The state after the bytes.
pub(crate) fn state_by_tables(state: u64, bytes: &[u8]) -> u64
    ensures { result ≡ fold step state bytes.now }
{
    let (mut state, mut rest) = after_many(state, bytes);
    while rest.len() >= FEW {
        let (front, back) = rest.split_at(FEW);
        state = near(state ^ word(front));
        rest = back;
    }
    rest.iter().fold(state, |state, byte| stepped(state, *byte))
}
