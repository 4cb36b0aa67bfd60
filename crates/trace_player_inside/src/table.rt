//! Tallies as lines of a table.
ghost use Rattle.std.specs.Prelude.{◌≡◌};
ghost use Rattle.trace_player_inside.specs.TraceLines.{share_of};

use crate::player::Tally;
use std::fmt;
use std::fmt::Display;

/// A share of a whole in percent, with two decimals, rounded down; `-` of nothing.
#[derive(Clone, Copy, Debug)]
pub struct Percent {
    /// The share.
    pub part: u64,
    /// The whole.
    pub whole: u64,
}

impl Percent {
    /// The share in hundredths of a percent, 0 to 10000; `None` of nothing.
    pub fn hundredths(self) -> Option<u64>
        ensures { result ≡ share_of self.part self.whole }
    {
        if self.whole == 0 {
            return None;
        }
        let hundredths = self.part as u128 * 10000 / self.whole as u128;
        Some(hundredths.min(10000) as u64)
    }
}

impl Display for Percent {
    fn fmt<W: fmt::Write>(&self, f: &mut fmt::Formatter<W>) -> fmt::Result {
        match self.hundredths() {
            Some(hundredths) => write!(f, "{}.{:02}", hundredths / 100, hundredths % 100),
            None => f.write_str("-"),
        }
    }
}

/// The share of the requests that found their object.
pub fn hit_ratio(tally: &Tally) -> Percent
    ensures part { result.part ≡ tally.now.hits }
    ensures whole { result.whole ≡ tally.now.requests }
{
    Percent {
        part: tally.hits,
        whole: tally.requests,
    }
}

/// The share of the bytes that were found.
pub fn byte_hit_ratio(tally: &Tally) -> Percent
    ensures part { result.part ≡ tally.now.hit_bytes }
    ensures whole { result.whole ≡ tally.now.bytes }
{
    Percent {
        part: tally.hit_bytes,
        whole: tally.bytes,
    }
}
