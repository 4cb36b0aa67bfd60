//! A plot of hit ratios against limits, as SVG.
ghost use Rattle.std.specs.Prelude.{◌≡◌};

use crate::player::Tally;
use crate::table::{Percent, byte_hit_ratio, hit_ratio};
use std::fmt;
use std::fmt::Display;

// Where the plot stands in the picture of 640 times 420: its left and its upper edge, its width and its height.
const LEFT: u64 = 70;

const TOP: u64 = 60;

const WIDTH: u64 = 520;

const HEIGHT: u64 = 300;

// From so many times its smallest limit on, an axis is logarithmic.
const WIDE: u64 = 50;

// How wide a digit is at most.
const DIGIT: u64 = 6;

/// What limits and sizes count.
#[derive(Clone, Copy, Debug, PartialEq, Eq)]
pub enum CountedUnit {
    /// Bytes.
    Bytes,
    /// Objects, each of which has the size 1, so that the share of bytes is that of requests.
    Objects,
}

/// Limits with what caches under them made of one trace, drawn to scale: the share of requests that found their object in
/// blue with full marks, and where sizes differ the share of bytes in orange with open marks and dashes, so that each shows
/// where both are equal. The scale of the shares is the part of 0 to 100 % that they take, and its name says where it begins.
#[derive(Clone, Copy)]
pub struct Plot<'a> {
    rows: &'a [(usize, Tally)],
    counted: CountedUnit,
    limits: Scale,
    shares: Range,
}

#[derive(Clone, Copy)]
enum Share {
    Requests,
    Bytes,
}

impl Share {
    // In hundredths of a percent. That of nothing is 0.
    fn of(self, tally: &Tally) -> u64 {
        let share: Percent = match self {
            Share::Requests => hit_ratio(tally),
            Share::Bytes => byte_hit_ratio(tally),
        };
        share.hundredths().unwrap_or(0)
    }

    fn name(self) -> &'static str {
        match self {
            Share::Requests => "hit ratio: requests found",
            Share::Bytes => "byte hit ratio: bytes found",
        }
    }

    fn line(self) -> &'static str {
        match self {
            Share::Requests => "stroke-width=\"2\" stroke=\"#1f77b4\"",
            Share::Bytes => "stroke-width=\"2\" stroke=\"#d95f02\" stroke-dasharray=\"5 5\"",
        }
    }

    fn mark(self) -> &'static str {
        match self {
            Share::Requests => "r=\"3\" fill=\"#1f77b4\"",
            Share::Bytes => "r=\"5\" fill=\"none\" stroke=\"#d95f02\"",
        }
    }
}

// The logarithm of a number to the base 2, in parts of 1024, rounded down. That of 0 is as that of 1.
fn logarithm(number: u64) -> u64 {
    let whole = number.max(1).ilog2();
    // the number over the largest power of 2 that it reaches, with 63 bits behind the point
    let mut rest = (number.max(1) as u128) << 63u32.saturating_sub(whole);
    let mut parts = whole as u64;
    for _ in 0..10 {
        // the square has twice the logarithm
        rest = rest.wrapping_mul(rest) >> 63u32;
        let is_past = rest >> 64u32 != 0;
        parts = parts.wrapping_mul(2).wrapping_add(is_past as u64);
        if is_past {
            rest >>= 1u32;
        }
    }
    parts
}

// How limits are laid on the axis.
#[derive(Clone, Copy)]
struct Scale {
    low: u64,
    high: u64,
    is_logarithmic: bool,
}

impl Scale {
    // That of rows in the order of their limits.
    fn new(rows: &[(usize, Tally)]) -> Self {
        let low = rows.first().map_or(0, |row| row.0 as u64);
        let high = rows.last().map_or(0, |row| row.0 as u64);
        Scale {
            low,
            high,
            is_logarithmic: high / WIDE >= low.max(1),
        }
    }

    fn measure(self, limit: u64) -> u64 {
        if self.is_logarithmic {
            logarithm(limit)
        } else {
            limit
        }
    }

    // How far right of the left edge of the picture a limit stands. One alone stands at the left edge of the plot.
    fn across(self, limit: u64) -> u64 {
        let low = self.measure(self.low);
        let span = self.measure(self.high).saturating_sub(low).max(1);
        let part = self.measure(limit).saturating_sub(low).min(span);
        LEFT + (WIDTH as u128 * part as u128 / span as u128) as u64
    }
}

// The shares that the picture shows, in hundredths of a percent: from a multiple of a step to another, at most five steps.
#[derive(Clone, Copy)]
struct Range {
    low: u64,
    high: u64,
    step: u64,
}

impl Range {
    // That of the smallest steps with these shares in it.
    fn new(least: u64, most: u64) -> Self {
        for step in [100, 200, 500, 1000] {
            let range = Range::of_step(step, least, most);
            if range.steps() <= 5 {
                return range;
            }
        }
        Range::of_step(2000, least, most)
    }

    fn of_step(step: u64, least: u64, most: u64) -> Self {
        let high = most.div_ceil(step.max(1)).max(1).saturating_mul(step);
        let low = least - least % step.max(1);
        Range {
            low: low.min(high.saturating_sub(step)),
            high,
            step,
        }
    }

    fn steps(self) -> u64 {
        self.high.saturating_sub(self.low) / self.step.max(1)
    }

    // How far below the upper edge of the picture a share stands.
    fn down(self, share: u64) -> u64 {
        let span = self.high.saturating_sub(self.low).max(1);
        let part = share.saturating_sub(self.low).min(span);
        TOP + HEIGHT - (HEIGHT as u128 * part as u128 / span as u128).min(HEIGHT as u128) as u64
    }
}

// A limit as it stands at the axis: with the largest of `K`, `M` and `G` that it reaches, and two decimals where it is no
// multiple of that, rounded down.
#[derive(Clone, Copy)]
struct Label {
    whole: u64,
    hundredths: Option<u64>,
    unit: &'static str,
}

impl Label {
    fn new(limit: u64) -> Self {
        for (bits, unit) in [(30u32, "G"), (20, "M"), (10, "K")] {
            let whole = limit >> bits;
            if whole > 0 {
                let rest = limit as u128 - ((whole as u128) << bits);
                let hundredths = ((rest * 100) >> bits) as u64;
                return Label {
                    whole,
                    hundredths: (rest > 0).then_some(hundredths),
                    unit,
                };
            }
        }
        Label {
            whole: limit,
            hundredths: None,
            unit: "",
        }
    }

    // Half of how wide it is at most.
    fn half(self) -> u64 {
        let digits = self.whole.max(1).ilog10() as u64 + 1;
        let behind = if self.hundredths.is_some() { 3 } else { 0 };
        (digits + behind + self.unit.len() as u64).saturating_mul(DIGIT) / 2
    }
}

impl Display for Label {
    fn fmt<W: fmt::Write>(&self, f: &mut fmt::Formatter<W>) -> fmt::Result {
        match self.hundredths {
            Some(hundredths) => write!(f, "{}.{hundredths:02}{}", self.whole, self.unit),
            None => write!(f, "{}{}", self.whole, self.unit),
        }
    }
}

impl<'a> Plot<'a> {
    ghost use Rattle.trace_player_inside.specs.Plots.{unit_of};

    /// The plot of these limits and tallies, which it brings into the order of the limits.
    pub fn new(rows: &'a mut [(usize, Tally)], counted: CountedUnit) -> Self
        ensures { unit_of result ≡ counted }
    {
        rows.sort_unstable_by_key(|row| row.0);
        let (mut least, mut most) = (10000, 0);
        for (_, tally) in rows.iter() {
            let (requests, bytes) = (Share::Requests.of(tally), Share::Bytes.of(tally));
            least = requests.min(bytes).min(least);
            most = requests.max(bytes).max(most);
        }
        Plot {
            rows,
            counted,
            limits: Scale::new(rows),
            shares: Range::new(least, most),
        }
    }

    // A curve, and a mark on it for each limit.
    fn write_curve<W: fmt::Write>(&self, f: &mut fmt::Formatter<W>, share: Share) -> fmt::Result {
        write!(f, "<polyline fill=\"none\" {} points=\"", share.line())?;
        for (limit, tally) in self.rows {
            let (x, y) = (
                self.limits.across(*limit as u64),
                self.shares.down(share.of(tally)),
            );
            write!(f, "{x},{y} ")?;
        }
        f.write_str("\"/>\n")?;
        for (limit, tally) in self.rows {
            let (x, y) = (
                self.limits.across(*limit as u64),
                self.shares.down(share.of(tally)),
            );
            write!(f, "<circle cx=\"{x}\" cy=\"{y}\" {}/>\n", share.mark())?;
        }
        Ok(())
    }

    // A mark for each limit, and its number where it does not touch the one before.
    fn write_limits<W: fmt::Write>(&self, f: &mut fmt::Formatter<W>) -> fmt::Result {
        let mut free = 0;
        for (limit, _) in self.rows {
            let x = self.limits.across(*limit as u64);
            write!(
                f,
                "<line x1=\"{x}\" x2=\"{x}\" y1=\"360\" y2=\"365\" stroke=\"#444\"/>\n"
            )?;
            let label = Label::new(*limit as u64);
            let half = label.half();
            if x.saturating_sub(half) >= free {
                free = x.saturating_add(half).saturating_add(DIGIT / 2);
                write!(
                    f,
                    "<text x=\"{x}\" y=\"379\" text-anchor=\"middle\">{label}</text>\n"
                )?;
            }
        }
        Ok(())
    }

    // A line for each step of the shares, and its number.
    fn write_shares<W: fmt::Write>(&self, f: &mut fmt::Formatter<W>) -> fmt::Result {
        for place in 0..=self.shares.steps() {
            let share = place
                .saturating_mul(self.shares.step)
                .saturating_add(self.shares.low);
            let y = self.shares.down(share);
            write!(
                f,
                "<line x1=\"70\" x2=\"590\" y1=\"{y}\" y2=\"{y}\" stroke=\"#ddd\"/>\n"
            )?;
            write!(
                f,
                "<text x=\"62\" y=\"{}\" text-anchor=\"end\">{}</text>\n",
                y.saturating_add(4),
                share / 100
            )?;
        }
        Ok(())
    }

    // What the picture shows, and what its axes are.
    fn write_names<W: fmt::Write>(&self, f: &mut fmt::Formatter<W>) -> fmt::Result {
        let requests = self.rows.first().map_or(0, |row| row.1.requests);
        write!(
            f,
            "<text x=\"330\" y=\"20\" text-anchor=\"middle\" font-size=\"14\">What a cache finds, by its limit: {requests} requests</text>\n"
        )?;
        f.write_str(
            "<text transform=\"rotate(-90)\" x=\"-210\" y=\"22\" text-anchor=\"middle\">share found, in percent",
        )?;
        if self.shares.low > 0 {
            write!(f, " (the axis begins at {})", self.shares.low / 100)?;
        }
        let counted = match self.counted {
            CountedUnit::Bytes => "bytes",
            CountedUnit::Objects => "objects",
        };
        let form = if self.limits.is_logarithmic {
            ", on a logarithmic scale"
        } else {
            ""
        };
        write!(
            f,
            "</text>\n<text x=\"330\" y=\"404\" text-anchor=\"middle\">limit in {counted}, where 1K is 1024{form}</text>\n"
        )
    }

    // A curve's name behind a piece of it.
    fn write_legend<W: fmt::Write>(
        &self,
        f: &mut fmt::Formatter<W>,
        share: Share,
        x: u64,
    ) -> fmt::Result {
        write!(
            f,
            "<line x1=\"{x}\" x2=\"{}\" y1=\"42\" y2=\"42\" {}/>\n",
            x.saturating_add(40),
            share.line()
        )?;
        write!(
            f,
            "<circle cx=\"{}\" cy=\"42\" {}/>\n",
            x.saturating_add(20),
            share.mark()
        )?;
        write!(
            f,
            "<text x=\"{}\" y=\"46\">{}</text>\n",
            x.saturating_add(48),
            share.name()
        )
    }
}

const HEAD: &str =
    "<svg xmlns=\"http://www.w3.org/2000/svg\" width=\"640\" height=\"420\" font-family=\"sans-serif\" font-size=\"11\">\n<rect width=\"640\" height=\"420\" fill=\"white\"/>\n";

const AXES: &str = "<polyline fill=\"none\" stroke=\"#444\" points=\"70,60 70,360 590,360\"/>\n";

impl Display for Plot<'_> {
    fn fmt<W: fmt::Write>(&self, f: &mut fmt::Formatter<W>) -> fmt::Result {
        f.write_str(HEAD)?;
        self.write_names(f)?;
        self.write_shares(f)?;
        f.write_str(AXES)?;
        self.write_limits(f)?;
        self.write_legend(f, Share::Requests, 70)?;
        self.write_curve(f, Share::Requests)?;
        if self.counted == CountedUnit::Bytes {
            self.write_legend(f, Share::Bytes, 320)?;
            self.write_curve(f, Share::Bytes)?;
        }
        f.write_str("</svg>\n")
    }
}
