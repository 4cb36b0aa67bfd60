//! A plot of what each policy finds, as SVG.

use crate::compared::{HitsRow, Name, is_exact};
use crate::player::Request;
use crate::policies::{POLICIES, Policy};
use std::fmt;
use std::fmt::Display;

// Where the plot stands in the picture of 640 times 420: its left and its upper edge, its width and its height.
const LEFT: u64 = 70;

const TOP: u64 = 60;

const WIDTH: u64 = 520;

const HEIGHT: u64 = 300;

/// A curve for each policy, of the share of the requests that it finds against the limits, which stand at even distances. The
/// optimum, or the bound, is a thin line of dashes above the others.
#[derive(Clone, Copy)]
pub struct Curves<'a> {
    name: &'a str,
    rows: &'a [HitsRow],
    requests: u64,
    is_exact: bool,
}

fn line_of(policy: Policy) -> &'static str {
    match policy {
        Policy::Lru => "stroke-width=\"2\" stroke=\"#1f77b4\"",
        Policy::Fifo => "stroke-width=\"2\" stroke=\"#d95f02\"",
        Policy::Segmented(tenths) => {
            if tenths < 6 {
                "stroke-width=\"2\" stroke=\"#9467bd\""
            } else {
                "stroke-width=\"2\" stroke=\"#e377c2\""
            }
        }
        Policy::Admission => "stroke-width=\"2\" stroke=\"#2ca02c\"",
        Policy::Optimum => "stroke-width=\"1\" stroke=\"#444\" stroke-dasharray=\"6 4\"",
    }
}

// Writes a text so that no letter of it is read as a mark of the picture.
fn write_plain<W: fmt::Write>(f: &mut fmt::Formatter<W>, text: &str) -> fmt::Result {
    for letter in text.chars() {
        match letter {
            '&' => f.write_str("&amp;")?,
            '<' => f.write_str("&lt;")?,
            '>' => f.write_str("&gt;")?,
            _ => f.write_char(letter)?,
        }
    }
    Ok(())
}

impl<'a> Curves<'a> {
    /// The curves of rows of one trace.
    pub(crate) fn new(name: &'a str, requests: &[Request], rows: &'a [HitsRow]) -> Self {
        Curves {
            name,
            rows,
            requests: requests.len() as u64,
            is_exact: is_exact(requests),
        }
    }

    // How far right of the left edge of the picture a row stands.
    fn across(self, place: usize) -> u64 {
        let spans = (self.rows.len() as u64).saturating_sub(1).max(1);
        LEFT + (WIDTH as u128 * (place as u64).min(spans) as u128 / spans as u128) as u64
    }

    // How far below the upper edge a share of the requests stands.
    fn down(self, hits: u64) -> u64 {
        let whole = self.requests.max(1);
        let found = HEIGHT as u128 * hits.min(whole) as u128 / whole as u128;
        TOP + HEIGHT - found.min(HEIGHT as u128) as u64
    }

    fn write_curve<W: fmt::Write>(
        &self,
        f: &mut fmt::Formatter<W>,
        place: usize,
        policy: Policy,
    ) -> fmt::Result {
        write!(f, "<polyline fill=\"none\" {} points=\"", line_of(policy))?;
        for (across, row) in self.rows.iter().enumerate() {
            let hits = row.hits.get(place).copied().unwrap_or(0);
            write!(f, "{},{} ", self.across(across), self.down(hits))?;
        }
        f.write_str("\"/>\n")?;
        let (column, line) = (place as u64 % 3, (place as u64 / 3).min(1));
        let (left, level) = (LEFT + 180 * column, 36 + 14 * line);
        let is_exact = self.is_exact;
        let name = Name { policy, is_exact };
        write!(
            f,
            "<line x1=\"{left}\" x2=\"{}\" y1=\"{level}\" y2=\"{level}\" {}/>\n<text x=\"{}\" y=\"{}\">{}</text>\n",
            left + 30,
            line_of(policy),
            left + 36,
            level + 4,
            name
        )
    }

    fn write_axes<W: fmt::Write>(&self, f: &mut fmt::Formatter<W>) -> fmt::Result {
        for share in [0u64, 20, 40, 60, 80, 100] {
            let y = (TOP + HEIGHT).saturating_sub(share.saturating_mul(3));
            write!(
                f,
                "<line x1=\"70\" x2=\"590\" y1=\"{y}\" y2=\"{y}\" stroke=\"#ddd\"/>\n<text x=\"62\" y=\"{}\" text-anchor=\"end\">{share}</text>\n",
                y.saturating_add(4)
            )?;
        }
        for (place, row) in self.rows.iter().enumerate() {
            let x = self.across(place);
            write!(
                f,
                "<text x=\"{x}\" y=\"379\" text-anchor=\"middle\">{}</text>\n",
                row.limit
            )?;
        }
        f.write_str(
            "<polyline fill=\"none\" stroke=\"#444\" points=\"70,60 70,360 590,360\"/>\n<text x=\"330\" y=\"404\" text-anchor=\"middle\">limits, at even distances</text>\n<text transform=\"rotate(-90)\" x=\"-210\" y=\"22\" text-anchor=\"middle\">requests found, in percent</text>\n",
        )
    }
}

impl Display for Curves<'_> {
    fn fmt<W: fmt::Write>(&self, f: &mut fmt::Formatter<W>) -> fmt::Result {
        f.write_str(
            "<svg xmlns=\"http://www.w3.org/2000/svg\" width=\"640\" height=\"420\" font-family=\"sans-serif\" font-size=\"11\">\n<rect width=\"640\" height=\"420\" fill=\"white\"/>\n<text x=\"330\" y=\"20\" text-anchor=\"middle\" font-size=\"14\">",
        )?;
        write_plain(f, self.name)?;
        write!(f, ": {} requests</text>\n", self.requests)?;
        self.write_axes(f)?;
        for (place, policy) in POLICIES.iter().enumerate() {
            self.write_curve(f, place, *policy)?;
        }
        f.write_str("</svg>\n")
    }
}
