//! Policies beside one another, as a table.
ghost use Rattle.std.specs.Prelude.{◌≡◌, ◌≤◌, ℕ, max, length, IfOk, IsTrue};
ghost use Rattle.std.specs.List.{All};

use crate::future::only_size;
use crate::player::Request;
use crate::policies::{MANY, POLICIES, Policy, Refusal, hits};
use crate::table::Percent;
use std::alloc::Global;
use std::fmt;
use std::fmt::Display;

/// How many requests found their object under a limit, by each of `POLICIES` in their order.
#[derive(Clone, Copy, Debug, PartialEq, Eq)]
pub struct HitsRow {
    /// The limit.
    pub limit: usize,
    /// The hits.
    pub hits: [u64; MANY],
}

/// The row of a limit.
///
/// # Errors
///
/// As for `hits`.
pub fn row_of(alloc: Global, limit: usize, requests: &[Request]) -> Result<HitsRow, Refusal>
    ensures limit { IfOk result (λ row. row.limit ≡ limit) }
    ensures hits { IfOk result (λ row. All (λ n. n ≤ length requests.now) row.hits) }
{
    Ok(HitsRow {
        limit,
        hits: [
            hits(alloc, POLICIES[0], limit, requests)?,
            hits(alloc, POLICIES[1], limit, requests)?,
            hits(alloc, POLICIES[2], limit, requests)?,
            hits(alloc, POLICIES[3], limit, requests)?,
            hits(alloc, POLICIES[4], limit, requests)?,
            hits(alloc, POLICIES[5], limit, requests)?,
        ],
    })
}

/// Whether the optimum of a trace is told exactly: where all objects have one size. Else it is a bound.
pub fn is_exact(requests: &[Request]) -> bool
    ensures { IsTrue result → (size : ℕ) × All (λ q. max q.size 1 ≡ size) requests.now }
{
    match only_size(requests) {
        Some(_) => true,
        None => requests.is_empty(),
    }
}

/// What a policy is called in a table.
#[derive(Clone, Copy)]
pub struct Name {
    /// The policy.
    pub policy: Policy,
    /// Whether the optimum is told exactly, or is a bound.
    pub is_exact: bool,
}

impl Display for Name {
    fn fmt<W: fmt::Write>(&self, f: &mut fmt::Formatter<W>) -> fmt::Result {
        if self.policy == Policy::Optimum && !self.is_exact {
            return f.write_str("bound");
        }
        write!(f, "{}", self.policy)
    }
}

/// The line above a table.
#[derive(Clone, Copy)]
pub struct Head {
    /// Whether the optimum is told exactly, or is a bound.
    pub is_exact: bool,
}

impl Display for Head {
    fn fmt<W: fmt::Write>(&self, f: &mut fmt::Formatter<W>) -> fmt::Result {
        f.write_str("limit")?;
        let is_exact = self.is_exact;
        for policy in POLICIES {
            write!(f, " {}%", Name { policy, is_exact })?;
        }
        Ok(())
    }
}

/// A line of a table: a limit, and the share of the requests that each policy found.
#[derive(Clone, Copy)]
pub struct TableLine<'a> {
    /// The row.
    pub row: &'a HitsRow,
    /// How many requests were played.
    pub requests: usize,
}

impl Display for TableLine<'_> {
    fn fmt<W: fmt::Write>(&self, f: &mut fmt::Formatter<W>) -> fmt::Result {
        write!(f, "{}", self.row.limit)?;
        for part in self.row.hits {
            let whole = self.requests as u64;
            write!(f, " {}", Percent { part, whole })?;
        }
        Ok(())
    }
}
