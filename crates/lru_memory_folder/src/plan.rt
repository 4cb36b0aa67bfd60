//! The plan of failures, call by call.
ghost use Rattle.std.specs.Prelude.{◌≡◌};
ghost use Rattle.lru_memory_folder.specs.Plans.{fate, MovesOn};

use crate::calls::Plan;

/// Whether the next call fails, and after how many bytes of a piece. The call counts.
pub(crate) fn next_fate(plan: &mut Plan) -> Option<usize>
    ensures fate { result ≡ fate plan.old 0 }
    ensures counted { MovesOn plan.old plan.new }
{
    match *plan {
        Plan::Works => None,
        Plan::FailsAt(0, part) => {
            *plan = Plan::Works;
            Some(part)
        }
        Plan::StopsAt(0, part) => Some(part),
        Plan::FailsAt(n, part) => {
            *plan = Plan::FailsAt(n - 1, part);
            None
        }
        Plan::StopsAt(n, part) => {
            *plan = Plan::StopsAt(n - 1, part);
            None
        }
    }
}
