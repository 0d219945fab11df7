// A query with a list of conditions in an array.
ghost use Rattle.std.specs.Prelude.{◌≤◌, take};
ghost use Rattle.offsets.specs.Answers.{subset_of};
ghost use Rattle.query_spec.specs.Queries.{RefinedList};

use super::refine_ref;
use constraints::Constraint;
use constraints::decode::MOST_CONDITIONS;
use offsets::{Subset, SubsetForm};
use refusals::Refusal;
use table::Header;

// Refines by the first `count` conditions of an array.
pub fn refine_first(
    h: Header,
    rows: &[u32],
    subset: Subset,
    conditions: [Constraint; MOST_CONDITIONS],
    count: usize,
    out: &mut [u32],
) -> Result<SubsetForm, Refusal>
    requires { count ≤ 16 }
    ensures { RefinedList h rows.now (subset_of subset.entry) (take count conditions) out.old result out.new }
{
    refine_ref(h, rows, subset, &conditions[..count], out)
}
