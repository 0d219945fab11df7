// Queries over a borrowed subset as C lends it: a flag, two ends and a list. Each makes it a `Subset` and calls the query.
#![tactic(auto)]

ghost use Rattle.offsets.specs.Answers.{lent_subset};
ghost use Rattle.query_spec.specs.Queries.{RefinedOne, RefinedList, Matched, PageRead};

use constraints::Constraint;
use offsets::{Subset, SubsetForm, SubsetRef};
use query_spec::Page;
use refusals::Refusal;
use table::Header;

pub fn refine_one(
    h: Header,
    rows: &[u32],
    lent: SubsetRef,
    c: Constraint,
    out: &mut [u32],
) -> Result<SubsetForm, Refusal>
    ensures { RefinedOne h rows.now (lent_subset lent.entry) c out.old result out.new }
{
    query::refine_one(h, rows, Subset::from(lent), c, out)
}

pub fn refine_ref(
    h: Header,
    rows: &[u32],
    lent: SubsetRef,
    conditions: &[Constraint],
    out: &mut [u32],
) -> Result<SubsetForm, Refusal>
    ensures { RefinedList h rows.now (lent_subset lent.entry) conditions.now out.old result out.new }
{
    query::refine_ref(h, rows, Subset::from(lent), conditions, out)
}

pub fn contains_match(
    h: Header,
    rows: &[u32],
    lent: SubsetRef,
    conditions: &[Constraint],
) -> Result<bool, Refusal>
    ensures { Matched h rows.now (lent_subset lent.entry) conditions.now result }
{
    query::contains_match(h, rows, Subset::from(lent), conditions)
}

pub fn read_page(
    h: Header,
    rows: &[u32],
    lent: SubsetRef,
    start: u32,
    n: usize,
    conditions: &[Constraint],
    out: &mut [u32],
) -> Result<Page, Refusal>
    ensures { PageRead h rows.now (lent_subset lent.entry) start n conditions.now out.old result out.new }
{
    query::read_page(h, rows, Subset::from(lent), start, n, conditions, out)
}
