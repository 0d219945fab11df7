// Dispatches a line of `levels` by its kind.
ghost use Rattle.std.specs.Prelude.{◌≡◌, true, length};
ghost use Rattle.table.specs.Outcomes.{stores};
ghost use Rattle.levels_text.specs.Kinds.{letter_of};
ghost use Rattle.levels_text.specs.Lines.{is_form};
ghost use Rattle.levels_spec.specs.inner.Responses.{Serving};

use super::calls::{clear, compact, insert, merge_pending, open_table, remove_key, remove_row};
use super::queries::{query_listing, query_range, query_version};
use levels_spec::{Response, Served};
use levels_text::kind::Kind;
use table::Header;

// Runs a line of a valid form.
pub fn serve(
    h: Header,
    kind: Kind,
    numbers: &[u32],
    rows: &mut [u32],
    keys: &mut [u32],
    sorts: &mut [u32],
    pending: &mut [u32],
) -> Served
    requires { is_form (letter_of kind) (length numbers.now) ≡ true }
    ensures { Serving (letter_of kind) numbers.now (stores h rows.old keys.old sorts.old pending.old) (stores result.header rows.new keys.new sorts.new pending.new) result.response }
{
    match kind {
        Kind::Open => open_table(h, numbers, rows, keys, sorts, pending),
        Kind::Insert => insert(h, numbers, pending),
        Kind::RemoveKey => remove_key(h, numbers, pending),
        Kind::RemoveRow => remove_row(h, numbers, pending),
        Kind::Merge => merge_pending(h, rows, keys, sorts, pending),
        Kind::Clear => clear(h, keys),
        Kind::Compact => compact(h, rows, keys, sorts),
        Kind::Range => unchanged(h, query_range(h, numbers, sorts)),
        Kind::Version => unchanged(h, query_version(h)),
        Kind::List => unchanged(h, query_listing(false, h)),
        Kind::ListNumbered => unchanged(h, query_listing(true, h)),
    }
}

// A line that reads the table leaves its header.
fn unchanged(h: Header, response: Response) -> Served
    ensures header { result.header ≡ h }
    ensures response { result.response ≡ response }
{
    Served {
        header: h,
        response,
    }
}
