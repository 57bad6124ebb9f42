//! Aligns decimal points by spaces after fields.

ghost use Rattle.std.specs.Prelude.{◌≡◌, ◌++◌, IfOk};
ghost use Rattle.std.specs.Cow.{cow_str_bytes};
ghost use Rattle.csv_tables.specs.Decimals.{has_points, is_narrow, spaced};
ghost use Rattle.comfy_parts.specs.Text.{spaces};

use crate::columns::seen_text;
use crate::options::ColumnPlan;
use comfy_parts::content_split::is_printable;
use csv_records::Points;
use std::alloc::{AllocError, Global};
use std::borrow::CowStr;

/// The greatest number of characters of a field whose decimal mark is put below other decimal
/// marks, or of a field that isn't broken over lines. A time stamp that isn't broken over lines may
/// have more.
pub(crate) const LONGEST_KEPT: usize = 25;

/// Returns true if a field has at most `LONGEST_KEPT` characters, all of them printable ASCII.
pub(crate) fn is_narrow(field: &str) -> bool
    ensures { result ≡ is_narrow field.now }
{
    field.len() <= LONGEST_KEPT && is_printable(field.as_bytes())
}

/// Returns true if at least one of `columns` has a decimal mark.
pub(crate) fn has_points(columns: &[ColumnPlan]) -> bool
    ensures { result ≡ has_points columns.now }
{
    columns.iter().any(|column| column.points.is_some())
}

/// The number of spaces after `field` that put its decimal mark below the other marks of the
/// column. 0 if `points` is `None`: the column then has no decimal mark. If `has_sequences` is
/// true, SGR sequences in the field don't count. The only error is that memory runs out.
#[inline(always)]
pub(crate) fn spaces_after(
    alloc: Global,
    points: Option<Points>,
    field: &str,
    has_sequences: bool,
) -> Result<usize, AllocError>
    ensures { IfOk result (λ count. field.now ++ spaces count
        ≡ spaced has_sequences points field.now) }
{
    let Some(points) = points else {
        return Ok(0);
    };
    let field = seen_text(alloc, field, has_sequences)?;
    Ok(points.trailing_spaces(field.as_str()))
}

/// Returns `text` followed by `count` spaces. The text isn't copied if `count` is 0. The only error
/// is that memory runs out.
pub(crate) fn with_spaces<'a>(
    alloc: Global,
    text: &'a str,
    count: usize,
) -> Result<CowStr<'a>, AllocError>
    ensures { IfOk result (λ made. cow_str_bytes made ≡ text.now ++ spaces count) }
{
    if count == 0 {
        return Ok(CowStr::Borrowed(text));
    }
    let mut made = String::from_str(alloc, text)?;
    for _ in 0..count {
        made.push(' ')?;
    }
    Ok(CowStr::Owned(made))
}
