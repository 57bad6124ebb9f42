//! Styles of cells that borrow their texts from the caller.

ghost use Rattle.std.specs.Prelude.{◌≡◌, ◌≤◌, IfOk, IfSome, length, true};
ghost use Rattle.comfy_table.specs.Styling.{all_attributes};
ghost use Rattle.comfy_table.specs.TextStyles.{styling};
ghost use Rattle.comfy_c.specs.Numbers.{attributes_by, color_of, look_alone};

use crate::cells_numbers::{ColorNumbers, LookNumbers, color_of, lent_attributes};
use crate::cells_rows::CellNumbers;
use comfy_table::for_records::TextStyle;
use std::alloc::{AllocError, Global};
use std::marker::Model;

// The greatest number of looks that `known_looks` returns.
const MOST: usize = 8;

/// The colours and attributes of some cells, both as the caller's numbers and as a style.
#[derive(Drop)]
pub(crate) struct KnownLook {
    look: LookNumbers,
    style: TextStyle<'static>,
}

impl Model for KnownLook {
    ghost use Rattle.std.specs.Prelude.{◌≡◌};
    ghost use Rattle.comfy_table.specs.TextStyles.{styling};
    ghost use Rattle.comfy_c.specs.Numbers.{look_alone};
    ghost use Rattle.comfy_c.specs.declared.cells_numbers.LookNumbers.{LookNumbers};

    ghost Value = { LookNumbers };

    ghost invariant = { λ k. styling k.style ≡ look_alone k.look };

    ghost view = { λ k. k.look };
}

impl KnownLook {
    // A look and its style; `None` if the look has several attributes.
    fn new(look: LookNumbers) -> Option<KnownLook>
        ensures { IfSome result (λ known. known ≡ look) }
    {
        let style = TextStyle {
            foreground: color_of(look.foreground),
            background: color_of(look.background),
            attributes: lent_attributes(look.attributes)?,
        };
        Some(KnownLook { look, style })
    }

    // The style of this known look, if `look` has the same colours and attributes. Otherwise
    // `None`.
    #[inline(always)]
    fn style_for<'a>(&'a self, look: &LookNumbers) -> Option<&'a TextStyle<'a>>
        ensures { IfSome result (λ style. styling style.now ≡ look_alone look.now) }
    {
        let own = &self.look;
        if own.attributes == look.attributes
            && is_same(own.foreground, look.foreground)
            && is_same(own.background, look.background)
        {
            Some(&self.style)
        } else {
            None
        }
    }
}

/// The different looks (alignment, colours and attributes) of these cells, at most 8 of them. Looks
/// without colours and attributes are left out, and so are looks with several attributes. The only
/// error is that memory ran out.
pub(crate) fn known_looks(
    alloc: Global,
    cells: &[CellNumbers],
) -> Result<Vec<KnownLook>, AllocError>
    ensures { IfOk result (λ looks. length looks.items ≤ 8) }
{
    let mut looks = Vec::new(alloc);
    for cell in cells {
        if looks.len() < MOST && !cell.look.is_plain() {
            if let Some(look) = further_look(looks.as_slice(), cell.look) {
                looks.push(look)?;
            }
        }
    }
    Ok(looks)
}

// The look with its style, if `looks` doesn't have it yet. `None` if `looks` has it, or if it has
// several attributes.
fn further_look(looks: &[KnownLook], look: LookNumbers) -> Option<KnownLook>
    ensures { IfSome result (λ known. known ≡ look) }
{
    if style_among(looks, &look).is_some() {
        return None;
    }
    KnownLook::new(look)
}

/// The style of a look, or `None` if `looks` doesn't have the look.
#[inline(always)]
pub(crate) fn style_among<'a>(
    looks: &'a [KnownLook],
    look: &LookNumbers,
) -> Option<&'a TextStyle<'a>>
    ensures { IfSome result (λ style. styling style.now ≡ look_alone look.now) }
{
    for known in looks {
        if let Some(style) = known.style_for(look) {
            return Some(style);
        }
    }
    None
}

// Returns true if two colours have the same numbers.
#[inline(always)]
fn is_same(one: ColorNumbers, other: ColorNumbers) -> bool
    ensures { result ≡ true → color_of one ≡ color_of other }
{
    one.kind == other.kind
        && one.number == other.number
        && one.red == other.red
        && one.green == other.green
        && one.blue == other.blue
}
