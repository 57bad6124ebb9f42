//! The colours and attributes of a text.

ghost use Rattle.std.specs.Prelude.{◌≡◌, [], None, false};
ghost use Rattle.comfy_parts.specs.CellValue.{plain_cell};
ghost use Rattle.comfy_table.specs.TextStyles.{style_alone, styling};

use comfy_parts::Cell;
use comfy_parts::style::{Attribute, Color};

/// The colours and attributes in which a text is written.
#[derive(Clone, Copy)]
pub struct TextStyle<'a> {
    /// The colour of the text; `None` if it isn't set.
    pub foreground: Option<Color>,
    /// The colour of the background; `None` if it isn't set.
    pub background: Option<Color>,
    /// The attributes of the text, such as `Attribute::Bold`, in any order.
    pub attributes: &'a [Attribute],
}

impl<'a> TextStyle<'a> {
    /// A style without colours and attributes.
    pub fn none() -> TextStyle<'a>
        ensures { styling result ≡ plain_cell [] }
    {
        TextStyle {
            foreground: None,
            background: None,
            attributes: &[],
        }
    }

    /// The colours and attributes of a cell.
    pub fn of(cell: &'a Cell) -> TextStyle<'a>
        ensures { styling result ≡ style_alone cell.now }
    {
        TextStyle {
            foreground: cell.foreground(),
            background: cell.background(),
            attributes: cell.attributes(),
        }
    }
}
