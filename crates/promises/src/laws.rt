//! Laws for callers' proofs: all promises of one drawing, and how to meet their conditions. Each
//! function here does nothing. Its clauses are the law.

ghost use Rattle.std.specs.Prelude.{◌≡◌, All, IsUtf8, List, Option, decimal, true, ℕ};
ghost use Rattle.comfy_parts.specs.CellValue.{ColumnInfo, RowValue, plain_cell};
ghost use Rattle.comfy_parts.specs.Columns.{CharactersFit, IsApart, IsOneColumnStyle, has_frame_characters};
ghost use Rattle.comfy_parts.specs.declared.style.table.ContentArrangement.{ContentArrangement};
ghost use Rattle.comfy_parts.specs.declared.style.table_style.TableStyle.{TableStyle};
ghost use Rattle.comfy_parts.specs.Text.{Text, is_printable_ascii};
ghost use Rattle.comfy_table.specs.Headline.{IsTableDrawing};
ghost use Rattle.comfy_table.specs.TableValue.{TableValue, ellipsis, with_header, with_rows};
ghost use Rattle.promises.specs.Conditions.{HasNewFrame, IsEmpty, IsOfRows, PartsMakeTheWhole, RowsAreFramed};
ghost use Rattle.promises.specs.Promises.{KeepsPromises};
ghost use Rattle.promises.specs.Rows.{IsNarrowCell, KeepsRows, table_of};
ghost use Rattle.promises.specs.Tables.{HasPlainFrame};

/// The drawn lines of a table keep every promise of this crate that is about a single drawing
/// (`KeepsPromises`). The promises of the module `others` are about two drawings. With this law a
/// caller's proof can use several promises on the same drawing.
pub fn drawings_keep_the_promises()
    ensures { (table : TableValue) (lines : List Text) → IsTableDrawing table lines
        → KeepsPromises table lines }
{}

/// The lines of a new table with a header and rows keep the promises of `KeepsRows`: they are
/// equally wide, fit or fill a width, and show all texts. The conditions are on the style, the
/// header and the rows alone.
pub fn tables_of_rows_keep_the_promises()
    ensures { (style : TableStyle) (arrangement : ContentArrangement) (width : Option ℕ)
        (header : RowValue) (rows : List RowValue) (lines : List Text) → IsOneColumnStyle style
        → IsTableDrawing (table_of style arrangement width header rows) lines
        → KeepsRows style arrangement width header rows lines }
{}

/// A cell of a printable ASCII text, for which nothing is set, is narrow (`IsNarrowCell`). A narrow
/// cell has no delimiter of its own, and each character of its text takes at most one terminal
/// column, as `characters_fit` tests.
#[tactic(auto, using(crate::proofs::ConditionLemmas::narrow_cell))]
pub fn printable_texts_are_narrow()
    ensures { (text : Text) → is_printable_ascii text ≡ true → IsNarrowCell (plain_cell text) }
{}

/// The characters of each text line of a text fit w terminal columns, as `characters_fit` tests, if
/// the characters of the text do. Text lines are the parts between line feeds.
#[tactic(auto, using(crate::proofs::FittingTextLemmas::fitting_lines))]
pub fn fitting_texts_have_fitting_lines()
    ensures { (w : ℕ) (text : Text) → IsUtf8 text → CharactersFit w text
        → All (CharactersFit w) (plain_cell text).text_lines }
{}

/// The text that `Display` writes for an unsigned integer is printable ASCII.
#[tactic(auto, using(crate::proofs::ConditionLemmas::printable_number))]
pub fn numbers_are_printable()
    ensures { (n : ℕ) → is_printable_ascii (decimal n) ≡ true }
{}

/// The frame of a table is plain (`HasPlainFrame`) under two conditions. The table has the columns,
/// delimiters and truncation indicator of a new table, and each character of its style adds one
/// terminal column. New columns have no constraint.
pub fn new_frames_are_plain()
    ensures { (table : TableValue) → HasNewFrame table → HasPlainFrame table }
{}

/// The truncation indicator of a new table, `…`, adds its own width to any text before it.
#[tactic(auto, using(crate::proofs::ConditionLemmas::ellipsis_apart))]
pub fn the_ellipsis_is_apart()
    ensures { IsApart ellipsis }
{}

/// Each character of a style adds one terminal column if `TableStyle::is_one_column` is true.
pub fn frame_characters_make_plain_styles()
    ensures { (style : TableStyle) → has_frame_characters style ≡ true → IsOneColumnStyle style }
{}

/// A table that was empty has exactly the header and the rows that are added to it, in order. Each
/// of their cells has a column, and all columns have default settings.
#[tactic(auto, using(crate::proofs::ConditionLemmas::of_rows))]
pub fn rows_are_below_each_other()
    ensures { (base : TableValue) (header : RowValue) (rows : List RowValue) → IsEmpty base
        → IsOfRows base header rows (with_rows rows (with_header header base)) }
{}

/// A part of a table is drawn as its rows inside the frame of the whole table: below the top border
/// and the header, and above the bottom border. Let parts of at least one row each have all rows of
/// the table, in order. Then their rows, with a row separator between two parts, make the whole
/// drawing inside the same frame.
pub fn parts_are_framed_rows()
    ensures part { (table : TableValue) (infos : List ColumnInfo) (rows : List RowValue)
        → RowsAreFramed table infos rows }
    ensures whole { (table : TableValue) (infos : List ColumnInfo) (parts : List (List RowValue))
        → PartsMakeTheWhole table infos parts }
{}
