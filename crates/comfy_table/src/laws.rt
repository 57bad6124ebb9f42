//! Laws: facts that hold for all tables, and that no clause of a function of `Table` states. Each
//! function here does nothing. Its clauses are the law, so a caller's proof gets the law by calling
//! the function. `IsArranged table widths` means that the columns of a table have these content
//! widths, which `arrange_content` returns. The laws of wrapping are re-exported here too.
//!
//! A column is *shown* if it isn't hidden. In the laws of widths, the *content* of a column is the
//! width of its widest text line, at most 65535 terminal columns. The *room* is the table's width
//! less the borders and the paddings of the shown columns.

ghost use Rattle.std.specs.Prelude.{ℕ, Bool, List};
ghost use Rattle.comfy_parts.specs.CellValue.{CellValue, ColumnInfo, ColumnValue, NoFewerColumns, RowValue};
ghost use Rattle.comfy_parts.specs.Text.{AddsOneColumnEach, Text};
ghost use Rattle.comfy_parts.specs.declared.style.table_style.LineStyle.{LineStyle};
ghost use Rattle.comfy_parts.specs.declared.style.table_style.TableStyle.{TableStyle};
ghost use Rattle.comfy_table.specs.AddedRows.{DrawingIsOne, RowIsAddedBelow, ShownLinesStay};
ghost use Rattle.comfy_table.specs.FittingTables.{FittingTablesAreStraight};
ghost use Rattle.comfy_table.specs.HiddenColumns.{HiddenColumnsChangeNothing, IsDrawnWithoutHidden};
ghost use Rattle.comfy_table.specs.Laws.{CellKeepsItsText, DynamicIsOne, FillsWidth, IsFreeOfControls, IsFreeOfEscapes, JoinedLinesAreFound, KeepsToWidth, NoLinesAreOneEmptyLine, TerminatedLinesAreFound};
ghost use Rattle.comfy_table.specs.NewTables.{NewTablesAreStraight, NewTablesLeaveNoneOpen};
ghost use Rattle.comfy_table.specs.Parts.{AllRowsAreTheTable, PartHasLinesOfTable, PartIsUnstyled};
ghost use Rattle.comfy_table.specs.TableLaws.{FillsWiderTotal, FrameCounts, FrameFillsWidth, FrameKeepsToWidth, IsAtMostThreeOver, KeepsToWiderTotal, KeepsToWiderTotalInFull, ShrinkingKeepsCells, TableIsFull, TableIsLevelled, TableKeepsContents, TableLevelIsBest};
ghost use Rattle.comfy_table.specs.TableValue.{TableValue, ellipsis};
ghost use Rattle.comfy_table.specs.Widths.{ColumnNeeds};

pub use comfy_parts::laws::{
    active_sequences_are_resumed, attributes_are_ordered, cells_are_equal_by_their_values,
    colors_are_ordered, cut_lines_are_full, head_is_longest, lines_are_few, lines_are_fewest,
    lines_end_at_the_first_full_element, lines_fit, lines_keep_the_text,
    lines_leave_no_sequence_open, lines_of_fitting_texts_fit, narrow_elements_stay_whole,
    neighbours_fill_a_line, one_character_takes_three_columns, preset_characters_take_one_column,
    printable_adds_one_column_each, printable_measures_its_length,
    sequences_are_taken_out_in_one_pass, sequences_take_no_columns,
    spaces_and_borders_add_one_column, wrapped_lines_are_one_list,
};

/// The number of columns after columns are appended for a row of n cells is n, or the number
/// before, if that is greater.
#[tactic(auto, using(comfy_parts::proofs::CallerLemmas::no_fewer_columns))]
pub fn columns_only_grow()
    ensures { (n : ℕ) (columns : List ColumnValue) → NoFewerColumns n columns }
{}

/// The number of characters of a frame line is the number of its border characters plus the widths
/// of the shown columns with their paddings, whatever the texts are.
#[tactic(auto, using(crate::proofs::TableLemmas::frame_counts))]
pub fn frame_lines_have_one_count()
    ensures { (table : TableValue) (widths : List ℕ) (line : LineStyle)
        → FrameCounts table widths line }
{}

/// Let W be the table's width, and let no shown column have a constraint. Let F be the number of
/// border and padding characters in a line, plus one for each shown column. Under `Dynamic` a frame
/// line has at most max(W, F) characters. Under `DynamicFullWidth` a frame line has exactly max(W,
/// F) characters, if a column is shown.
pub fn frame_lines_keep_to_the_width()
    ensures dynamic { (table : TableValue) (w : ℕ) (widths : List ℕ) (line : LineStyle)
        → FrameKeepsToWidth table w widths line }
    ensures full { (table : TableValue) (w : ℕ) (widths : List ℕ) (line : LineStyle)
        → FrameFillsWidth table w widths line }
{}

/// Let lines without line feeds be joined by line feeds. If there is at least one line, splitting
/// the joined text at line feeds gives the lines again. No lines give the same joined text as one
/// empty line. If instead each line is followed by a line feed, splitting that text gives the
/// lines, and an empty text after the last line.
pub fn lines_are_found_in_their_texts()
    ensures joined { (lines : List Text) → JoinedLinesAreFound lines }
    ensures none { NoLinesAreOneEmptyLine }
    ensures terminated { (lines : List Text) → TerminatedLinesAreFound lines }
{}

/// Shown texts, style and truncation indicator have no ESC if they have no control character,
/// because ESC is a control character. Therefore the lines without their SGR sequences are the
/// drawing without colours and attributes: see the field `sequences.without_sequences` of
/// `IsTableDrawing`.
pub fn tables_without_controls_have_no_escape()
    ensures { (table : TableValue) → IsFreeOfControls table → IsFreeOfEscapes table }
{}

/// A table is straight (`IsStraightTable`), so that all its lines are equally wide, under these
/// conditions:
///
/// - Each character of a shown text is at most as wide as its column, and U+FE01 is nowhere
///   directly next to U+FE0E or U+FE0F.
/// - Each delimiter and each character of the style adds one terminal column.
/// - Vertical lines are drawn, or each shown column has a padding on its left, or each has one on
///   its right.
/// - No row has a greatest height, or the truncation indicator adds its own width to any text
///   before it.
pub fn tables_of_fitting_characters_are_straight()
    ensures { (table : TableValue) (lines : List Text) → FittingTablesAreStraight table lines }
{}

/// The truncation indicator of a new table adds one terminal column after any printable ASCII text.
#[tactic(auto, using(crate::proofs::EllipsisLemmas::ellipsis_adds))]
pub fn the_ellipsis_adds_one_column()
    ensures { AddsOneColumnEach ellipsis }
{}

/// All lines of a new table with a header and rows take the same number of terminal columns, for
/// texts of every script. The conditions are: each character of the style adds one terminal column,
/// no row has a greatest height, and no text line takes more than 65535 terminal columns.
pub fn new_tables_are_straight()
    ensures { (style : TableStyle) (header : RowValue) (rows : List RowValue) (lines : List Text)
        → NewTablesAreStraight style header rows lines }
{}

/// No line of a new table with `custom_styling`, a header and rows leaves an SGR sequence open,
/// whatever the texts are. The condition is that the style has no ESC.
pub fn new_tables_leave_no_sequence_open()
    ensures { (style : TableStyle) (header : RowValue) (rows : List RowValue) (lines : List Text)
        → NewTablesLeaveNoneOpen style header rows lines }
{}

/// Let W be the table's width, and let no shown column have a constraint. Let F be the terminal
/// columns of borders and paddings, plus one for each shown column. Under `Dynamic` the borders and
/// the widths of the shown columns, with paddings, are together at most max(W, F). Under
/// `DynamicFullWidth` this sum is exactly max(W, F), if a column is shown.
pub fn widths_keep_to_the_width()
    ensures dynamic { (table : TableValue) (w : ℕ) (widths : List ℕ) → KeepsToWidth table w widths }
    ensures full { (table : TableValue) (w : ℕ) (widths : List ℕ) → FillsWidth table w widths }
{}

/// This law is `widths_keep_to_the_width` for columns with any constraints. Let W be the table's
/// width. Let T be the terminal columns of borders and paddings, plus a number for each shown
/// column. If a column's constraint fixes its width, the number is this width without paddings. If
/// a column's lower boundary decides its width, the number is the boundary without paddings. For
/// any other column the number is 1. A lower boundary decides a width if it is greater than the
/// average width that is left for the columns without a decided width when its column is tried.
/// Under `Dynamic` the borders and the widths of the shown columns, with paddings, are together at
/// most max(W, T). Under `DynamicFullWidth` this sum is exactly max(W, T), if a column is shown.
pub fn widths_keep_to_the_wider_total()
    ensures dynamic { (table : TableValue) (w : ℕ) (widths : List ℕ)
        → KeepsToWiderTotal table w widths }
    ensures full_at_most { (table : TableValue) (w : ℕ) (widths : List ℕ)
        → KeepsToWiderTotalInFull table w widths }
    ensures full { (table : TableValue) (w : ℕ) (widths : List ℕ) → FillsWiderTotal table w widths }
{}

/// The widths under `Dynamic` and `DynamicFullWidth` are unique: two lists of widths that the steps
/// of `IsDynamicLayout` allow are equal.
pub fn dynamic_widths_are_one_list()
    ensures { (room : ℕ) (columns : List ColumnNeeds) (full : Bool) (widths others : List ℕ)
        → DynamicIsOne room columns full widths others }
{}

/// Let no shown column have a constraint, and let at least one column be shown. If the room is less
/// than one terminal column for each shown column, all widths are 1. Otherwise there is a number of
/// terminal columns, the *level*. It is at least the room divided by the number of shown columns,
/// rounded down. Under `Dynamic`, a column whose content is at most the level is as wide as its
/// content, but at least 1. Any other column is at least as wide as the level, or it is *shrunk*:
/// it may then be narrower than the level. A shrunk column is as wide as the longest of the lines
/// into which its cells are wrapped at some width of at least the level, but at least 1. Under
/// `DynamicFullWidth` the room that is left is then added evenly to these widths.
pub fn dynamic_widths_are_levelled()
    ensures dynamic { (table : TableValue) (w : ℕ) (widths : List ℕ)
        → TableIsLevelled table w widths }
    ensures full { (table : TableValue) (w : ℕ) (widths : List ℕ) → TableIsFull table w widths }
{}

/// The level of the law `dynamic_widths_are_levelled` can't be raised by one terminal column. Let
/// the conditions of that law for `Dynamic` hold, and let the content of some shown column be wider
/// than the level. Give each shown column its content, or the level plus 1 if that is less, but at
/// least 1. The room isn't enough for these widths.
#[tactic(auto, using(crate::proofs::TableLemmas::table_level_is_best))]
pub fn the_level_is_the_best()
    ensures { (table : TableValue) (w level : ℕ) (widths : List ℕ)
        → TableLevelIsBest table w level widths }
{}

/// Let no shown column have a constraint, and let the sum of the contents of the shown columns be
/// at most the room. A content of 0 counts as 1. Then `Dynamic` makes each shown column as wide as
/// its content, but at least 1.
pub fn contents_that_fit_are_kept()
    ensures { (table : TableValue) (w : ℕ) (widths : List ℕ) → TableKeepsContents table w widths }
{}

/// Let texts and delimiters be printable ASCII, let no shown column have a constraint, and let the
/// table's width be at most 65535. Then `Dynamic` makes no shown column more than three terminal
/// columns wider than its content.
pub fn columns_are_at_most_three_wider()
    ensures { (table : TableValue) (w : ℕ) (widths : List ℕ) → IsAtMostThreeOver table w widths }
{}

/// Let the texts and delimiters of a column be printable ASCII, and let the longest of its wrapped
/// lines leave at least three terminal columns of the column free. Make the column as narrow as
/// this line, but at least 1 terminal column wide. Its cells then have the same lines, except for
/// at most one delimiter at the end of each line.
#[tactic(auto, using(crate::proofs::ColumnLemmas::shrinking_keeps_cells))]
pub fn shrinking_keeps_the_lines()
    ensures { (table : TableValue) (p : ℕ × ColumnValue) (b : ℕ) → ShrinkingKeepsCells table p b }
{}

/// The lines of a cell have all characters of its text in order, except for delimiters, if no
/// greatest height cuts the cell. With `custom_styling`, lines and text count without their SGR
/// sequences. A cell is drawn as these lines with paddings and spaces, and with SGR sequences if
/// colours and attributes are written.
#[tactic(auto, using(crate::proofs::KeptLemmas::cell_keeps_its_text))]
pub fn cells_keep_their_text()
    ensures { (table : TableValue) (row : RowValue) (info : ColumnInfo) (cell : CellValue)
        → CellKeepsItsText table row info cell }
{}

/// A table has only one drawing: two lists of lines that the clauses of `Table::lines` allow are
/// equal.
pub fn drawings_are_one()
    ensures { (table : TableValue) (lines others : List Text) → DrawingIsOne table lines others }
{}

/// The lines that a table already had don't change if a row is added at its end. The lines of the
/// new row come directly above the bottom border, after a row separator if the table already had a
/// row. Each cell of the new row must have a column. The law holds for two drawings with the same
/// widths of columns. It also holds for all drawings of a table that keeps to no width, as under
/// `Disabled`. No cell of the new row may then be wider than the content of its column.
pub fn shown_lines_stay()
    ensures same_widths { (table : TableValue) (row : RowValue) (widths : List ℕ)
        → RowIsAddedBelow table row widths }
    ensures by_content { (table : TableValue) (row : RowValue) (lines others : List Text)
        → ShownLinesStay table row lines others }
{}

/// A table has the same drawing as it would have without its hidden columns and their cells.
/// Therefore tables that differ only in hidden columns and their cells have the same lines.
pub fn hidden_columns_change_nothing()
    ensures removed { (table : TableValue) (lines : List Text) → IsDrawnWithoutHidden table lines }
    ensures same { (table other : TableValue) (lines others : List Text)
        → HiddenColumnsChangeNothing table other lines others }
{}

/// A part of a table has only some of its rows, one after another, but the widths of the whole
/// table. Each line of a part is a line of the whole table. So a property of all lines of the table
/// also holds for all lines of the part. Leaving out colours and attributes first, and then taking
/// the part, gives the same as the other way round. The part with all rows is the whole table.
pub fn parts_have_lines_of_the_table()
    ensures lines { (table : TableValue) (infos : List ColumnInfo) (first count : ℕ)
        → PartHasLinesOfTable table infos first count }
    ensures unstyled { (table : TableValue) (first count : ℕ) → PartIsUnstyled table first count }
    ensures whole { (table : TableValue) (count : ℕ) → AllRowsAreTheTable table count }
{}
