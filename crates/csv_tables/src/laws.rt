//! Laws: facts that are proved for every drawing. Each function does nothing. Its clauses are the
//! law, and a proof of yours can cite them.

ghost use Rattle.std.specs.Prelude.{Bool, List, Option, ℕ};
ghost use Rattle.comfy_parts.specs.Text.{Text};
ghost use Rattle.csv_tables.specs.Laws.{FittingOutputIsStraight, MarkdownOutputIsStraight, MarksAreLinedUp, NarrowOutputIsStraight, SpacesAloneAreAdded, WholeOutputIsStraight};
ghost use Rattle.csv_tables.specs.declared.options.Look.{Look};
ghost use Rattle.csv_tables.specs.declared.options.Layout.{Layout};
ghost use Rattle.csv_tables.specs.declared.options.ColumnPlan.{ColumnPlan};

/// Spaces after fields put decimal marks below each other, and fields aren't changed otherwise. In
/// a column with a decimal mark, the fraction of a field and the spaces after the field are
/// together equally long in each record. So all marks are equally far from the right side of the
/// column. Neutral fields, such as `n/a`, are exempt.
pub fn decimal_marks_are_lined_up()
    ensures spaces { (look : Look) (is_aligned : Bool) (column : ColumnPlan)
        (fields : List Text)
        → SpacesAloneAreAdded look is_aligned column fields }
    ensures marks { (fields : List Text) → MarksAreLinedUp fields }
{}

/// All lines of an output take the same number of terminal columns. If the header isn't bold, the
/// lines are equally wide as they are written. If the style has no control characters and no
/// characters that change the direction of text, the lines are equally wide without their SGR
/// sequences.
///
/// The law requires that each character of the style adds one terminal column, and that none is a
/// line feed. It also requires that the look's `has_sequences` is false. The law then holds in each
/// of these cases:
///
/// - No width is set, and each line of a text takes at most 65535 terminal columns, in any script.
///   If rows are cut to a greatest height, U+FE01 is nowhere directly next to U+FE0E or U+FE0F.
/// - No character takes more than one terminal column, whatever the width is.
/// - Each character of each text fits its column, whatever the width is.
///
/// The tables of all expanded records have the same width. The line above each expanded record,
/// such as `record 1 of 2`, and the note on records that aren't drawn don't count as lines here.
///
/// All lines of an output for Markdown, also the line below the header, are equally wide if each
/// line of a text takes at most 65535 terminal columns. The rest of the look doesn't matter.
pub fn outputs_are_straight()
    ensures whole { (visible : Bool)
        (counted : Option ℕ) (layout : Layout) (records : List (List Text)) (output : Text)
        → WholeOutputIsStraight visible counted layout records output }
    ensures markdown { (counted : Option ℕ) (layout : Layout) (records : List (List Text))
        (output : Text)
        → MarkdownOutputIsStraight counted layout records output }
    ensures narrow { (visible : Bool)
        (counted : Option ℕ) (layout : Layout) (records : List (List Text)) (output : Text)
        → NarrowOutputIsStraight visible counted layout records output }
    ensures characters_fit { (visible : Bool)
        (counted : Option ℕ) (layout : Layout) (records : List (List Text)) (output : Text)
        → FittingOutputIsStraight visible counted layout records output }
{}
