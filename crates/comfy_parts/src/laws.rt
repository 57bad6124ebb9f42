//! Laws of wrapping beyond its definition, and laws of comparisons. Each function does nothing: its
//! clauses are the law. "Lines" are the lines that `split_line` returns, for every text, every
//! width `w` in terminal columns and every delimiter `d`. "Elements" are the parts of a text
//! between delimiters.

ghost use Rattle.std.specs.Prelude.{◌≡◌, All, true, ℕ, List, []};
ghost use Rattle.std.specs.Char.{IsScalar};
ghost use Rattle.std.specs.Cmp.{IsTotalOrder};
ghost use Rattle.comfy_parts.specs.CellEquality.{cell_eq, cell_hash};
ghost use Rattle.comfy_parts.specs.Columns.{FittingCharactersFit, FrameCharactersAddOneColumn, FrameTextsAreApart, HeadFits, IsOneColumnPreset, OneCharacterTakesThree, SpaceAddsOneColumn, TakesTwoAtMost, TextLinesFit, presets_all};
ghost use Rattle.comfy_parts.specs.Comparisons.{ascends, attribute_cmp, attribute_eq, attribute_hash, attributes_in_order, color_cmp, color_eq, color_hash, colors_in_order, EqHashesAlike, EqIsSame, EqualIsSame};
ghost use Rattle.comfy_parts.specs.Laws.{ActiveIsResumed, ClosedTextsLeaveNone, CutLinesAreFull, FittingLinesEndAtFirst, HeadIsLongest, IsCutOutsideNarrow, LinesAreFew, LinesAreFewest, LinesAreResumed, LinesAreVisible, LinesFit, LinesKeepTheText, NeighboursFillALine, NoneIsLeftOpen, OtherBytesAreVisible, PrintableClustersAreCharacters, PrintableAddsOneColumnEach, PrintableMeasuresItsLength, SequencesAreTakenOut, SequencesLeaveTheLines, WideElementsAreCut, WrappedIsOne, WrappedIsWrapped};
ghost use Rattle.comfy_parts.specs.Text.{Text};
ghost use Rattle.comfy_parts.specs.Wrapping.{IsWrapped};

/// The text, the width and the delimiter determine the list of wrapped lines. The lines are slices
/// of the text, in order. Only delimiters are left out before, between and after them.
pub fn wrapped_lines_are_one_list()
    ensures one { (w d : ℕ) (text : Text) (lines : List Text) → WrappedIsOne w d text lines }
    ensures some { (w d : ℕ) (text : Text) → WrappedIsWrapped w d text }
{}

/// A wrapped line of any text ends by the following rule. An element is a part of the text between
/// delimiters, and `w` is the width of a line. The head of an element for k terminal columns is its
/// longest prefix of whole grapheme clusters whose widths add up to at most k.
///
/// If the line's first element is wider than `w`, the line is the head of this element for `w`
/// terminal columns, or the element's first character if that head is empty.
///
/// If the line's first element isn't wider than `w`, the line takes whole elements, with the
/// delimiters between them. It takes them up to the first element after which one of these
/// conditions holds:
///
/// - more than `w - 2` terminal columns are filled
/// - no element is left
/// - the next element has no room after one terminal column for the delimiter
///
/// The line ends there, with one exception: the next element is wider than `w`, and at least four
/// terminal columns are free. Then the line also takes the delimiter, and the head of the next
/// element for all free columns except one.
pub fn lines_end_at_the_first_full_element()
    ensures fitting { (w d : ℕ) (text : Text) → FittingLinesEndAtFirst w d text }
    ensures wide { (w d : ℕ) (text : Text) → WideElementsAreCut w d text }
{}

/// An element, which is a part of a text between delimiters, isn't cut if it fits the width. After
/// each wrapped line the text ends, a delimiter follows, or the element at the line's end is wider
/// than the width.
#[tactic(auto, using(crate::proofs::UncutLemmas::is_cut_outside_narrow))]
pub fn narrow_elements_stay_whole()
    ensures { (w d : ℕ) (text : Text) (lines : List Text) → IsScalar d → IsWrapped w d text lines
        → IsCutOutsideNarrow w d [] text lines }
{}

/// A wrapped line isn't wider than the width, if text and delimiter are printable ASCII and the
/// width is at least 1.
#[tactic(auto, using(crate::proofs::CutLineLemmas::lines_fit))]
pub fn lines_fit()
    ensures { (w d : ℕ) (text : Text) (lines : List Text) → IsWrapped w d text lines
        → LinesFit w d text lines }
{}

/// Two neighbouring wrapped lines together are at least as wide as the width, if text and delimiter
/// are printable ASCII and the width is at least 1.
#[tactic(auto, using(crate::proofs::NeighbourLemmas::neighbours_fill_a_line))]
pub fn neighbours_fill_a_line()
    ensures { (w d : ℕ) (text : Text) (lines : List Text) → IsWrapped w d text lines
        → NeighboursFillALine w d text lines }
{}

/// A text of n characters is wrapped into at most 2 q + 1 lines, if text and delimiter are
/// printable ASCII and the width `w` is at least 1. Here q is n / w, rounded down.
#[tactic(auto, using(crate::proofs::NeighbourLemmas::lines_are_few))]
pub fn lines_are_few()
    ensures { (w d : ℕ) (text : Text) (lines : List Text) → IsWrapped w d text lines
        → LinesAreFew w d text lines }
{}

/// A wrapped line that ends inside an element fills the whole width, if text and delimiter are
/// printable ASCII and the width is at least 1. An element is a part of the text between
/// delimiters.
#[tactic(auto, using(crate::proofs::CutLineLemmas::cut_lines_are_full))]
pub fn cut_lines_are_full()
    ensures { (w d : ℕ) (text : Text) (lines : List Text) → IsWrapped w d text lines
        → CutLinesAreFull w d text lines }
{}

/// A text is wrapped into as few lines as possible, if text and delimiter are printable ASCII, the
/// width is at least 1, and each element fits a line. Elements are the parts of the text between
/// delimiters. No division of the text into lines that fit and that cut no element has fewer lines.
#[tactic(auto, using(crate::proofs::FewestLemmas::lines_are_fewest))]
pub fn lines_are_fewest()
    ensures { (w d : ℕ) (text : Text) (lines : List Text) → IsWrapped w d text lines
        → LinesAreFewest w d text lines }
{}

/// The head that `split_long_word` returns is the longest prefix of whole grapheme clusters whose
/// widths add up to at most the allowed width.
#[tactic(auto, using(crate::proofs::HeadLemmas::head_is_longest))]
pub fn head_is_longest()
    ensures { (k : ℕ) (text : Text) → HeadIsLongest k text }
{}

/// A space between any two texts adds one terminal column to their widths, in every script. Each
/// box or block character, `…`, and each printable ASCII character except `#`, `*` and the digits
/// adds one terminal column there too. If a text begins with such a character, its width and the
/// width of any text before it add up.
pub fn spaces_and_borders_add_one_column()
    ensures space { (front back : Text) → SpaceAddsOneColumn front back }
    ensures border { (c : ℕ) → FrameCharactersAddOneColumn c }
    ensures apart { (c : ℕ) (rest : Text) → FrameTextsAreApart c rest }
{}

/// U+17D8 by itself takes three terminal columns, and every other character by itself takes at most
/// two. So `characters_fit(text, 2)` is true if the text has no U+17D8, and if U+FE01 is never
/// directly next to U+FE0E or U+FE0F in it.
pub fn one_character_takes_three_columns()
    ensures three { OneCharacterTakesThree }
    ensures others { (c : ℕ) → TakesTwoAtMost c }
{}

/// Each character of each preset adds one terminal column between any two texts. The same holds for
/// presets with rounded corners, with solid inner borders, and with both.
pub fn preset_characters_take_one_column()
    ensures { All IsOneColumnPreset presets_all }
{}

/// Let a text line be wrapped at the width `w`. No line is wider than `w` under any of these
/// conditions. An element is a part of the text line between delimiters.
///
/// - The text line isn't wider than `w`.
/// - The delimiter adds one terminal column between any texts (`adds_one_column`). Each element
///   takes at most `w` terminal columns, or `characters_fit` is true for it.
/// - The delimiter adds one terminal column between any texts, and `characters_fit` is true for the
///   text line.
///
/// The head for k terminal columns, as `split_long_word` returns it, measures at most k, if U+FE01
/// is never directly next to U+FE0E or U+FE0F in the text.
pub fn lines_of_fitting_texts_fit()
    ensures lines { (w d : ℕ) (text : Text) → TextLinesFit w d text }
    ensures characters { (w d : ℕ) (text : Text) → FittingCharactersFit w d text }
    ensures heads { (k : ℕ) (text : Text) → HeadFits k text }
{}

/// A printable ASCII text takes one terminal column for each of its bytes, and each of its
/// characters is a grapheme cluster.
pub fn printable_measures_its_length()
    ensures measure { (text : Text) → PrintableMeasuresItsLength text }
    ensures clusters { (text : Text) → PrintableClustersAreCharacters text }
{}

/// A truncation indicator of printable ASCII adds one terminal column for each of its characters,
/// if it follows a printable ASCII text.
pub fn printable_adds_one_column_each()
    ensures { (indicator : Text) → PrintableAddsOneColumnEach indicator }
{}

/// The lines of a cell have all characters of its text lines except delimiters, in the same order.
/// Text lines are the parts of the cell's text between line feeds, and each text line is wrapped
/// into lines.
#[tactic(auto, using(crate::proofs::KeptLemmas::lines_keep_the_text))]
pub fn lines_keep_the_text()
    ensures { (w d : ℕ) (text_lines : List Text) → LinesKeepTheText w d text_lines }
{}

/// The visible text of a text, which is the text without its colour sequences, is found in one
/// pass. A sequence at the front is left out, any other first byte is visible, and the pass
/// continues with the rest of the text.
pub fn sequences_are_taken_out_in_one_pass()
    ensures sequence { (code rest : Text) → SequencesAreTakenOut code rest }
    ensures visible { (b : ℕ) (rest : Text) → OtherBytesAreVisible b rest }
{}

/// The lines of a cell with colour sequences are the lines of its visible texts, which are its text
/// lines without the sequences. The text that is written for a line, without its sequences, is that
/// line.
pub fn sequences_take_no_columns()
    ensures lines { (w d : ℕ) (text_lines : List Text) → LinesAreVisible w d text_lines }
    ensures written { (w d : ℕ) (text_lines : List Text) → SequencesLeaveTheLines w d text_lines }
{}

/// No colour sequence is open at the end of the text that is written for a line, even if the line
/// is cut by its row's greatest height. A sequence is open until the next `ESC[0m`.
pub fn lines_leave_no_sequence_open()
    ensures lines { (w d : ℕ) (text_lines : List Text) → NoneIsLeftOpen w d text_lines }
    ensures cut { (text : Text) → ClosedTextsLeaveNone text }
{}

/// In the text that is written for a line, the same colour sequences are open before each visible
/// character as in the text of the line's cell. A sequence is open until the next `ESC[0m`, also in
/// later text lines of the cell.
pub fn active_sequences_are_resumed()
    ensures text { (earlier : List Text) (text : Text) (start len k : ℕ)
        → ActiveIsResumed earlier text start len k }
    ensures lines { (w d : ℕ) (text_lines : List Text) → LinesAreResumed w d text_lines }
{}

/// Two cells are equal exactly if their text lines and their settings are the same. Equal cells
/// have equal hashes.
pub fn cells_are_equal_by_their_values()
    ensures eq { EqIsSame cell_eq }
    ensures hash { EqHashesAlike cell_eq cell_hash }
{}

/// `==` and the order of attributes call two attributes equal exactly if they are the same. The
/// order is total and transitive: it is the order in which `Attribute` declares its variants. Equal
/// attributes have equal hashes.
pub fn attributes_are_ordered()
    ensures eq { EqIsSame attribute_eq }
    ensures equal { EqualIsSame attribute_cmp }
    ensures order { IsTotalOrder attribute_cmp }
    ensures ascends { ascends attribute_cmp attributes_in_order ≡ true }
    ensures hash { EqHashesAlike attribute_eq attribute_hash }
{}

/// `==` and the order of colours call two colours equal exactly if they are the same. The order is
/// total and transitive: it is the order in which `Color` declares its variants. Equal colours have
/// equal hashes.
pub fn colors_are_ordered()
    ensures eq { EqIsSame color_eq }
    ensures equal { EqualIsSame color_cmp }
    ensures order { IsTotalOrder color_cmp }
    ensures ascends { (r g b v : ℕ) → ascends color_cmp (colors_in_order r g b v) ≡ true }
    ensures hash { EqHashesAlike color_eq color_hash }
{}
