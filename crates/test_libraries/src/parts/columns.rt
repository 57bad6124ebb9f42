//! Characters that fit, and presets whose characters take one terminal column.

use comfy_parts::content_split::characters_fit;
use comfy_parts::style::presets::ALL;

// Each text, a width in terminal columns, and true if each of the text's characters fits and no two
// selectors clash.
const FITTING: [(&str, usize, bool); 16] = [
    ("", 0, true),
    ("e\u{301}", 1, true),
    ("e", 0, false),
    ("年度", 2, true),
    ("年度", 1, false),
    // Arabic, Hebrew and Khmer, whose letters join
    ("\u{643}\u{62a}\u{627}\u{628}", 1, true),
    ("\u{5e9}\u{5dc}\u{5d5}\u{5dd}", 1, true),
    ("\u{1781}\u{17d2}\u{1798}\u{17c2}\u{179a}", 1, true),
    // the only character that takes three terminal columns
    ("\u{17d8}", 2, false),
    ("\u{17d8}", 3, true),
    // a family, a flag
    ("\u{1f468}\u{200d}\u{1f469}", 2, true),
    ("\u{1f1eb}\u{1f1f7}", 1, true),
    // the four pairs of selectors
    ("\u{2018}\u{fe0e}\u{fe01}\u{5dc}", 9, false),
    ("\u{2018}\u{fe0f}\u{fe01}\u{5dc}", 9, false),
    ("a\u{fe01}\u{fe0e}", 9, false),
    ("a\u{fe01}\u{fe0f}", 9, false),
];

#[test]
fn characters_fit_alone(rt: HostRuntime) {
    for (text, width, wanted) in &FITTING {
        assert!(rt; characters_fit(text, *width) == *wanted);
    }
}

#[test]
fn presets_are_of_one_column(rt: HostRuntime) {
    for (_, style) in &ALL {
        assert!(rt; style.is_one_column());
    }
}
