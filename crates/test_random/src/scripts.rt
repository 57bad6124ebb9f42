//! Words of many scripts for random texts.

use crate::texts::{once_in, one_of};
use comfy_table::Result;
use comfy_table::utils::formatting::content_split::characters_fit;
use rand::RngExt;
use rand_pcg::Pcg32;
use std::alloc::Global;

// words whose characters don't join others: Chinese, Japanese, Korean, Latin with marks, Greek,
// Cyrillic, Arabic without an alef, Hebrew without a lamed, Devanagari, Thai, Georgian, single
// emoji, and printable ASCII
const WORDS: [&str; 24] = [
    "年度报告",
    "東京タワー",
    "ひらがな",
    "ｶﾞ",
    "한국어",
    "naïve",
    "e\u{301}te\u{301}",
    "a\u{308}\u{323}",
    "Ωμέγα",
    "Привет",
    "سبعون",
    "שבת",
    "क्षेत्र",
    "हिन्दी",
    "ที่นี่",
    "กำลัง",
    "ქართული",
    "✅",
    "🎉🦀",
    "“quoted”",
    "２０２６",
    "1,204.50",
    "#7*",
    "word",
];

// words whose characters join others: Arabic with alefs, Hebrew with a lamed, Khmer, Tifinagh,
// Buginese, Lisu, Old Turkic, Kirat Rai, a struck letter, families, runs of one to seven halves of
// flags, skin tones, keycaps, selectors, U+00A0
const JOINED: [&str; 48] = [
    "كتاب",
    "السلام",
    "لا",
    "بلاد",
    "لِأَ",
    "إلى",
    "שלום",
    "ישראל",
    "א\u{200d}ל",
    "ភាសាខ្មែរ",
    "ក្ក",
    "ព្រះ\u{17d8}",
    "ⵜⴰⵎⴰⵣⵉⵖⵜ",
    "ⵜ\u{2d7f}ⵜ",
    "ⵜ\u{200d}ⵜⵣ",
    "ᨕᨗᨐ",
    "ᨕᨗ\u{200d}ᨐ",
    "ᨒᨚᨈᨑ",
    "ꓸꓼꓼ",
    "ꓺꓽ",
    "\u{10c32}\u{200d}\u{10c03}",
    "\u{16d63}\u{16d67}\u{16d67}",
    "\u{16d68}\u{16d67}\u{16d68}",
    "\u{16d69}\u{16d67}",
    "=\u{338}",
    "👨\u{200d}👩\u{200d}👧",
    "👩🏽\u{200d}🔬👨\u{200d}👦",
    "❤\u{fe0f}\u{200d}🔥",
    "🇩",
    "🇩🇪",
    "🇩🇪🇫",
    "🇩🇪🇫🇷",
    "🇩🇪🇫🇷🇯",
    "🇩🇪🇫🇷🇯🇵",
    "🇩🇪🇫🇷🇯🇵🇹",
    "🏴\u{e0067}\u{e0062}\u{e0065}\u{e006e}\u{e0067}\u{e007f}",
    "🏳\u{fe0f}\u{200d}🌈",
    "👍🏽",
    "👍🏽👍🏿👍",
    "1\u{fe0f}\u{20e3}",
    "*\u{20e3}#\u{fe0f}\u{20e3}",
    "❤\u{fe0f}",
    "☺\u{fe0e}☺\u{fe0f}",
    "✅\u{fe0e}✅",
    "“\u{fe01}”\u{fe00}",
    "3\u{a0}km",
    "🦀\u{a0}🦀",
    "\u{338}",
];

// texts that aren't words: parts of words above, joiners, selectors, parts of Hangul, control
// characters, and U+FE01 directly beside U+FE0E and U+FE0F, in each order
const WILD: [&str; 46] = [
    "🇩",
    "🏽",
    "👩\u{200d}",
    "\u{200d}👩",
    "\u{200d}",
    "\u{200d}🇩",
    "\u{20e3}",
    "\u{e007f}",
    "\u{e0067}",
    "\u{fe00}",
    "\u{fe01}",
    "\u{fe02}",
    "\u{fe0e}",
    "\u{fe0f}",
    "“\u{fe01}\u{fe0e}ا",
    "“\u{fe01}\u{fe0f}ا",
    "“\u{fe0e}\u{fe01}ا",
    "“\u{fe0f}\u{fe01}ا",
    "“",
    "❤",
    "ᄒ",
    "ᅡ",
    "ᆫ",
    "\u{301}",
    "\u{200b}",
    "\u{a0}",
    "\u{0}",
    "\u{7f}",
    "\r",
    "\t",
    "ل",
    "لِ",
    "ا",
    "א\u{200d}",
    "ל",
    "ក",
    "\u{17d2}",
    "\u{17d8}",
    "ⵜ",
    "\u{2d7f}",
    "ᨐ",
    "\u{16d67}",
    "\u{16d68}",
    "ꓼ",
    "\u{94d}",
    "\u{34f}",
];

const SEQUENCES: [&str; 4] = ["\u{1b}[31m", "\u{1b}[0m", "\u{1b}[1;4m", "\u{1b}[m"];

/// The kind of words in a random text.
#[derive(Clone, Copy)]
pub struct Words {
    /// True if each character of the words takes at most one terminal column.
    pub are_narrow: bool,
    /// True if a text also has pieces that aren't words, such as joiners, in any order. Spaces may
    /// then be missing between words.
    pub are_wild: bool,
    /// True if there are SGR sequences between words.
    pub have_sequences: bool,
}

/// Makes a random text of up to seven words of this kind. After each word is a space, or sometimes
/// a line feed, or nothing if `are_wild` is true.
pub fn text(alloc: Global, rng: &mut Pcg32, words: Words) -> Result<String> {
    let mut text = String::new(alloc);
    for _ in 0..rng.random_range(0u32..8) {
        text.extend([word(rng, words), sequence(rng, words), between(rng, words)])?;
    }
    Ok(text)
}

// a random word, or an empty one if words must be narrow and it isn't
fn word(rng: &mut Pcg32, words: Words) -> &'static str {
    let word = any_word(rng, words.are_wild);
    if words.are_narrow && !characters_fit(word, 1) {
        ""
    } else {
        word
    }
}

fn any_word(rng: &mut Pcg32, may_be_wild: bool) -> &'static str {
    if may_be_wild && once_in(rng, 3) {
        one_of(rng, &WILD, "")
    } else if once_in(rng, 2) {
        one_of(rng, &JOINED, "")
    } else {
        one_of(rng, &WORDS, "")
    }
}

fn sequence(rng: &mut Pcg32, words: Words) -> &'static str {
    if words.have_sequences && once_in(rng, 3) {
        one_of(rng, &SEQUENCES, "")
    } else {
        ""
    }
}

fn between(rng: &mut Pcg32, words: Words) -> &'static str {
    if words.are_wild && once_in(rng, 2) {
        ""
    } else if once_in(rng, 6) {
        "\n"
    } else {
        " "
    }
}
