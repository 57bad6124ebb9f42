//! Pieces of random texts, and delimiters.

use comfy_table::Result;
use rand::RngExt;
use rand::seq::IndexedRandom;
use rand_pcg::Pcg32;
use std::alloc::Global;

// letters, spaces, wide characters, marks, joiners, flags, conjuncts, escape sequences and control
// characters
const PIECES: [&str; 28] = [
    "a",
    "bc",
    "longest",
    " ",
    "  ",
    "-",
    "\n",
    "年",
    "✅",
    "é",
    "e\u{301}",
    "\u{301}",
    "\u{200b}",
    "\u{200d}",
    "\u{fe0f}",
    "🇩🇪",
    "🇩",
    "👨\u{200d}👩\u{200d}👧",
    "👍🏽",
    "क्ष",
    "क्\u{200d}ष",
    "\u{1b}",
    "\u{1b}[31m",
    "\r",
    "\t",
    "\u{0}",
    "\u{7f}",
    "\u{feff}",
];

// the first 7 pieces are printable ASCII or line feeds
const PLAIN: usize = 7;

// SGR sequences, and parts of sequences
const SEQUENCES: [&str; 13] = [
    "\u{1b}[31m",
    "\u{1b}[0m",
    "\u{1b}[m",
    "\u{1b}[1;4:3m",
    "\u{1b}[00m",
    "\u{1b}[",
    "\u{1b}[1",
    "[",
    "m",
    "0m",
    ";",
    ":",
    "\u{1b}",
];

// the first 5 items of `SEQUENCES` are whole sequences
const WHOLE: usize = 5;

const DELIMITERS: [char; 15] = [
    ' ', '-', 'a', 'm', '[', '1', '年', '\u{301}', '\u{94d}', '\u{200b}', '\u{200d}', '🇩', '\u{1b}',
    '\r', '\u{0}',
];

// the first 6 delimiters are printable ASCII
const PLAIN_DELIMITERS: usize = 6;

const INDICATORS: [&str; 7] = [
    "\u{1b}[m",
    "\u{1b}[2m",
    "\u{1b}[",
    "[1m",
    "m",
    "\u{1b}[0mx\u{1b}[m",
    "",
];

/// The kind of texts in a random table.
#[derive(Clone, Copy)]
pub struct Kind {
    /// True if texts and delimiters are printable ASCII, except for line feeds and SGR sequences.
    pub is_printable: bool,
    /// True if texts have SGR sequences, which take no terminal columns. If `is_printable` is
    /// false, texts also have parts of sequences.
    pub has_sequences: bool,
}

impl Kind {
    /// Returns a random kind for the texts of the next table.
    pub fn new(rng: &mut Pcg32) -> Kind {
        let is_printable = once_in(rng, 3);
        let has_sequences = once_in(rng, 2);
        Kind {
            is_printable,
            has_sequences,
        }
    }
}

/// Makes a random text of this kind, from up to twelve pieces.
pub fn text(alloc: Global, rng: &mut Pcg32, kind: Kind) -> Result<String> {
    let mut text = String::new(alloc);
    for _ in 0..rng.random_range(0u32..13) {
        text.push_str(piece(rng, kind))?;
    }
    Ok(text)
}

fn piece(rng: &mut Pcg32, kind: Kind) -> &'static str {
    if kind.has_sequences && once_in(rng, 3) {
        one_of(rng, allowed(&SEQUENCES, WHOLE, kind), "")
    } else {
        one_of(rng, allowed(&PIECES, PLAIN, kind), "")
    }
}

/// Returns a random delimiter for texts of this kind.
pub fn delimiter(rng: &mut Pcg32, kind: Kind) -> char {
    one_of(rng, allowed(&DELIMITERS, PLAIN_DELIMITERS, kind), ' ')
}

// the first `plain` items if texts are printable, and otherwise all items
fn allowed<'a, T>(all: &'a [T], plain: usize, kind: Kind) -> &'a [T] {
    match all.get(..plain) {
        Some(front) if kind.is_printable => front,
        _ => all,
    }
}

/// Returns a random truncation indicator, other than that of a new table.
pub fn indicator(rng: &mut Pcg32) -> &'static str {
    one_of(rng, &INDICATORS, "")
}

/// Returns one of these values at random, or `otherwise` if there are no values.
pub fn one_of<T: Copy>(rng: &mut Pcg32, values: &[T], otherwise: T) -> T {
    values.choose(rng).copied().unwrap_or(otherwise)
}

/// Returns true once in `times` calls on average. Always returns false if `times` is 0.
pub fn once_in(rng: &mut Pcg32, times: u32) -> bool {
    if times == 0 {
        return false;
    }
    rng.random_range(0u32..times) == 0
}
