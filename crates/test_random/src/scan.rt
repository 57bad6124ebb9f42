//! The visible part of a text: its characters, and the SGR sequences that are open before each
//! character.

use comfy_table::Result;
use std::alloc::Global;

/// The truncation indicator of a new table: the character at the end of a cut text.
pub const INDICATOR: char = '…';

/// Reads one or several texts, and has the result.
#[derive(Drop)]
pub struct Scan {
    // true if sequences are read as sequences, and not as characters
    knows_sequences: bool,
    delimiter: char,
    // the parameters of the sequences that are open
    open: String,
    /// The visible characters that were read, except spaces, line feeds, the delimiter and `…`.
    /// Before each character are the parameters of the SGR sequences that are open before it, each
    /// between `<` and `>`.
    pub found: String,
    /// All visible characters that were read.
    pub visible: String,
    /// The number of visible characters that were read.
    pub count: usize,
}

impl Scan {
    /// Returns a `Scan` that hasn't read a text yet, with a space as the delimiter. If
    /// `knows_sequences` is true, SGR sequences aren't visible characters.
    pub fn new(alloc: Global, knows_sequences: bool) -> Scan {
        Scan {
            knows_sequences,
            delimiter: ' ',
            open: String::new(alloc),
            found: String::new(alloc),
            visible: String::new(alloc),
            count: 0,
        }
    }

    /// Returns the `Scan` of one text, in which SGR sequences aren't visible characters.
    pub fn of(alloc: Global, text: &str) -> Result<Scan> {
        let mut scan = Scan::new(alloc, true);
        scan.read(text)?;
        Ok(scan)
    }

    /// Forgets all that was read, and sets the delimiter for the next texts.
    pub fn begin(&mut self, delimiter: char) {
        self.delimiter = delimiter;
        self.open.clear();
        self.found.clear();
        self.visible.clear();
        self.count = 0;
    }

    /// Reads a text, and adds it to the result.
    pub fn read(&mut self, text: &str) -> Result<()> {
        let mut rest = text;
        for _ in 0..text.len() {
            rest = self.read_front(rest)?;
        }
        Ok(())
    }

    /// Returns true if an SGR sequence is open after the last character that was read.
    pub fn is_open(&self) -> bool {
        !self.open.is_empty()
    }

    /// Forgets the sequences that are open, as at the end of a line.
    pub fn forget_open(&mut self) {
        self.open.clear();
    }

    // reads the sequence or the character at the front of a text, if there is one, and returns the
    // rest
    fn read_front<'a>(&mut self, text: &'a str) -> Result<&'a str> {
        if self.knows_sequences
            && let Some((parameters, after)) = sequence_of(text)
        {
            self.open_or_close(parameters)?;
            return Ok(after);
        }
        let mut characters = text.chars();
        if let Some(character) = characters.next() {
            self.see(character)?;
        }
        Ok(characters.as_str())
    }

    fn see(&mut self, character: char) -> Result<()> {
        self.count = self.count.saturating_add(1);
        self.visible.push(character)?;
        if character == self.delimiter || matches!(character, ' ' | '\n' | INDICATOR) {
            return Ok(());
        }
        self.found.push_str(self.open.as_str())?;
        Ok(self.found.push(character)?)
    }

    fn open_or_close(&mut self, parameters: &str) -> Result<()> {
        if parameters == "0" {
            self.open.clear();
            return Ok(());
        }
        Ok(self.open.extend(["<", parameters, ">"])?)
    }
}

// the parameters of the sequence at the front of a text, and the rest
fn sequence_of<'a>(text: &'a str) -> Option<(&'a str, &'a str)> {
    let (parameters, after) = text.strip_prefix("\u{1b}[")?.split_once('m')?;
    let is_sequence = parameters
        .bytes()
        .all(|byte| matches!(byte, b'0'..=b'9' | b';' | b':'));
    is_sequence.then_some((parameters, after))
}
