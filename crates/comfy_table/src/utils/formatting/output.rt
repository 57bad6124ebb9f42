//! The outputs that drawn lines are appended to.

ghost use Rattle.std.specs.Prelude.{◌≡◌, ◌++◌, ◌∷◌, [], OnErr, OnOk, string_bytes};
ghost use Rattle.comfy_table.specs.Output.{BeginsWith, with_lines};

use comfy_parts::Result;
use std::alloc::Global;
use std::marker::Model;

/// An output for drawn lines: a list of texts, or one text.
pub trait Output {
    ghost use Rattle.std.specs.Prelude.{List};
    ghost use Rattle.comfy_parts.specs.Text.{Text};

    // the type of the output's elements
    ghost Kept: { Type 0 };

    // the elements that the output has
    ghost kept: { Self → List Kept };

    // the elements that a line adds
    ghost kept_of: { Text → List Kept };

    /// Appends a drawn line. The only error is `OutOfMemory`. The output then still begins with its
    /// old content, after which it may have a part of the line.
    fn push_line(&mut self, line: &str) -> Result<()>
        ensures ok { OnOk result (kept self.new
            ≡ with_lines kept_of (line.now ∷ []) (kept self.old)) }
        ensures err { OnErr result (BeginsWith (kept self.new) (kept self.old)) };
}

/// Each line becomes an item of the list.
impl Output for Vec<String> {
    ghost use Rattle.std.specs.Prelude.{◌∷◌, [], map, string_bytes};
    ghost use Rattle.comfy_parts.specs.Text.{Text};

    ghost Kept = { Text };

    ghost kept = { λ lines. map string_bytes lines.items };

    ghost kept_of = { λ line. line ∷ [] };

    #[inline(always)]
    fn push_line(&mut self, line: &str) -> Result<()> {
        let own = String::from_str(*self.allocator(), line)?;
        self.push(own)?;
        Ok(())
    }
}

/// Each line is appended to the text, and followed by a line feed.
impl Output for String {
    ghost use Rattle.std.specs.Prelude.{◌++◌, ◌∷◌, [], ℕ, string_bytes};

    ghost Kept = { ℕ };

    ghost kept = { λ text. string_bytes text };

    ghost kept_of = { λ line. line ++ 0x0A ∷ [] };

    #[inline(always)]
    fn push_line(&mut self, line: &str) -> Result<()> {
        push_terminated(self, line)
    }
}

/// A text that consists of lines without their trailing white space, each followed by a line feed.
#[derive(Drop)]
pub struct TrimmedText {
    text: String,
}

impl Model for TrimmedText {
    ghost use Rattle.std.specs.Prelude.{string_bytes};
    ghost use Rattle.comfy_parts.specs.Text.{Text};

    ghost Value = { Text };

    ghost view = { λ t. string_bytes t.text };
}

impl TrimmedText {
    /// An empty text. The call takes no memory.
    pub fn new(alloc: Global) -> TrimmedText
        ensures { result ≡ [] }
    {
        TrimmedText {
            text: String::new(alloc),
        }
    }

    /// The text as a `String`. The text isn't copied.
    pub fn into_text(self) -> String
        ensures { string_bytes result ≡ self }
    {
        let TrimmedText { text } = self;
        text
    }
}

impl Output for TrimmedText {
    ghost use Rattle.std.specs.Prelude.{◌++◌, ◌∷◌, [], ℕ};
    ghost use Rattle.std.specs.Str.{trim_end};

    ghost Kept = { ℕ };

    ghost kept = { λ text. text };

    ghost kept_of = { λ line. trim_end line ++ 0x0A ∷ [] };

    #[inline(always)]
    fn push_line(&mut self, line: &str) -> Result<()> {
        push_terminated(&mut self.text, line.trim_end())
    }
}

// Appends a line and a line feed.
#[inline(always)]
fn push_terminated(text: &mut String, line: &str) -> Result<()>
    ensures ok { OnOk result (string_bytes text.new
        ≡ string_bytes text.old ++ (line.now ++ 0x0A ∷ [])) }
    ensures err { OnErr result (BeginsWith (string_bytes text.new) (string_bytes text.old)) }
{
    text.push_str(line)?;
    text.push('\n')?;
    Ok(())
}
