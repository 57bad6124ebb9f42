//! Outputs of two pieces: the written bytes if there is no memory for the second piece, or no room.

ghost use Rattle.std.specs.Prelude.{◌++◌, ⊤, false};
ghost use Rattle.comfy_parts.specs.TextPieces.{text_left};

use crate::support::{assert_bytes, sink_of};
use comfy_parts::pieces::Pieces;
use devices::{MemorySource, Render, Rendered, Stop, run};
use std::alloc::{AllocError, Global};

// Two texts, the second of which can be refused.
#[derive(Drop)]
struct TwoTexts {
    first: Option<String>,
    second: Option<String>,
    is_refused: bool,
}

impl Pieces for TwoTexts {
    ghost rest = { λ t. text_left t.first ++ text_left t.second };

    ghost is_whole = { false };

    fn next_piece(&mut self) -> Result<Option<String>, AllocError> {
        if let Some(piece) = self.first.take().filter(|text| !text.is_empty()) {
            return Ok(Some(piece));
        }
        let Some(piece) = self.second.next_piece()? else {
            return Ok(None);
        };
        if self.is_refused {
            self.second = None;
            return Err(AllocError);
        }
        Ok(Some(piece))
    }
}

// A renderer that gives two texts for any input.
#[derive(Drop)]
struct Twofold {
    is_refused: bool,
}

impl Render for Twofold {
    type Error = AllocError;

    type Output = TwoTexts;

    type Findings = ();

    ghost is_not_enough = { λ _ _. ⊤ };

    ghost is_output = { λ _ _ _ _. ⊤ };

    ghost are_findings = { λ _ _ _ _. ⊤ };

    ghost is_refusal = { λ _ _ _ _. ⊤ };

    fn render(&self, alloc: Global, _input: Vec<u8>) -> Result<Rendered<TwoTexts, ()>, AllocError> {
        let pieces = TwoTexts {
            first: Some(String::from_str(alloc, "first\n")?),
            second: Some(String::from_str(alloc, "second\n")?),
            is_refused: self.is_refused,
        };
        Ok(Rendered {
            pieces,
            findings: (),
        })
    }

    fn render_beginning(
        &self,
        _alloc: Global,
        _read: &[u8],
    ) -> Option<Result<Rendered<TwoTexts, ()>, AllocError>> {
        None
    }
}

// True if the second text is refused, the sink's room, and the call at which it fails; then the end
// of the run, and the written bytes.
const CASES: [(bool, usize, u64, &str, &str); 5] = [
    (false, 64, 0, "all", "first\nsecond\n"),
    (true, 64, 0, "unfinished", "first\n"),
    (false, 64, 2, "no sink", "first\n"),
    (false, 9, 0, "no sink", "first\nsec"),
    (true, 3, 0, "no sink", "fir"),
];

fn ending_of(ended: &Result<(), Stop<AllocError>>) -> &'static str {
    match ended {
        Ok(()) => "all",
        Err(Stop::Unfinished) => "unfinished",
        Err(Stop::Write) => "no sink",
        Err(_) => "before all pieces",
    }
}

#[test]
fn pieces_are_written_as_they_come(rt: HostRuntime) {
    for (is_refused, room, fails_at, ending, written) in &CASES {
        let drawing = Twofold {
            is_refused: *is_refused,
        };
        let mut source = MemorySource::new(b"", 0);
        let mut sink = sink_of(&rt, *room, *fails_at);
        let result = run(rt.alloc(), &mut source, &mut sink, &drawing);
        assert!(rt; ending_of(&result) == *ending);
        assert_bytes(&rt, sink.bytes(), written);
    }
}
