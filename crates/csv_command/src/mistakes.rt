//! Messages about words that are no number, no encoding or no delimiter, and about options of other
//! programs.

ghost use Rattle.std.specs.Prelude.{◌≡◌, IfOk, Some, map, option_map, string_bytes};
ghost use Rattle.csv_command.specs.Mistakes.{encoding_reason, given, in_one_word, is_number_to, number_reason, reason_elsewhere, reason_of, split_letter, with_value, wrong_delimiter, wrong_value};

use crate::options::{greatest_number, is_encoding};
use std::alloc::{AllocError, Global};

/// The message about a word that can't be a delimiter. The only error is that memory runs out.
pub(crate) fn reason_of_delimiter(alloc: Global, word: &str) -> Result<String, AllocError>
    ensures { IfOk result (λ reason. string_bytes reason ≡ wrong_delimiter word.now) }
{
    format!(in alloc;
        "a delimiter is `tab`, `spaces`, `auto` or one ASCII character other than a quote or a \
         line end, not '{word}'"
    )
}

/// The message about the first word that isn't the number or the encoding that its option takes, or
/// `None` if there is no such word. The only error is that memory runs out.
pub(crate) fn reason_of_value(
    alloc: Global,
    arguments: &[&str],
) -> Result<Option<String>, AllocError>
    ensures { IfOk result (λ reason. option_map string_bytes reason
        ≡ wrong_value (map (λ w. w.now) arguments.now)) }
{
    let mut rest = arguments;
    while let [option, ..] = rest {
        if *option == "--" {
            return Ok(None);
        }
        let (option, word) = given(option, &rest[1..]);
        if let Some(reason) = reason_of(alloc, option, word)? {
            return Ok(Some(reason));
        }
        rest = &rest[1..];
    }
    Ok(None)
}

// An option and its value, which is in the same word, or is the next word. Without a next word, the
// value is empty.
fn given<'a>(option: &'a str, rest: &[&'a str]) -> (&'a str, &'a str)
    ensures { (result.0.now, result.1.now) ≡ given option.now (map (λ w. w.now) rest.now) }
{
    match (in_one_word(option), rest) {
        (Some(both), _) => both,
        (None, [word, ..]) => (option, *word),
        (None, []) => (option, ""),
    }
}

// An option and its value in one word, as `--width=5`, `-w=5` and `-w5`.
fn in_one_word(word: &str) -> Option<(&str, &str)>
    ensures { option_map (λ it. (it.0.now, it.1.now)) result ≡ in_one_word word.now }
{
    match word.split_once('=') {
        Some(both) => Some(both),
        None => word.strip_prefix('-').and_then(split_letter),
    }
}

// An option of one letter and its value, in one word without its hyphen, as `w5` and `w=5`.
fn split_letter(rest: &str) -> Option<(&str, &str)>
    ensures { option_map (λ it. (it.0.now, it.1.now)) result ≡ split_letter rest.now }
{
    match (
        rest.strip_prefix('w'),
        rest.strip_prefix('m'),
        rest.strip_prefix('n'),
        rest.strip_prefix('e'),
    ) {
        (Some(value), _, _, _) => with_value("-w", value),
        (None, Some(value), _, _) => with_value("-m", value),
        (None, None, Some(value), _) => with_value("-n", value),
        (None, None, None, Some(value)) => with_value("-e", value),
        (None, None, None, None) => None,
    }
}

// An option and the text after it; `None` if this text is empty.
fn with_value<'a>(option: &'a str, value: &'a str) -> Option<(&'a str, &'a str)>
    ensures { option_map (λ it. (it.0.now, it.1.now)) result ≡ with_value option.now value.now }
{
    (!value.is_empty()).then_some((option, value))
}

// The message about an option and the word after it, if the word isn't the number or the encoding
// that the option takes. There are also messages about options of other programs that limit
// records, wrap, sort or filter.
fn reason_of(alloc: Global, option: &str, word: &str) -> Result<Option<String>, AllocError>
    ensures { IfOk result (λ reason. option_map string_bytes reason
        ≡ reason_of option.now word.now) }
{
    match (greatest_number(option), option) {
        (Some(greatest), _) if !word.is_empty() && !is_number_to(greatest, word) => {
            Ok(Some(number_reason(alloc, option, greatest, word)?))
        }
        (None, "-n" | "--head" | "--max-rows" | "--nrows" | "--rows")
            if is_number_to(usize::MAX, word) => {
            Ok(Some(format!(in alloc;
                "for the first records type --limit {word}; -n means no header"
            )?))
        }
        (None, "-e" | "--encoding") => reason_of_encoding(alloc, word),
        (None, _) => match reason_elsewhere(option) {
            Some(reason) => Ok(Some(String::from_str(alloc, reason)?)),
            None => Ok(None),
        },
        _ => Ok(None),
    }
}

// The message about an option that other programs have for wrapping, sorting or filtering.
fn reason_elsewhere(option: &str) -> Option<&'static str>
    ensures { option_map (λ reason. reason.now) result ≡ reason_elsewhere option.now }
{
    match option {
        "--no-wrap" => Some(NO_WRAP),
        "--sort" => Some(SORT),
        "--filter" => Some(FILTER),
        _ => None,
    }
}

// The message about a word that is no encoding.
#[tactic(auto, unfolding(crate::specs::Mistakes::encoding_reason))]
fn reason_of_encoding(alloc: Global, word: &str) -> Result<Option<String>, AllocError>
    ensures { IfOk result (λ reason. option_map string_bytes reason ≡ encoding_reason word.now) }
{
    if word.is_empty() || is_encoding(word) {
        return Ok(None);
    }
    Ok(Some(format!(in alloc;
        "csvtable reads utf-8, utf-16 and cp1252; for others try iconv -f {word} FILE | csvtable"
    )?))
}

// The message about an option of other programs against wrapping.
const NO_WRAP: &str = "-w 0 wraps nothing; -m 1 draws each row on one line";

// The message about an option of other programs for sorting.
const SORT: &str = "csvtable doesn't sort; try mlr --csv sort -nr COLUMN FILE | csvtable";

// The message about an option of other programs that selects records.
const FILTER: &str = "csvtable doesn't filter; try mlr --csv filter '$COLUMN < 0' FILE | csvtable";

// Returns true if a word is a number up to `greatest`.
fn is_number_to(greatest: usize, word: &str) -> bool
    ensures { result ≡ is_number_to greatest word.now }
{
    match word.parse::<usize>() {
        Ok(number) => number <= greatest,
        Err(_) => false,
    }
}

fn number_reason(
    alloc: Global,
    option: &str,
    greatest: usize,
    word: &str,
) -> Result<String, AllocError>
    ensures { IfOk result (λ text. string_bytes text
        ≡ number_reason option.now greatest word.now) }
{
    format!(in alloc; "{option} takes a number from 0 to {greatest}, not '{word}'")
}
