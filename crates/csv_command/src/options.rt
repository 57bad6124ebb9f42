//! The options of the program, as a table for clap.

ghost use Rattle.std.specs.Prelude.{◌≡◌, IfOk, Some, map};
ghost use Rattle.std.specs.List.{list_any};
ghost use Rattle.clap.specs.Words.{app_of, rule_of};
ghost use Rattle.clap.specs.declared.builder.value_parser.ValueParser.TheVariants as vp;
ghost use Rattle.csv_command.specs.Mistakes.{greatest_number, greatest_read, greatest_within, is_called, is_encoding, is_long, is_name_of, is_short};
ghost use Rattle.csv_command.specs.Program.{IsCsvtable, bare};
ghost use Rattle.csv_command.specs.Rules.{lettered, rule_for, with_values};
ghost use Rattle.csv_command.specs.Styles.{is_named, style_names};

use crate::styles::is_named;
use clap::{Arg, ArgAction, Command, value_parser};
use std::alloc::{AllocError, Global};

// An option of the program, or its file.
#[derive(Clone, Copy)]
struct OptionSpec {
    name: &'static str,
    letter: Option<char>,
    kind: Kind,
    // the name of the option's value in the help text
    value: &'static str,
    help: &'static str,
    // the heading above the option in the help text
    heading: &'static str,
}

#[derive(Clone, Copy)]
enum Kind {
    // a value without a name before it
    File,
    // a name without a value
    Flag,
    // a letter without a name and without a value
    Letter,
    Text,
    Width,
    Count,
    Style,
    When,
    Encoding,
}

// The options of a table. Each row has a heading, a name, a letter, a kind, a value and a help
// text.
macro_rules! option_table {
    ($($heading:literal, $name:literal, $letter:expr, $kind:ident, $value:literal,
        $help:literal;)*) => {
        [$(OptionSpec {
            name: $name,
            letter: $letter,
            kind: Kind::$kind,
            value: $value,
            help: $help,
            heading: $heading,
        }),*]
    };
}

static OPTIONS: [OptionSpec; 26] = option_table! {
    "Input", "file", None, File, "FILE", "The file to read; `-` or none for standard input";
    "Input", "delimiter", Some('d'), Text, "CHAR",
        "The field delimiter: a character, `tab`, `spaces`,\n\
         or `auto`, which finds it [default: auto]";
    "Input", "tabs", Some('t'), Letter, "", "Same as `-d tab`";
    "Input", "encoding", Some('e'), Encoding, "NAME",
        "The encoding: utf-8, utf-16 or cp1252\n\
         [default: by a byte order mark, else utf-8]";
    "Input", "no-quotes", None, Flag, "", "Treat quotes as ordinary characters";
    "Input", "skip", None, Count, "N", "Skip the first N lines";
    "Input", "no-header", Some('n'), Flag, "", "Draw the first record as a row, not as the header";
    "Input", "limit", None, Count, "N", "Draw the first N records, and note if there are more";
    "Input", "count", None, Flag, "", "With --limit: read on, and note how many there are";
    "Columns", "number", Some('l'), Flag, "", "Draw the number of each record in a first column, #";
    "Columns", "columns", Some('c'), Text, "LIST",
        "Draw these columns, in this order: numbers, names or\n\
         ranges, as in `name,3-5,7-`";
    "Columns", "drop", None, Text, "LIST", "Leave out these columns";
    "Columns", "right", Some('r'), Text, "LIST",
        "Right-align these columns, as columns of numbers are";
    "Columns", "left", None, Text, "LIST", "Left-align these columns, even if they hold numbers";
    "Columns", "no-decimal", None, Flag, "", "Don't align decimal points";
    "Layout", "width", Some('w'), Width, "N",
        "The greatest width, in terminal columns; 0 for none\n\
         [default: that of the terminal, else none]";
    "Layout", "full", None, Flag, "", "Fill the width, even if less is needed";
    "Layout", "all-expanded", Some('x'), Letter, "", "Same as `--expanded always`";
    "Layout", "expanded", None, When, "WHEN",
        "Draw records as names and fields: always, never, or\n\
         auto, if columns would be too narrow [default: auto]";
    "Output", "style", Some('s'), Style, "NAME",
        "The frame: a style from the list below [default: rounded]";
    "Output", "rows", None, Flag, "", "Draw lines between rows, if the style has them";
    "Output", "no-rows", None, Flag, "", "Draw no lines between rows";
    "Layout", "max-height", Some('m'), Count, "N",
        "Draw at most N lines of each row, and `…` if it has\n\
         more; `-m 1` draws each row on one line";
    "Output", "markdown", None, Flag, "", "Draw a table for Markdown";
    "Output", "color", None, When, "WHEN",
        "Draw the header in bold: always, never, or auto, which\n\
         means in a terminal without NO_COLOR [default: auto]";
    "Output", "ansi", None, Flag, "", "Keep the colours of fields; they don't count in widths";
};

static AFTER_HELP: &str = "\
Examples:
  csvtable -e cp1252 --skip 4 bank.csv        a bank's file
  csvtable -c name,3-5 --limit 20 big.csv     some columns of the first records
  csvtable -m 1 -w 100 notes.csv              one line for each row
  csvtable --markdown list.csv                a table for a README

Styles: rounded, box, grid, ascii, plain, markdown, and NOTHING, ASCII_MARKDOWN,
ASCII_BORDERS_ONLY_CONDENSED; ASCII_ or UTF8_ before FULL, FULL_CONDENSED,
NO_BORDERS, BORDERS_ONLY or HORIZONTAL_ONLY; in upper or lower case.";

static WHENS: [&str; 3] = ["auto", "always", "never"];

static ENCODINGS: [&str; 10] = [
    "utf-8",
    "utf8",
    "cp1252",
    "windows-1252",
    "latin1",
    "latin-1",
    "iso-8859-1",
    "utf-16",
    "utf16",
    "utf-16le",
];

/// Returns true if a word is the name of an encoding, in letters of either case.
pub(crate) fn is_encoding(word: &str) -> bool
    ensures { result ≡ is_encoding word.now }
{
    is_among_names(ENCODINGS.as_slice(), word)
}

fn is_among_names(names: &[&str], word: &str) -> bool
    ensures { result ≡ list_any (λ name. is_named name.now word.now) names.now }
{
    names.iter().any(|name| is_named(name, word))
}

// The options of `csvtable`, for clap, with these names of styles.
pub(crate) fn command<'a>(alloc: Global, styles: &'a [&'a str]) -> Result<Command<'a>, AllocError>
    requires { map (λ name. name.now) styles.now ≡ style_names }
    ensures { IfOk result (λ command. IsCsvtable (app_of command)) }
{
    let mut command = Command::new(alloc, "csvtable")
        .version("0.1.0")
        .about("Draws the records of a CSV file as a table")
        .after_help(AFTER_HELP)
        .args_override_self(true);
    for option in &OPTIONS {
        command = command.arg(arg_of(alloc, option, styles)?)?;
    }
    Ok(command)
}

// An option for clap.
fn arg_of<'a>(
    alloc: Global,
    option: &OptionSpec,
    styles: &'a [&'a str],
) -> Result<Arg<'a>, AllocError>
    requires { map (λ name. name.now) styles.now ≡ style_names }
    ensures { IfOk result (λ arg. bare (rule_of arg) ≡ rule_for option.now) }
{
    let arg = with_letter(
        Arg::new(alloc, option.name)
            .help(option.help)
            .help_heading(option.heading),
        option.letter,
    );
    match option.kind {
        Kind::File => Ok(arg.value_name(option.value)),
        Kind::Flag => Ok(arg.long(option.name).action(ArgAction::SetTrue)),
        Kind::Letter => Ok(arg.action(ArgAction::SetTrue)),
        kind => Ok(with_value(arg.long(option.name).value_name(option.value), kind, styles)),
    }
}

fn with_letter<'a>(arg: Arg<'a>, letter: Option<char>) -> Arg<'a>
    ensures { rule_of result ≡ lettered letter (rule_of arg.entry) }
{
    match letter {
        Some(letter) => arg.short(letter),
        None => arg,
    }
}

// An argument whose value has this kind.
fn with_value<'a>(arg: Arg<'a>, kind: Kind, styles: &'a [&'a str]) -> Arg<'a>
    requires { map (λ name. name.now) styles.now ≡ style_names }
    ensures { bare (rule_of result) ≡ with_values kind (bare (rule_of arg.entry)) }
{
    match kind {
        Kind::Width => arg.value_parser(value_parser!(u16)),
        Kind::Count => arg.value_parser(value_parser!(usize)),
        Kind::Style => with_names(arg, styles).ignore_case(true),
        Kind::When => with_names(arg, WHENS.as_slice()),
        Kind::Encoding => with_names(arg, ENCODINGS.as_slice()).ignore_case(true),
        _ => arg,
    }
}

// An argument whose value must be one of these names. The help text of the argument lists the names
// in fewer words than clap would.
fn with_names<'a>(arg: Arg<'a>, names: &'a [&'a str]) -> Arg<'a>
    ensures { bare (rule_of result)
        ≡ (
          record (bare (rule_of arg.entry)).0 { parser = Some vp.String },
          map (λ name. name.now) names.now,
        ) }
{
    arg.value_parser(names).hide_possible_values(true)
}

/// The greatest number that the option `word` takes, such as `--width` or `-w`. `None` if the
/// option takes no number, or isn't known.
pub(crate) fn greatest_number(word: &str) -> Option<usize>
    ensures { result ≡ greatest_number word.now }
{
    greatest_within(OPTIONS.as_slice(), word)
}

fn greatest_within(options: &[OptionSpec], word: &str) -> Option<usize>
    ensures { result ≡ greatest_within (map rule_for options.now) word.now }
{
    for option in options {
        if is_called(option, word) {
            return greatest_read(option);
        }
    }
    None
}

// The greatest number that the value of an option may be.
#[tactic(auto, using(crate::proofs::RuleLemmas::greatest_is))]
fn greatest_read(option: &OptionSpec) -> Option<usize>
    ensures { result ≡ greatest_read (rule_for option.now).0.parser }
{
    match option.kind {
        Kind::Width => Some(usize::from(u16::MAX)),
        Kind::Count => Some(usize::MAX),
        _ => None,
    }
}

// Returns true if a word is a hyphen and the option's letter, or two hyphens and the option's name.
fn is_called(option: &OptionSpec, word: &str) -> bool
    ensures { result ≡ is_called word.now (rule_for option.now).0 }
{
    match word.as_bytes() {
        [b'-', rest @ ..] => is_name_of(option, rest),
        _ => false,
    }
}

// Returns true if the rest of a word after its first hyphen is a hyphen with an option's name, or
// its letter.
fn is_name_of(option: &OptionSpec, rest: &[u8]) -> bool
    ensures { result ≡ is_name_of rest.now (rule_for option.now).0 }
{
    match rest {
        [b'-', name @ ..] => is_long(option, name),
        [byte] => is_short(option, *byte),
        _ => false,
    }
}

#[tactic(auto, using(crate::proofs::RuleLemmas::long_is))]
fn is_long(option: &OptionSpec, name: &[u8]) -> bool
    ensures { result ≡ is_long name.now (rule_for option.now).0.long }
{
    match option.kind {
        Kind::File | Kind::Letter => false,
        _ => name == option.name.as_bytes(),
    }
}

#[tactic(auto, using(crate::proofs::RuleLemmas::short_is))]
fn is_short(option: &OptionSpec, byte: u8) -> bool
    ensures { result ≡ is_short byte (rule_for option.now).0.short }
{
    match option.letter {
        Some(letter) => u32::from(letter) == u32::from(byte),
        None => false,
    }
}
