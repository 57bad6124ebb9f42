//! Options for reading and drawing, from the program's arguments.

ghost use Rattle.std.specs.Prelude.{◌≡◌, ◌≢◌, ◌==◌, IfOk, IfErr, Some, codes, map, not, option_map, string_bytes};
ghost use Rattle.std.specs.List.{slice_split};
ghost use Rattle.clap.specs.Words.{app_of, first_value, found_of, kind_of};
ghost use Rattle.clap.specs.declared.error.kind.ErrorKind.TheVariants.{InvalidValue, OutOfMemory};
ghost use Rattle.csv_command.specs.Program.{IsCsvtable};
ghost use Rattle.csv_command.specs.Arguments.{AreColumnsParsed, IsInputParsed, IsParsed, IsRefusedBy, IsLookParsed, AreOptionsParsed, IsSelectionParsed, delimiter_by, delimiter_for, encoding_for, expansion_for, file_for, has_end, ids_in, is_followed_by, is_bold_for, is_bold_there, is_given, is_given_last, is_markdown_in, is_utf16, separators_for, some_columns, some_width, terminal_width, wanted_delimiter, wants_color, width_for, words_in};

use crate::columns::ColumnWords;
use crate::mistakes::{reason_of_delimiter, reason_of_value};
use crate::options::command;
use crate::styles::{is_compact, is_named, style_names, style_of};
use clap::error::ErrorKind;
use clap::parser::ArgMatches;
use clap::{Command, Error};
use csv_records::{Delimiter, Encoding, InputOptions, only_ascii, parse_digits};
use csv_tables::{Expansion, Look, Noun, RowSeparators, Selection};
use std::alloc::{AllocError, Global};

// The width of a terminal whose width isn't known, in terminal columns.
const TERMINAL_WIDTH: u16 = 80;

// The refusal of a second file.
const ONE_FILE: &str = "csvtable draws one file; try mlr --csv cat FILE FILE | csvtable";

/// Options for reading an input, for selecting its records and columns, and for drawing them.
#[derive(Debug)]
pub struct Options {
    /// The options for reading the input.
    pub input: InputOptions,
    /// True if the input is read to its end even if `selection` has a limit, so that all records
    /// can be counted.
    pub counts_all: bool,
    /// The choice of the records that are drawn: whether the first record is the header, how many
    /// records are drawn, and how records are counted.
    pub selection: Selection,
    /// The words that choose the columns that are drawn, and the words that choose their alignment.
    pub columns: ColumnWords,
    /// The look of the table: its frame, its width, and the way in which records are drawn.
    pub look: Look,
}

impl Drop for Options {
    fn drop(self) {
        let Options {
            input: _,
            counts_all: _,
            selection: _,
            columns: _,
            look: _,
        } = self;
    }
}

/// The options and the file that the arguments give.
#[derive(Debug)]
pub struct Invocation {
    /// The options for reading the input and for drawing it.
    pub options: Options,
    /// The path of the file to read, or `None` for standard input.
    pub file: Option<String>,
}

impl Drop for Invocation {
    fn drop(self) {
        let Invocation {
            options: _,
            file: _,
        } = self;
    }
}

/// Facts about the destination of the output, which decide the width and the bold header if no
/// option sets them.
#[derive(Clone, Copy, Debug)]
pub struct OutputContext<'a> {
    /// True if standard output is a terminal.
    pub is_terminal: bool,
    /// The environment variable `COLUMNS`, which has the width of the terminal in terminal columns.
    /// `None` if the variable isn't set or isn't UTF-8.
    pub columns: Option<&'a str>,
    /// The environment variable `NO_COLOR`. If the variable is set and not empty, the header isn't
    /// in bold unless an option requests a bold header. `None` if the variable isn't set or isn't
    /// UTF-8.
    pub no_color: Option<&'a str>,
}

/// Returns the options and the file that `arguments` give. The first argument is the program's
/// name. `context` decides the width and the bold header if no option does. Of two options that
/// contradict each other, the last option counts. The result depends only on the values that clap
/// finds in the arguments, and on `context`.
///
/// # Errors
///
/// An error of clap is returned if help or the version is requested, if an argument isn't known, or
/// if a value is wrong. A word that can't be a delimiter is such a value. The error has the text
/// that the program writes. The only other error is that memory ran out.
pub fn parse<'a>(
    alloc: Global,
    arguments: &'a [&'a str],
    context: OutputContext<'_>,
) -> Result<Invocation, Error>
    ensures ok { IfOk result (λ invocation.
        IsParsed (map (λ w. w.now) arguments.entry.now) context.entry invocation) }
    ensures refused { IfErr result (λ e. IsRefusedBy (map (λ w. w.now) arguments.entry.now) e) }
{
    let styles = style_names(alloc)?;
    let mut command = command(alloc, styles.as_slice())?;
    parse_by(alloc, &mut command, arguments, context)
}

fn parse_by<'a>(
    alloc: Global,
    command: &mut Command<'a>,
    arguments: &'a [&'a str],
    context: OutputContext<'_>,
) -> Result<Invocation, Error>
    requires { IsCsvtable (app_of command.old) }
    ensures ok { IfOk result (λ invocation.
        IsParsed (map (λ w. w.now) arguments.entry.now) context.entry invocation) }
    ensures refused { IfErr result (λ e. IsRefusedBy (map (λ w. w.now) arguments.entry.now) e) }
{
    let matches = match command.try_get_matches_from_mut(arguments) {
        Ok(matches) => matches,
        Err(error) => return Err(with_clearer_message(alloc, command, arguments, error)),
    };
    match wanted_delimiter(&matches) {
        Some(delimiter) => Ok(invocation_of(alloc, &matches, delimiter, context)?),
        None => Err(without_delimiter(alloc, command, matches.get_str("delimiter"))),
    }
}

// The error for a word that can't be a delimiter.
fn without_delimiter<'a>(alloc: Global, command: &mut Command<'a>, word: Option<&str>) -> Error
    ensures { (kind_of result ≢ OutOfMemory) → kind_of result ≡ InvalidValue }
{
    match reason_of_delimiter(alloc, word.unwrap_or("")) {
        Ok(reason) => refusal(command, ErrorKind::InvalidValue, reason.as_str()),
        Err(no_memory) => Error::from(no_memory),
    }
}

// Returns clap's error, with a message of our own if a number or an encoding is wrong, or if an
// argument isn't known.
fn with_clearer_message<'a>(
    alloc: Global,
    command: &mut Command<'a>,
    arguments: &[&str],
    error: Error,
) -> Error
    ensures { (kind_of result ≢ OutOfMemory) → kind_of result ≡ kind_of error }
{
    let kind = error.kind();
    if !matches!(
        kind,
        ErrorKind::UnknownArgument | ErrorKind::ValueValidation | ErrorKind::InvalidValue
    ) {
        return error;
    }
    match reason_of_value(alloc, arguments) {
        Ok(Some(reason)) => refusal(command, kind, reason.as_str()),
        Ok(None) => without_useless_tip(alloc, command, error),
        Err(no_memory) => Error::from(no_memory),
    }
}

// Returns clap's error without clap's tip on values. No clause describes clap's words.
fn without_useless_tip<'a>(alloc: Global, command: &mut Command<'a>, error: Error) -> Error
    ensures { (kind_of result ≢ OutOfMemory) → kind_of result ≡ kind_of error }
{
    match format!(in alloc; "{error}") {
        Ok(message) => match clearer_reason(message.as_str()) {
            Some(reason) => refusal(command, error.kind(), reason),
            None => error,
        },
        Err(no_memory) => Error::from(no_memory),
    }
}

// A clearer reason than clap's text. For a second file it is `ONE_FILE`. If clap gives a tip to
// pass an option as a value, it is the text before this tip.
fn clearer_reason(message: &str) -> Option<&str> {
    let rest = message.strip_prefix("error: ")?;
    if rest.starts_with("unexpected argument '") && !rest.starts_with("unexpected argument '-") {
        return Some(ONE_FILE);
    }
    let (reason, _) = rest.split_once("\n  tip: to pass '")?;
    Some(reason.trim_ascii_end())
}

// The options and the file for the values that clap found, and for a known delimiter.
fn invocation_of<'a>(
    alloc: Global,
    matches: &ArgMatches<'a>,
    delimiter: Delimiter,
    context: OutputContext<'_>,
) -> Result<Invocation, AllocError>
    requires { wanted_delimiter (found_of matches.now) ≡ Some delimiter }
    ensures options { IfOk result (λ invocation.
        AreOptionsParsed context.entry (found_of matches.now) invocation.options) }
    ensures file { IfOk result (λ invocation. option_map string_bytes invocation.file
        ≡ file_for (first_value (found_of matches.now) (codes "file"))) }
{
    Ok(Invocation {
        options: options_of(alloc, matches, delimiter, context)?,
        file: file_of(alloc, matches.get_str("file"))?,
    })
}

// An error of this kind for the arguments, with this reason.
fn refusal<'a>(command: &mut Command<'a>, kind: ErrorKind, reason: &str) -> Error
    ensures { (kind_of result ≢ OutOfMemory) → kind_of result ≡ kind }
{
    let message = command.error(kind, reason);
    message.unwrap_or_else(Error::from)
}

// Returns true if a table for Markdown is requested.
fn is_markdown<'a>(matches: &ArgMatches<'a>) -> bool
    ensures { result ≡ is_markdown_in (found_of matches.now) }
{
    is_given_last(matches, "markdown", "style")
        || matches
            .get_str("style")
            .is_some_and(|style| is_named("markdown", style))
}

// Returns true if a flag is set, or an option has a value.
fn is_given<'a>(matches: &ArgMatches<'a>, id: &str) -> bool
    ensures { result ≡ is_given (found_of matches.now) id.now }
{
    matches.get_str(id).is_some_and(|value| value != "false")
}

// Returns true if the option `id` is given, and the option `other` isn't given after it.
fn is_given_last<'a>(matches: &ArgMatches<'a>, id: &str, other: &str) -> bool
    ensures { result ≡ is_given_last (found_of matches.now) id.now other.now }
{
    is_given(matches, id) && !(is_given(matches, other) && is_followed_by(matches, id, other))
}

// Returns true if the option `other` was used after the option `id`. Clap lists options in the
// order of their last uses.
fn is_followed_by<'a>(matches: &ArgMatches<'a>, id: &str, other: &str) -> bool
    ensures { result ≡ is_followed_by id.now other.now (ids_in (found_of matches.now)) }
{
    let mut was_found = false;
    for it in matches.ids() {
        if was_found && it == other {
            return true;
        }
        was_found = was_found || it == id;
    }
    false
}

// The file that an argument names, or `None` for standard input.
fn file_of(alloc: Global, word: Option<&str>) -> Result<Option<String>, AllocError>
    ensures { IfOk result (λ file. option_map string_bytes file
        ≡ file_for (option_map (λ w. w.now) word.entry)) }
{
    match word {
        None | Some("-") => Ok(None),
        Some(path) => Ok(Some(String::from_str(alloc, path)?)),
    }
}

// The delimiter that the options set.
fn wanted_delimiter<'a>(matches: &ArgMatches<'a>) -> Option<Delimiter>
    ensures { result ≡ wanted_delimiter (found_of matches.now) }
{
    if is_given_last(matches, "tabs", "delimiter") {
        Some(Delimiter::Byte(b'\t'))
    } else {
        delimiter_of(matches.get_str("delimiter"), matches.get_str("file"))
    }
}

// The delimiter for the value of `--delimiter`, and for a file with this name. `None` if the value
// can't be a delimiter.
fn delimiter_of(word: Option<&str>, file: Option<&str>) -> Option<Delimiter>
    ensures { result ≡ delimiter_for (option_map (λ w. w.now) word.entry)
        (option_map (λ f. f.now) file.entry) }
{
    match word {
        None => Some(delimiter_by(file)),
        Some(word) if is_named("auto", word) => Some(delimiter_by(file)),
        Some(word) if is_named("tab", word) || is_named("\\t", word) => {
            Some(Delimiter::Byte(b'\t'))
        }
        Some(word) if is_named("spaces", word) => Some(Delimiter::Spaces),
        Some(word) => only_ascii(word.as_bytes()).map(Delimiter::Byte),
    }
}

// The delimiter for a file with this name, if no argument sets a delimiter.
fn delimiter_by(file: Option<&str>) -> Delimiter
    ensures { result ≡ delimiter_by (option_map (λ f. f.now) file.entry) }
{
    match file {
        Some(path) if has_end(path, ".tsv") || has_end(path, ".tab") => Delimiter::NamedOrTab,
        _ => Delimiter::Auto,
    }
}

// Returns true if a path ends with `end`, in letters of either case.
fn has_end(path: &str, end: &str) -> bool
    ensures { result ≡ has_end end.now path.now }
{
    let bytes = path.as_bytes();
    bytes[bytes.len().saturating_sub(end.len())..].eq_ignore_ascii_case(end.as_bytes())
}

// The encoding with this name, which must be one of the names that `command` allows. `None` without
// a name.
fn encoding_of(name: Option<&str>) -> Option<Encoding>
    ensures { result ≡ encoding_for (option_map (λ n. n.now) name.entry) }
{
    match name {
        None => None,
        Some(name) if is_named("utf-8", name) || is_named("utf8", name) => Some(Encoding::Utf8),
        Some(name) if is_utf16(name) => Some(Encoding::Utf16),
        Some(_) => Some(Encoding::Cp1252),
    }
}

fn is_utf16(name: &str) -> bool
    ensures { result ≡ is_utf16 name.now }
{
    is_named("utf-16", name) || is_named("utf16", name) || is_named("utf-16le", name)
}

// The options for the values that clap found.
fn options_of<'a>(
    alloc: Global,
    matches: &ArgMatches<'a>,
    delimiter: Delimiter,
    context: OutputContext<'_>,
) -> Result<Options, AllocError>
    requires { wanted_delimiter (found_of matches.now) ≡ Some delimiter }
    ensures { IfOk result (λ options.
        AreOptionsParsed context.entry (found_of matches.now) options) }
{
    Ok(Options {
        input: input_of(matches, delimiter),
        counts_all: is_given(matches, "count"),
        selection: selection_of(matches),
        columns: columns_of(alloc, matches)?,
        look: look_of(matches, context),
    })
}

fn input_of<'a>(matches: &ArgMatches<'a>, delimiter: Delimiter) -> InputOptions
    requires { wanted_delimiter (found_of matches.now) ≡ Some delimiter }
    ensures { IsInputParsed (found_of matches.now) result }
{
    InputOptions {
        encoding: encoding_of(matches.get_str("encoding")),
        skip: matches.get_one::<usize>("skip").unwrap_or(0),
        delimiter,
        has_header: has_header(matches),
        has_quotes: !is_given(matches, "no-quotes"),
    }
}

// Returns true if the first record is the header.
fn has_header<'a>(matches: &ArgMatches<'a>) -> bool
    ensures { result ≡ not (is_given (found_of matches.now) (codes "no-header")) }
{
    !is_given(matches, "no-header")
}

fn selection_of<'a>(matches: &ArgMatches<'a>) -> Selection
    ensures { IsSelectionParsed (found_of matches.now) result }
{
    Selection {
        has_header: has_header(matches),
        limit: matches.get_one::<usize>("limit"),
        is_numbered: is_given(matches, "number"),
        noun: Noun::Record,
    }
}

fn columns_of<'a>(alloc: Global, matches: &ArgMatches<'a>) -> Result<ColumnWords, AllocError>
    ensures { IfOk result (λ columns. AreColumnsParsed (found_of matches.now) columns) }
{
    Ok(ColumnWords {
        chosen: words_of(alloc, matches.get_str("columns"))?,
        dropped: words_of(alloc, matches.get_str("drop"))?,
        right: words_of(alloc, matches.get_str("right"))?,
        left: words_of(alloc, matches.get_str("left"))?,
    })
}

fn look_of<'a>(matches: &ArgMatches<'a>, context: OutputContext<'_>) -> Look
    ensures { IsLookParsed context.entry (found_of matches.now) result }
{
    let style = matches.get_str("style");
    Look {
        style: style_of(style),
        separators: separators_of(
            is_given_last(matches, "rows", "no-rows"),
            is_given(matches, "no-rows"),
            style,
        ),
        expansion: expansion_of(
            is_given_last(matches, "all-expanded", "expanded"),
            matches.get_str("expanded"),
        ),
        width: width_of(matches.get_one::<u16>("width"), context),
        fills_width: is_given(matches, "full"),
        max_height: matches.get_one::<usize>("max-height"),
        has_bold_header: is_bold(matches.get_str("color"), context),
        aligns_decimals: !is_given(matches, "no-decimal"),
        has_sequences: is_given(matches, "ansi"),
        is_markdown: is_markdown(matches),
    }
}

// The rule for lines between rows: `has_rows` and `has_none` are true if `--rows` or `--no-rows` is
// in effect.
fn separators_of(has_rows: bool, has_none: bool, style: Option<&str>) -> RowSeparators
    ensures { result ≡ separators_for has_rows has_none
        (option_map (λ name. name.now) style.entry) }
{
    if has_rows {
        RowSeparators::Styled
    } else if has_none {
        RowSeparators::Never
    } else if is_compact(style) {
        RowSeparators::Needed
    } else {
        RowSeparators::Styled
    }
}

// The rule for drawing each record as a table of its own. `word` is the value of `--expanded`, and
// `is_always` is true if `-x` is in effect.
fn expansion_of(is_always: bool, word: Option<&str>) -> Expansion
    ensures { result ≡ expansion_for is_always (option_map (λ w. w.now) word.entry) }
{
    match word {
        _ if is_always => Expansion::Always,
        Some("always") => Expansion::Always,
        Some("never") => Expansion::Never,
        _ => Expansion::Auto,
    }
}

// The width that is set, or else that of the terminal. A width of 0 means that there is none.
fn width_of(wanted: Option<u16>, context: OutputContext<'_>) -> Option<u16>
    ensures { result ≡ width_for wanted context.entry }
{
    match wanted {
        Some(width) => some_width(width),
        None if context.is_terminal => Some(terminal_width(context.columns)),
        None => None,
    }
}

fn some_width(width: u16) -> Option<u16>
    ensures { result ≡ some_width width }
{
    (width != 0).then_some(width)
}

// The width of a terminal with this value of `COLUMNS`.
fn terminal_width(columns: Option<&str>) -> u16
    ensures { result ≡ terminal_width (option_map (λ c. c.now) columns.entry) }
{
    let columns = columns
        .and_then(|columns| parse_digits(columns))
        .and_then(some_columns);
    columns.unwrap_or(TERMINAL_WIDTH)
}

// A number of terminal columns, or `None` for 0 and for a number above 65535.
fn some_columns(columns: usize) -> Option<u16>
    ensures { result ≡ some_columns columns }
{
    u16::try_from(columns).ok().filter(|columns| *columns != 0)
}

fn is_bold(word: Option<&str>, context: OutputContext<'_>) -> bool
    ensures { result ≡ is_bold_for (option_map (λ w. w.now) word.entry) context.entry }
{
    match word {
        Some("always") => true,
        Some("never") => false,
        _ => is_bold_there(context),
    }
}

// Returns true if the header is in bold when no option says so: in a terminal, if colours are
// wanted.
fn is_bold_there(context: OutputContext<'_>) -> bool
    ensures { result ≡ is_bold_there context.entry }
{
    context.is_terminal && wants_color(context.no_color)
}

fn wants_color(no_color: Option<&str>) -> bool
    ensures { result ≡ wants_color (option_map (λ n. n.now) no_color.entry) }
{
    no_color.is_none_or(|text| text.is_empty())
}

// The words of a list, which are separated by commas. There are no words without a list.
fn words_of(alloc: Global, list: Option<&str>) -> Result<Vec<String>, AllocError>
    ensures { IfOk result (λ words. map string_bytes words.items
        ≡ words_in (option_map (λ l. l.now) list.entry)) }
{
    match list {
        Some(list) => words_between_commas(alloc, list),
        None => Ok(Vec::new(alloc)),
    }
}

fn words_between_commas(alloc: Global, list: &str) -> Result<Vec<String>, AllocError>
    ensures { IfOk result (λ words. map string_bytes words.items
        ≡ slice_split (λ b. b == 0x2C) list.now) }
{
    let mut words = Vec::new(alloc);
    for word in list.split(',') {
        words.push(String::from_str(alloc, word)?)?;
    }
    Ok(words)
}
