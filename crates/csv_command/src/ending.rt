//! The end of the program: its status and its message. The module `process` writes the message and
//! returns the status.

ghost use Rattle.std.specs.Prelude.{◌≡◌, ◌++◌, IfErr, IfOk, OnOk, option_map, string_bytes, true};
ghost use Rattle.clap.specs.Words.{kind_of};
ghost use Rattle.csv_command.specs.declared.ending.Message.TheVariants.{OutOfMemory, Text};
ghost use Rattle.csv_command.specs.Ending.{IsEndOfBlank, IsEndOfOutcome, IsEndOfRefusal, IsEndOfUnwritten, IsEndWithoutArguments, IsHarmless, IsSilent, about, blank_line, columns_reason, decoding_reason, encoding_hint, is_below_preamble, is_of_input, longer_line, message_for, others_counted, preamble_hint, reading_reason, reason_for, records_reason, skip_hint, text_of, not_text_reason, waiting_notice};

use crate::arguments::Invocation;
use crate::error::{ColumnsError, CsvError};
use clap::error::{Error, ErrorKind};
use csv_records::{DecodeError, Encoding, LongRecords, NotText, RecordsError, shown_text};
use std::alloc::{AllocError, Global};
use std::io;

// The statuses other than 0, which means success.
const FAILED: u8 = 1;

const MISUSED: u8 = 2;

// Messages with commands that open compressed files.
const GZIP: &str = "compressed by gzip; try zcat FILE | csvtable";

const XZ: &str = "compressed by xz; try xzcat FILE | csvtable";

const ZSTD: &str = "compressed by zstd; try zstdcat FILE | csvtable";

const BZIP2: &str = "compressed by bzip2; try bzcat FILE | csvtable";

const ZIP: &str = "a zip archive; try unzip -p FILE | csvtable, or save a spreadsheet as CSV";

// Messages with commands that convert other files to text.
const PDF: &str = "a PDF document; try pdftotext -layout FILE - | csvtable -d spaces";

const JSON: &str = "looks like JSON; try mlr --ijson --ocsv unsparsify FILE | csvtable; \
    -e utf-8 reads it anyway";

const HTML: &str = "an HTML page, perhaps one that asks for a login; -e utf-8 reads it anyway";

// The reason for a missing drawing if memory ran out.
const OUT_OF_MEMORY: &str = "out of memory";

/// The line that `csvtable` writes on standard error if an argument isn't UTF-8.
pub const ARGUMENT_NOT_UTF8: &str = "csvtable: an argument isn't UTF-8\n";

/// The status and the last message of the program.
#[derive(Drop)]
pub(crate) struct Ending {
    /// The exit status: 0 for success, 1 after an error, 2 if the arguments are refused.
    pub status: u8,
    /// True if the message goes to standard error, and false if it goes to standard output.
    pub is_message: bool,
    /// The text that the program writes last. With `Message::Nothing` the program writes no text.
    pub message: Message,
}

/// The message that the program writes at its end.
#[derive(Drop)]
pub(crate) enum Message {
    /// There is no message.
    Nothing,
    /// Memory ran out.
    OutOfMemory,
    /// An argument isn't UTF-8.
    NotUtf8,
    /// The output can't be written.
    WriteFailed,
    /// The output is nonblocking, and takes no more bytes for now.
    WouldBlock,
    /// The message is this text.
    Text(String),
}

impl Message {
    /// The text of the message; empty for `Nothing`.
    pub(crate) fn text(&self) -> &str
        ensures { result.now ≡ text_of self.now }
    {
        match self {
            Message::Nothing => "",
            Message::OutOfMemory => "csvtable: out of memory\n",
            Message::NotUtf8 => ARGUMENT_NOT_UTF8,
            Message::WriteFailed => "csvtable: the output can't be written\n",
            Message::WouldBlock =>
                "csvtable: the output takes no more for now; is it nonblocking?\n",
            Message::Text(text) => text.as_str(),
        }
    }
}

/// The result of drawing an input, or of the attempt to draw it.
#[derive(Drop)]
pub(crate) struct Outcome<'a> {
    /// The options and the file that the program's arguments give.
    pub invocation: &'a Invocation,
    /// A report of the drawn records that have more fields than the header, or `Ok(None)` if no
    /// drawn record has more fields. The error is the reason why no drawing, or only a part of it,
    /// was written.
    pub result: Result<Option<LongRecords>, CsvError>,
    /// The error on opening or reading the input. `None` if there was no such error.
    pub fault: Option<io::ErrorKind>,
    /// The error on writing the output. `None` if there was no such error.
    pub output_fault: Option<io::ErrorKind>,
    /// True if nothing was written to standard output, and standard output is a terminal.
    pub is_blank: bool,
}

/// The end of the program after a drawing or an error.
pub(crate) fn ending_of_outcome(alloc: Global, drawing: &Outcome<'_>) -> Ending
    ensures { IsEndOfOutcome drawing.now result }
{
    match &drawing.result {
        Ok(None) if drawing.is_blank => ending_of_blank(alloc, drawing.invocation),
        Ok(None) => silent(0),
        Ok(Some(longer)) => {
            let text = longer_line(alloc, &drawing.invocation.file, *longer);
            ending_with(0, message_of_text(text))
        }
        Err(CsvError::Write) => ending_of_unwritten(drawing.output_fault),
        Err(CsvError::OutOfMemory) => ending_with(FAILED, Message::OutOfMemory),
        Err(error) => {
            let text = message_of(alloc, drawing.invocation, drawing.fault, error);
            ending_with(FAILED, message_of_text(text))
        }
    }
}

// The end after an empty output to a terminal.
fn ending_of_blank(alloc: Global, invocation: &Invocation) -> Ending
    ensures { IsEndOfBlank invocation.now result }
{
    let text = blank_line(alloc, &invocation.file, invocation.options.input.skip);
    let message = message_of_text(text);
    ending_with(0, message)
}

// The end if the output wasn't written. There is no message if the reader of a pipe has ended.
fn ending_of_unwritten(fault: Option<io::ErrorKind>) -> Ending
    ensures { IsEndOfUnwritten fault result }
{
    match fault {
        Some(io::ErrorKind::BrokenPipe) => silent(FAILED),
        Some(io::ErrorKind::WouldBlock) => ending_with(FAILED, Message::WouldBlock),
        _ => ending_with(FAILED, Message::WriteFailed),
    }
}

/// The end of the program if clap has a text to write: help, the version, or a refusal of
/// arguments.
pub(crate) fn ending_of_refusal(alloc: Global, error: &Error) -> Ending
    ensures { IsEndOfRefusal (kind_of error.now) result }
{
    match error.kind() {
        ErrorKind::OutOfMemory => ending_with(FAILED, Message::OutOfMemory),
        ErrorKind::DisplayHelp | ErrorKind::DisplayVersion => Ending {
            status: 0,
            is_message: false,
            message: message_of_text(text_of_clap(alloc, error)),
        },
        _ => ending_with(MISUSED, message_of_text(text_of_clap(alloc, error))),
    }
}

/// The end of the program if the arguments couldn't be read: an argument isn't UTF-8, or there is
/// no memory for the arguments.
pub(crate) fn ending_without_arguments(kind: io::ErrorKind) -> Ending
    ensures { IsEndWithoutArguments kind result }
{
    match kind {
        io::ErrorKind::InvalidData => ending_with(MISUSED, Message::NotUtf8),
        _ => ending_with(FAILED, Message::OutOfMemory),
    }
}

fn silent(status: u8) -> Ending
    ensures { IsSilent status result }
{
    Ending {
        status,
        is_message: true,
        message: Message::Nothing,
    }
}

fn ending_with(status: u8, message: Message) -> Ending
    ensures { result ≡ record { status = status; is_message = true; message = message } }
{
    Ending {
        status,
        is_message: true,
        message,
    }
}

// The message with this text, or `OutOfMemory` if there was no memory for the text.
fn message_of_text(text: Result<String, AllocError>) -> Message
    ensures text { IfOk text (λ t. result ≡ Text t) }
    ensures no_memory { IfErr text (λ _. result ≡ OutOfMemory) }
{
    match text {
        Ok(text) => Message::Text(text),
        Err(_) => Message::OutOfMemory,
    }
}

// The line about an input without records.
fn blank_line(alloc: Global, file: &Option<String>, skip: usize) -> Result<String, AllocError>
    ensures { IfOk result (λ text. string_bytes text
        ≡ blank_line (option_map string_bytes file.now) skip) }
{
    let mut text = about(alloc, true, file)?;
    if skip == 0 {
        text.push_str("no records\n")?;
        return Ok(text);
    }
    let skipped = format!(in alloc; "no records below --skip {skip}\n")?;
    text.push_str(skipped.as_str())?;
    Ok(text)
}

// The line about records that have more fields than the header.
fn longer_line(
    alloc: Global,
    file: &Option<String>,
    longer: LongRecords,
) -> Result<String, AllocError>
    ensures { IfOk result (λ text. string_bytes text
        ≡ longer_line (option_map string_bytes file.now) longer) }
{
    let LongRecords {
        line,
        fields,
        first_fields,
        others,
        lasts: _,
    } = longer;
    let mut text = about(alloc, true, file)?;
    let counts = format!(in alloc;
        "line {line} has {fields} fields, the header has {first_fields}"
    )?;
    text.push_str(counts.as_str())?;
    push_others(alloc, &mut text, others)?;
    push_preamble_hint(alloc, &mut text, longer)?;
    text.push('\n')?;
    Ok(text)
}

// Appends a hint on `--skip` if other lines are above the table.
fn push_preamble_hint(
    alloc: Global,
    text: &mut String,
    longer: LongRecords,
) -> Result<(), AllocError>
    ensures { OnOk result (string_bytes text.new
        ≡ string_bytes text.old ++ preamble_hint longer) }
{
    if !is_below_preamble(longer) {
        return Ok(());
    }
    let hint = skip_hint(alloc, longer.line)?;
    text.push_str(hint.as_str())
}

// A hint to leave out the lines above `line`.
fn skip_hint(alloc: Global, line: u64) -> Result<String, AllocError>
    ensures { IfOk result (λ text. string_bytes text ≡ skip_hint line) }
{
    format!(in alloc; "; try --skip {}", line.saturating_sub(1))
}

// Returns true if the long records, those with more fields than the header, seem to be below lines
// that aren't part of the table. There are then at least two long records, and all records after
// the first of them are long too. One more field than the header isn't enough, unless the header
// has a single field: a text may have a comma in each line.
fn is_below_preamble(longer: LongRecords) -> bool
    ensures { result ≡ is_below_preamble longer }
{
    let more = longer.fields.saturating_sub(longer.first_fields);
    longer.lasts && longer.others > 0 && (longer.first_fields == 1 || more > 1)
}

// Appends the number of other records with more fields.
fn push_others(alloc: Global, text: &mut String, others: usize) -> Result<(), AllocError>
    ensures { OnOk result (string_bytes text.new ≡ string_bytes text.old ++ others_counted others) }
{
    if others == 0 {
        return Ok(());
    }
    if others == 1 {
        return text.push_str(" (and 1 more line)");
    }
    let counted = format!(in alloc; " (and {others} more lines)")?;
    text.push_str(counted.as_str())
}

/// The line about an error, with a line feed. `fault` is the error on opening or reading the input,
/// or `None` if there was no such error.
pub(crate) fn message_of(
    alloc: Global,
    invocation: &Invocation,
    fault: Option<io::ErrorKind>,
    error: &CsvError,
) -> Result<String, AllocError>
    ensures { IfOk result (λ text. string_bytes text ≡ message_for invocation.now fault error.now) }
{
    let mut text = about(alloc, is_of_input(error), &invocation.file)?;
    let reason = reason_of(alloc, invocation.options.input.encoding, fault, error)?;
    text.push_str(reason.as_str())?;
    text.push('\n')?;
    Ok(text)
}

// Returns true if an error is one of the input. Its message then names the input.
fn is_of_input(error: &CsvError) -> bool
    ensures { result ≡ is_of_input error.now }
{
    !matches!(error, CsvError::Write | CsvError::OutOfMemory)
}

// The beginning of a message.
fn about(alloc: Global, is_of_input: bool, file: &Option<String>) -> Result<String, AllocError>
    ensures { IfOk result (λ text. string_bytes text
        ≡ about is_of_input (option_map string_bytes file.now)) }
{
    match file {
        _ if !is_of_input => String::from_str(alloc, "csvtable: "),
        None => String::from_str(alloc, "csvtable: standard input: "),
        Some(path) => {
            let name = shown_text(alloc, path.as_str(), false)?;
            format!(in alloc; "csvtable: {name}: ")
        }
    }
}

/// The message before the input is read: that the program waits for input, if no file is named and
/// standard input is a terminal. Otherwise the message is empty.
pub(crate) fn waiting_notice(file: &Option<String>, is_terminal: bool) -> &'static str
    ensures { result.now ≡ waiting_notice (option_map string_bytes file.now) is_terminal }
{
    match file {
        None if is_terminal => "csvtable: reading from the terminal; end with Ctrl-D\n",
        _ => "",
    }
}

// The reason for a missing drawing.
fn reason_of(
    alloc: Global,
    encoding: Option<Encoding>,
    fault: Option<io::ErrorKind>,
    error: &CsvError,
) -> Result<String, AllocError>
    ensures { IfOk result (λ text. string_bytes text ≡ reason_for encoding fault error.now) }
{
    match error {
        CsvError::Read => String::from_str(alloc, reading_reason(fault)),
        CsvError::Write => String::from_str(alloc, "the output can't be written"),
        CsvError::Decode(error) => decoding_reason(alloc, encoding, *error),
        CsvError::Records(error) => records_reason(alloc, *error),
        CsvError::Columns(error) => columns_reason(alloc, error),
        CsvError::OutOfMemory => String::from_str(alloc, OUT_OF_MEMORY),
    }
}

// The reason for an input without text.
fn decoding_reason(
    alloc: Global,
    encoding: Option<Encoding>,
    error: DecodeError,
) -> Result<String, AllocError>
    ensures { IfOk result (λ text. string_bytes text ≡ decoding_reason encoding error) }
{
    match error {
        DecodeError::NotText(other) => not_text_reason(alloc, other),
        DecodeError::NotUtf8 {
            line,
            may_be_cp1252,
        } => {
            let mut text = format!(in alloc; "line {line} isn't UTF-8")?;
            text.push_str(encoding_hint(encoding, may_be_cp1252))?;
            Ok(text)
        }
        DecodeError::NotUtf16(line) => format!(in alloc; "line {line} isn't UTF-16"),
        DecodeError::OutOfMemory => String::from_str(alloc, OUT_OF_MEMORY),
    }
}

// The kind of an input that isn't UTF-8 text, with a hint.
fn not_text_reason(alloc: Global, other: NotText) -> Result<String, AllocError>
    ensures { IfOk result (λ text. string_bytes text ≡ not_text_reason other) }
{
    match other {
        NotText::Gzip => String::from_str(alloc, GZIP),
        NotText::Zip => String::from_str(alloc, ZIP),
        NotText::Xz => String::from_str(alloc, XZ),
        NotText::Zstd => String::from_str(alloc, ZSTD),
        NotText::Bzip2 => String::from_str(alloc, BZIP2),
        NotText::Pdf => String::from_str(alloc, PDF),
        NotText::Html => String::from_str(alloc, HTML),
        NotText::Json => String::from_str(alloc, JSON),
        NotText::Utf16 => String::from_str(alloc, "looks like UTF-16; try -e utf-16"),
        NotText::Binary(line) => {
            format!(in alloc;
                "line {line} has a NUL byte, so this isn't text; -e utf-8 reads it anyway"
            )
        }
    }
}

// The reason for a text without records.
fn records_reason(alloc: Global, error: RecordsError) -> Result<String, AllocError>
    ensures { IfOk result (λ text. string_bytes text ≡ records_reason error) }
{
    match error {
        RecordsError::Unclosed(line) => {
            format!(in alloc; "a quote that opens in line {line} is never closed; try --no-quotes")
        }
        RecordsError::SplitCharacter => String::from_str(alloc, "the delimiter splits a character"),
        RecordsError::OutOfMemory => String::from_str(alloc, OUT_OF_MEMORY),
    }
}

// The reason for an error in the choice of columns.
fn columns_reason(alloc: Global, error: &ColumnsError) -> Result<String, AllocError>
    ensures { IfOk result (λ text. string_bytes text ≡ columns_reason error.now) }
{
    match error {
        ColumnsError::NoColumn(word, hint) => {
            let word = shown_text(alloc, word.as_str(), false)?;
            let hint = shown_text(alloc, hint.as_str(), false)?;
            format!(in alloc; "no column '{word}'; {hint}")
        }
        ColumnsError::NoneLeft => String::from_str(alloc, "no column is left"),
        ColumnsError::TwoSides(name) => {
            let name = shown_text(alloc, name.as_str(), false)?;
            format!(in alloc; "column '{name}' can't be aligned both left and right")
        }
        ColumnsError::OutOfMemory => String::from_str(alloc, OUT_OF_MEMORY),
    }
}

// The reason for an input that can't be opened or read.
fn reading_reason(fault: Option<io::ErrorKind>) -> &'static str
    ensures { result.now ≡ reading_reason fault }
{
    match fault {
        Some(io::ErrorKind::NotFound) => "no such file",
        Some(io::ErrorKind::IsADirectory) => "is a directory",
        Some(io::ErrorKind::PermissionDenied) => "permission denied",
        _ => "can't be read",
    }
}

// The hint for an input that isn't UTF-8, if no encoding is set.
fn encoding_hint(encoding: Option<Encoding>, may_be_cp1252: bool) -> &'static str
    ensures { result.now ≡ encoding_hint encoding may_be_cp1252 }
{
    match encoding {
        None if may_be_cp1252 => "; try -e cp1252, or iconv -f ENCODING FILE | csvtable",
        None => "; try iconv -f ENCODING FILE | csvtable",
        Some(_) => "",
    }
}

/// Clap's message, in which all control characters except line feeds are replaced. Clap quotes
/// arguments as they were typed, so its message may have such characters.
pub(crate) fn text_of_clap(alloc: Global, error: &Error) -> Result<String, AllocError>
    ensures { IfOk result (λ text. IsHarmless (string_bytes text)) }
{
    let text = format!(in alloc; "{error}")?;
    shown_text(alloc, text.as_str(), true)
}
