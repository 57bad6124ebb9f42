//! The records of a text, and iterators over records and their fields.

ghost use Rattle.std.specs.Prelude.{◌≡◌, ◌≢◌, ◌<◌, ◌≤◌, ◌==◌, ◌-◌, ◌^◌, ◌∷◌, ◌++◌, [], All, IfErr, IfNone, IfOk, IfSome, IsTrue, None, OnOk, drop, false, get_or, length, map, nat_lt, option_map, slice_get, take};
ghost use Rattle.std.specs.Iterator.{YieldsFirstBy, item_count};
ghost use Rattle.csv.specs.Records.{AllText, field_at, fields_of, partial_of};
ghost use Rattle.csv_records.specs.CutLists.{cut_by, total};
ghost use Rattle.csv_records.specs.First.{AreFirst};
ghost use Rattle.csv_records.specs.Input.{AreRecordsOf, IsReadingRefusal};
ghost use Rattle.csv_records.specs.Longer.{filled_len};
ghost use Rattle.csv_records.specs.Places.{IsWithin, fields_at, places_for};
ghost use Rattle.csv_records.specs.Started.{IsStarted};

use crate::error::RecordsError;
use crate::fields::Fields;
use crate::longer::LongRecords;
use csv::{ByteRecord, Reader, ReaderBuilder, StringRecord};
use std::alloc::{AllocError, Global};
use std::marker::Model;
use std::str;

/// The records of a text. All records together take a few large pieces of memory, however many
/// records there are. Dropping the value frees this memory.
///
/// ```
/// let records = read_records(alloc, "name,days\noats,3\n", &options)?;
/// let below = records.rows().rows_after(1);
/// // one record, whose field at position 1 is 3
/// ```
pub struct Records {
    // the fields of all records, one after another, which are texts
    fields: Fields,
    places: Vec<Place>,
}

// The positions of a record's fields in the list of all fields: from `start` up to, but not
// including, `end`.
#[derive(Clone, Copy)]
struct Place {
    start: usize,
    end: usize,
}

impl Drop for Records {
    fn drop(self) {
        let Records {
            fields: _,
            places: _,
        } = self;
    }
}

impl Model for Records {
    ghost use Rattle.std.specs.Prelude.{List, map};
    ghost use Rattle.csv.specs.Records.{fields_of};
    ghost use Rattle.comfy_parts.specs.Text.{Text};
    ghost use Rattle.csv_records.specs.Places.{ArePlaces, fields_at};

    ghost Value = { List (List Text) };

    ghost invariant = { λ r. ArePlaces (fields_of r.fields) r.places.items };

    ghost view = { λ r. map (fields_at (fields_of r.fields)) r.places.items };
}

impl Records {
    /// Makes records of a list of fields: the first record has the first `counts[0]` fields, the
    /// second record has the next `counts[1]` fields, and so on. `None` if the sum of the counts
    /// isn't the number of fields. The only error is that memory runs out.
    ///
    /// ```
    /// let records = Records::from_fields(alloc, &["name", "days", "oats", "3"], &[2, 2])?;
    /// // two records of two fields each
    /// ```
    pub fn from_fields(
        alloc: Global,
        fields: &[&str],
        counts: &[usize],
    ) -> Result<Option<Records>, AllocError>
        ensures some { IfOk result (λ found. IfSome found (λ records. records
            ≡ cut_by counts.now (map (λ field. field.now) fields.now))) }
        ensures all { IfOk result (λ found.
            IfSome found (λ _. total counts.now ≡ length fields.now)) }
        ensures none { IfOk result (λ found.
            IfNone found (total counts.now ≢ length fields.now)) }
    {
        let Some(places) = places_for(alloc, counts, fields.len())? else {
            return Ok(None);
        };
        let fields = fields_from(alloc, fields)?;
        Ok(Some(Records { fields, places }))
    }

    /// All records of `self`, in the order in which they are in the text.
    pub fn rows(&self) -> Rows<'_>
        ensures { result ≡ self.now }
    {
        Rows {
            fields: &self.fields,
            places: self.places.as_slice(),
        }
    }
}

/// Consecutive records of a text: all records of the text, or some of them. As an iterator, `Rows`
/// yields each record.
#[derive(Drop)]
pub struct Rows<'a> {
    fields: &'a Fields,
    places: &'a [Place],
}

impl<'a> Model for Rows<'a> {
    ghost use Rattle.std.specs.Prelude.{List, map};
    ghost use Rattle.csv.specs.Records.{fields_of};
    ghost use Rattle.comfy_parts.specs.Text.{Text};
    ghost use Rattle.csv_records.specs.Places.{ArePlaces, fields_at};

    ghost Value = { List (List Text) };

    ghost invariant = { λ r. ArePlaces (fields_of r.fields.now) r.places.now };

    ghost view = { λ r. map (fields_at (fields_of r.fields.now)) r.places.now };
}

impl<'a> Rows<'a> {
    /// The number of records.
    pub fn len(&self) -> usize
        ensures { result ≡ length self.now }
    {
        self.places.len()
    }

    /// Returns true if there are no records.
    pub fn is_empty(&self) -> bool
        ensures { result ≡ (length self.now == 0) }
    {
        self.places.is_empty()
    }

    /// Does nothing. The clause of this function states for proofs that each field of each record
    /// is valid UTF-8.
    pub fn hold_texts(&self)
        ensures { All AllText self.now }
    {
        let _ = &self.fields;
    }

    /// An iterator over the records of `self`, in their order. `self` is unchanged while the
    /// iterator advances.
    pub fn iter(&self) -> Rows<'a>
        ensures { result ≡ self.now }
    {
        Rows {
            fields: self.fields,
            places: self.places,
        }
    }

    /// The records after the first `count` records. The result has no records if there are at most
    /// `count` records.
    pub fn rows_after(&self, count: usize) -> Rows<'a>
        ensures { result ≡ drop count self.now }
    {
        let (_, places) = self.places.split_at(count.min(self.places.len()));
        let fields = self.fields;
        Rows { fields, places }
    }

    /// The first `count` records, or all records if there are fewer.
    pub fn first_rows(&self, count: usize) -> Rows<'a>
        ensures { result ≡ take count self.now }
    {
        let (places, _) = self.places.split_at(count.min(self.places.len()));
        let fields = self.fields;
        Rows { fields, places }
    }

    /// The first record, or `None` if there are no records.
    pub fn first(&self) -> Option<Record<'a>>
        ensures { result ≡ slice_get self.now 0 }
    {
        let place = self.places.first()?;
        Some(Record {
            fields: self.fields,
            place: *place,
        })
    }

    /// The record at `position`, which is counted from 0. `None` after the last record.
    pub fn get(&self, position: usize) -> Option<Record<'a>>
        ensures { result ≡ slice_get self.now position }
    {
        let place = self.places.get(position)?;
        Some(Record {
            fields: self.fields,
            place: *place,
        })
    }

    /// A record without fields.
    pub fn blank(&self) -> Record<'a>
        ensures { result ≡ [] }
    {
        let place = Place { start: 0, end: 0 };
        let fields = self.fields;
        Record { fields, place }
    }
}

impl<'a> Iterator for Rows<'a> {
    type Item = Record<'a>;

    ghost next_gives = { YieldsFirstBy (λ r. r) (λ rows. rows) };

    ghost remaining = { item_count (λ rows. rows) };

    fn next(&mut self) -> Option<Record<'a>> {
        let (place, places) = self.places.split_first()?;
        self.places = places;
        Some(Record {
            fields: self.fields,
            place: *place,
        })
    }
}

/// A record: a list of fields, each of which is a text that is borrowed from `Records`.
#[derive(Drop)]
pub struct Record<'a> {
    fields: &'a Fields,
    place: Place,
}

impl<'a> Model for Record<'a> {
    ghost use Rattle.std.specs.Prelude.{List};
    ghost use Rattle.csv.specs.Records.{fields_of};
    ghost use Rattle.comfy_parts.specs.Text.{Text};
    ghost use Rattle.csv_records.specs.Places.{IsPlace, fields_at};

    ghost Value = { List Text };

    ghost invariant = { λ r. IsPlace (fields_of r.fields.now) r.place };

    ghost view = { λ r. fields_at (fields_of r.fields.now) r.place };
}

impl<'a> Record<'a> {
    /// The number of fields.
    pub fn len(&self) -> usize
        ensures { result ≡ length self.now }
    {
        self.place.end - self.place.start
    }

    /// The number of fields up to the last field that isn't empty. 0 if all fields are empty, or if
    /// there are none.
    pub fn filled_len(&self) -> usize
        ensures { result ≡ filled_len self.now }
    {
        let mut len = self.len();
        while len > 0 && self.is_empty_at(len - 1) {
            len -= 1;
        }
        len
    }

    // True if the record has more than `most` fields, not counting empty ones at its end.
    pub(crate) fn has_more(&self, most: usize) -> bool
        ensures { result ≡ nat_lt most (filled_len self.now) }
    {
        self.len() > most && self.filled_len() > most
    }

    // True if the field at a position is empty.
    fn is_empty_at(&self, position: usize) -> bool
        requires { position < length self.now }
        ensures { result ≡ (length (get_or self.now position []) == 0) }
    {
        match self.get(position) {
            Some(field) => field.is_empty(),
            None => true,
        }
    }

    /// The field at `position`, which is counted from 0. `None` after the last field.
    pub fn get(&self, position: usize) -> Option<&'a str>
        ensures place { IfSome result (λ f. position < 2 ^ 64 - 1) }
        ensures value { option_map (λ s. s.now) result ≡ field_at self.now position }
    {
        if position < self.len() {
            let field = self.fields.get(self.place.start + position)?;
            Some(unsafe { str::from_utf8_unchecked(field) })
        } else {
            None
        }
    }

    /// An iterator over the fields of the record, in their order.
    pub fn iter(&self) -> RecordFields<'a>
        ensures { result ≡ self.now }
    {
        let place = self.place;
        let start = if place.start < place.end {
            self.fields.start(place.start)
        } else {
            0
        };
        let fields = self.fields;
        RecordFields {
            fields,
            place,
            start,
        }
    }
}

/// An iterator over the fields of a record, in their order.
#[derive(Drop)]
pub struct RecordFields<'a> {
    fields: &'a Fields,
    // the positions of the fields that are left
    place: Place,
    // the index of the byte at which the first of these fields starts, kept because only the ends
    // of fields are stored
    start: usize,
}

impl<'a> Model for RecordFields<'a> {
    ghost use Rattle.std.specs.Prelude.{◌≡◌, ◌<◌, List};
    ghost use Rattle.csv.specs.Records.{fields_of, prev};
    ghost use Rattle.comfy_parts.specs.Text.{Text};
    ghost use Rattle.csv_records.specs.Places.{IsPlace, fields_at};

    ghost Value = { List Text };

    ghost invariant = { λ r. IsPlace (fields_of r.fields.now) r.place
        × (r.place.start < r.place.end → r.start ≡ prev 0 r.fields.now.ends r.place.start) };

    ghost view = { λ r. fields_at (fields_of r.fields.now) r.place };
}

impl<'a> Iterator for RecordFields<'a> {
    type Item = &'a str;

    ghost next_gives = { YieldsFirstBy (λ field. field.now) (λ fields. fields) };

    ghost remaining = { item_count (λ fields. fields) };

    fn next(&mut self) -> Option<&'a str> {
        let Place { start, end } = self.place;
        if start == end {
            return None;
        }
        let (field, next) = self.fields.field_from(start, self.start);
        self.place = Place {
            start: start + 1,
            end,
        };
        self.start = next;
        Some(unsafe { str::from_utf8_unchecked(field) })
    }
}

// A reader of the records of a text, whose fields are between delimiters. Records may have
// different numbers of fields. A byte-order mark at the beginning is dropped. If `has_quotes` is
// false, a quote is a character of its field.
fn reader_of(alloc: Global, text: &str, delimiter: u8, has_quotes: bool) -> Reader<&[u8]>
    ensures { IsStarted delimiter has_quotes text.now result }
{
    ReaderBuilder::new()
        .delimiter(delimiter)
        .quoting(has_quotes)
        .has_headers(false)
        .flexible(true)
        .from_reader(alloc, text.as_bytes())
}

/// The first records of a text, the number of all records of the text, and a report on records that
/// have more fields than the first record.
#[derive(Drop)]
pub struct FirstRecords {
    /// The first records of the text, at most as many as the caller requested.
    pub records: Records,
    /// The number of all records in the text, including those that aren't in `records`.
    pub count: usize,
    /// A report on those of `records` that have more fields than the first record. Empty fields at
    /// the end of a record don't count. `None` if `records` has no such record, even if later
    /// records of the text have more fields, and always for `Delimiter::Spaces`.
    pub longer: Option<LongRecords>,
}

/// The first `most` records of a text, or all if there are fewer, and the number of all records of
/// the text. The whole text is read. The report on longer records is `None`.
///
/// The errors are `OutOfMemory`, and for a delimiter that isn't ASCII also `SplitCharacter`.
pub(crate) fn first_records_of(
    alloc: Global,
    text: &str,
    delimiter: u8,
    has_quotes: bool,
    most: usize,
) -> Result<FirstRecords, RecordsError>
    ensures all { IfOk result (AreFirst (AreRecordsOf delimiter has_quotes text.now) most) }
    ensures count { IfOk result (λ first. first.count < 2 ^ 64) }
    ensures longer { IfOk result (λ first. first.longer ≡ None) }
    ensures refused { IfErr result (λ e. IsReadingRefusal delimiter has_quotes text.now e) }
{
    let mut reader = reader_of(alloc, text, delimiter, has_quotes);
    let mut fields = Fields::new(alloc);
    let mut places = Vec::new(alloc);
    let mut record = ByteRecord::new(alloc);
    // No text in memory has this many records.
    for count in 0..usize::MAX {
        let Ok(is_found) = reader.read_byte_record(&mut record) else {
            return Err(RecordsError::OutOfMemory);
        };
        if !is_found {
            let records = Records { fields, places };
            return Ok(FirstRecords {
                records,
                count,
                longer: None,
            });
        }
        if is_split(delimiter, &record)? {
            return Err(RecordsError::SplitCharacter);
        }
        if count < most {
            push_record(&mut fields, &mut places, &record)?;
        }
    }
    Err(RecordsError::OutOfMemory)
}

// True if the delimiter split a character of these fields. A delimiter of ASCII never does.
fn is_split(delimiter: u8, fields: &ByteRecord) -> Result<bool, AllocError>
    ensures split { IfOk result (λ is.
        IsTrue is → (128 ≤ delimiter) × ¬ (AllText (fields_of fields.now))) }
    ensures whole { IfOk result (λ is.
        is ≡ false → 128 ≤ delimiter → AllText (fields_of fields.now)) }
{
    if delimiter.is_ascii() {
        return Ok(false);
    }
    Ok(StringRecord::from_byte_record(fields.clone()?).is_err())
}

// Appends the fields of a record to `fields`, and their place to `places`.
fn push_record(
    fields: &mut Fields,
    places: &mut Vec<Place>,
    more: &ByteRecord,
) -> Result<(), RecordsError>
    requires within { All (IsWithin (fields_of fields.old)) places.old.items }
    requires whole { partial_of fields.old ≡ [] }
    ensures whole { OnOk result (partial_of fields.new ≡ []) }
    ensures fields { OnOk result (fields_of fields.new
        ≡ fields_of fields.old ++ fields_of more.now) }
    ensures within { OnOk result (All (IsWithin (fields_of fields.new)) places.new.items) }
    ensures records { OnOk result (map (fields_at (fields_of fields.new)) places.new.items
        ≡ map (fields_at (fields_of fields.old)) places.old.items ++ fields_of more.now ∷ []) }
    ensures refused { IfErr result (λ e. e ≡ RecordsError.OutOfMemory) }
{
    let start = fields.len();
    fields.push_record(more)?;
    let end = fields.len();
    places.push(Place { start, end })?;
    Ok(())
}

// The places of consecutive records, of which `counts` are the numbers of fields. `None` if the sum
// of the counts isn't `field_count`.
fn places_for(
    alloc: Global,
    counts: &[usize],
    field_count: usize,
) -> Result<Option<Vec<Place>>, AllocError>
    ensures some { IfOk result (λ found. IfSome found (λ places.
        places.items ≡ places_for 0 counts.now)) }
    ensures all { IfOk result (λ found. IfSome found (λ _. total counts.now ≡ field_count)) }
    ensures none { IfOk result (λ found. IfNone found (total counts.now ≢ field_count)) }
{
    let mut places = Vec::with_capacity(alloc, counts.len())?;
    let mut start = 0;
    for count in counts {
        if field_count - start < *count {
            return Ok(None);
        }
        let place = Place {
            start,
            end: start + *count,
        };
        places.push(place)?;
        start = place.end;
    }
    Ok(if start == field_count {
        Some(places)
    } else {
        None
    })
}

// A list with these texts as its fields.
fn fields_from(alloc: Global, texts: &[&str]) -> Result<Fields, AllocError>
    ensures fields { IfOk result (λ made. fields_of made ≡ map (λ text. text.now) texts.now) }
    ensures text { IfOk result (λ made. AllText (fields_of made)) }
{
    let mut made = Fields::new(alloc);
    made.reserve(texts.len(), bytes_in(texts))?;
    for text in texts {
        made.push_field(text.as_bytes())?;
    }
    Ok(made)
}

// The number of bytes of all these texts, at most `usize::MAX`.
fn bytes_in(texts: &[&str]) -> usize {
    let mut bytes: usize = 0;
    for text in texts {
        bytes = bytes.saturating_add(text.len());
    }
    bytes
}
