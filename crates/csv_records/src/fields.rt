//! A list of fields that are stored one after another in one piece of memory.

ghost use Rattle.std.specs.Prelude.{◌≡◌, ◌<◌, ◌-◌, ◌^◌, ◌++◌, ◌∷◌, [], IfSome, OnErr, OnOk, Some, get_or, length, option_map};
ghost use Rattle.csv.specs.Records.{field_at, fields_of, partial_of, prev};

use csv::ByteRecord;
use std::alloc::{AllocError, Global};
use std::marker::Model;

/// A list of the ends of fields. A number takes four bytes, up to the first number that doesn't fit
/// `u32`. From this one on, each number takes a `usize`.
#[derive(Drop)]
pub(crate) struct Ends {
    short: Vec<u32>,
    long: Vec<usize>,
}

impl Model for Ends {
    ghost use Rattle.std.specs.Prelude.{◌++◌, ℕ, List};

    ghost Value = { List ℕ };

    ghost view = { λ e. e.short.items ++ e.long.items };
}

impl Ends {
    fn new(alloc: Global) -> Ends
        ensures { result ≡ [] }
    {
        Ends {
            short: Vec::new(alloc),
            long: Vec::new(alloc),
        }
    }

    fn len(&self) -> usize
        ensures { result ≡ length self.now }
    {
        self.short.len() + self.long.len()
    }

    fn get(&self, at: usize) -> usize
        requires { at < length self.now }
        ensures { result ≡ get_or self.now at 0 }
    {
        if at < self.short.len() {
            self.short[at] as usize
        } else {
            self.long[at - self.short.len()]
        }
    }

    // The end before the end at a position, or 0 at the first position. It is the start of a field.
    fn start(&self, at: usize) -> usize
        requires { at < length self.now }
        ensures { result ≡ prev 0 self.now at }
    {
        if at == 0 { 0 } else { self.get(at - 1) }
    }

    // Makes room for `count` more ends.
    fn reserve(&mut self, count: usize) -> Result<(), AllocError>
        ensures { self.new ≡ self.old }
    {
        self.short.reserve(count)
    }

    fn push(&mut self, end: usize) -> Result<(), AllocError>
        ensures ok { OnOk result (self.new ≡ self.old ++ end ∷ []) }
        ensures err { OnErr result (self.new ≡ self.old) }
    {
        match u32::try_from(end) {
            Ok(end) if self.long.is_empty() => self.short.push(end)?,
            _ => self.long.push(end)?,
        }
        Ok(())
    }
}

/// A list of the fields of records, one after another.
#[derive(Drop)]
pub(crate) struct Fields {
    bytes: Vec<u8>,
    // the end of each field among the bytes
    ends: Ends,
}

impl Model for Fields {
    ghost use Rattle.csv.specs.Records.{IsRecord, Row};

    ghost Value = { Row };

    ghost view = { λ f. record { bytes = f.bytes.items; ends = f.ends } };

    ghost invariant = { λ f. IsRecord record { bytes = f.bytes.items; ends = f.ends } };
}

impl Fields {
    /// A list without fields.
    pub(crate) fn new(alloc: Global) -> Fields
        ensures fields { fields_of result ≡ [] }
        ensures whole { partial_of result ≡ [] }
    {
        Fields {
            bytes: Vec::new(alloc),
            ends: Ends::new(alloc),
        }
    }

    /// The number of fields.
    pub(crate) fn len(&self) -> usize
        ensures { result ≡ length (fields_of self.now) }
    {
        self.ends.len()
    }

    /// The field at the position `at`, which is counted from 0. `None` after the last field.
    pub(crate) fn get(&self, at: usize) -> Option<&[u8]>
        ensures place { IfSome result (λ field. at < 2 ^ 64 - 1) }
        ensures value { option_map (λ field. field.now) result ≡ field_at (fields_of self.now) at }
    {
        if at >= self.ends.len() {
            return None;
        }
        let (field, _) = self.field_from(at, self.start(at));
        Some(field)
    }

    /// The index of the byte at which the field at the position `at` starts. Both are counted from
    /// 0.
    pub(crate) fn start(&self, at: usize) -> usize
        requires { at < length (fields_of self.now) }
        ensures { result ≡ prev 0 self.now.ends at }
    {
        self.ends.start(at)
    }

    /// The field at the position `at`, and the index of the byte after this field. `start` is the
    /// index of the field's first byte.
    pub(crate) fn field_from(&self, at: usize, start: usize) -> (&[u8], usize)
        requires there { at < length (fields_of self.now) }
        requires start { start ≡ prev 0 self.now.ends at }
        ensures value { field_at (fields_of self.now) at ≡ Some result.0.now }
        ensures end { result.1 ≡ get_or self.now.ends at 0 }
    {
        let end = self.ends.get(at);
        (&self.bytes.as_slice()[start..end], end)
    }

    /// Reserves memory for `count` more fields with `bytes` bytes in all. The only error is that
    /// memory runs out; the fields are unchanged in any case.
    pub(crate) fn reserve(&mut self, count: usize, bytes: usize) -> Result<(), AllocError>
        ensures { self.new ≡ self.old }
    {
        self.bytes.reserve(bytes)?;
        self.ends.reserve(count)
    }

    /// Appends the fields of the record `more`. The only error is that memory runs out; some of the
    /// fields may then be appended.
    pub(crate) fn push_record(&mut self, more: &ByteRecord) -> Result<(), AllocError>
        requires whole { partial_of self.old ≡ [] }
        ensures whole { OnOk result (partial_of self.new ≡ []) }
        ensures fields { OnOk result (fields_of self.new
            ≡ fields_of self.old ++ fields_of more.now) }
    {
        for field in more.iter() {
            self.push_field(field)?;
        }
        Ok(())
    }

    /// Appends `field` to the list. The only error is that memory runs out.
    pub(crate) fn push_field(&mut self, field: &[u8]) -> Result<(), AllocError>
        requires whole { partial_of self.old ≡ [] }
        ensures whole { OnOk result (partial_of self.new ≡ []) }
        ensures fields { OnOk result (fields_of self.new
            ≡ fields_of self.old ++ field.now ∷ []) }
    {
        self.bytes.extend_from_slice(field)?;
        self.ends.push(self.bytes.len())?;
        Ok(())
    }
}
