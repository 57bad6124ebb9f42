//! Devices: sources and sinks of bytes.

ghost use Rattle.std.specs.Prelude.{◌≡◌, ◌<◌, ◌≤◌, ◌++◌, ◌||◌, List, ℕ, Bool, true, length, take, drop, is_err, IfOk, OnErr, Option, Some, []};
ghost use Rattle.devices.specs.Device.{is_end};

/// The only error of a device, which is a source or a sink. If a call of a device returns this
/// error, the device has failed, and every later call returns it too.
#[derive(Clone, Copy, Debug, PartialEq, Eq)]
pub struct DeviceFault;

/// A source of bytes, which are read in order.
pub trait Source {
    // the bytes that are left, if they are known
    ghost remaining: { Self → Option (List ℕ) };

    // true if the source has failed
    ghost has_failed: { Self → Bool };

    // true if the end was read: a call with a buffer that isn't empty returned 0
    ghost end_was_read: { Self → Bool };

    /// Reads the next bytes of the source into the front of `buffer`, and returns the number of
    /// bytes. If `buffer` isn't empty, 0 means that the end of the source was read.
    ///
    /// The only error is that the source has failed. After it every later call fails too.
    fn read(&mut self, buffer: &mut [u8]) -> Result<usize, DeviceFault>
        ensures bound { IfOk result (λ count. count ≤ length buffer.old) }
        ensures fault { has_failed self.new ≡ is_err result }
        ensures stays_failed { has_failed self.old ≡ true → has_failed self.new ≡ true }
        ensures bytes { IfOk result
            (λ count. (left : List ℕ) → remaining self.old ≡ Some left
            → (take count buffer.new ≡ take count left)
            × (remaining self.new ≡ Some (drop count left))) }
        ensures end { IfOk result (λ count. count ≡ 0 → 0 < length buffer.old → (left : List ℕ)
            → remaining self.old ≡ Some left
            → left ≡ []) }
        ensures end_read { end_was_read self.new
            ≡ (end_was_read self.old || is_end result (length buffer.old)) };

    // no byte is left after the end
    ghost ended: { (s : Self) → end_was_read s ≡ true → (left : List ℕ) → remaining s ≡ Some left
        → left ≡ [] };
}

/// A destination for bytes, which are written in order.
pub trait Sink {
    // the bytes that the sink has taken, if they are known
    ghost taken: { Self → Option (List ℕ) };

    // true if the sink has failed
    ghost has_failed: { Self → Bool };

    /// Writes bytes from the front of `piece`, and returns the number of bytes, which is at least 1
    /// if `piece` isn't empty.
    ///
    /// The only error is that the sink has failed. A failed call writes no byte, and every later
    /// call fails too.
    fn write(&mut self, piece: &[u8]) -> Result<usize, DeviceFault>
        ensures bound { IfOk result (λ count. count ≤ length piece.now) }
        ensures some { IfOk result (λ count. 0 < length piece.now → 0 < count) }
        ensures fault { has_failed self.new ≡ is_err result }
        ensures stays_failed { has_failed self.old ≡ true → has_failed self.new ≡ true }
        ensures bytes { IfOk result
            (λ count. (had : List ℕ) → taken self.old ≡ Some had
            → taken self.new ≡ Some (had ++ take count piece.now)) }
        ensures refused { OnErr result
            ((had : List ℕ) → taken self.old ≡ Some had → taken self.new ≡ Some had) };
}
