ghost use Rattle.std.specs.Io.{ReadsAtMost, KnownBytes.{Appends, Keeps, ReadConsumes}};
ghost use Rattle.std.specs.{Prelude.{◌≡◌, ◌≤◌, IfOk, List, MatchResult, OnErr, OnOk, ℕ}, declared.option.Option.Option};
ghost use Rattle.tte_io.specs.{Faults.{Rose, next_count}, Told.{AppendsFront, IsZeroExactlyAtEnd, PassesSome}};

/// A read failed.
#[derive(Clone, Copy, PartialEq, Eq)]
pub struct SourceFailed;

/// A write failed.
#[derive(Clone, Copy, PartialEq, Eq)]
pub struct SinkFailed;

/// Where octets come from.
pub trait Source {
    /// The octets that are left, where they are told.
    ghost left: { Self → Option (List ℕ) };

    /// The count of the reads that failed.
    ghost faults: { Self → ℕ };

    /// Takes the next octets into the start of the buffer, and answers how many. None into a
    /// buffer that is not empty is the end. A failed read takes nothing.
    fn read(&mut self, buf: &mut [u8]) -> Result<usize, SourceFailed>
        ensures bound { ReadsAtMost result buf.new }
        ensures octets { ReadConsumes (left self.old) (left self.new) result buf.new }
        ensures end { IfOk result (IsZeroExactlyAtEnd (left self.old) buf.new) }

        ensures never_falls { faults self.old ≤ faults self.new }
        ensures ok_unchanged { OnOk result (faults self.new ≡ faults self.old) }
        ensures failed_rose { OnErr result (Rose (faults self.old) (faults self.new)) };
}

/// Where octets go. Those that were put may be held until they are passed on.
pub trait Sink {
    /// The octets that were put, where they are told.
    ghost written: { Self → Option (List ℕ) };

    /// Those of them that were passed on, where they are told.
    ghost passed: { Self → Option (List ℕ) };

    /// The count of the puts, which stands still at its last value, 2^64 - 1.
    ghost puts: { Self → ℕ };

    /// The count of the calls that failed.
    ghost faults: { Self → ℕ };

    /// Takes all the octets, or fails after a prefix of them. What it takes it may hold.
    fn put(&mut self, bytes: &[u8]) -> Result<(), SinkFailed>
        ensures all { OnOk result (Appends (written self.old) (written self.new) bytes.now) }
        ensures front { OnErr result (AppendsFront (written self.old) (written self.new) bytes.now) }
        ensures passes { PassesSome (passed self.old) (passed self.new) (written self.new) }
        ensures counted { puts self.new ≡ next_count (puts self.old) }

        ensures never_falls { faults self.old ≤ faults self.new }
        ensures ok_unchanged { OnOk result (faults self.new ≡ faults self.old) }
        ensures failed_rose { OnErr result (Rose (faults self.old) (faults self.new)) };

    /// Passes on all octets that were put and are still held, or fails after a prefix of them.
    fn pass_on(&mut self) -> Result<(), SinkFailed>
        ensures all { OnOk result (passed self.new ≡ written self.new) }
        ensures passes { PassesSome (passed self.old) (passed self.new) (written self.new) }
        ensures nothing_put { (written self.new ≡ written self.old) × (puts self.new ≡ puts self.old) }

        ensures never_falls { faults self.old ≤ faults self.new }
        ensures ok_unchanged { OnOk result (faults self.new ≡ faults self.old) }
        ensures failed_rose { OnErr result (Rose (faults self.old) (faults self.new)) };
}
