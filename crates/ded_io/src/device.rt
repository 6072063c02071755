//! What a source and a sink promise, and the writing of a whole piece.
ghost use Rattle.std.specs.Prelude.{◌≡◌, [], List, ℕ, Ok};
ghost use Rattle.std.specs.Io.{ReadsAtMost};
ghost use Rattle.std.specs.Io.KnownBytes.{ReadConsumes, WriteAppends};
ghost use Rattle.std.specs.declared.option.Option.{Option};
ghost use Rattle.ded_io.specs.Causes.{HasCause};
ghost use Rattle.ded_io.specs.Devices.{TakesSome, AddsAll, TellsLast};

/// The device failed at this call, and nothing was given or taken.
///
/// Its count of faults rose, or stands at 2^64-1, where a counter of 64 bits stays.
#[derive(Clone, Copy, Debug, PartialEq, Eq)]
pub struct Failed;

/// Where bytes come from.
pub trait Source {
    /// The bytes that are left, where it tells them.
    ghost left: { Self → Option (List ℕ) };

    /// The bytes that the last read gave which didn't fail, where it tells them. So a contract can say what was done
    /// before that read.
    ghost last: { Self → Option (List ℕ) };

    /// How many faults it has counted. A call never lowers this.
    ghost faults: { Self → ℕ };

    /// Gives the next bytes into the front of `into`, and answers how many.
    ///
    /// 0 into a buffer that isn't empty is the end of the input.
    ///
    /// # Errors
    /// `Failed` only where the count of faults rose, and then nothing was taken.
    fn read(&mut self, into: &mut [u8]) -> Result<usize, Failed>
        ensures bound { ReadsAtMost result into.new }
        ensures bytes { ReadConsumes (left self.old) (left self.new) result into.new }
        ensures last { TellsLast (last self.old) (last self.new) result into.new }
        ensures cause { HasCause (faults self.old) (faults self.new) result };
}

/// Where bytes go.
pub trait Sink {
    /// The bytes that it holds, where it tells them.
    ghost contents: { Self → Option (List ℕ) };

    /// How many faults it has counted. A call never lowers this.
    ghost faults: { Self → ℕ };

    /// Takes at least the first of the bytes, and at most all, and answers how many.
    ///
    /// Of an empty piece it answers 0.
    ///
    /// # Errors
    /// `Failed` only where the count of faults rose, and then nothing was taken.
    fn write(&mut self, bytes: &[u8]) -> Result<usize, Failed>
        ensures bound { TakesSome result bytes.now }
        ensures empty { bytes.now ≡ [] → result ≡ Ok 0 }
        ensures bytes { WriteAppends (contents self.old) (contents self.new) result bytes.now }
        ensures cause { HasCause (faults self.old) (faults self.new) result };
}

/// Writes all of the bytes, in as many pieces as the sink takes them.
///
/// # Errors
/// `Failed` only where the sink's count of faults rose, and then it holds a front of the bytes.
pub fn send<K: Sink>(sink: &mut K, bytes: &[u8]) -> Result<(), Failed>
    ensures bytes { AddsAll (K.contents sink.old) (K.contents sink.new) result bytes.now }
    ensures cause { HasCause (K.faults sink.old) (K.faults sink.new) result }
{
    let mut rest = bytes;
    while !rest.is_empty() {
        let taken = sink.write(rest)?;
        rest = &rest[taken..];
    }
    Ok(())
}
