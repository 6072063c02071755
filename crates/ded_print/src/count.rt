//! Counts of up to 64 digits.
ghost use Rattle.std.specs.Prelude.{◌≡◌, [], ◌∷◌, reverse};
ghost use Rattle.ded_print.specs.Counts.{added, carries, raised};
ghost use Rattle.ded_print.specs.Gathering.{output, Puts};

use crate::gathered::Gathered;
use arrayvec::ArrayVec;
use ded_io::Sink;

/// A count in decimal, the ones first, of more than 64 digits the last 64.
#[derive(Drop)]
pub(crate) struct Count {
    digits: ArrayVec<u8, 64>,
}

impl Count {
    /// A count of nothing.
    pub(crate) fn new() -> Count
        ensures { result.digits.items ≡ 48 ∷ [] }
    {
        let mut digits = ArrayVec::new();
        let _ = digits.try_push(b'0');
        Count { digits }
    }

    /// Counts one more.
    pub(crate) fn raise(&mut self)
        ensures { self.new.digits.items ≡ raised 64 self.old.digits.items }
    {
        if add_one(self.digits.as_mut_slice()) {
            let _ = self.digits.try_push(b'1');
        }
    }

    /// Puts the count in decimal.
    pub(crate) fn put<K: Sink>(&self, gathered: &mut Gathered, sink: &mut K)
        ensures { Puts
            (output (K.contents sink.old) (K.faults sink.old) gathered.old)
            (output (K.contents sink.new) (K.faults sink.new) gathered.new)
            (reverse self.now.digits.items) }
    {
        put_reversed(self.digits.as_slice(), gathered, sink);
    }
}

/// Adds one to the digits, which stand with the ones first. Returns whether it is carried behind the last digit.
fn add_one(digits: &mut [u8]) -> bool
    ensures digits { digits.new ≡ added digits.old }
    ensures carried { result ≡ carries digits.old }
{
    for digit in digits.iter_mut() {
        if *digit < b'9' {
            *digit += 1;
            return false;
        }
        *digit = b'0';
    }
    true
}

/// Puts the bytes in reverse, the last one first.
fn put_reversed<K: Sink>(bytes: &[u8], gathered: &mut Gathered, sink: &mut K)
    ensures { Puts
        (output (K.contents sink.old) (K.faults sink.old) gathered.old)
        (output (K.contents sink.new) (K.faults sink.new) gathered.new)
        (reverse bytes.now) }
{
    if let Some((first, rest)) = bytes.split_first() {
        put_reversed(rest, gathered, sink);
        gathered.put(sink, &[*first]);
    }
}
