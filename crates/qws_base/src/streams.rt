//! Sources and sinks of bytes, which may fail at any call.
ghost use Rattle.std.specs.Prelude.{◌≡◌, ◌<◌, ◌≤◌, ◌+◌, ◌^◌, ℕ, List, Option, length, take, IfOk, OnOk, OnErr, IsErrOf};
ghost use Rattle.qws_base.specs.declared.streams.ReadStop.TheVariants.{ReadFault, OutOfMemory as no_memory};
ghost use Rattle.qws_base.specs.Outside.{Rose, GaveFirst, left_after, with_bytes, WritesFront, IsAll, HadMoreThan, IsUnfailedRead};

use std::alloc::{AllocError, Global};

/// A source or a sink failed.
#[derive(Clone, Copy, Debug, PartialEq, Eq)]
pub struct Failed;

/// A sink failed.
#[derive(Clone, Copy, Debug, PartialEq, Eq)]
pub struct WriteFault;

/// Why the bytes of a source weren't read whole.
#[derive(Clone, Copy, Debug, PartialEq, Eq)]
pub enum ReadStop {
    /// The source failed.
    ReadFault,
    /// The source gave more bytes than the limit.
    TooLong,
    /// No memory was there for the bytes.
    OutOfMemory,
}

impl From<Failed> for ReadStop {
    ghost from_gives = { λ _ e. e ≡ ReadFault };

    fn from(_: Failed) -> Self {
        ReadStop::ReadFault
    }
}

impl From<AllocError> for ReadStop {
    ghost from_gives = { λ _ e. e ≡ no_memory };

    fn from(_: AllocError) -> Self {
        ReadStop::OutOfMemory
    }
}

impl From<Failed> for WriteFault {
    fn from(_: Failed) -> Self {
        WriteFault
    }
}

/// Where bytes come from, in pieces. It has a count of its faults, which never falls, and may tell the bytes that it has
/// left.
pub trait Source {
    /// The bytes that are left, where the source tells them.
    ghost left: { Self → Option (List ℕ) };

    /// How often it failed.
    ghost faults: { Self → ℕ };

    /// How often it was read, where it counts that.
    ghost reads: { Self → ℕ };

    /// Fills the front of the piece, and says how many bytes it has filled: those of the source that come next. 0 for a
    /// piece that isn't empty is the end, which comes only where none is left. Failed comes only where the count of faults
    /// rose, and then no byte was taken; an Ok leaves the count.
    fn read(&mut self, piece: &mut [u8]) -> Result<usize, Failed>
        ensures within { IfOk result (λ n. n ≤ length piece.new) }
        ensures gave { IfOk result (λ n. GaveFirst (left self.old) piece.new n) }
        ensures left { IfOk result (λ n. left self.new ≡ left_after n (left self.old)) }
        ensures kept { OnErr result (left self.new ≡ left self.old) }
        ensures failed { OnErr result (Rose (faults self.old) (faults self.new)) }
        ensures unfailed { OnOk result (faults self.new ≡ faults self.old) }
        ensures never_falls { faults self.old ≤ faults self.new }
        ensures counted { reads self.new ≤ reads self.old + 1 };
}

/// Where bytes go, in pieces. It has a count of its faults, which never falls, and may tell the bytes written so far.
pub trait Sink {
    /// The bytes written so far, where the sink tells them.
    ghost written: { Self → Option (List ℕ) };

    /// How often it failed.
    ghost faults: { Self → ℕ };

    /// Takes the front of the piece, and says how many bytes it has taken, at least one of a piece that isn't empty. Failed
    /// comes only where the count of faults rose, and then no byte was taken; an Ok leaves the count.
    fn write(&mut self, piece: &[u8]) -> Result<usize, Failed>
        ensures within { IfOk result (λ n. n ≤ length piece.now) }
        ensures progress { IfOk result (λ n. 0 < length piece.now → 0 < n) }
        ensures written { IfOk result (λ n. written self.new ≡ with_bytes (take n piece.now) (written self.old)) }
        ensures kept { OnErr result (written self.new ≡ written self.old) }
        ensures failed { OnErr result (Rose (faults self.old) (faults self.new)) }
        ensures unfailed { OnOk result (faults self.new ≡ faults self.old) }
        ensures never_falls { faults self.old ≤ faults self.new };
}

/// All bytes of the source to its end, if these are no more than the limit. ReadFault comes exactly where a read failed, so
/// that the source's count of faults rose; TooLong exactly where the source gave more bytes than the limit. It reads at most
/// `limit + 2` times.
pub fn read_all<S: Source>(alloc: Global, source: &mut S, limit: u64) -> Result<Vec<u8>, ReadStop>
    ensures whole { IfOk result (λ v. IsAll (S.left source.old) v.items (S.left source.new)) }
    ensures within { IfOk result (λ v. length v.items ≤ limit) }
    ensures too_long { IsErrOf result ReadStop.TooLong → HadMoreThan limit (S.left source.old) }
    ensures read_fault { IsErrOf result ReadStop.ReadFault → Rose (S.faults source.old) (S.faults source.new) }
    ensures unfailed { IsUnfailedRead result (S.faults source.old) (S.faults source.new) }
    ensures never_falls { S.faults source.old ≤ S.faults source.new }
    ensures reads { S.reads source.new ≤ S.reads source.old + limit + 2 }
{
    let mut bytes = Vec::new(alloc);
    let mut piece = [0u8; 4096];
    let mut room = limit;
    loop {
        let n = source.read(&mut piece)?;
        if n == 0 {
            return Ok(bytes);
        }
        if n as u64 > room {
            return Err(ReadStop::TooLong);
        }
        bytes.extend_from_slice(&piece[..n])?;
        room -= n as u64;
    }
}

/// Writes all the bytes, and hands the whole rest to the sink each time. WriteFault comes exactly where a write failed, so
/// that the sink's count of faults rose; a front of the bytes is then written. It takes no memory.
pub fn write_all<K: Sink>(sink: &mut K, bytes: &[u8]) -> Result<(), WriteFault>
    ensures ok { OnOk result (K.written sink.new ≡ with_bytes bytes.now (K.written sink.old)) }
    ensures err { OnErr result (WritesFront bytes.now (K.written sink.old) (K.written sink.new)) }
    ensures failed { OnErr result (Rose (K.faults sink.old) (K.faults sink.new)) }
    ensures unfailed { OnOk result (K.faults sink.new ≡ K.faults sink.old) }
    ensures never_falls { K.faults sink.old ≤ K.faults sink.new }
{
    let mut at = 0;
    while at < bytes.len() {
        at += sink.write(&bytes[at..])?;
    }
    Ok(())
}
