//! Sources and sinks in memory: some whose calls fail as they are told, and some that never fail.
ghost use Rattle.std.specs.Prelude.{◌≡◌, ◌<◌, ◌≤◌, ◌+◌, ◌-◌, ◌==◌, ◌||◌, ℕ, List, [], Some, None, OnOk, OnErr, IfOk, is_err, length, take, min};
ghost use Rattle.std.specs.List.{list_any};
ghost use Rattle.qws_base.specs.Outside.{Rose, GaveFirst, left_after, with_bytes};
ghost use Rattle.qws_base.specs.Memory.{is_full};

use crate::lists::OutOfMemory;
use crate::streams::{Failed, Sink, Source};
use std::alloc::Global;
use std::marker::Model;

/// A source in memory, whose calls fail as they are told. It tells its bytes, and counts its calls and its faults.
#[derive(Debug, Drop)]
pub struct MemSource {
    bytes: Vec<u8>,
    at: usize,
    max_piece: usize,
    failing: Vec<u64>,
    calls: u64,
    faults: u64,
}

impl Model for MemSource {
    ghost use Rattle.std.specs.Prelude.{◌<◌, ◌≤◌, drop, vec_len};
    ghost use Rattle.qws_base.specs.Memory.{Feed};

    ghost Value = { Feed };

    ghost view = { λ s. record { left = drop s.at s.bytes.items; max_piece = s.max_piece; calls = s.calls; faults = s.faults; failing = s.failing.items } };

    ghost invariant = { λ s. (s.at ≤ vec_len s.bytes) × (0 < s.max_piece) };
}

impl MemSource {
    /// Gives these bytes in pieces of at most `max_piece`, which is at least 1, and fails at the calls of the numbers in
    /// `failing`, counted from 1.
    pub fn new(bytes: Vec<u8>, max_piece: usize, failing: Vec<u64>) -> Self
        requires { 0 < max_piece }
        ensures { result ≡ record { left = bytes.items; max_piece = max_piece; calls = 0; faults = 0; failing = failing.items } }
    {
        MemSource {
            bytes,
            at: 0,
            max_piece,
            failing,
            calls: 0,
            faults: 0,
        }
    }
}

impl Source for MemSource {
    ghost left = { λ s. Some s.left };

    ghost faults = { λ s. s.faults };

    ghost reads = { λ s. s.calls };

    fn read(&mut self, piece: &mut [u8]) -> Result<usize, Failed>
        ensures within { IfOk result (λ n. n ≤ length piece.new) }
        ensures gave { IfOk result (λ n. GaveFirst (Some self.old.left) piece.new n) }
        ensures left { IfOk result (λ n. Some self.new.left ≡ left_after n (Some self.old.left)) }
        ensures kept { OnErr result (Some self.new.left ≡ Some self.old.left) }
        ensures failed { OnErr result (Rose self.old.faults self.new.faults) }
        ensures unfailed { OnOk result (self.new.faults ≡ self.old.faults) }
        ensures never_falls { self.old.faults ≤ self.new.faults }
        ensures counted { self.new.calls ≤ self.old.calls + 1 }

        // It gives as much as it may, and fails at just the calls that are to fail.
        ensures whole_piece { IfOk result (λ n. n ≡ min (min (length piece.new) self.old.max_piece) (length self.old.left)) }
        ensures as_told { is_err result ≡ list_any (λ call. call == self.new.calls) self.old.failing }
        ensures call { self.new.calls ≡ min (self.old.calls + 1) 18446744073709551615 }
        ensures settings { (self.new.max_piece ≡ self.old.max_piece) × (self.new.failing ≡ self.old.failing) }
    {
        self.calls = self.calls.saturating_add(1);
        if self.failing.contains(&self.calls) {
            self.faults = self.faults.saturating_add(1);
            return Err(Failed);
        }
        let n = piece
            .len()
            .min(self.max_piece)
            .min(self.bytes.len() - self.at);
        piece[..n].copy_from_slice(&self.bytes[self.at..self.at + n]);
        self.at += n;
        Ok(n)
    }
}

/// A sink in memory, whose calls fail as they are told, and where its room is full. It tells its bytes, and counts its calls
/// and its faults.
#[derive(Debug, Drop)]
pub struct MemSink {
    bytes: Vec<u8>,
    room: usize,
    max_piece: usize,
    failing: Vec<u64>,
    calls: u64,
    faults: u64,
}

impl Model for MemSink {
    ghost use Rattle.std.specs.Prelude.{◌<◌, ◌≤◌, length, vec_capacity};
    ghost use Rattle.qws_base.specs.Memory.{Store};

    ghost Value = { Store };

    ghost view = { λ s. record { written = s.bytes.items; room = s.room; max_piece = s.max_piece; calls = s.calls; faults = s.faults; failing = s.failing.items } };

    ghost invariant = { λ s. (0 < s.max_piece) × (length s.bytes.items ≤ s.room) × (s.room ≤ vec_capacity s.bytes) };
}

impl MemSink {
    /// Takes its room now, in bytes. It takes pieces of at most `max_piece` bytes, which is at least 1, and fails at the
    /// calls of the numbers in `failing`, counted from 1, and where the room is full.
    pub fn new(
        alloc: Global,
        room: usize,
        max_piece: usize,
        failing: Vec<u64>,
    ) -> Result<Self, OutOfMemory>
        requires { 0 < max_piece }
        ensures { IfOk result (λ s. s ≡ record { written = []; room = room; max_piece = max_piece; calls = 0; faults = 0; failing = failing.items }) }
    {
        let Ok(bytes) = Vec::with_capacity(alloc, room) else {
            return Err(OutOfMemory);
        };
        Ok(MemSink {
            bytes,
            room,
            max_piece,
            failing,
            calls: 0,
            faults: 0,
        })
    }

    /// What was written.
    pub fn bytes(&self) -> &[u8]
        ensures { result.now ≡ self.now.written }
    {
        &self.bytes
    }
}

impl Sink for MemSink {
    ghost written = { λ s. Some s.written };

    ghost faults = { λ s. s.faults };

    fn write(&mut self, piece: &[u8]) -> Result<usize, Failed>
        ensures within { IfOk result (λ n. n ≤ length piece.now) }
        ensures progress { IfOk result (λ n. 0 < length piece.now → 0 < n) }
        ensures written { IfOk result (λ n. Some self.new.written ≡ with_bytes (take n piece.now) (Some self.old.written)) }
        ensures kept { OnErr result (Some self.new.written ≡ Some self.old.written) }
        ensures failed { OnErr result (Rose self.old.faults self.new.faults) }
        ensures unfailed { OnOk result (self.new.faults ≡ self.old.faults) }
        ensures never_falls { self.old.faults ≤ self.new.faults }

        // It takes as much as it may, and fails at just the calls that are to fail, and where the room is full.
        ensures whole_piece { IfOk result (λ n. n ≡ min (min (length piece.now) self.old.max_piece) (self.old.room - length self.old.written)) }
        ensures as_told { is_err result ≡ (is_full self.old piece.now || list_any (λ call. call == self.new.calls) self.old.failing) }
        ensures call { self.new.calls ≡ min (self.old.calls + 1) 18446744073709551615 }
        ensures settings { (self.new.room ≡ self.old.room) × (self.new.max_piece ≡ self.old.max_piece) × (self.new.failing ≡ self.old.failing) }
    {
        self.calls = self.calls.saturating_add(1);
        let n = piece
            .len()
            .min(self.max_piece)
            .min(self.room - self.bytes.len());
        let is_full = n == 0 && !piece.is_empty();
        if is_full || self.failing.contains(&self.calls) {
            self.faults = self.faults.saturating_add(1);
            return Err(Failed);
        }
        if self.bytes.extend_from_slice(&piece[..n]).is_err() {
            self.faults = self.faults.saturating_add(1);
            return Err(Failed);
        }
        Ok(n)
    }
}

/// Gives all it has at once, and never fails.
#[derive(Debug, Drop)]
pub struct CleanSource {
    bytes: Vec<u8>,
    at: usize,
}

impl Model for CleanSource {
    ghost use Rattle.std.specs.Prelude.{◌≤◌, List, ℕ, drop, vec_len};

    ghost Value = { List ℕ };

    ghost view = { λ s. drop s.at s.bytes.items };

    ghost invariant = { λ s. s.at ≤ vec_len s.bytes };
}

impl CleanSource {
    /// A source of these bytes.
    pub fn new(bytes: Vec<u8>) -> Self
        ensures { result ≡ bytes.items }
    {
        CleanSource { bytes, at: 0 }
    }
}

impl Source for CleanSource {
    ghost left = { λ s. Some s };

    ghost faults = { λ s. 0 };

    ghost reads = { λ s. 0 };

    fn read(&mut self, piece: &mut [u8]) -> Result<usize, Failed> {
        let n = piece.len().min(self.bytes.len() - self.at);
        piece[..n].copy_from_slice(&self.bytes[self.at..self.at + n]);
        self.at += n;
        Ok(n)
    }
}

/// Takes each piece whole, keeps nothing, and never fails.
#[derive(Debug, Drop)]
pub struct CleanSink;

impl CleanSink {
    /// A sink that keeps nothing.
    pub fn new() -> Self {
        CleanSink
    }
}

impl Sink for CleanSink {
    ghost written = { λ s. None };

    ghost faults = { λ s. 0 };

    fn write(&mut self, piece: &[u8]) -> Result<usize, Failed>
        ensures { result ≡ Ok (length piece.now) }
    {
        Ok(piece.len())
    }
}
