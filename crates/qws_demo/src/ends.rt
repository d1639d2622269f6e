//! How a form of the program that reads ends.
ghost use Rattle.std.specs.Prelude.{◌≡◌, Some};
ghost use Rattle.program_words.specs.declared.forms.Form.TheVariants.{Run, Check};
ghost use Rattle.qws_demo.specs.Due.{run_limit};
ghost use Rattle.qws_demo.specs.Ends.{Seen, IsEnd, IsFinish};
ghost use Rattle.qws_demo.specs.Kept.{KeepsShown, IsKept};

use program_outputs::check_output;
use program_runs::run_output;
use qws_base::{Gate, ReadStop, Sink, Source, read_all, write_all};
use server_desk::Closed;
use std::alloc::Global;
use std::sync::Wait;
use std::thread::Threads;

/// Writes a text, and gives its status, or 4 where the sink failed.
pub fn finish<K: Sink>(sink: &mut K, text: &[u8], status: u8) -> u8
    ensures { IsFinish status text.now result (K.written sink.old) (K.written sink.new) (K.faults sink.old) (K.faults sink.new) }
{
    match write_all(sink, text) {
        Ok(()) => status,
        Err(_) => 4,
    }
}

/// Keeps a closed session where the status is 0.
pub fn keep(status: u8, closed: Option<Closed>, kept: &mut Option<Closed>)
    ensures kept { status ≡ 0 → kept.new ≡ closed }
    ensures unkept { ¬ (status ≡ 0) → kept.new ≡ kept.old }
{
    if status == 0 {
        *kept = closed;
    }
}

/// Reads a script and a file to the end of the source, at most 67,108,864 bytes, and checks the file.
pub fn check_end<S: Source, K: Sink>(alloc: Global, source: &mut S, sink: &mut K) -> u8
    ensures { let seen : Seen = record { left = S.left source.old; rest = S.left source.new; read_faults = S.faults source.old; read_faults_now = S.faults source.new; written = K.written sink.old; written_now = K.written sink.new; write_faults = K.faults sink.old; write_faults_now = K.faults sink.new } in
        IsEnd (Some Check) result seen }
{
    let bytes = match read_all(alloc, source, 67_108_864) {
        Ok(bytes) => bytes,
        Err(ReadStop::ReadFault) => return 3,
        Err(ReadStop::TooLong) => return finish(sink, b"too long\n", 6),
        Err(ReadStop::OutOfMemory) => return 5,
    };
    match check_output(alloc, &bytes) {
        Ok(output) => finish(sink, &output.text, output.status),
        Err(_) => 5,
    }
}

/// Reads a script to the end of the source, at most 4,194,304 bytes, runs it, and keeps the closed session where its file was
/// written.
pub fn run_end<R: Threads + Wait + Sync, S: Source, K: Sink, G: Gate + Sync>(
    rt: &R,
    alloc: Global,
    source: &mut S,
    sink: &mut K,
    gate: &G,
    kept: &mut Option<Closed>,
) -> u8
    ensures end { let seen : Seen = record { left = S.left source.old; rest = S.left source.new; read_faults = S.faults source.old; read_faults_now = S.faults source.new; written = K.written sink.old; written_now = K.written sink.new; write_faults = K.faults sink.old; write_faults_now = K.faults sink.new } in
        IsEnd (Some Run) result seen }
    ensures shown { result ≡ 0 → KeepsShown run_limit (S.left source.old) (S.left source.new) (K.written sink.old) (K.written sink.new) kept.new }
    ensures kept { result ≡ 0 → IsKept kept.new }
    ensures unkept { ¬ (result ≡ 0) → kept.new ≡ kept.old }
{
    let bytes = match read_all(alloc, source, 4_194_304) {
        Ok(bytes) => bytes,
        Err(ReadStop::ReadFault) => return 3,
        Err(ReadStop::TooLong) => return finish(sink, b"too long\n", 6),
        Err(ReadStop::OutOfMemory) => return 5,
    };
    let ran = match run_output(rt, alloc, &bytes, gate) {
        Ok(ran) => ran,
        Err(_) => return 5,
    };
    let status = finish(sink, &ran.output.text, ran.output.status);
    keep(status, ran.closed, kept);
    status
}
