//! The forms that read nothing.
ghost use Rattle.std.specs.Prelude.{◌≡◌};
ghost use Rattle.session_maker.specs.Laws.{IsLoad};
ghost use Rattle.program_outputs.specs.Outputs.{load_session, make_text, trial_text};
ghost use Rattle.qws_demo.specs.Ends.{IsTextEnd};
ghost use Rattle.qws_demo.specs.Kept.{IsKeptOf};

use crate::ends::{finish, keep};
use program_outputs::make_output;
use program_runs::trial_output;
use program_words::Load;
use qws_base::{Gate, Sink};
use server_desk::Closed;
use std::alloc::Global;
use std::sync::Wait;
use std::thread::Threads;

/// Writes the script of a load.
pub fn make_end<K: Sink>(alloc: Global, load: Load, sink: &mut K) -> u8
    requires { IsLoad load.clients load.calls }
    ensures { IsTextEnd (make_text load) result (K.written sink.old) (K.written sink.new) (K.faults sink.old) (K.faults sink.new) }
{
    match make_output(alloc, load) {
        Ok(output) => finish(sink, &output.text, output.status),
        Err(_) => 5,
    }
}

/// Makes, runs and checks the session of a load, and keeps the closed session where that was told.
pub fn trial_end<R: Threads + Wait + Sync, K: Sink, G: Gate + Sync>(
    rt: &R,
    alloc: Global,
    load: Load,
    sink: &mut K,
    gate: &G,
    kept: &mut Option<Closed>,
) -> u8
    requires load { IsLoad load.clients load.calls }
    ensures end { IsTextEnd (trial_text load) result (K.written sink.old) (K.written sink.new) (K.faults sink.old) (K.faults sink.new) }
    ensures kept { result ≡ 0 → IsKeptOf (load_session load) kept.new }
    ensures unkept { ¬ (result ≡ 0) → kept.new ≡ kept.old }
{
    let made = match trial_output(rt, alloc, load, gate) {
        Ok(made) => made,
        Err(_) => return 5,
    };
    let status = finish(sink, &made.0.text, made.0.status);
    keep(status, Some(made.1), kept);
    status
}
