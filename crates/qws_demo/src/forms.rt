//! The program's forms.
ghost use Rattle.std.specs.Prelude.{◌≡◌, Some, IsSome};
ghost use Rattle.program_words.specs.declared.forms.Load.{Load};
ghost use Rattle.program_words.specs.declared.forms.Form.TheVariants.{Run, Trial};
ghost use Rattle.program_outputs.specs.Outputs.{load_session};
ghost use Rattle.qws_demo.specs.Kept.{KeepsShown, IsKept, IsKeptOf};
ghost use Rattle.program_outputs.specs.Texts.{usage_text};
ghost use Rattle.qws_demo.specs.Due.{asked, plain_form, run_limit};
ghost use Rattle.qws_demo.specs.Ends.{Seen, IsEnd, IsFinish};

use crate::ends::{check_end, finish, run_end};
use crate::loads::{make_end, trial_end};
use program_words::{Form, form_of_words};
use qws_base::{Gate, Sink, Source};
use server_desk::Closed;
use std::alloc::Global;
use std::sync::Wait;
use std::thread::Threads;

// Writes the usage.
fn usage_end<K: Sink>(sink: &mut K) -> u8
    ensures { IsFinish 2 usage_text result (K.written sink.old) (K.written sink.new) (K.faults sink.old) (K.faults sink.new) }
{
    finish(
        sink,
        b"usage: qws_demo run, check, make or trial --seed N --clients N --calls N\n",
        2,
    )
}

/// The forms that run on one thread and wait for nobody.
pub fn plain_end<S: Source, K: Sink>(
    alloc: Global,
    words: &[String],
    source: &mut S,
    sink: &mut K,
) -> u8
    ensures { let seen : Seen = record { left = S.left source.old; rest = S.left source.new; read_faults = S.faults source.old; read_faults_now = S.faults source.new; written = K.written sink.old; written_now = K.written sink.new; write_faults = K.faults sink.old; write_faults_now = K.faults sink.new } in
        IsEnd (plain_form (asked words.now)) result seen }
{
    match form_of_words(words) {
        Some(Form::Check) => check_end(alloc, source, sink),
        Some(Form::Make { load }) => make_end(alloc, load, sink),
        Some(Form::Run) => usage_end(sink),
        Some(Form::Trial { load: _ }) => usage_end(sink),
        None => usage_end(sink),
    }
}

/// All forms.
pub fn whole_end<R: Threads + Wait + Sync, S: Source, K: Sink, G: Gate + Sync>(
    rt: &R,
    alloc: Global,
    words: &[String],
    source: &mut S,
    sink: &mut K,
    gate: &G,
    kept: &mut Option<Closed>,
) -> u8
    ensures shown { result ≡ 0 → asked words.now ≡ Some Run → KeepsShown run_limit (S.left source.old) (S.left source.new) (K.written sink.old) (K.written sink.new) kept.new }
    ensures kept { result ≡ 0 → asked words.now ≡ Some Run → IsKept kept.new }
    ensures kept_trial { (load : Load) → result ≡ 0 → asked words.now ≡ Some (Trial load) → IsKeptOf (load_session load) kept.new }
    ensures unkept { ¬ (result ≡ 0) → kept.new ≡ kept.old }
    ensures unkept_plain { IsSome (plain_form (asked words.now)) → kept.new ≡ kept.old }
    ensures end { let seen : Seen = record { left = S.left source.old; rest = S.left source.new; read_faults = S.faults source.old; read_faults_now = S.faults source.new; written = K.written sink.old; written_now = K.written sink.new; write_faults = K.faults sink.old; write_faults_now = K.faults sink.new } in
        IsEnd (asked words.now) result seen }
{
    match form_of_words(words) {
        Some(Form::Run) => run_end(rt, alloc, source, sink, gate, kept),
        Some(Form::Trial { load }) => trial_end(rt, alloc, load, sink, gate, kept),
        Some(Form::Check) => plain_end(alloc, words, source, sink),
        Some(Form::Make { load: _ }) => plain_end(alloc, words, source, sink),
        None => plain_end(alloc, words, source, sink),
    }
}
