//! The whole program over a source and a sink.
ghost use Rattle.std.specs.Prelude.{◌≡◌, ◌<◌, ◌≤◌, ◌⊎◌, IsSome};
ghost use Rattle.qws_base.specs.Outside.{Rose, HadMoreThan, with_bytes};
ghost use Rattle.program_words.specs.declared.forms.Load.{Load};
ghost use Rattle.program_words.specs.declared.forms.Form.TheVariants.{Run, Check, Make, Trial};
ghost use Rattle.program_outputs.specs.Texts.{usage_text, long_text};
ghost use Rattle.program_outputs.specs.Outputs.{load_session, make_text, trial_text};
ghost use Rattle.qws_demo.specs.Due.{asked, plain_form, run_limit, check_limit, Reads};
ghost use Rattle.qws_demo.specs.Headline.{Headline};
ghost use Rattle.qws_demo.specs.Kept.{KeepsShown, IsKept, IsKeptOf};
ghost use Rattle.qws_demo.specs.Statuses.{WritesWhere, IsHeld, WritesBadScript, WritesBadPair, IsDiffering, WritesPart, IsToldThat, IsMore, IsWithin, IsScript, IsNoScript, IsNoPair, IsPair, IsOtherPair};

use crate::forms::{plain_end, whole_end};
use qws_base::{Gate, Sink, Source};
use server_desk::Closed;
use std::alloc::Global;
use std::sync::Wait;
use std::thread::Threads;

/// Runs the forms of the program that wait for nobody: `check` and `make`. For all other words the answer is 2. What they
/// write and with which status is as `top` says.
pub fn plain_top<S: Source, K: Sink>(
    alloc: Global,
    words: &[String],
    source: &mut S,
    sink: &mut K,
) -> u8
    // What each other form and status says, and what is written then.
    ensures held { result ≡ 0 → asked words.now ≡ Some Check → WritesWhere (IsHeld check_limit) (S.left source.old) (K.written sink.old) (K.written sink.new) }
    ensures made { (load : Load) → result ≡ 0 → asked words.now ≡ Some (Make load) → K.written sink.new ≡ with_bytes (make_text load) (K.written sink.old) }
    ensures bad_pair { result ≡ 1 → asked words.now ≡ Some Check → WritesWhere (WritesBadPair check_limit) (S.left source.old) (K.written sink.old) (K.written sink.new) }
    ensures usage { result ≡ 2 → plain_form (asked words.now) ≡ None }
    ensures usage_written { result ≡ 2 → K.written sink.new ≡ with_bytes usage_text (K.written sink.old) }
    ensures read_fault { result ≡ 3 → Rose (S.faults source.old) (S.faults source.new) }
    ensures unread { result ≡ 3 → K.written sink.new ≡ K.written sink.old }
    ensures write_fault { result ≡ 4 → Rose (K.faults sink.old) (K.faults sink.new) }
    ensures part { result ≡ 4 → WritesPart (plain_form (asked words.now)) (S.left source.old) (K.written sink.old) (K.written sink.new) }
    ensures no_memory { result ≡ 5 → K.written sink.new ≡ K.written sink.old }
    ensures long_pair { result ≡ 6 → asked words.now ≡ Some Check → HadMoreThan check_limit (S.left source.old) }
    ensures long_written { result ≡ 6 → K.written sink.new ≡ with_bytes long_text (K.written sink.old) }
    ensures differs { result ≡ 7 → asked words.now ≡ Some Check }
    ensures told_difference { result ≡ 7 → WritesWhere (IsDiffering check_limit) (S.left source.old) (K.written sink.old) (K.written sink.new) }
    ensures reading_forms { (result ≡ 1) ⊎ ((result ≡ 3) ⊎ (result ≡ 6)) → Reads (plain_form (asked words.now)) }
    ensures no_other { result ≤ 7 }
    // The counts of faults rise with those statuses alone.
    ensures read_well { (result ≡ 3) ⊎ (S.faults source.new ≡ S.faults source.old) }
    ensures wrote_well { (result ≡ 4) ⊎ (K.faults sink.new ≡ K.faults sink.old) }

    // The other direction: when each status comes, where source and sink have no fault and memory is there.
    ensures other_words { plain_form (asked words.now) ≡ None → ¬ (Rose (K.faults sink.old) (K.faults sink.new)) → result ≡ 2 }
    ensures complete_check { asked words.now ≡ Some Check → IsToldThat (IsWithin check_limit IsPair) (S.left source.old) → ¬ (Rose (S.faults source.old) (S.faults source.new)) → ¬ (Rose (K.faults sink.old) (K.faults sink.new)) → (result ≡ 0) ⊎ (result ≡ 5) }
    ensures complete_make { (load : Load) → asked words.now ≡ Some (Make load) → ¬ (Rose (K.faults sink.old) (K.faults sink.new)) → (result ≡ 0) ⊎ (result ≡ 5) }
    ensures told_bad_pair { asked words.now ≡ Some Check → IsToldThat (IsWithin check_limit IsNoPair) (S.left source.old) → ¬ (Rose (S.faults source.old) (S.faults source.new)) → ¬ (Rose (K.faults sink.old) (K.faults sink.new)) → (result ≡ 1) ⊎ (result ≡ 5) }
    ensures told_long_pair { asked words.now ≡ Some Check → IsToldThat (IsMore check_limit) (S.left source.old) → ¬ (Rose (S.faults source.old) (S.faults source.new)) → ¬ (Rose (K.faults sink.old) (K.faults sink.new)) → (result ≡ 6) ⊎ (result ≡ 5) }
    ensures told_other_pair { asked words.now ≡ Some Check → IsToldThat (IsWithin check_limit IsOtherPair) (S.left source.old) → ¬ (Rose (S.faults source.old) (S.faults source.new)) → ¬ (Rose (K.faults sink.old) (K.faults sink.new)) → (result ≡ 7) ⊎ (result ≡ 5) }
{
    plain_end(alloc, words, source, sink)
}

/// Runs the program with these words, which stand behind its name, and gives its exit status.
///
/// | Words | What is done |
/// |---|---|
/// | `run` | the source is read to its end as a session script of at most 4,194,304 bytes, its clients make their calls, and the file is written |
/// | `check` | the source is read to its end as a script and a file behind it, at most 67,108,864 bytes, and they are compared |
/// | `make` with `--seed`, `--clients` and `--calls` | nothing is read; the script that these numbers make is written |
/// | `trial` with the same options | nothing is read; that script is made, run and checked |
///
/// | Status | Comes | Written |
/// |---|---|---|
/// | 0 | else | the file; `holds N` with the number of entries; the script; `clients C calls N holds` |
/// | 1 | exactly where the bytes are no script, or for `check` no file follows it | `bad line L CAUSE` or `bad byte AT` |
/// | 2 | exactly where the words have none of the four forms | the usage |
/// | 3 | exactly where a read failed, so that the source's count of faults rose | nothing |
/// | 4 | exactly where a write failed, so that the sink's count of faults rose | a prefix of the text that is due |
/// | 5 | where memory is missing | nothing |
/// | 6 | exactly where the source gave more bytes than the limit | `too long` |
/// | 7 | exactly where `check` read both, and the file isn't that of a run of the script | `bad screen W H`, `bad entry LINE` or `bad pixel INDEX` |
///
/// Each text ends with a line end. The clients of `run` and `trial` are threads over one screen, to which the gate is handed;
/// so these forms wait, and may not return. With status 0 they keep the closed session, which nothing else changes.
pub fn top<R: Threads + Wait + Sync, S: Source, K: Sink, G: Gate + Sync>(
    rt: &R,
    alloc: Global,
    words: &[String],
    source: &mut S,
    sink: &mut K,
    gate: &G,
    kept: &mut Option<Closed>,
) -> u8
    requires { kept.old ≡ None }
    // `run` with status 0: the bytes written are the file of a legal history that its comment lines name, with each client's
    // whole calls once and in order.
    ensures headline { result ≡ 0 → asked words.now ≡ Some Run → Headline run_limit (S.left source.old) (S.left source.new) (K.written sink.old) (K.written sink.new) }
    // The closed session that is kept is that of real turns on the shared words, and it is the run's.
    ensures kept_shown { result ≡ 0 → asked words.now ≡ Some Run → KeepsShown run_limit (S.left source.old) (S.left source.new) (K.written sink.old) (K.written sink.new) kept.new }
    ensures kept { result ≡ 0 → asked words.now ≡ Some Run → IsKept kept.new }
    ensures kept_trial { (load : Load) → result ≡ 0 → asked words.now ≡ Some (Trial load) → IsKeptOf (load_session load) kept.new }
    ensures unkept { ¬ (result ≡ 0) → kept.new ≡ None }
    ensures unkept_plain { IsSome (plain_form (asked words.now)) → kept.new ≡ None }

    // What each other form and status says, and what is written then.
    ensures held { result ≡ 0 → asked words.now ≡ Some Check → WritesWhere (IsHeld check_limit) (S.left source.old) (K.written sink.old) (K.written sink.new) }
    ensures made { (load : Load) → result ≡ 0 → asked words.now ≡ Some (Make load) → K.written sink.new ≡ with_bytes (make_text load) (K.written sink.old) }
    ensures tried { (load : Load) → result ≡ 0 → asked words.now ≡ Some (Trial load) → K.written sink.new ≡ with_bytes (trial_text load) (K.written sink.old) }
    ensures bad_script { result ≡ 1 → asked words.now ≡ Some Run → WritesWhere (WritesBadScript run_limit) (S.left source.old) (K.written sink.old) (K.written sink.new) }
    ensures bad_pair { result ≡ 1 → asked words.now ≡ Some Check → WritesWhere (WritesBadPair check_limit) (S.left source.old) (K.written sink.old) (K.written sink.new) }
    ensures usage { result ≡ 2 → asked words.now ≡ None }
    ensures usage_written { result ≡ 2 → K.written sink.new ≡ with_bytes usage_text (K.written sink.old) }
    ensures read_fault { result ≡ 3 → Rose (S.faults source.old) (S.faults source.new) }
    ensures unread { result ≡ 3 → K.written sink.new ≡ K.written sink.old }
    ensures write_fault { result ≡ 4 → Rose (K.faults sink.old) (K.faults sink.new) }
    ensures part { result ≡ 4 → WritesPart (asked words.now) (S.left source.old) (K.written sink.old) (K.written sink.new) }
    ensures no_memory { result ≡ 5 → K.written sink.new ≡ K.written sink.old }
    ensures long_script { result ≡ 6 → asked words.now ≡ Some Run → HadMoreThan run_limit (S.left source.old) }
    ensures long_pair { result ≡ 6 → asked words.now ≡ Some Check → HadMoreThan check_limit (S.left source.old) }
    ensures long_written { result ≡ 6 → K.written sink.new ≡ with_bytes long_text (K.written sink.old) }
    ensures differs { result ≡ 7 → asked words.now ≡ Some Check }
    ensures told_difference { result ≡ 7 → WritesWhere (IsDiffering check_limit) (S.left source.old) (K.written sink.old) (K.written sink.new) }
    ensures reading_forms { (result ≡ 1) ⊎ ((result ≡ 3) ⊎ (result ≡ 6)) → Reads (asked words.now) }
    ensures no_other { result ≤ 7 }
    // The counts of faults rise with those statuses alone.
    ensures read_well { (result ≡ 3) ⊎ (S.faults source.new ≡ S.faults source.old) }
    ensures wrote_well { (result ≡ 4) ⊎ (K.faults sink.new ≡ K.faults sink.old) }

    // The other direction: when each status comes, where source and sink have no fault and memory is there.
    ensures other_words { asked words.now ≡ None → ¬ (Rose (K.faults sink.old) (K.faults sink.new)) → result ≡ 2 }
    ensures complete_run { asked words.now ≡ Some Run → IsToldThat (IsWithin run_limit IsScript) (S.left source.old) → ¬ (Rose (S.faults source.old) (S.faults source.new)) → ¬ (Rose (K.faults sink.old) (K.faults sink.new)) → (result ≡ 0) ⊎ (result ≡ 5) }
    ensures complete_check { asked words.now ≡ Some Check → IsToldThat (IsWithin check_limit IsPair) (S.left source.old) → ¬ (Rose (S.faults source.old) (S.faults source.new)) → ¬ (Rose (K.faults sink.old) (K.faults sink.new)) → (result ≡ 0) ⊎ (result ≡ 5) }
    ensures complete_make { (load : Load) → asked words.now ≡ Some (Make load) → ¬ (Rose (K.faults sink.old) (K.faults sink.new)) → (result ≡ 0) ⊎ (result ≡ 5) }
    ensures complete_trial { (load : Load) → asked words.now ≡ Some (Trial load) → ¬ (Rose (K.faults sink.old) (K.faults sink.new)) → (result ≡ 0) ⊎ (result ≡ 5) }
    ensures told_bad_script { asked words.now ≡ Some Run → IsToldThat (IsWithin run_limit IsNoScript) (S.left source.old) → ¬ (Rose (S.faults source.old) (S.faults source.new)) → ¬ (Rose (K.faults sink.old) (K.faults sink.new)) → (result ≡ 1) ⊎ (result ≡ 5) }
    ensures told_bad_pair { asked words.now ≡ Some Check → IsToldThat (IsWithin check_limit IsNoPair) (S.left source.old) → ¬ (Rose (S.faults source.old) (S.faults source.new)) → ¬ (Rose (K.faults sink.old) (K.faults sink.new)) → (result ≡ 1) ⊎ (result ≡ 5) }
    ensures told_long_script { asked words.now ≡ Some Run → IsToldThat (IsMore run_limit) (S.left source.old) → ¬ (Rose (S.faults source.old) (S.faults source.new)) → ¬ (Rose (K.faults sink.old) (K.faults sink.new)) → (result ≡ 6) ⊎ (result ≡ 5) }
    ensures told_long_pair { asked words.now ≡ Some Check → IsToldThat (IsMore check_limit) (S.left source.old) → ¬ (Rose (S.faults source.old) (S.faults source.new)) → ¬ (Rose (K.faults sink.old) (K.faults sink.new)) → (result ≡ 6) ⊎ (result ≡ 5) }
    ensures told_other_pair { asked words.now ≡ Some Check → IsToldThat (IsWithin check_limit IsOtherPair) (S.left source.old) → ¬ (Rose (S.faults source.old) (S.faults source.new)) → ¬ (Rose (K.faults sink.old) (K.faults sink.new)) → (result ≡ 7) ⊎ (result ≡ 5) }
{
    whole_end(rt, alloc, words, source, sink, gate, kept)
}
