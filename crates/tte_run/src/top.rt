ghost use Rattle.std.specs.Prelude.{◌≡◌, ◌⊎◌};
ghost use Rattle.tte_forms.specs.{Answering.Gives, Faults.{HasCause, IsWanted, PutFailed, ReadFailed}, Forms.form_of};
ghost use Rattle.{tte_forms.specs.Putting.Over, tte_reports.specs.{Answer.audit_limit, Reading.ReadsReport}};
ghost use Rattle.tte_run.specs.SecondFiles.{FailsToRead, FormStops, FormTakesLittle, TakesFirst, TakesSecond, second_of};
ghost use Rattle.tte_run.specs.{Top.{AnswerIsOne, AnswersSafely, AnswersWords, usage_answer}, Whole.Completes};

use crate::audit_report;
use net_plan::beta_is_unique;
use schedule_checker::refusal_is_one;
use std::alloc::Global;
use tte_forms::{Form, Status, Words, check_network, put_last, read_form, show};
use tte_io::{Sink, Source};
use tte_observers::captures::capture_file;
use tte_observers::captures::wires::wire_trace;
use tte_observers::stamps::stamp_trace;
use tte_observers::votes::vote_trace;
use tte_traces::run_trace;
use tte_traces::storms::storm_run;

const USAGE: &str =
    "usage: tte show FILE | check NETWORK | run NETWORK TRACE | storm NETWORK SEED CYCLES | \
                     stamp NETWORK TRACE GRANULE | audit NETWORK REPORT | capture FILE | \
                     wire NETWORK TRACE LINK WAY | vote NETWORK TRACE VL VL VL\n";

/// All that the program does: it answers the words, with `first` as the file that word 2 names and
/// `second` as the one that word 3 names, and writes to `out`.
pub fn tte<A: Source, B: Source, K: Sink>(
    alloc: Global,
    words: &Words,
    first: &mut A,
    second: &mut B,
    out: &mut K,
) -> Status
    ensures general { Over K.Sink out.old out.new
        (AnswersWords (form_of words.now) (A.left first.old) (B.left second.old) result) }
    ensures safe { Over K.Sink out.old out.new
        (AnswersSafely (form_of words.now) (A.left first.old) (B.left second.old) result) }
    ensures faults { HasCause result
        (FailsToRead (second_of (form_of words.now))
        (ReadFailed A.Source first.old first.new) (ReadFailed B.Source second.old second.new)
        (out.new ≡ out.old) (second.new ≡ second.old)
        (Over K.Sink out.old out.new
        (FormStops (form_of words.now) (A.left first.old) (B.left second.old) (B.left second.new))))
        (PutFailed K.Sink out.old out.new) }
    ensures takes { TakesFirst (form_of words.now) (A.left first.old) (A.left first.new)
        × TakesSecond (second_of (form_of words.now)) (second.new ≡ second.old)
        (Over K.Sink out.old out.new
        (FormTakesLittle (form_of words.now) (A.left first.old) (B.left second.old) (B.left second.new) result))
        (ReadsReport audit_limit (A.left first.old) (B.left second.old) (B.left second.new) result) }
    ensures complete { Completes (form_of words.now) (A.left first.old) (B.left second.old)
        (ReadFailed A.Source first.old first.new ⊎ ReadFailed B.Source second.old second.new)
        (PutFailed K.Sink out.old out.new) result }
{
    match read_form(words) {
        Some(Form::Show) => show(alloc, first, out),
        Some(Form::Check) => check_network(alloc, first, out),
        Some(Form::Run) => run_trace(alloc, first, second, out),
        Some(Form::Storm { seed, cycles }) => storm_run(alloc, first, seed, cycles, out),
        Some(Form::Stamp { granule }) => stamp_trace(alloc, first, second, granule, out),
        Some(Form::Audit) => audit_report(alloc, first, second, out),
        Some(Form::Capture) => capture_file(alloc, first, out),
        Some(Form::Wire { link, way }) => wire_trace(alloc, first, second, link.text(), way, out),
        Some(
            Form::Vote {
                first: one,
                second: two,
                third: three,
            },
        ) => {
            vote_trace(
                alloc,
                first,
                second,
                one.text(),
                two.text(),
                three.text(),
                out,
            )
        }
        None => put_usage(out),
    }
}

fn put_usage<K: Sink>(out: &mut K) -> Status
    ensures gives { Over K.Sink out.old out.new (Gives usage_answer result) }
    ensures status { IsWanted Status.Usage result (PutFailed K.Sink out.old out.new) }
{
    put_last(USAGE.as_bytes(), Status::Usage, out)
}

/// The words and the octets of the file have one answer.
pub fn answer_law()
    ensures { AnswerIsOne }
{
    beta_is_unique();
    refusal_is_one();
}
