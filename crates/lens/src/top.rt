ghost use Rattle.std.specs.Prelude.{◌≡◌, ◌⊎◌};
ghost use Rattle.lens.specs.{Forms.form_of, Limit.report_limit, Top.{AnswerIsOne, AnswersReports, AnswersSafely, AnswersWords}};
ghost use Rattle.lens.specs.Top.{FailsToRead, ReadsMessages, TakesFirst, TakesSecond, usage_answer};
ghost use Rattle.tte_reports.specs.Reading.{ReadsReport};
ghost use Rattle.tte_forms.specs.{Answering.Gives, Faults.{HasCause, IsWanted, PutFailed, ReadFailed}, Putting.Over};

use crate::draw::draw_named;
use crate::events::storm_events;
use crate::forms::{Form, read_form};
use crate::questions::{Asked, REPORT_LIMIT};
use lens_latency::latency_of_network;
use lens_plan::plan_of_network;
use lens_schedule::schedule_of_network;
use lens_sheet::sheet_of_network;
use lens_slack::least::least_of_network;
use lens_slack::{slack_of_network, slack_of_rule};
use schedule_checker::refusal_is_one;
use std::alloc::Global;
use tte_forms::{Status, Words, put_last};
use tte_io::{Sink, Source};
use tte_reports::answer_report;

const USAGE: &str =
    "usage: lens slack NETWORK [RULE] | least NETWORK | sheet NETWORK | plan NETWORK MESSAGES | \
                     latency NETWORK [REPORT] | why NETWORK REPORT N | draw NETWORK [REPORT] | \
                     draw NETWORK REPORT CYCLE [NAME] | draw NETWORK REPORT FROM TO [NAME] | page NETWORK REPORT | \
                     clocks NETWORK REPORT | flows NETWORK REPORT | events NETWORK SEED CYCLES\n";

/// All that the program does: it answers the words, with `first` as the file that word 2 names and `second` as the one
/// that word 3 of `plan`, `latency`, `why`, `draw`, `page`, `clocks` or `flows` names, and writes to `out`.
pub fn lens<A: Source, B: Source, K: Sink>(
    alloc: Global,
    words: &Words,
    first: &mut A,
    second: &mut B,
    out: &mut K,
) -> Status
    ensures general { Over K.Sink out.old out.new
        (AnswersWords words.now (form_of words.now) (A.left first.old) (B.left second.old) result) }
    ensures safe { AnswersSafely (form_of words.now) (A.left first.old) (B.left second.old) result }
    // Where a source failed, nothing was written.
    ensures faults { HasCause result
        (FailsToRead (form_of words.now)
        (ReadFailed A.Source first.old first.new) (ReadFailed B.Source second.old second.new)
        (out.new ≡ out.old) (second.new ≡ second.old))
        (PutFailed K.Sink out.old out.new) }
    ensures takes { TakesFirst (form_of words.now) (A.left first.old) (A.left first.new)
        × TakesSecond (form_of words.now) (A.left first.old) (second.new ≡ second.old)
        (ReadsReport report_limit (A.left first.old) (B.left second.old) (B.left second.new) result)
        (ReadsMessages (A.left first.old) (B.left second.old) (B.left second.new)) }
    ensures complete { AnswersReports words.now (form_of words.now) (A.left first.old) (B.left second.old)
        (ReadFailed A.Source first.old first.new ⊎ ReadFailed B.Source second.old second.new)
        (PutFailed K.Sink out.old out.new) result }
{
    match read_form(words) {
        Some(Form::Slack) => slack_of_network(alloc, first, out),
        Some(Form::SlackOf(rule)) => slack_of_rule(alloc, first, rule, out),
        Some(Form::Least) => least_of_network(alloc, first, out),
        Some(Form::Sheet) => sheet_of_network(alloc, first, out),
        Some(Form::Latency) => latency_of_network(alloc, first, out),
        Some(Form::Schedule) => schedule_of_network(alloc, words, first, out),
        Some(Form::Plan) => plan_of_network(alloc, first, second, out),
        Some(Form::Report(question)) => {
            let asked = Asked { words, question };
            answer_report(alloc, first, second, REPORT_LIMIT, &asked, out)
        }
        Some(Form::DrawNamed { part, name }) => {
            draw_named(alloc, first, second, words, part, name.text(), out)
        }
        Some(Form::Events { seed, cycles }) => storm_events(alloc, first, seed, cycles, out),
        None => put_usage(out),
    }
}

fn put_usage<K: Sink>(out: &mut K) -> Status
    ensures gives { Over K.Sink out.old out.new (Gives usage_answer result) }
    ensures status { IsWanted Status.Usage result (PutFailed K.Sink out.old out.new) }
{
    put_last(USAGE.as_bytes(), Status::Usage, out)
}

/// The words and the octets of the files have one answer.
pub fn answer_law()
    ensures { AnswerIsOne }
{
    refusal_is_one();
}
