//! What is asked of a report, as a command over it.

ghost use Rattle.lens.specs.Questions.{EndsFor, IsQuestionAnswer, ends_as_audit};

use crate::draw::Draw;
use crate::draw::spans::span_of;
use crate::forms::Question;
use lens_clocks::Clocks;
use lens_flows::Flows;
use lens_latency::Latency;
use lens_overview::Overview;
use lens_page::Page;
use lens_why::Why;
use net_plan::Network;
use std::alloc::Global;
use tte_forms::{Status, Words};
use tte_io::Sink;
use tte_reports::{AuditedReport, ReportCommand};

/// How many octets a report has at most of which anything is asked.
pub(crate) const REPORT_LIMIT: u32 = 268_435_456;

/// What these words ask of a report.
#[derive(Drop)]
pub(crate) struct Asked<'a> {
    pub(crate) words: &'a Words,
    pub(crate) question: Question,
}

impl<'a, K: Sink> ReportCommand<K> for Asked<'a> {
    ghost answers = { λ asked network notes end answer.
        IsQuestionAnswer asked.words.now asked.question network notes end answer };

    ghost ends = { λ asked status. EndsFor asked.question status };

    ghost audits = { λ asked status is. ends_as_audit asked.question status is };

    fn put(&self, alloc: Global, network: &Network, report: &AuditedReport, out: &mut K) -> Status {
        match self.question {
            Question::Why { number } => Why { number }.put(alloc, network, report, out),
            Question::DrawWhole => {
                let whole = Overview { words: self.words };
                whole.put(alloc, network, report, out)
            }
            Question::Draw(part) => {
                let span = span_of(network, part);
                let draw = Draw {
                    span,
                    words: self.words,
                };
                draw.put(alloc, network, report, out)
            }
            Question::Page => Page.put(alloc, network, report, out),
            Question::Flows => Flows.put(alloc, network, report, out),
            Question::LatencySeen => Latency.put(alloc, network, report, out),
            Question::Clocks => Clocks.put(alloc, network, report, out),
        }
    }
}
