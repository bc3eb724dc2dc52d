//! A page, put part by part.

ghost use Rattle.lens_page.specs.{Closing.page_closing, Pages.page_with};
ghost use Rattle.tte_forms.specs.{Answering.{Gives, line_answer, with_line}, Faults.{IsWanted, PutFailed}, Putting.Over};

use crate::closing::page_closing;
use crate::opening::page_opening;
use tte_forms::{Status, put_last};
use tte_io::Sink;

/// Puts the page with this text of a network and this report, and passes it on.
pub(crate) fn put_page<K: Sink>(text: &[u8], report: &[u8], out: &mut K) -> Status
    ensures gives { Over K.Sink out.old out.new (Gives (page_with text.now report.now) result) }
    ensures status { IsWanted Status.Done result (PutFailed K.Sink out.old out.new) }
{
    match out.put(page_opening().as_bytes()) {
        Ok(()) => put_text(text, report, out),
        Err(_) => Status::WriteFault,
    }
}

/// Puts the text of the network and what stands behind it.
fn put_text<K: Sink>(text: &[u8], report: &[u8], out: &mut K) -> Status
    ensures gives { Over K.Sink out.old out.new
        (Gives (with_line text.now (with_line report.now (line_answer Status.Done page_closing))) result) }
    ensures status { IsWanted Status.Done result (PutFailed K.Sink out.old out.new) }
{
    match out.put(text) {
        Ok(()) => put_report(report, out),
        Err(_) => Status::WriteFault,
    }
}

/// Puts the report and the end of the page, and passes all on.
fn put_report<K: Sink>(report: &[u8], out: &mut K) -> Status
    ensures gives { Over K.Sink out.old out.new
        (Gives (with_line report.now (line_answer Status.Done page_closing)) result) }
    ensures status { IsWanted Status.Done result (PutFailed K.Sink out.old out.new) }
{
    match out.put(report) {
        Ok(()) => put_last(page_closing().as_bytes(), Status::Done, out),
        Err(_) => Status::WriteFault,
    }
}
