ghost use Rattle.trace_text.specs.Laws.{ReadsBack, PrintsBack};

/// Printing and then reading, as a law: the text of an event reads back as that event.
pub fn reads_back_law()
    ensures { ReadsBack }
{}

/// Reading and then printing, as a law: a text that is read is the text of its event, but for
/// capital hexadecimal digits.
pub fn prints_back_law()
    ensures { PrintsBack }
{}
