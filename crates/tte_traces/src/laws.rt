ghost use Rattle.tte_traces.specs.Laws.{TraceAnswersExist};

/// Whatever lines a command tells of a run, for each network in range and all octets of a trace there is an answer.
pub fn trace_answers_exist()
    ensures { TraceAnswersExist }
{}
