use lens::{Status, lens};
use std::alloc::Global;
use std::process::Abort;
use std::test::Fail;
use std::{slice, str};
use tte_hints::{CommandForm, Program, forms_of};
use tte_io::{MemorySink, SteadySource};
use worked_network::words_of;

/// The usage line of the program, which answers no words.
fn usage(rt: &impl Abort, alloc: Global) -> Result<MemorySink, Fail> {
    let words = words_of(alloc, &[])?;
    let mut first = SteadySource::new(alloc, &[])?;
    let mut second = SteadySource::new(alloc, &[])?;
    let mut out = MemorySink::new(alloc, 4096, &[])?;
    let status = lens(alloc, &words, &mut first, &mut second, &mut out);
    assert_eq!(rt; status, Status::Usage);
    Ok(out)
}

/// The next form is the one that is written so.
fn is_next(
    rt: &impl Abort,
    alloc: Global,
    forms: &mut slice::Iter<'_, CommandForm>,
    text: &str,
) -> Result<(), Fail> {
    let form = forms.next().ok_or("a form is lacking")?;
    let form = format!(in alloc; "{form}")?;
    assert_eq!(rt; form.as_str(), text);
    Ok(())
}

#[test]
fn the_forms_are_those_of_the_usage_line(rt: HostRuntime) -> Result<(), Fail> {
    let alloc = rt.alloc();
    let usage = usage(&rt, alloc)?;
    let usage = str::from_utf8(usage.written()).expect(&rt, "the usage line is a text");
    let usage = usage.strip_prefix("usage: lens ").ok_or("no usage line")?;
    let mut forms = forms_of(Program::Lens).iter();
    for it in usage.trim_end().split(" | ") {
        match it.split_once(" [") {
            Some((shorter, rest)) => {
                is_next(&rt, alloc, &mut forms, shorter)?;
                let longer = format!(in alloc; "{shorter} {}", rest.trim_end_matches(']'))?;
                is_next(&rt, alloc, &mut forms, longer.as_str())?;
            }
            None => is_next(&rt, alloc, &mut forms, it)?,
        }
    }
    assert!(rt; forms.next().is_none());
    Ok(())
}
