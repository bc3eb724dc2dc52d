use crate::argument::ArgumentKind;
use crate::saying::Hole::Text;
use crate::saying::filled;
use crate::{Argument, CommandForm, Program, forms_of};
use std::alloc::Global;
use tte_forms::Words;

/// The commands of a program, with a space before each.
fn commands_of(alloc: Global, program: Program) -> Option<String> {
    let mut commands = String::new(alloc);
    let mut before = "";
    for form in forms_of(program) {
        let command = form.command();
        if command != before {
            commands.push_str(" ").ok()?;
            commands.push_str(command).ok()?;
        }
        before = command;
    }
    Some(commands)
}

/// That a call has no command of the program, and which commands that has.
fn no_command(alloc: Global, program: Program, fault: &str) -> Option<String> {
    let name = program.name();
    let commands = commands_of(alloc, program)?;
    filled(
        alloc,
        "{}; the commands of {} are{} (its page is docs/{}.1)",
        &[Text(fault), Text(name), Text(commands.as_str()), Text(name)],
    )
}

/// Where words first differ from a form, and how.
#[derive(Clone, Copy)]
struct FormMisfit<'a> {
    form: CommandForm,
    /// Which argument, from 1.
    place: u32,
    fault: Fault<'a>,
}

#[derive(Clone, Copy)]
enum Fault<'a> {
    Missing(&'static Argument),
    Wrong(&'static Argument, &'a str),
    /// A word behind the last argument.
    Surplus(&'a str),
}

/// The text of a misfit.
fn told(alloc: Global, misfit: FormMisfit<'_>) -> Option<String> {
    let form = misfit.form;
    match misfit.fault {
        Fault::Missing(argument) => {
            format!(in alloc; "{} is missing in: {form}", argument.name).ok()
        }
        Fault::Wrong(argument, word) => {
            format!(in alloc;
                "{} is {word:?}; it must be {}",
                argument.name, argument.must_be
            )
            .ok()
        }
        Fault::Surplus(word) => {
            format!(in alloc; "{word:?} is one argument too many; the command is: {form}").ok()
        }
    }
}

/// What is wrong with the word for an argument, if anything is.
fn fault_of<'a>(argument: &'static Argument, word: Option<&'a str>) -> Option<Fault<'a>> {
    match word {
        None => Some(Fault::Missing(argument)),
        Some(word) if argument.admits(word) => None,
        Some(word) => Some(Fault::Wrong(argument, word)),
    }
}

/// Where the words behind the command first differ from those of a form. None where they don't.
fn misfit_of<'a>(form: CommandForm, words: &'a Words) -> Option<FormMisfit<'a>> {
    let mut place = 1;
    for argument in form.arguments() {
        if let Some(fault) = fault_of(argument, words.get(place)) {
            return Some(FormMisfit { form, place, fault });
        }
        place = place.saturating_add(1);
    }
    let fault = Fault::Surplus(words.get(place)?);
    Some(FormMisfit { form, place, fault })
}

/// That a part of a run ends before it begins.
fn backward(alloc: Global, form: CommandForm, words: &Words) -> Option<String> {
    let last = form.arguments().get(3)?;
    if !matches!(last.kind, ArgumentKind::Time) {
        return None;
    }
    filled(
        alloc,
        "TO, {}, is less than FROM, {}",
        &[Text(words.get(4)?), Text(words.get(3)?)],
    )
}

/// Why the words behind a command of the program are of none of its forms: by the form that agrees with most of them.
fn arguments_fault(
    alloc: Global,
    program: Program,
    command: &str,
    words: &Words,
) -> Option<String> {
    let mut nearest: Option<FormMisfit<'_>> = None;
    for form in forms_of(program) {
        if form.command() != command {
            continue;
        }
        let Some(misfit) = misfit_of(*form, words) else {
            return backward(alloc, *form, words);
        };
        if nearest.is_none_or(|near| near.place <= misfit.place) {
            nearest = Some(misfit);
        }
    }
    told(alloc, nearest?)
}

/// The first form of a command of the program, if it has the command.
fn form_of(program: Program, command: &str) -> Option<CommandForm> {
    for form in forms_of(program) {
        if form.command() == command {
            return Some(*form);
        }
    }
    None
}

/// Why the words of a command line are of no form of the program. None where they are of one, or where memory runs
/// out.
pub(crate) fn words_fault(alloc: Global, program: Program, words: &Words) -> Option<String> {
    let Some(word) = words.get(0) else {
        return no_command(alloc, program, "no command is given");
    };
    if form_of(program, word).is_some() {
        return arguments_fault(alloc, program, word, words);
    }
    let other = program.other();
    match form_of(other, word) {
        Some(form) => {
            let name = other.name();
            format!(in alloc; "{word:?} is a command of {name}: {name} {form}").ok()
        }
        None => {
            let fault = format!(in alloc; "{word:?} is no command").ok()?;
            no_command(alloc, program, fault.as_str())
        }
    }
}
