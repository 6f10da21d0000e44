//! Setups and scripts, each a line with a name and the lines behind it.
use crate::line::{Line, cut, number_in};
use crate::makers::Makers;
use crate::run::run;
use crate::told::Told;
use std::alloc::Global;

/// The lines of the setup of a name. They begin behind a line `setup NAME`, and end before an empty one.
fn setup_named<'a>(scripts: &'a str, name: &str) -> Option<&'a str> {
    for part in scripts.split("\nsetup ") {
        let (own, behind) = cut(part, "\n");
        if own == name {
            let (lines, _) = cut(behind, "\n\n");
            return Some(lines);
        }
    }
    None
}

/// Tells a script, of which what stands behind the word `script` is given: its name, a setup and the starting counts, or `checked` or
/// `plain`, where calls are made on one object alone, and with `plain` also those that aren't legal. Its lines end before the next setup.
pub(crate) fn tell(alloc: Global, scripts: &str, script: &str, told: &mut Told) {
    let (own, _) = cut(script, "\nsetup ");
    let (head, lines) = cut(own, "\n");
    let mut words = Line::new(head);
    told.say("script ");
    told.say(words.next().unwrap_or(""));
    told.say("\n");
    match setup_named(scripts, words.next().unwrap_or("")) {
        Some(setup) => tell_runs(alloc, setup, lines, words, told),
        None => told.say("no such setup\n"),
    }
    told.say("\n");
}

fn makers(word: &str) -> Makers {
    match word {
        "checked" => Makers::Checked,
        "why" => Makers::Why,
        "plain" => Makers::Plain,
        _ => match number_in(word) {
            Ok(first) => Makers::Both(first),
            Err(_) => Makers::Both(0),
        },
    }
}

/// Runs a script from each starting count. The first run is printed, and each other one where it differs.
fn tell_runs(alloc: Global, setup: &str, script: &str, counts: Line<'_>, told: &mut Told) {
    let mut counts = counts;
    let Some(count) = counts.next() else {
        return;
    };
    match run(alloc, setup, script, makers(count)) {
        Ok(first) => {
            told.say(first.as_str());
            tell_others(alloc, setup, script, counts, first.as_str(), told);
        }
        Err(_) => told.lose(),
    }
}

fn tell_others(
    alloc: Global,
    setup: &str,
    script: &str,
    counts: Line<'_>,
    first: &str,
    told: &mut Told,
) {
    let mut counts = counts;
    for _ in 0..u64::MAX {
        let Some(count) = counts.next() else {
            break;
        };
        match run(alloc, setup, script, makers(count)) {
            Ok(text) => tell_other(count, text.as_str(), first, told),
            Err(_) => told.lose(),
        }
    }
}

/// The run from a starting count, where it isn't as the first.
fn tell_other(count: &str, text: &str, first: &str, told: &mut Told) {
    if text != first {
        told.say("from ");
        told.say(count);
        told.say(":\n");
        told.say(text);
    }
}
