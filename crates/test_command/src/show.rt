//! How a command ended and what it left, as text.

use crate::case::Case;
use std::alloc::{AllocError, Global};
use std::fmt::Write;
use xsk_cli::Status;
use xsk_io::{MemoryBay, Offer, Stream};

/// What a run on threads shows.
#[derive(Clone, Copy)]
pub(crate) enum Shown {
    Nothing,
    NoCalls,
    Calls,
}

impl Shown {
    fn words(self) -> &'static str {
        match self {
            Shown::Nothing => "",
            Shown::NoCalls => "a run without calls is shown\n",
            Shown::Calls => "a run is shown\n",
        }
    }
}

/// Tells the status, its number, what was shown, the outputs in which something stands, the report, and the writes.
pub(crate) fn show(
    alloc: Global,
    case: &Case,
    status: Status,
    shown: Shown,
    bay: &MemoryBay,
    told: &mut String,
) -> Result<(), AllocError> {
    writeln!(told, "{status:?}, {}", status.exit_status())?;
    told.push_str(shown.words())?;
    for port in 0..4 {
        show_port(alloc, case, port, bay.output(Stream::Output(port)), told)?;
    }
    show_report(alloc, case, bay.output(Stream::Report), told)?;
    if case.next.tells_writes {
        show_writes(bay.offers(), told)?;
    }
    Ok(())
}

fn show_port(
    alloc: Global,
    case: &Case,
    port: u32,
    text: Option<&[u8]>,
    told: &mut String,
) -> Result<(), AllocError> {
    match text {
        Some(text) => show_output(alloc, case, port, text, told),
        None => writeln!(told, "out{port} has no room"),
    }
}

/// Tells an output in which something stands: by the name of the text that it is, or its bytes.
fn show_output(
    alloc: Global,
    case: &Case,
    port: u32,
    text: &[u8],
    told: &mut String,
) -> Result<(), AllocError> {
    if text.is_empty() {
        return Ok(());
    }
    match case.name_of(text) {
        Some(name) => writeln!(told, "out{port} is {name}"),
        None => writeln!(told, "out{port} {}", hex::encode(alloc, text)?),
    }
}

/// Tells the report as it stands, or which of the fronts a line of it has.
fn show_report(
    alloc: Global,
    case: &Case,
    report: Option<&[u8]>,
    told: &mut String,
) -> Result<(), AllocError> {
    let Some(report) = report else {
        return told.push_str("the report has no room\n");
    };
    let Ok(report) = str::from_utf8(report) else {
        return show_digits(alloc, report, told);
    };
    if case.next.fronts.is_empty() {
        return show_text(report, told);
    }
    show_fronts(report, case.next.fronts.as_slice(), told)
}

fn show_digits(alloc: Global, report: &[u8], told: &mut String) -> Result<(), AllocError> {
    let digits = hex::encode(alloc, report)?;
    writeln!(told, "report {digits}")
}

/// Tells which of the fronts a line of the report has.
fn show_fronts(report: &str, fronts: &[String], told: &mut String) -> Result<(), AllocError> {
    for front in fronts {
        let front = front.as_str();
        let has = if has_line(report, front) {
            "has"
        } else {
            "lacks"
        };
        writeln!(told, "{has} {front}")?;
    }
    Ok(())
}

/// Tells a text as it stands, and that its last line has no end.
fn show_text(text: &str, told: &mut String) -> Result<(), AllocError> {
    told.push_str(text)?;
    if !text.is_empty() && !text.ends_with('\n') {
        told.push_str("(no end of the line)\n")?;
    }
    Ok(())
}

fn has_line(text: &str, front: &str) -> bool {
    for line in text.lines() {
        if line.starts_with(front) {
            return true;
        }
    }
    false
}

fn show_writes(offers: Option<&[Offer]>, told: &mut String) -> Result<(), AllocError> {
    let Some(offers) = offers else {
        return told.push_str("too many writes\n");
    };
    for offer in offers {
        writeln!(
            told,
            "write {:?}: {} of {}",
            offer.stream, offer.taken, offer.len
        )?;
    }
    Ok(())
}
