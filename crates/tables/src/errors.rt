// `errors`: an error type, and its variant if it has several. The answer is the case and, behind a colon, the text of such an error. The texts were
// written by hand from what the program says.

use counted::Device;
use definition::Defect;
use drawing::Clash;
use expand::{Reason, Rejection, Unexpanded};
use exported::Obstacle;
use globs::Malformed;
use ignorefile::BadLine;
use llb::Full;
use paths::{PathFault, PathLimit};
use plain::{Code, Memory, Refusal, Text};
use program::NotText;
use std::alloc::Global;
use std::error::Error;
use strict::NotRead;
use wire::Unordered;

pub fn answer(alloc: Global, case: &str) -> Result<String, Memory> {
    let text = text_of(alloc, case)?;
    Ok(format!(in alloc; "{case}: {text}")?)
}

/// The text of an error, of which its type alone is known.
fn text<E: Error>(alloc: Global, error: E) -> Result<String, Memory> {
    Ok(format!(in alloc; "{error}")?)
}

fn text_of(alloc: Global, case: &str) -> Result<String, Memory> {
    match case {
        "Fault::Because" => text(alloc, PathFault::Because(PathLimit::TooDeep)),
        "Fault::Memory" => text(alloc, PathFault::Memory),
        "Refusal" => text(
            alloc,
            Refusal {
                code: Code::R05,
                line: 3,
            },
        ),
        "PathLimit::TooDeep" => text(alloc, PathLimit::TooDeep),
        "PathLimit::TooLong" => text(alloc, PathLimit::TooLong),
        "Device" => text(alloc, Device),
        "NotRead" => text(alloc, NotRead),
        "Unordered" => text(alloc, Unordered),
        "Malformed" => text(alloc, Malformed),
        "BadLine" => text(alloc, BadLine { number: 7 }),
        "NotText" => text(alloc, NotText),
        _ => text_of_graphs(alloc, case),
    }
}

fn text_of_graphs(alloc: Global, case: &str) -> Result<String, Memory> {
    match case {
        "Full" => text(alloc, Full),
        "Defect::Malformed" => text(alloc, Defect::Malformed(0)),
        "Defect::Unknown" => text(alloc, Defect::Unknown(1)),
        "Defect::Repeated" => text(alloc, Defect::Repeated(2)),
        "Defect::Clash" => text(alloc, Defect::Clash(3)),
        "Clash" => text(alloc, Clash),
        "Obstacle::Unspeakable" => text(alloc, Obstacle::Unspeakable(4)),
        "Obstacle::Clash" => text(alloc, Obstacle::Clash(5)),
        _ => text_of_expansion(alloc, case),
    }
}

fn text_of_expansion(alloc: Global, case: &str) -> Result<String, Memory> {
    let need = Text::from_str(alloc, "need-1")?;
    match case {
        "Unexpanded::TooLong" => text(alloc, Unexpanded::TooLong),
        "Unexpanded::Required" => text(alloc, Unexpanded::Required(need)),
        "Reason::Coded" => text(alloc, Reason::Coded(Code::R18)),
        "Reason::Required" => text(alloc, Reason::Required(need)),
        "Rejection" => text(
            alloc,
            Rejection {
                reason: Reason::Coded(Code::R18),
                line: 2,
            },
        ),
        "Rejection, R21" => text(
            alloc,
            Rejection {
                reason: Reason::Required(need),
                line: 3,
            },
        ),
        _ => Err(Memory),
    }
}
