// Answers tables of cases. `stdin` has the tables, one after another: a line `== NAME` begins one, and each line after it is a case of it.
// `stdout` has what the rules say: the same heading, and the answers in the same order, each with its case or the name of it. A module for each
// table says what its cases and answers are.
//
// A case costs nothing to prove, and one program is compiled for all of them. Where an answer is another one than `stdout` has,
// `diff -U0 -F '^== ' stdout out/stdout` shows it with its table.
#![tactic(auto)]

mod buildkit;
mod by_hand;
mod changing;
mod commands;
mod configurations;
mod copies;
mod definitions;
mod devices;
mod errors;
mod failing;
mod files;
mod flat;
mod flattening;
mod graphs;
mod handing;
mod histories;
mod language;
mod leases;
mod lent;
mod limits;
mod lookup;
mod memos;
mod one_cell;
mod one_site;
mod patterns;
mod programs;
mod randoms;
mod reading;
mod remembering;
mod repeating;
mod running;
mod showing;
mod solving;
mod spelling;
mod stage;
mod steps;
mod stores;
mod telling;
mod watching;

use plain::Memory;
use std::alloc::Global;
use std::hash::RandomState;
use std::io;
use std::rt::Files;
use std::sync::Wait;
use std::thread::Threads;

/// The tables.
#[derive(Clone, Copy)]
enum Table {
    Commands,
    Files,
    Pieces,
    Language,
    Patterns,
    IgnoreFiles,
    Errors,
    Graphs,
    Plans,
    Histories,
    Solving,
    Randoms,
    Sites,
    OneCell,
    Leases,
    Trees,
    Copies,
    Configurations,
    Definitions,
    Llb,
    Programs,
    FailingDevices,
    Limits,
    Stores,
    Memos,
    Remembering,
    Handing,
    /// No heading stands before the case, or one of another name.
    Unknown,
}

fn main(rt: HostRuntime) -> io::Result<()> {
    let keys = RandomState::new(&rt)?;
    let mut table = Table::Unknown;
    for line in rt.lines(rt.alloc()) {
        let line = line?;
        match answer_to_line(rt.alloc(), keys, &rt, &rt, &mut table, line.as_str()) {
            Ok(answer) => println!(rt; "{answer}")?,
            Err(Memory) => println!(rt; "{line}: out of memory, or no case")?,
        }
    }
    Ok(())
}

/// A heading as it stands, and the table that it begins; or the answer to a case.
fn answer_to_line<F: Files + AllocGlobal + Clone + Drop>(
    alloc: Global,
    keys: RandomState,
    rt: &(impl Threads + Wait + Sync),
    files: &F,
    table: &mut Table,
    line: &str,
) -> Result<String, Memory> {
    match line.strip_prefix("== ") {
        Some(name) => {
            *table = table_of(name);
            Ok(String::from_str(alloc, line)?)
        }
        None => answer(alloc, keys, rt, files, *table, line),
    }
}

fn table_of(name: &str) -> Table {
    match name {
        "commands" => Table::Commands,
        "files" => Table::Files,
        "pieces" => Table::Pieces,
        "language" => Table::Language,
        "patterns" => Table::Patterns,
        "ignore files" => Table::IgnoreFiles,
        "errors" => Table::Errors,
        "graphs" => Table::Graphs,
        "plans" => Table::Plans,
        "histories" => Table::Histories,
        "solving" => Table::Solving,
        "randoms" => Table::Randoms,
        "sites" => Table::Sites,
        "one cell" => Table::OneCell,
        "leases" => Table::Leases,
        "trees" => Table::Trees,
        "copies" => Table::Copies,
        "configurations" => Table::Configurations,
        "definitions" => Table::Definitions,
        "llb" => Table::Llb,
        "programs" => Table::Programs,
        "failing devices" => Table::FailingDevices,
        "limits" => Table::Limits,
        "stores" => Table::Stores,
        "memos" => Table::Memos,
        "remembering" => Table::Remembering,
        "handing" => Table::Handing,
        _ => Table::Unknown,
    }
}

/// The answer to a case, with the case or its name before it.
fn answer<F: Files + AllocGlobal + Clone + Drop>(
    alloc: Global,
    keys: RandomState,
    rt: &(impl Threads + Wait + Sync),
    files: &F,
    table: Table,
    case: &str,
) -> Result<String, Memory> {
    match table {
        Table::Commands => commands::answer(alloc, case),
        Table::Files => files::answer(alloc, case),
        Table::Pieces => files::answer_in_pieces(alloc, case),
        Table::Language => language::answer(alloc, keys, case),
        Table::Patterns => patterns::answer_of_pattern(alloc, case),
        Table::IgnoreFiles => patterns::answer_of_ignore_file(alloc, case),
        Table::Errors => errors::answer(alloc, case),
        Table::Graphs => graphs::answer(alloc, case),
        Table::Plans => flattening::answer(alloc, case),
        Table::Histories => histories::answer(alloc, keys, rt, case),
        Table::Solving => solving::answer(alloc, rt, case),
        Table::Randoms => randoms::answer(alloc, rt, case),
        Table::Sites => one_site::answer(alloc, keys, rt, case),
        Table::OneCell => one_cell::answer(alloc, rt, case),
        Table::Leases => leases::answer(alloc, case),
        Table::Trees => steps::answer(alloc, case),
        Table::Copies => copies::answer(alloc, keys, rt, files, case),
        Table::Configurations => configurations::answer(alloc, keys, case),
        Table::Definitions => definitions::answer(alloc, case),
        Table::Llb => buildkit::answer(alloc, keys, case),
        Table::Programs => programs::answer(alloc, keys, rt, files, case),
        Table::FailingDevices => failing::answer(alloc, keys, rt, files, case),
        Table::Limits => limits::answer(alloc, keys, rt, files, case),
        Table::Stores => stores::answer(alloc, keys, rt, case),
        Table::Memos => memos::answer(alloc, keys, rt, case),
        Table::Remembering => remembering::answer(alloc, rt, case),
        Table::Handing => handing::answer(alloc, keys, rt, case),
        Table::Unknown => Err(Memory),
    }
}
