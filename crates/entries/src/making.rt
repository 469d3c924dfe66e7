// How the entries of a list that is read token by token are made. The tokens come one after another, but once it is known what the text of
// each entry says, an entry has nothing to do with the next: so its path, its bytes and their memory are a matter of any thread.

ghost use Rattle.std.specs.Prelude.{◌≡◌, ◌++◌, List, Vec, Ok, IfOk, OnOk, flat_map};
ghost use Rattle.std.specs.List.{AllZip};
ghost use Rattle.rayon.specs.Lists.{chunks_of};
ghost use Rattle.trees.specs.Row.{Row};
ghost use Rattle.entries.specs.PrivateKeys.{AddsRows, AreRowsOf};
ghost use Rattle.entries.specs.PrivateSlab.{AreIn};

use crate::spelled::Spelled;
use crate::taking::TakesRows;
use paths::Path;
use plain::{Bytes, Memory};
use rayon::prelude::*;
use std::alloc::Global;
use std::thread::Threads;
use strict::ReadFault;
use trees::{Entry, Slab};

/// So many files have their bytes in one slab, at most: few enough that a slab doesn't outlive most of its files for the sake of one.
const SLAB: usize = 64;

/// How many entries are made by one thread at a time, at most. So few of them aren't worth a thread.
const RUN: usize = 2048;

/// Makes a row of each of these, and hands the rows on, in order. Several threads make them if they are many.
pub(crate) fn add_rows<S: TakesRows>(
    alloc: Global,
    rt: &(impl Threads + Sync),
    spelled: &[Spelled<'_>],
    rows: &mut S,
) -> Result<(), ReadFault>
    ensures { OnOk result (AddsRows spelled.now (S.rows rows.old) (S.rows rows.new)) }
{
    if spelled.len() <= RUN {
        let made = rows_of(alloc, spelled)?;
        return rows.take(alloc, made);
    }
    let runs = runs_of(alloc, rt, spelled)?;
    add_runs(alloc, runs, rows)
}

/// Adds what each of these is as an entry, one after another.
fn add_in_turn(
    alloc: Global,
    spelled: &[Spelled<'_>],
    rows: &mut Vec<(Path, Entry)>,
) -> Result<(), ReadFault>
    ensures { OnOk result (AddsRows spelled.now rows.old.items rows.new.items) }
{
    let mut at = 0;
    'slabs: while at < spelled.len() {
        let end = spelled.len().min(at.saturating_add(SLAB));
        add_with_slab(alloc, &spelled[at..end], rows)?;
        at = end;
    }
    Ok(())
}

/// Adds what each of these is as an entry. The bytes of their small files share a slab.
fn add_with_slab(
    alloc: Global,
    spelled: &[Spelled<'_>],
    rows: &mut Vec<(Path, Entry)>,
) -> Result<(), ReadFault>
    ensures { OnOk result (AddsRows spelled.now rows.old.items rows.new.items) }
{
    let mut slab = slab_of(alloc, spelled)?;
    for one in spelled {
        let short = one.cut_short(alloc, &mut slab)?;
        let row = one.row(alloc, short)?;
        rows.push(row)?;
    }
    Ok(())
}

/// How many bytes the slab of these entries' small files has. It is asked so that the memory is taken once.
fn slab_len(spelled: &[Spelled<'_>]) -> usize {
    let mut len: usize = 0;
    for one in spelled {
        len = len.saturating_add(one.short_len().unwrap_or(0));
    }
    len
}

/// The slab of these entries' small files.
fn slab_of(alloc: Global, spelled: &[Spelled<'_>]) -> Result<Slab, ReadFault>
    ensures { IfOk result (λ slab. AreIn spelled.now slab) }
{
    let mut bytes = Vec::with_capacity(alloc, slab_len(spelled))?;
    for one in spelled {
        one.add_short(&mut bytes)?;
    }
    Ok(Slab::new(alloc, Bytes::from_vec(bytes))?)
}

/// What each of these is as an entry.
fn rows_of(alloc: Global, spelled: &[Spelled<'_>]) -> Result<Vec<(Path, Entry)>, ReadFault>
    ensures { IfOk result (λ rows. AreRowsOf spelled.now rows.items) }
{
    let mut rows = Vec::with_capacity(alloc, spelled.len())?;
    add_in_turn(alloc, spelled, &mut rows)?;
    Ok(rows)
}

/// What each of these is as an entry, a list for each run of them. Several threads make them.
fn runs_of(
    alloc: Global,
    rt: &(impl Threads + Sync),
    spelled: &[Spelled<'_>],
) -> Result<Vec<Result<Vec<(Path, Entry)>, ReadFault>>, Memory>
    ensures { IfOk result (λ runs. AllZip (λ run made. IfOk made (λ rows. AreRowsOf run rows.items)) (chunks_of 2048 spelled.now) runs.items) }
{
    let runs = spelled
        .par_chunks(RUN)
        .map(
            |run: &[Spelled<'_>]| -> Result<Vec<(Path, Entry)>, ReadFault>
                ensures { IfOk result (λ rows. AreRowsOf run.now rows.items) }
            { rows_of(alloc, run) },
        )
        .collect(rt, alloc)?;
    Ok(runs)
}

/// Hands on the rows of all runs, in order.
fn add_runs<S: TakesRows>(
    alloc: Global,
    runs: Vec<Result<Vec<(Path, Entry)>, ReadFault>>,
    rows: &mut S,
) -> Result<(), ReadFault>
    ensures { OnOk result ((made : List (Vec Row Global)) × AllZip (λ run rows. run ≡ Ok rows) runs.items made × (S.rows rows.new ≡ S.rows rows.old ++ flat_map (λ rows. rows.items) made)) }
{
    for run in runs {
        match run {
            Ok(made) => rows.take(alloc, made)?,
            Err(fault) => return Err(fault),
        }
    }
    Ok(())
}
