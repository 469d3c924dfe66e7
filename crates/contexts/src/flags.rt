ghost use Rattle.std.specs.Prelude.{◌≡◌, ◌↔◌, IsTrue, IfOk};
ghost use Rattle.std.specs.List.{AllZip};
ghost use Rattle.ignorefile.specs.Kept.{Kept};
ghost use Rattle.rayon.specs.Lists.{chunks_of};

use ignorefile::Ignore;
use paths::Path;
use plain::Memory;
use rayon::prelude::*;
use std::alloc::Global;
use std::thread::Threads;
use trees::Entry;

/// Which rows are kept, a list for each run of 1,024 of them.
fn flag_runs(
    rt: &(impl Threads + Sync),
    alloc: Global,
    ignore: &Ignore,
    rows: &[(Path, Entry)],
) -> Result<Vec<Result<Vec<bool>, Memory>>, Memory>
    ensures { IfOk result (λ found. AllZip (λ run flags. IfOk flags (λ flags. AllZip (λ row flag. IsTrue flag ↔ Kept ignore.now row.0) run flags.items)) (chunks_of 1024 rows.now) found.items) }
{
    let runs = rows
        .par_chunks(1024)
        .map(
            |run: &[(Path, Entry)]| -> Result<Vec<bool>, Memory>
                ensures { IfOk result (λ flags. AllZip (λ row flag. IsTrue flag ↔ Kept ignore.entry.now row.0) run.now flags.items) }
            { ignore.kept(alloc, run) },
        )
        .collect(rt, alloc)?;
    Ok(runs)
}

/// Which rows are kept. Runs of them are looked at by several threads.
pub(crate) fn flag_rows(
    rt: &(impl Threads + Sync),
    alloc: Global,
    ignore: &Ignore,
    rows: &[(Path, Entry)],
) -> Result<Vec<bool>, Memory>
    ensures { IfOk result (λ flags. AllZip (λ row flag. IsTrue flag ↔ Kept ignore.now row.0) rows.now flags.items) }
{
    let runs = flag_runs(rt, alloc, ignore, rows)?;
    let mut flags = Vec::with_capacity(alloc, rows.len())?;
    for run in runs.as_slice() {
        match run {
            Ok(found) => flags.extend_from_slice(found.as_slice())?,
            Err(_) => return Err(Memory),
        }
    }
    Ok(flags)
}
