// Entries that are read token by token: of a list of a million entries no value of JSON stands in memory.
//
// One thread reads the tokens, and keeps of each entry what its text says, lent. The rows of a batch of such entries are made by several other
// threads, and taken by whoever wants them, while it reads the next.

ghost use Rattle.std.specs.Prelude.{◌≡◌, ◌<◌, ℕ, [], IfOk, OnOk};
ghost use denote.Param.Send.{IsSend, IsSync};
ghost use Rattle.serde_json.specs.Data.{Data, Members, object, put};
ghost use Rattle.borrowed.specs.Pulled.{IsNext, Pulls};
ghost use Rattle.entries.specs.Reading.{row_in, rows_of};
ghost use Rattle.entries.specs.PrivateKeys.{AddsRows, ReadsBatch, Spells};

use crate::making::add_rows;
use crate::spelled::Spelled;
use crate::taking::TakesRows;
use borrowed::{inner_depth, next_flag, next_key, next_number, next_text, open_list, open_object};
use json::Reader;
use plain::Fault;
use std::alloc::Global;
use std::thread::Threads;
use std::{mem, thread};
use strict::{NotRead, ReadFault};

/// Reads what comes next as what stands at a key of an entry. Keys are compared one after another, so those come first that most entries have.
fn pull_key<'a>(
    spelled: &mut Spelled<'a>,
    reader: &mut Reader<'a>,
    key: &str,
) -> Result<(), ReadFault>
    ensures { OnOk result ((depth : ℕ) → (d : Data) × IsNext depth reader.old reader.new d × ((found : Members) → Spells spelled.old found → Spells spelled.new (put key.now d found))) }
{
    match key {
        "path" => spelled.path = Some(next_text(reader)?),
        "hex" => spelled.hex = Some(next_text(reader)?),
        "mode" => spelled.mode = Some(next_text(reader)?),
        "uid" => spelled.uid = Some(next_number(reader)?),
        "gid" => spelled.gid = Some(next_number(reader)?),
        "dir" => spelled.dir = Some(next_flag(reader)?),
        "text" => spelled.text = Some(next_text(reader)?),
        _ => return Err(Fault::Because(NotRead)),
    }
    Ok(())
}

/// What stands at the keys of the entry that comes next.
fn pull_spelled<'a>(reader: &mut Reader<'a>, depth: usize) -> Result<Spelled<'a>, ReadFault>
    ensures { IfOk result (λ spelled. (found : Members) × IsNext depth reader.old reader.new (object found) × Spells spelled found) }
{
    let inner = inner_depth(depth)?;
    open_object(reader)?;
    let mut spelled = Spelled::none();
    while let Some(key) = next_key(reader)? {
        pull_key(&mut spelled, reader, key)?;
    }
    Ok(spelled)
}

/// How many entries are read before their rows are made. A batch is a megabyte, and threads are started once for each.
const BATCH: usize = 8192;

/// How many entries are read first. While they are read, no other thread has anything to do.
const FIRST_BATCH: usize = 2048;

/// Reads the next entries of a list, so many at most, in place of those that it read before. It tells whether the list goes on behind them.
fn read_batch<'a>(
    reader: &mut Reader<'a>,
    inner: usize,
    most: usize,
    read: &mut Vec<Spelled<'a>>,
) -> Result<bool, ReadFault>
    requires { 0 < most }
    ensures { IfOk result (λ more. ReadsBatch inner reader.old reader.new read.new.items more) }
{
    read.clear();
    'reading: while !reader.take_end_array() {
        if read.len() >= most {
            return Ok(true);
        }
        let spelled = pull_spelled(reader, inner)?;
        read.push(spelled)?;
    }
    Ok(false)
}

/// Makes the rows of the entries that wait, and hands them on, while the next batch is read. It answers whether the list goes on after that.
///
/// The reader stays in this thread. It is the rows that another makes.
fn make_and_read<'a, R: Threads + Sync, S: TakesRows + Send>(
    alloc: Global,
    rt: &R,
    waiting: &[Spelled<'_>],
    rows: &mut S,
    reader: &mut Reader<'a>,
    inner: usize,
    read: &mut Vec<Spelled<'a>>,
) -> Result<bool, ReadFault>
    ensures made { OnOk result (AddsRows waiting.now (S.rows rows.old) (S.rows rows.new)) }
    ensures read { IfOk result (λ more. ReadsBatch inner reader.old reader.new read.new.items more) }
{
    let (made, more) = thread::join_mut(
        rt,
        &mut || -> Result<(), ReadFault>
            requires { IsSync R.row × IsSend S.row }
            ensures { OnOk result (AddsRows waiting.entry.now (S.rows rows.entry.now) (S.rows rows.exit.now)) }
        { add_rows(alloc, rt, waiting, rows) },
        &mut || read_batch(reader, inner, BATCH, read),
    );
    match made {
        Ok(()) => more,
        Err(fault) => Err(fault),
    }
}

/// Reads the list that comes next and hands its rows on, in order. None may have been handed on before.
pub(crate) fn pull_rows<'a, S: TakesRows + Send>(
    alloc: Global,
    rt: &(impl Threads + Sync),
    reader: &mut Reader<'a>,
    depth: usize,
    rows: &mut S,
) -> Result<(), ReadFault>
    requires { S.rows rows.old ≡ [] }
    ensures { OnOk result (Pulls depth rows_of reader.old reader.new (S.rows rows.new)) }
{
    let inner = inner_depth(depth)?;
    open_list(reader)?;
    let mut waiting: Vec<Spelled<'a>> = Vec::new(alloc);
    let mut read: Vec<Spelled<'a>> = Vec::new(alloc);
    let mut more = read_batch(reader, inner, FIRST_BATCH, &mut waiting)?;
    'making: while more {
        let now = waiting.as_slice();
        more = make_and_read(alloc, rt, now, rows, reader, inner, &mut read)?;
        mem::swap(&mut waiting, &mut read);
    }
    add_rows(alloc, rt, waiting.as_slice(), rows)
}
