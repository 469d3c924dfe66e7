// `one cell`: a name, ` | `, and numbers. A thread for each puts its number into one cell. The answer is the name, and whether all of them found the same one of
// these numbers there.

ghost use Rattle.std.specs.Prelude.{◌≡◌};

use crate::by_hand::numbers;
use cells::Row;
use plain::Memory;
use std::alloc::Global;
use std::marker::Brand;
use std::sync::Wait;
use std::thread;
use std::thread::Threads;

pub fn answer(
    alloc: Global,
    rt: &(impl Threads + Wait + Sync),
    case: &str,
) -> Result<String, Memory> {
    let (name, texts) = case.split_once(" | ").unwrap_or((case, ""));
    let given = numbers(alloc, texts)?;
    let mut found = numbers(alloc, texts)?;
    let row = Row::<u32, Brand>::new(alloc, 1)?;
    keep_each(rt, alloc, &row, found.as_mut_slice());
    let are_one = match found.first() {
        Some(first) => given.contains(first) && found.iter().all(|other| other == first),
        None => false,
    };
    let text = if are_one { "the same" } else { "not the same" };
    Ok(format!(in alloc; "{name}: {text}")?)
}

/// Each of several threads puts its own number into one cell, and takes what stands there then in place of it.
fn keep_each<R: Threads + Wait + Sync>(
    rt: &R,
    alloc: Global,
    row: &Row<u32, Brand>,
    numbers: &mut [u32],
)
    requires { row.now ≡ 1 }
{
    thread::for_each_mut(
        rt,
        numbers,
        8,
        &|_, number: &mut u32|
            requires { row.now ≡ 1 }
        {
            if let Ok(Some(known)) = row.keep(alloc, 0, *number) {
                *number = *known.value();
            }
        },
    );
}
