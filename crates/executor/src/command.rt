ghost use Rattle.std.specs.Prelude.{◌≡◌, Ok, Err, map, IfOk};
ghost use Rattle.std.specs.List.{join_with_byte};
ghost use Rattle.executor.specs.PrivateOutcome.{Gives};
ghost use Rattle.executor.specs.Fixture.{command_of, path_at, edit_of, edit_at, bytes_at, value_in, put_edit, cat_edit, show_edit, only_edit, no_edit, fail_status, known_edit, command_edit};

use crate::Request;
use crate::edit::{Change, Edit};
use crate::number::status_of;
use crate::sight::Sight;
use crate::stop::{REFUSED, Stop, UNKNOWN, WRONG_WORDS};
use paths::Path;
use plain::{Bytes, Fault, Memory, Variable};
use std::alloc::Global;

/// A command that the fixture knows.
#[derive(Clone, Copy, Debug, PartialEq, Eq)]
pub(crate) enum Command {
    /// `put P w..` writes a file.
    Put,
    /// `cat P Q` writes what another file holds.
    Cat,
    /// `show N P` writes the value of a variable.
    Show,
    /// `rm P` takes a path away.
    Remove,
    /// `bump P` adds a byte to a file.
    Bump,
    /// `true` does nothing.
    True,
    /// `fail N` ends with a status.
    Fail,
}

/// The command of this name.
fn command_of(name: &str) -> Option<Command>
    ensures { result ≡ command_of name.now }
{
    match name {
        "put" => Some(Command::Put),
        "cat" => Some(Command::Cat),
        "show" => Some(Command::Show),
        "rm" => Some(Command::Remove),
        "bump" => Some(Command::Bump),
        "true" => Some(Command::True),
        "fail" => Some(Command::Fail),
        _ => None,
    }
}

/// What a command changes, from its words; nothing, or the status that it ends with.
pub(crate) fn command_edit(
    alloc: Global,
    request: &Request,
    sight: &Sight,
    words: &[&str],
) -> Result<Option<Edit>, Stop>
    ensures { Gives (command_edit request.now sight.now (map (λ word. word.now) words.now)) result }
{
    let [name, operands @ ..] = words else {
        return Err(Fault::Because(UNKNOWN));
    };
    known_edit(alloc, request, sight, command_of(name), operands)
}

/// What a command changes, from the words after its name.
fn known_edit(
    alloc: Global,
    request: &Request,
    sight: &Sight,
    command: Option<Command>,
    operands: &[&str],
) -> Result<Option<Edit>, Stop>
    ensures { Gives (known_edit request.now sight.now command (map (λ word. word.now) operands.now)) result }
{
    match command {
        None => Err(Fault::Because(UNKNOWN)),
        Some(Command::Put) => put_edit(alloc, request, operands),
        Some(Command::Cat) => cat_edit(alloc, request, sight, operands),
        Some(Command::Show) => show_edit(alloc, request, operands),
        Some(Command::Remove) => only_edit(alloc, request, Change::Remove, operands),
        Some(Command::Bump) => only_edit(alloc, request, Change::Bump, operands),
        Some(Command::True) => no_edit(operands),
        Some(Command::Fail) => Err(Fault::Because(fail_status(operands))),
    }
}

/// `put P w..`: the file P holds the words, a space between each two.
fn put_edit(alloc: Global, request: &Request, operands: &[&str]) -> Result<Option<Edit>, Stop>
    ensures { Gives (put_edit request.now (map (λ word. word.now) operands.now)) result }
{
    let [name, words @ ..] = operands else {
        return Err(Fault::Because(WRONG_WORDS));
    };
    let bytes = joined(alloc, words)?;
    edit_at(alloc, request, name, Change::Write(bytes))
}

/// The words with a space between each two.
fn joined(alloc: Global, words: &[&str]) -> Result<Bytes, Memory>
    ensures { IfOk result (λ bytes. bytes ≡ join_with_byte 32 (map (λ word. word.now) words.now)) }
{
    let mut bytes = Vec::new(alloc);
    let [first, rest @ ..] = words else {
        return Ok(Bytes::from_vec(bytes));
    };
    bytes.extend_from_slice(first.as_bytes())?;
    for word in rest {
        bytes.push(b' ')?;
        bytes.extend_from_slice(word.as_bytes())?;
    }
    Ok(Bytes::from_vec(bytes))
}

/// `cat P Q`: the file Q holds what the file P holds.
fn cat_edit(
    alloc: Global,
    request: &Request,
    sight: &Sight,
    operands: &[&str],
) -> Result<Option<Edit>, Stop>
    ensures { Gives (cat_edit request.now sight.now (map (λ word. word.now) operands.now)) result }
{
    let [from, to] = operands else {
        return Err(Fault::Because(WRONG_WORDS));
    };
    let bytes = bytes_at(alloc, request, sight, from)?;
    edit_at(alloc, request, to, Change::Write(bytes))
}

/// A copy of the bytes of the file that a word leads to.
fn bytes_at(alloc: Global, request: &Request, sight: &Sight, name: &str) -> Result<Bytes, Stop>
    ensures { Gives (bytes_at request.now sight.now name.now) result }
{
    let path = path_at(alloc, request, name)?;
    sight.read(alloc, request, &path)
}

/// `show N P`: the file P holds the environment's value of N.
fn show_edit(alloc: Global, request: &Request, operands: &[&str]) -> Result<Option<Edit>, Stop>
    ensures { Gives (show_edit request.now (map (λ word. word.now) operands.now)) result }
{
    let [name, to] = operands else {
        return Err(Fault::Because(WRONG_WORDS));
    };
    let value = Bytes::from_slice(alloc, value_in(name, request.env.as_slice()).as_bytes())?;
    edit_at(alloc, request, to, Change::Write(value))
}

/// The value that a name has in an environment, or the empty text where it has none.
fn value_in<'a>(name: &str, env: &'a [Variable]) -> &'a str
    ensures { result.now ≡ value_in name.now env.now }
{
    for variable in env {
        if variable.name.as_str() == name {
            return variable.value.as_str();
        }
    }
    ""
}

/// A command of one path, which makes this change there: `rm P` and `bump P`.
fn only_edit(
    alloc: Global,
    request: &Request,
    change: Change,
    operands: &[&str],
) -> Result<Option<Edit>, Stop>
    ensures { Gives (only_edit request.now change (map (λ word. word.now) operands.now)) result }
{
    let [name] = operands else {
        return Err(Fault::Because(WRONG_WORDS));
    };
    edit_at(alloc, request, name, change)
}

/// `true`: nothing.
fn no_edit(operands: &[&str]) -> Result<Option<Edit>, Stop>
    ensures { Gives (no_edit (map (λ word. word.now) operands.now)) result }
{
    if operands.is_empty() {
        Ok(None)
    } else {
        Err(Fault::Because(WRONG_WORDS))
    }
}

/// The status with which `fail N` ends.
fn fail_status(operands: &[&str]) -> u8
    ensures { result ≡ fail_status (map (λ word. word.now) operands.now) }
{
    let [number] = operands else {
        return WRONG_WORDS;
    };
    status_of(number).unwrap_or(WRONG_WORDS)
}

/// A change at the path that a word leads to.
fn edit_at(
    alloc: Global,
    request: &Request,
    name: &str,
    change: Change,
) -> Result<Option<Edit>, Stop>
    ensures { Gives (edit_at request.now name.now change) result }
{
    let path = path_at(alloc, request, name)?;
    Ok(Some(Edit { path, change }))
}

/// The path that a command's word leads to from the request's directory; one that leads past a limit is refused.
fn path_at(alloc: Global, request: &Request, name: &str) -> Result<Path, Stop>
    ensures { Gives (path_at request.now name.now) result }
{
    match Path::read(alloc, name, &request.dir) {
        Ok(path) => Ok(path),
        Err(Fault::Because(_)) => Err(Fault::Because(REFUSED)),
        Err(Fault::Memory) => Err(Fault::Memory),
    }
}
