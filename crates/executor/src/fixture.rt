ghost use Rattle.std.specs.Prelude.{◌≡◌, map, IfOk, option_copied};
ghost use Rattle.executor.specs.PrivateOutcome.{RunsTo};
ghost use Rattle.executor.specs.Script.{commands, commands_of, script_of};
ghost use Rattle.executor.specs.Fixture.{after_command, after_commands, held_by_command, held_by_commands};
ghost use Rattle.executor.specs.PrivateFixture.{after_line, held_by_line};

use crate::command::command_edit;
use crate::script::split_line;
use crate::sight::Sight;
use crate::stop::Stop;
use crate::{Executor, Outcome, Request};
use ascii::split_at_blanks;
use plain::{Exact, Fault, Memory, Text};
use std::alloc::Global;
use trees::Tree;

/// The executor of this program and of its tests: a few commands that work on the request's trees alone (own).
///
/// Where the last word but one is `-c`, the last word is a script, as for a shell: each line is a command, cut at spaces and
/// tabs, and a line without a word is none. Otherwise the words are one command. Commands run in order up to the first whose
/// status isn't 0; that status is the answer.
///
/// - `put P w..` writes the file P, which holds the words with a space between each two.
/// - `cat P Q` writes the file Q, which holds what the file P holds; status 1 where P is no file, and 126 where it lies in a cache.
/// - `show N P` writes the file P, which holds the environment's value of N, and nothing where N has none.
/// - `rm P` takes P away with all below it; status 1 where nothing stands there, and at the root.
/// - `bump P` adds a `+` to the file P, which is made if it is missing.
/// - `true` does nothing.
/// - `fail N` ends with the status N, decimal digits from 1 to 255; status 2 where N is anything else.
///
/// A file that stands there keeps its mode and owner when it is written; another is made 0644 and 0:0, and missing parents 0755 and
/// 0:0. A path is read from the request's directory. Status 1 where it leads past a limit of paths; and for writing where a
/// directory stands there or a file stands on the way. A wrong number of words is status 2, and an unknown command 127, the empty
/// word and no word at all among them. The user counts for nothing.
///
/// A path at or under the target of a bind leads into the bind's tree and nowhere else: it is read and written there, and what is written
/// is seen by later commands of the run alone. In a bind without `rw`, writing and `rm` end with status 1, and so does `rm` of a target.
///
/// A path at or under the target of a cache leads into the cache. Writing and `rm` succeed there, and change nothing where what the cache
/// holds doesn't allow them; nothing is read from it. So no outcome depends on what a cache holds. A cache keeps what was written to it also
/// where a later command ends the run with a status.
#[derive(Clone, Copy, Debug, PartialEq, Eq)]
pub struct Fixture;

impl Executor for Fixture {
    ghost use Rattle.executor.specs.Fixture.{fixture_out, fixture_caches};
    ghost use Rattle.executor.specs.PrivateFixtureExits.{fixture_out-exits};
    ghost use Rattle.std.specs.Prelude.{◌≡◌};

    ghost out = { λ _ request. fixture_out request };

    ghost leaves = { λ _ request before after. after ≡ fixture_caches request before };

    ghost exits = { λ _ request status e. fixture_out-exits request status e };

    fn run(
        &self,
        alloc: Global,
        request: &Request,
        caches: &mut Vec<Tree>,
    ) -> Result<Outcome, Memory> {
        let mut sight = Sight::first(alloc, request)?;
        match run_words(alloc, request, &mut sight, caches) {
            Ok(()) => Ok(Outcome::Done(sight.into_root())),
            Err(Fault::Because(status)) => Ok(Outcome::Exit(status)),
            Err(Fault::Memory) => Err(Memory),
        }
    }
}

/// Runs the commands that a request's words hold.
fn run_words(
    alloc: Global,
    request: &Request,
    sight: &mut Sight,
    caches: &mut Vec<Tree>,
) -> Result<(), Stop>
    ensures { RunsTo (after_commands request.now (commands_of request.now.words) sight.old)
        (held_by_commands request.now (commands_of request.now.words) sight.old caches.old.items) sight.new caches.new.items result }
{
    let words = request.words.as_slice();
    match script_of(words) {
        Some(script) => run_script(alloc, request, sight, caches, script),
        None => {
            let texts = texts_of(alloc, words)?;
            run_command(alloc, request, sight, caches, texts.as_slice())
        }
    }
}

/// Runs one command, from its words.
fn run_command(
    alloc: Global,
    request: &Request,
    sight: &mut Sight,
    caches: &mut Vec<Tree>,
    words: &[&str],
) -> Result<(), Stop>
    ensures { RunsTo (after_command request.now (map (λ word. word.now) words.now) sight.old)
        (held_by_command request.now (map (λ word. word.now) words.now) sight.old caches.old.items) sight.new caches.new.items result }
{
    match command_edit(alloc, request, sight, words)? {
        Some(edit) => sight.apply(alloc, request, caches, edit),
        None => Ok(()),
    }
}

/// The script that a run's words hold: the last word, where the last but one is `-c`.
fn script_of(words: &[Text]) -> Option<&str>
    ensures { option_copied result ≡ script_of words.now }
{
    let [.., flag, script] = words else {
        return None;
    };
    if flag.as_str() == "-c" {
        Some(script.as_str())
    } else {
        None
    }
}

/// The words, lent.
fn texts_of(alloc: Global, words: &[Text]) -> Result<Vec<&str>, Memory>
    ensures { IfOk result (λ texts. map (λ text. text.now) texts.items ≡ words.now) }
{
    let mut texts = Vec::with_capacity(alloc, words.len())?;
    for word in words {
        texts.push(word.as_str())?;
    }
    Ok(texts)
}

/// Runs the commands of a script, one for each line that has a word.
fn run_script(
    alloc: Global,
    request: &Request,
    sight: &mut Sight,
    caches: &mut Vec<Tree>,
    script: &str,
) -> Result<(), Stop>
    ensures { RunsTo (after_commands request.now (commands script.now) sight.old)
        (held_by_commands request.now (commands script.now) sight.old caches.old.items) sight.new caches.new.items result }
{
    let mut rest = script;
    while let Some((line, tail)) = split_line(rest) {
        run_line(alloc, request, sight, caches, line)?;
        rest = tail;
    }
    run_line(alloc, request, sight, caches, rest)
}

/// Runs the command of a line; a line with no word holds none.
fn run_line(
    alloc: Global,
    request: &Request,
    sight: &mut Sight,
    caches: &mut Vec<Tree>,
    line: &str,
) -> Result<(), Stop>
    ensures { RunsTo (after_line request.now line.now sight.old)
        (held_by_line request.now line.now sight.old caches.old.items) sight.new caches.new.items result }
{
    let words = split_at_blanks(alloc, line)?;
    if words.is_empty() {
        return Ok(());
    }
    run_command(alloc, request, sight, caches, words.as_slice())
}
