ghost use Rattle.std.specs.Prelude.{◌≡◌, Some, IfOk};
ghost use Rattle.instructions.specs.Least.{Meets};
ghost use Rattle.instructions.specs.Command.{words_of};
ghost use Rattle.actions.specs.Run.{binds_of, caches_of, exec_of, run_action, run_due};

use crate::Surroundings;
use crate::mounts::{mounts_stand_together, read_mounts, whole_binds, whole_caches};
use instructions::Command;
use llb::{Bind, Exec};
use options::Mount;
use paths::Path;
use plain::{Code, Exact, Fault, Items, Memory, Text, copied_items};
use rows::{Action, Origin};
use runs::CacheUse;
use std::alloc::Global;
use words::TextFault;

/// The words that are run: those of the list, or the shell's and the text.
fn words_of(alloc: Global, shell: &[Text], command: Command) -> Result<Items<Text>, Memory>
    ensures { IfOk result (λ words. words ≡ words_of shell.now command) }
{
    match command {
        Command::Exec(words) => Ok(words),
        Command::Shell(text) => {
            let mut words = Items::from_vec(copied_items(alloc, shell)?);
            words.push(text)?;
            Ok(words)
        }
    }
}

/// The operation of a command with these mounts.
fn exec_of(
    alloc: Global,
    binds: Items<Bind>,
    caches: Items<CacheUse>,
    command: Command,
    at: &Surroundings,
) -> Result<Exec, Memory>
    ensures { IfOk result (λ exec. exec ≡ exec_of at.now.scope.now at.now.dir.now at.now.user.now at.now.shell.now binds caches command) }
{
    let dir = at.dir.copy(alloc)?;
    let env = at.scope.run_env(alloc)?;
    let user = at.user.copy(alloc)?;
    let words = words_of(alloc, at.shell, command)?;
    Ok(Exec {
        binds,
        caches,
        dir,
        env,
        user,
        words,
    })
}

/// The binds and the caches of a RUN, or the least code that is due for its mounts.
fn mounts_of(
    alloc: Global,
    mounts: Items<Mount>,
    dir: &Path,
) -> Result<(Items<Bind>, Items<CacheUse>), TextFault>
    ensures { Meets (Some (binds_of dir.now mounts, caches_of dir.now mounts)) (run_due dir.now mounts) result }
{
    let (binds, caches) = read_mounts(alloc, mounts, dir)?;
    if !mounts_stand_together(alloc, binds.as_slice(), caches.as_slice())? {
        return Err(Fault::Because(Code::R17));
    }
    let Some(binds) = whole_binds(alloc, binds)? else {
        return Err(Fault::Because(Code::R18));
    };
    let Some(caches) = whole_caches(alloc, caches)? else {
        return Err(Fault::Because(Code::R18));
    };
    Ok((binds, caches))
}

/// What a RUN does. The trees of its binds come from `origins`, one for each bind in their order.
///
/// It runs the words of the list, or the shell's words and the text as one word more, in the working directory, as the user, in the
/// environment that ENV and ARG have declared. A relative target of a mount is read against the working directory, the folder of a bind
/// against the root of its tree (Dockerfile reference, RUN and RUN --mount), and the id of a cache is the text of its target's path where
/// none is written (own).
///
/// R17 where a target is the root, one lies at or below another, or an id is there twice (Dockerfile reference; the id: own); a target
/// past the limits is compared with no other (own). Else R18 where a path is past the limits of a path (own). What was lent is unchanged.
pub fn run_action(
    alloc: Global,
    mounts: Items<Mount>,
    command: Command,
    origins: Items<Origin>,
    at: &Surroundings,
) -> Result<Action, TextFault>
    ensures { Meets (Some (run_action at.now.scope.now at.now.dir.now at.now.user.now at.now.shell.now mounts command origins)) (run_due at.now.dir.now mounts) result }
{
    let (binds, caches) = mounts_of(alloc, mounts, at.dir)?;
    let exec = exec_of(alloc, binds, caches, command, at)?;
    Ok(Action::Run {
        exec,
        from: origins,
    })
}
