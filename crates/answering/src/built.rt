// The answer of a build that gave a tree: it is said piece by piece, and never held whole.
ghost use Rattle.std.specs.Prelude.{◌≡◌, ◌<◌};
ghost use Rattle.std.specs.FinMap.{entries};
ghost use Rattle.counted.specs.Gathering.{nothing, sink, Says, HasRoom};
ghost use Rattle.imageconfig.specs.Writing.{config_data};
ghost use Rattle.bundle.specs.Answer.{built_text};
ghost use Rattle.answering.specs.Told.{TellsText, IsTold};
ghost use Rattle.answering.specs.declared.status.Status.TheVariants.{Built};

use crate::{BuildFault, Status};
use configtext::{UnsaidConfig, put_config};
use counted::{CountedWrite, Gathered, finish, gather};
use entries::{Unsaid, put_tree};
use imageconfig::Config;
use std::alloc::Global;
use std::thread::Threads;
use trees::Tree;

/// Tells that a build gave this tree, with this configuration. All memory that it needs is taken before the first byte is written: what is asked
/// for later, so that several threads may print a large tree, it can do without.
pub fn tell_tree<W: CountedWrite, R: Threads + Sync>(
    alloc: Global,
    rt: &R,
    config: &Config,
    tree: &Tree,
    output: &mut W,
) -> Result<Status, BuildFault>
    requires writes { W.failures output.old < u64.MAX }
    ensures { IsTold (TellsText Built (built_text (config_data config.now) (entries tree.now)))
        (W.contents output.old) (W.failures output.old) (W.contents output.new) (W.failures output.new) result }
{
    let config = UnsaidConfig::of(alloc, config)?;
    let gathered = Gathered::new(alloc)?;
    let unsaid = Unsaid::of(alloc, tree)?;
    write_built(alloc, rt, output, gathered, &config, unsaid)
}

/// Writes the answer of a build that gave this tree, with this configuration, piece by piece. Want of memory changes nothing of it.
fn write_built<W: CountedWrite, R: Threads + Sync>(
    alloc: Global,
    rt: &R,
    output: &mut W,
    gathered: Gathered,
    config: &UnsaidConfig<'_>,
    unsaid: Unsaid<'_>,
) -> Result<Status, BuildFault>
    requires empty { gathered ≡ nothing }
    requires writes { W.failures output.old < u64.MAX }
    ensures { IsTold (TellsText Built (built_text (config_data config.now) unsaid.entry))
        (W.contents output.old) (W.failures output.old) (W.contents output.new) (W.failures output.new) result }
{
    let mut gathered = gathered;
    put_built(alloc, rt, output, &mut gathered, config, unsaid);
    gather(output, &mut gathered, b"\n");
    match finish(output, gathered) {
        Ok(()) => Ok(Status::Built),
        Err(_) => Err(BuildFault::Device),
    }
}

/// Says the answer of a build that gave this tree, with this configuration: one line of compact JSON, without the LF that ends it. Want of
/// memory changes nothing of it.
pub fn put_built<W: CountedWrite, R: Threads + Sync>(
    alloc: Global,
    rt: &R,
    output: &mut W,
    gathered: &mut Gathered,
    config: &UnsaidConfig<'_>,
    unsaid: Unsaid<'_>,
)
    requires room { HasRoom (W.failures output.old) gathered.old }
    ensures says { Says
        (sink (W.contents output.old) (W.failures output.old) gathered.old)
        (sink (W.contents output.new) (W.failures output.new) gathered.new)
        (built_text (config_data config.now) unsaid.entry) }
    ensures room { HasRoom (W.failures output.new) gathered.new }
{
    gather(output, gathered, b"{\"config\":");
    put_config(output, gathered, config);
    gather(output, gathered, b",\"result\":\"built\",\"tree\":");
    put_tree(alloc, rt, output, gathered, unsaid);
    gather(output, gathered, b"}");
}
