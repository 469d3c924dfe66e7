// A bundle's graph as BuildKit reads it.
ghost use Rattle.std.specs.Prelude.{◌≡◌, IfOk};
ghost use Rattle.drawing.specs.Drawn.{IsSimplified};
ghost use Rattle.exported.specs.Excluding.{exclude_list as patterns_of};
ghost use Rattle.rewrite.specs.Pruned.{KeepsMeaning};
ghost use Rattle.build.specs.Lowerable.{IsLowerable};
ghost use Rattle.program.specs.Llb.{IsDrawnPlan, chosen, fault_of, followed, merging_of, network_of, platform_of};
ghost use Rattle.program.specs.PrivateLlb.{IsFileTold, IsLlbTold, IsPlanTold};

use crate::fault::TellFault;
use crate::telling::Teller;
use crate::told::{Told, tell_refusal};
use build::{Asked, Status, Titled, ask_titled};
use command::{LlbOptions, MergeName, NetworkName, PlatformName};
use evaluation::Evaluated;
use exported::{ExportFault, Merging, Obstacle, Options, exclude_list, export, follow_list};
use imageconfig::Config;
use llbmessages::{Network, Platform};
use lowering::lower_program;
use named::NamedRows;
use paths::Path;
use plain::{Bytes, Exact, Fault, Items, Memory, Text};
use plans::Plan;
use rewrite::{flatten_links, prune};
use std::alloc::Global;
use std::hash::RandomState;
use std::thread::Threads;

/// What a definition has of a bundle beside its graph.
#[derive(Drop)]
pub(crate) struct Beside {
    /// What progress calls the instruction of each line, if it has a title.
    pub(crate) titles: Items<Option<Text>>,
    /// The paths that BuildKit isn't given.
    pub(crate) left: Items<Path>,
    /// The digests that pin the names of images, by these names.
    pub(crate) digests: NamedRows<Text>,
}

/// Tells a bundle's graph as a definition of BuildKit's LLB, or the bundle's refusal.
///
/// The graph is the one that `graph` prints, and progress calls each of its steps by the title of its instruction. Of the folder that BuildKit is
/// given, patterns leave out just what the ignore file does, and it is asked for all else, or for what the graph names. `Built` if it was written,
/// also if a build would fail, `Refused` if the refusal was, and never `Failed`. `Clash` only if two different operations have one digest, and
/// `Unspeakable` only if the graph has the folder and BuildKit can't be told a pattern.
#[derive(Drop)]
pub(crate) struct DefinitionTeller<'a> {
    pub(crate) options: &'a LlbOptions,
}

impl<'a> Teller for DefinitionTeller<'a> {
    ghost use Rattle.program.specs.Llb.{LlbStops, TellsLlb};
    ghost use Rattle.program.specs.PrivateMoved.{llb_moves, llb_moves_stops};

    ghost tells = { λ teller. TellsLlb teller.options.now };

    ghost stops = { λ teller. LlbStops teller.options.now };

    ghost moves = { λ teller. llb_moves teller.options.now };

    ghost moves_stops = { λ teller. llb_moves_stops teller.options.now };

    fn tell<H: Threads + Sync>(
        &self,
        alloc: Global,
        keys: RandomState,
        rt: &H,
        bundle: &[u8],
    ) -> Result<Told, TellFault> {
        tell_llb(alloc, keys, rt, bundle, self.options)
    }
}

/// The definition of what a bundle's bytes ask for, or their refusal.
fn tell_llb(
    alloc: Global,
    keys: RandomState,
    rt: &(impl Threads + Sync),
    bundle: &[u8],
    options: &LlbOptions,
) -> Result<Told, TellFault>
    ensures { IsLlbTold options.now bundle.now result }
{
    match ask_titled(alloc, keys, rt, bundle) {
        Ok(titled) => {
            let Titled {
                asked,
                titles,
                left_out: left,
                digests,
            } = titled;
            let Asked {
                evaluated,
                caches: _,
            } = asked;
            let beside = Beside {
                titles,
                left,
                digests,
            };
            tell_file(alloc, evaluated, &beside, options)
        }
        Err(Fault::Because(refusal)) => Ok(tell_refusal(alloc, refusal)?),
        Err(Fault::Memory) => Err(TellFault::Memory),
    }
}

/// The definition of a file's needed stages.
fn tell_file(
    alloc: Global,
    evaluated: Evaluated,
    beside: &Beside,
    options: &LlbOptions,
) -> Result<Told, TellFault>
    requires { IsLowerable evaluated }
    ensures { IsFileTold options.now evaluated beside.now result }
{
    let plan = drawn_plan(alloc, evaluated)?;
    let told = tell_plan(alloc, &plan, beside, options);
    drop(plan);
    match told {
        Ok(text) => Ok(Told {
            status: Status::Built,
            text,
        }),
        Err(Fault::Because(obstacle)) => Err(fault_of(obstacle)),
        Err(Fault::Memory) => Err(TellFault::Memory),
    }
}

/// The fault with which an obstacle ends.
fn fault_of(obstacle: Obstacle) -> TellFault
    ensures { result ≡ fault_of obstacle }
{
    match obstacle {
        Obstacle::Unspeakable(_) => TellFault::Unspeakable,
        Obstacle::Clash(_) => TellFault::Clash,
    }
}

/// The plan whose graph is drawn of a file's needed stages.
pub(crate) fn drawn_plan(alloc: Global, evaluated: Evaluated) -> Result<Plan<Config>, Memory>
    requires { IsLowerable evaluated }
    ensures { IfOk result (IsDrawnPlan evaluated) }
{
    let Evaluated {
        rows,
        target,
        config,
        sources,
    } = evaluated;
    let plan = lower_program(alloc, rows, target, config, sources)?;
    let _known = plan.graph();
    simplify(alloc, plan)
}

/// A plan with its links put into one, and without what its target doesn't reach.
#[tactic(auto, using(crate::proofs::LlbFacts::simplified, crate::proofs::LlbFacts::means_on))]
fn simplify(alloc: Global, plan: Plan<Config>) -> Result<Plan<Config>, Memory>
    ensures simplified { IfOk result (IsSimplified plan) }
    ensures keeps { IfOk result (KeepsMeaning plan) }
{
    let flat = flatten_links(alloc, plan)?;
    prune(alloc, flat)
}

/// The definition of a plan, as the words choose it.
fn tell_plan(
    alloc: Global,
    plan: &Plan<Config>,
    beside: &Beside,
    options: &LlbOptions,
) -> Result<Bytes, ExportFault>
    ensures { IsPlanTold options.now plan.now beside.now result }
{
    let options = chosen(
        alloc,
        options,
        beside.left.as_slice(),
        &beside.digests,
        plan,
    )?;
    export(alloc, plan, &options, beside.titles.as_slice())
}

/// What the words choose of the definition of a plan, in which BuildKit isn't given these paths of the folder, and names have these digests.
fn chosen(
    alloc: Global,
    options: &LlbOptions,
    left: &[Path],
    digests: &NamedRows<Text>,
    plan: &Plan<Config>,
) -> Result<Options, Memory>
    ensures { IfOk result (λ made. made ≡ chosen options.now left.now digests.now plan.now) }
{
    let (platform, digests) = images_of(alloc, &options.platform, digests)?;
    match texts_of(alloc, options, left, plan) {
        Ok((unique, (excludes, follows))) => Ok(Options {
            platform,
            network: network_of(options.network),
            unique,
            merging: merging_of(options.merging),
            digests,
            excludes,
            follows,
        }),
        Err(memory) => {
            drop(platform);
            drop(digests);
            Err(memory)
        }
    }
}

/// What images are taken of: the platform of these names, and the digests.
fn images_of(
    alloc: Global,
    names: &PlatformName,
    digests: &NamedRows<Text>,
) -> Result<(Platform, NamedRows<Text>), Memory>
    ensures { IfOk result (λ images. images ≡ (platform_of names.now, digests.now)) }
{
    let platform = platform_of(alloc, names)?;
    match digests.copy(alloc) {
        Ok(digests) => Ok((platform, digests)),
        Err(memory) => {
            drop(platform);
            Err(memory)
        }
    }
}

/// The text that no other build has, and the patterns of these paths and of those that a plan names.
fn texts_of(
    alloc: Global,
    options: &LlbOptions,
    left: &[Path],
    plan: &Plan<Config>,
) -> Result<(Text, (Option<Text>, Option<Text>)), Memory>
    ensures { IfOk result (λ texts. texts ≡ (options.now.unique, (patterns_of left.now, followed options.now.follow plan.now))) }
{
    let unique = options.unique.copy(alloc)?;
    match lists_of(alloc, options, left, plan) {
        Ok(lists) => Ok((unique, lists)),
        Err(memory) => {
            drop(unique);
            Err(memory)
        }
    }
}

/// The patterns of these paths and of those that a plan names.
fn lists_of(
    alloc: Global,
    options: &LlbOptions,
    left: &[Path],
    plan: &Plan<Config>,
) -> Result<(Option<Text>, Option<Text>), Memory>
    ensures { IfOk result (λ lists. lists ≡ (patterns_of left.now, followed options.now.follow plan.now)) }
{
    let excludes = exclude_list(alloc, left)?;
    match followed(alloc, options.follow, plan) {
        Ok(follows) => Ok((excludes, follows)),
        Err(memory) => {
            drop(excludes);
            Err(memory)
        }
    }
}

/// The patterns of what a plan names of the folder, if BuildKit is to be given no more.
fn followed(alloc: Global, follow: bool, plan: &Plan<Config>) -> Result<Option<Text>, Memory>
    ensures { IfOk result (λ follows. follows ≡ followed follow plan.now) }
{
    if !follow {
        return Ok(None);
    }
    follow_list(alloc, plan)
}

/// What a merge is by a name.
fn merging_of(name: MergeName) -> Merging
    ensures { result ≡ merging_of name }
{
    match name {
        MergeName::Native => Merging::Native,
        MergeName::Chain => Merging::Chain,
    }
}

/// The platform of these names.
fn platform_of(alloc: Global, names: &PlatformName) -> Result<Platform, Memory>
    ensures { IfOk result (λ platform. platform ≡ platform_of names.now) }
{
    Ok(Platform {
        architecture: names.architecture.copy(alloc)?,
        os: names.os.copy(alloc)?,
        variant: names.variant.copy(alloc)?,
    })
}

/// The network of a name.
fn network_of(name: NetworkName) -> Network
    ensures { result ≡ network_of name }
{
    match name {
        NetworkName::Usual => Network::Sandbox,
        NetworkName::Absent => Network::None,
        NetworkName::Host => Network::Host,
    }
}
