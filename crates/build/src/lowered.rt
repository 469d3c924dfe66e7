ghost use Rattle.std.specs.Prelude.{◌≡◌, IfOk};
ghost use Rattle.std.specs.List.{All, list_any};
ghost use Rattle.std.specs.FinMap.{get as arg_value};
ghost use Rattle.plain.specs.declared.fault.Fault.TheVariants.{Because as BecauseOf};
ghost use Rattle.expand.specs.declared.reason.Reason.TheVariants.{Coded};
ghost use Rattle.stages.specs.Naming.{names_in};
ghost use Rattle.stages.specs.Resolved.{unless_refused, Returns};
ghost use Rattle.stages.specs.Table.{NamesKnown, targeted};
ghost use Rattle.build.specs.Lowerable.{IsLowerable};
ghost use Rattle.build.specs.Lowered.{is_lacking, lacking_inside, lacking_in, lacking_line, target_refusal, IsPlanOf, LowersTable, Lowers};

use contexts::Context;
use evaluation::{Evaluated, evaluate};
use expand::{Reason, Rejection, RejectionFault};
use imageconfig::{BoxedConfig, Config};
use llb::Source;
use lowering::lower_program;
use plain::{Code, Exact, Fault, Memory, with_copy};
use plans::{Images, Plan};
use rows::Origin;
use scopes::Args;
use stages::{ResolvedInstruction, ResolvedStage, StageTable, TargetTable};
use std::alloc::Global;
use std::hash::RandomState;
use trees::Tree;

/// Whether an image is named that isn't among these.
fn is_lacking(images: &Images<BoxedConfig>, origin: &Origin) -> bool
    ensures { result ≡ is_lacking (names_in images.now) origin.now }
{
    match origin {
        Origin::Source(Source::Image(name)) => images.find(name.as_str()).is_none(),
        Origin::Source(Source::Scratch) => false,
        Origin::Source(Source::Context) => false,
        Origin::Stage(_) => false,
    }
}

/// Whether one of these is an image that isn't among the images.
fn have_lacking(images: &Images<BoxedConfig>, origins: &[Origin]) -> bool
    ensures { result ≡ list_any (is_lacking (names_in images.now)) origins.now }
{
    origins.iter().any(|origin| is_lacking(images, origin))
}

/// The first line of some instructions that names an image which isn't among these.
fn lacking_inside(images: &Images<BoxedConfig>, instructions: &[ResolvedInstruction]) -> Option<u32>
    ensures { result ≡ lacking_inside (names_in images.now) instructions.now }
{
    for resolved in instructions {
        if have_lacking(images, resolved.origins.as_slice()) {
            return Some(resolved.instruction.line());
        }
    }
    None
}

/// That of a stage.
fn lacking_in(images: &Images<BoxedConfig>, stage: &ResolvedStage) -> Option<u32>
    ensures { result ≡ lacking_in (names_in images.now) stage.now }
{
    if is_lacking(images, &stage.base) {
        return Some(stage.line);
    }
    lacking_inside(images, stage.instructions.as_slice())
}

/// That of some stages.
fn lacking_line(images: &Images<BoxedConfig>, stages: &[ResolvedStage]) -> Option<u32>
    ensures { result ≡ lacking_line (names_in images.now) stages.now }
{
    for stage in stages {
        if let Some(line) = lacking_in(images, stage) {
            return Some(line);
        }
    }
    None
}

/// The refusal of a line.
fn refused(code: Code, line: u32) -> RejectionFault
    ensures { result ≡ BecauseOf (record { reason = Coded code; line = line }) }
{
    Fault::Because(Rejection {
        reason: Reason::Coded(code),
        line,
    })
}

/// A copy of the table, with the stage of this number as its target.
fn target_table(
    alloc: Global,
    table: &StageTable,
    target: u32,
    images: &Images<BoxedConfig>,
) -> Result<TargetTable, RejectionFault>
    ensures table { Returns (unless_refused (target_refusal (names_in images.now) table.now target) (targeted table.now target)) result }
    ensures known { IfOk result (λ table. All (NamesKnown (names_in images.now)) table.stages) }
{
    match TargetTable::of(table.copy(alloc)?, target) {
        Ok(table) => match lacking_line(images, table.stages()) {
            None => Ok(table),
            Some(line) => {
                drop(table);
                Err(refused(Code::R12, line))
            }
        },
        Err(table) => {
            drop(table);
            Err(refused(Code::R13, 0))
        }
    }
}

/// The plan of what the needed stages of a file are evaluated to.
pub(crate) fn lower_evaluated(alloc: Global, evaluated: Evaluated) -> Result<Plan<Config>, Memory>
    requires { IsLowerable evaluated }
    ensures { IfOk result (IsPlanOf evaluated) }
{
    let Evaluated {
        rows,
        target,
        config,
        sources,
    } = evaluated;
    let plan = lower_program(alloc, rows, target, config, sources)?;
    let _known = plan.graph();
    Ok(plan)
}

/// The plan of a table's target.
fn lower_table(
    alloc: Global,
    keys: RandomState,
    table: TargetTable,
    images: Images<BoxedConfig>,
    context: Tree,
    args: &Args,
) -> Result<Plan<Config>, RejectionFault>
    requires { All (NamesKnown (names_in images)) table.stages }
    ensures { LowersTable (arg_value args.now) images context table result }
{
    match evaluate(alloc, keys, table, images, context, args) {
        Ok(evaluated) => Ok(lower_evaluated(alloc, evaluated)?),
        Err(fault) => Err(fault),
    }
}

/// The same with images and a context that are lent.
fn lower_lent(
    alloc: Global,
    keys: RandomState,
    table: TargetTable,
    images: &Images<BoxedConfig>,
    context: &Tree,
    args: &Args,
) -> Result<Plan<Config>, RejectionFault>
    requires { All (NamesKnown (names_in images.now)) table.stages }
    ensures { LowersTable (arg_value args.now) images.now context.now table result }
{
    match copies(alloc, images, context) {
        Ok((images, context)) => lower_table(alloc, keys, table, images, context, args),
        Err(_) => {
            drop(table);
            Err(Fault::Memory)
        }
    }
}

/// Copies of images and of a tree. Files are shared.
fn copies(
    alloc: Global,
    images: &Images<BoxedConfig>,
    tree: &Tree,
) -> Result<(Images<BoxedConfig>, Tree), Memory>
    ensures { IfOk result (λ both. both ≡ (images.now, tree.now)) }
{
    with_copy(alloc, images.copy(alloc)?, tree)
}

/// The plan of one stage of a file, by its number from 0 on, with these build arguments, images and context; just what it needs is evaluated.
/// Nothing that is lent changes, so a table serves for several stages.
///
/// Under every executor the plan means what the file says of the stage: its target has the tree that the stage's instructions give one after
/// another, and none where one of them that is needed fails; its configuration is the one at the stage's end; and whatever solves it tells the line
/// and the cause of the first instruction of the file that fails, if one does. The plan is as it was lowered: `rewrite` makes it smaller.
///
/// R13, at line 0, comes before all else: no stage has this number. R12 comes next, at the first line that names an image which isn't among these: it
/// doesn't come where the table was made with them. Else the first line of the needed stages that is refused is told, as `evaluation::evaluate`
/// does.
pub fn lower(
    alloc: Global,
    keys: RandomState,
    table: &StageTable,
    target: u32,
    context: &Context,
    images: &Images<BoxedConfig>,
    args: &Args,
) -> Result<Plan<Config>, RejectionFault>
    ensures { Lowers (arg_value args.now) images.now context.now table.now target result }
{
    match target_table(alloc, table, target, images) {
        Ok(table) => lower_lent(alloc, keys, table, images, context.tree(), args),
        Err(fault) => Err(fault),
    }
}
