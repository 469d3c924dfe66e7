ghost use Rattle.std.specs.Prelude.{◌≡◌, ◌≤◌, ◌<◌, None as NoneOf, Some as SomeOf, slice_get, slice_index_or, IfOk};
ghost use Rattle.std.specs.List.{All};
ghost use Rattle.std.specs.FinMap.{get as arg_value, len};
ghost use Rattle.plain.specs.Limits.{most_images, most_lines};
ghost use Rattle.rows.specs.Order.{IsInOrder, NeedsAllStages};
ghost use Rattle.rows.specs.WellFormed.{IsWellFormed, RowNames, HasTree, count_of_steps};
ghost use Rattle.rows.specs.declared.row.Stage.{Stage as StageValue};
ghost use Rattle.stages.specs.Naming.{names_in};
ghost use Rattle.stages.specs.Needed.{AreNeeded};
ghost use Rattle.stages.specs.Table.{NamesKnown};
ghost use Rattle.evaluation.specs.Evaluated.{EvaluatesTable, config_at, config_of};
ghost use Rattle.evaluation.specs.PrivateMaking.{MakesWith, Makes, AnswersWhole};

use crate::given::Given;
use crate::names::NamedImages;
use crate::sources::sources_of;
use crate::state::{State, keep_names};
use crate::walk::{Walk, evaluate_stages};
use actions::laws::{copies_are_well_formed, runs_are_well_formed};
use expand::RejectionFault;
use imageconfig::{BoxedConfig, Config};
use plain::{Fault, Items, Memory};
use plans::{Images, Sources};
use rows::Stage;
use scopes::Args;
use scopes::laws::{
    environments_have_the_names_of_declarations, lines_declare_their_names, names_fit_environments,
};
use stages::TargetTable;
use std::alloc::Global;
use std::hash::RandomState;
use trees::Tree;

/// The needed stages of a file, evaluated.
#[derive(Drop)]
pub struct Evaluated {
    /// A row for each stage by its number, `None` for one that isn't needed.
    pub rows: Items<Option<Stage>>,
    /// The number of the stage that is wanted.
    pub target: u32,
    /// The configuration at its end.
    pub config: Config,
    /// The context, and the trees of the images that needed stages name.
    pub sources: Sources,
}

/// What a stage leaves, `None` if it isn't needed, or was let go.
#[tactic(auto, using(std::proofs::lemmas::List::get_or_past, std::proofs::lemmas::List::get_or_read))]
fn state_at(states: Vec<Option<State>>, number: u32) -> Option<State>
    ensures { result ≡ slice_index_or states.items number NoneOf }
{
    let mut states = states;
    let number = number as usize;
    if number < states.len() {
        let state = states.swap_remove(number);
        drop(states);
        state
    } else {
        drop(states);
        None
    }
}

/// The configuration of what a stage leaves.
fn config_of(alloc: Global, keys: RandomState, state: Option<State>) -> Result<Config, Memory>
    ensures { IfOk result (λ config. config ≡ config_of state) }
{
    match state {
        Some(state) => {
            let State { scope, config } = state;
            drop(scope);
            Ok(config.into_config())
        }
        None => Config::plain(alloc, keys),
    }
}

/// The configuration at the end of a stage.
fn config_at(
    alloc: Global,
    keys: RandomState,
    states: Vec<Option<State>>,
    number: u32,
) -> Result<Config, Memory>
    ensures { IfOk result (λ config. config ≡ config_at states.items number) }
{
    config_of(alloc, keys, state_at(states, number))
}

/// These rows, with this configuration and the trees of what they name.
fn make_with(
    alloc: Global,
    rows: Items<Option<Stage>>,
    names: NamedImages,
    config: Config,
    images: Images<BoxedConfig>,
    context: Tree,
    target: u32,
) -> Result<Evaluated, RejectionFault>
    ensures { MakesWith images context target rows names config result }
{
    let sources = sources_of(alloc, context, images, &names);
    drop(names);
    match sources {
        Ok(sources) => Ok(Evaluated {
            rows,
            target,
            config,
            sources,
        }),
        Err(_) => {
            drop(rows);
            drop(config);
            Err(Fault::Memory)
        }
    }
}

/// What the stages give, with the target's configuration and the trees of what they name.
fn make(
    alloc: Global,
    keys: RandomState,
    walk: Walk,
    images: Images<BoxedConfig>,
    context: Tree,
    target: u32,
) -> Result<Evaluated, RejectionFault>
    ensures { Makes images context target walk result }
{
    let Walk {
        rows,
        states,
        names,
    } = walk;
    match config_at(alloc, keys, states.into_vec(), target) {
        Ok(config) => make_with(alloc, rows, names, config, images, context, target),
        Err(_) => {
            drop(rows);
            drop(names);
            drop(images);
            drop(context);
            Err(Fault::Memory)
        }
    }
}

/// What a table gives of which just these stages are needed.
fn evaluate_needed(
    alloc: Global,
    keys: RandomState,
    table: TargetTable,
    images: Images<BoxedConfig>,
    context: Tree,
    args: &Args,
    needed: &[bool],
) -> Result<Evaluated, RejectionFault>
    requires { AreNeeded table.stages table.target needed.now }
    ensures answers { EvaluatesTable (arg_value args.now) images context table result }
    ensures whole { AnswersWhole images table result }
{
    runs_are_well_formed();
    copies_are_well_formed();
    environments_have_the_names_of_declarations();
    lines_declare_their_names();
    names_fit_environments();
    let (outer, stages, target) = table.into_parts();
    keep_names(&images, stages.as_slice());
    let given = Given {
        keys,
        args,
        outer: &outer,
        images: &images,
    };
    match evaluate_stages(alloc, &given, needed, target, stages.into_vec()) {
        Ok(walk) => make(alloc, keys, walk, images, context, target),
        Err(fault) => {
            drop(images);
            drop(context);
            Err(fault)
        }
    }
}

/// Evaluates the stages of a table that its target needs, one after another (Dockerfile reference).
///
/// Refused is the first line for which a code is due, with the least of its codes: R06 if a text is empty that mayn't be, R10 if a label
/// has an empty key, R14 if a COPY of several sources has a destination that doesn't end in `/`, R15 if a pattern is malformed, R16 if a
/// port is none, R17 if mounts clash, R18 if a text or a path is past its limit, and at the line that names the 8,001st different image
/// (own), R21 with a text if a variable is required that doesn't pass its test. A stage that isn't needed isn't evaluated, and nothing of
/// it is refused.
///
/// The rows are such as lowering asks for: each is well formed after those before it, the target is one of them, they name no more images and
/// have no more steps than the limits allow, and each source that they name has its tree, where the table was made with
/// just these images. Their lines ascend, and the target needs each stage that isn't left out.
pub fn evaluate(
    alloc: Global,
    keys: RandomState,
    table: TargetTable,
    images: Images<BoxedConfig>,
    context: Tree,
    args: &Args,
) -> Result<Evaluated, RejectionFault>
    ensures answers { EvaluatesTable (arg_value args.now) images context table result }
    ensures rows { IfOk result (λ made. IsWellFormed made.rows) }
    ensures target { IfOk result (λ made. (stage : StageValue) × (slice_get made.rows made.target ≡ SomeOf (SomeOf stage))) }
    ensures named { IfOk result (λ made. All (NamesKnown (names_in images)) table.stages → All (RowNames (HasTree made.sources)) made.rows) }
    ensures images { IfOk result (λ made. len made.sources.images ≤ most_images) }
    ensures steps { IfOk result (λ made. count_of_steps made.rows < most_lines) }
    ensures order { IfOk result (λ made. IsInOrder made.rows) }
    ensures needs { IfOk result (λ made. NeedsAllStages made.rows made.target) }
{
    match table.needed(alloc) {
        Ok(needed) => evaluate_needed(alloc, keys, table, images, context, args, needed.as_slice()),
        Err(_) => {
            drop(table);
            drop(images);
            drop(context);
            Err(Fault::Memory)
        }
    }
}
