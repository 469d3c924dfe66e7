ghost use Rattle.std.specs.Prelude.{◌≡◌, map, IfOk};
ghost use Rattle.std.specs.List.{All};
ghost use Rattle.scopes.specs.Evaluate.{declaration_of};
ghost use Rattle.scopes.specs.Scope.{kept};
ghost use Rattle.stages.specs.declared.stage.ResolvedStage.{ResolvedStage as Resolved};
ghost use Rattle.evaluation.specs.State.{bare_state, image_state, stage_state, source_state};
ghost use Rattle.evaluation.specs.PrivateNames.{IsProperSource, IsProperBase};

use imageconfig::{BoxedConfig, Config};
use llb::Source;
use plain::{Memory, Variable};
use plans::Images;
use rows::Origin;
use scopes::Scope;
use stages::ResolvedStage;
use std::alloc::Global;
use std::hash::RandomState;

/// What the instructions of a stage so far leave to those after them.
#[derive(Drop)]
pub struct State {
    /// What names have values.
    pub scope: Scope,
    /// The configuration; the working directory, the user and the shell are its.
    pub config: BoxedConfig,
}

impl State {
    /// What a stage from the empty tree begins with.
    pub(crate) fn bare(alloc: Global, keys: RandomState) -> Result<State, Memory>
        ensures { IfOk result (λ state. state ≡ bare_state) }
    {
        let config = BoxedConfig::new(alloc, Config::plain(alloc, keys)?)?;
        let scope = Scope::new(alloc, keys);
        Ok(State { scope, config })
    }

    /// What a stage from an image with this configuration begins with.
    fn from_image(alloc: Global, keys: RandomState, config: &BoxedConfig) -> Result<State, Memory>
        ensures { IfOk result (λ state. state ≡ image_state config.now) }
    {
        let variables = config.get().env.variables(alloc)?;
        let scope = inherited(alloc, keys, variables.as_slice())?;
        match config.child(alloc) {
            Ok(config) => Ok(State { scope, config }),
            Err(memory) => {
                drop(scope);
                Err(memory)
            }
        }
    }

    /// What a stage from a stage that leaves this begins with.
    pub(crate) fn child(&self, alloc: Global) -> Result<State, Memory>
        ensures { IfOk result (λ state. state ≡ stage_state self.now) }
    {
        let scope = self.scope.copy(alloc)?;
        match self.config.child(alloc) {
            Ok(config) => Ok(State { scope, config }),
            Err(memory) => {
                drop(scope);
                Err(memory)
            }
        }
    }

    /// The same where what the stage leaves is handed over, and not copied.
    pub(crate) fn into_child(self) -> State
        ensures { result ≡ stage_state self }
    {
        let State { scope, config } = self;
        State {
            scope,
            config: config.into_child(),
        }
    }
}

/// The scope in which each of these variables was set.
fn inherited(alloc: Global, keys: RandomState, variables: &[Variable]) -> Result<Scope, Memory>
    ensures { IfOk result (λ scope. scope ≡ kept (map declaration_of variables.now)) }
{
    let mut scope = Scope::new(alloc, keys);
    match scope.set_variables(alloc, variables) {
        Ok(()) => Ok(scope),
        Err(memory) => {
            drop(scope);
            Err(memory)
        }
    }
}

/// What a stage from a source begins with. No stage is from the context, and `stages` refuses an image that isn't there: both begin with
/// nothing here, so that the call is total.
pub(crate) fn begin_source(
    alloc: Global,
    keys: RandomState,
    images: &Images<BoxedConfig>,
    source: &Source,
) -> Result<State, Memory>
    ensures { IfOk result (λ state. state ≡ source_state images.now source.now) }
{
    match source {
        Source::Scratch => State::bare(alloc, keys),
        Source::Context => State::bare(alloc, keys),
        Source::Image(name) => match images.find(name.as_str()) {
            Some(image) => State::from_image(alloc, keys, &image.config),
            None => State::bare(alloc, keys),
        },
    }
}

/// Says for the proof what the type of an image's environment keeps, if a source is an image. It changes nothing, and leaves nothing out.
fn keep_source_names(images: &Images<BoxedConfig>, source: &Source)
    ensures { IsProperSource images.now source.now }
{
    match source {
        Source::Scratch => {}
        Source::Context => {}
        Source::Image(name) => match images.find(name.as_str()) {
            Some(image) => image.config.get().env.keeps_names(),
            None => {}
        },
    }
}

/// The same of what a stage begins with.
fn keep_base_names(images: &Images<BoxedConfig>, base: &Origin)
    ensures { IsProperBase images.now base.now }
{
    match base {
        Origin::Source(source) => keep_source_names(images, source),
        Origin::Stage(_) => {}
    }
}

/// The same of what all stages begin with: names in the environments of their images are such as an environment may have.
pub(crate) fn keep_names(images: &Images<BoxedConfig>, stages: &[ResolvedStage])
    ensures { All (λ (stage : Resolved). IsProperBase images.now stage.base) stages.now }
{
    for stage in stages {
        keep_base_names(images, &stage.base);
    }
}
