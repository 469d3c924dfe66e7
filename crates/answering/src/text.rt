// The text of an answer or a refusal, whole.
ghost use Rattle.std.specs.Prelude.{◌≡◌, IfOk};
ghost use Rattle.std.specs.FinMap.{entries};
ghost use Rattle.serde_json.specs.View.{view};
ghost use Rattle.imageconfig.specs.Writing.{config_data};
ghost use Rattle.bundle.specs.Answer.{built_text};
ghost use Rattle.answering.specs.Text.{answer_text};
ghost use Rattle.answering.specs.PrivateText.{built_of};

use bundle::{failed_answer, refused_answer};
use entries::tree_to_json;
use expand::Rejection;
use imageconfig::Config;
use plain::{Memory, Text};
use serde_json::{Value, json};
use solver::Answer;
use std::alloc::Global;
use trees::Tree;

/// The text of an answer or a refusal: one line of compact JSON, without the LF that ends it.
///
/// A build writes this text. That of a tree it says piece by piece, without ever holding it whole (`tell_tree`).
pub fn answer_text(
    alloc: Global,
    answer: &Result<Answer<Config>, Rejection>,
) -> Result<Text, Memory>
    ensures { IfOk result (λ text. text ≡ answer_text answer.now) }
{
    match answer {
        Ok(Answer::Built(tree, config)) => built_answer(alloc, config, tree),
        Ok(Answer::Failed { place, cause }) => failed_answer(alloc, *place, *cause),
        Err(refusal) => refused_answer(alloc, refusal),
    }
}

/// The answer of a build that gave this tree, with this configuration.
fn built_answer(alloc: Global, config: &Config, tree: &Tree) -> Result<Text, Memory>
    ensures { IfOk result (λ text. text ≡ built_text (config_data config.now) (entries tree.now)) }
{
    let config = config.to_json(alloc)?;
    let rows = tree.entries(alloc)?;
    let tree = tree_to_json(alloc, rows.as_slice())?;
    let answer = built_value(alloc, config, tree)?;
    let text = answer.to_string(alloc)?;
    Ok(Text::from_string(text))
}

/// The same as JSON, of a configuration and a tree as JSON.
fn built_value(alloc: Global, config: Value, tree: Value) -> Result<Value, Memory>
    ensures { IfOk result (λ v. view v ≡ built_of (view config) (view tree)) }
{
    Ok(json!(in alloc; {"config": config, "result": "built", "tree": tree})?)
}
