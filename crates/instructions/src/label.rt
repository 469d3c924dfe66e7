ghost use Rattle.std.specs.Prelude.{◌≡◌, option_map, IfOk};
ghost use Rattle.words.specs.Pairs.{label_pair};
ghost use Rattle.expand.specs.Word.{Finds};
ghost use Rattle.instructions.specs.Env.{pairs_among};
ghost use Rattle.instructions.specs.Label.{label_of, labels_of, label_read, label_due};
ghost use Rattle.instructions.specs.Least.{Meets};
ghost use Rattle.instructions.specs.PrivateLent.{lent_texts, lent_pair, lent_pairs};

use crate::{InstructionKind, Label};
use expand::{Kind, Word};
use lines::Escape;
use plain::{Code, Fault, Items, Memory};
use std::alloc::Global;
use words::{TextFault, closed, label_pair, split};

/// The keys and values of words `key=value`, where there are any and each has an `=` outside quotes and escapes.
#[tactic(auto, using(options::proofs::ListLaws::behind_none, options::proofs::ListLaws::behind_some))]
fn label_pairs_among<'a>(
    alloc: Global,
    escape: Escape,
    words: &[&'a str],
) -> Result<Option<Vec<(&'a str, &'a str)>>, Memory>
    ensures { IfOk result (λ found. option_map (λ pairs. lent_pairs pairs.items) found ≡ pairs_among (label_pair escape) (lent_texts words.now)) }
{
    if words.is_empty() {
        return Ok(None);
    }
    let mut pairs = Vec::new(alloc);
    for word in words {
        match label_pair(escape, word) {
            Some(pair) => pairs.push(pair)?,
            None => return Ok(None),
        }
    }
    Ok(Some(pairs))
}

/// The label of a key and a value; R09 where one of them is no word.
fn read_one_label(alloc: Global, escape: Escape, pair: &(&str, &str)) -> Result<Label, TextFault>
    ensures { Finds (label_of escape (lent_pair pair.now)) result }
{
    let (key, value) = *pair;
    let key = Word::read(alloc, Kind::Quoted, escape, key)?;
    let value = Word::read(alloc, Kind::Quoted, escape, value)?;
    Ok(Label { key, value })
}

/// The labels of keys and values; R09 where one of them is no word.
fn read_labels(
    alloc: Global,
    escape: Escape,
    pairs: &[(&str, &str)],
) -> Result<Items<Label>, TextFault>
    ensures { Finds (labels_of escape (lent_pairs pairs.now)) result }
{
    let mut found = Items::new(alloc);
    for pair in pairs {
        let label = read_one_label(alloc, escape, pair)?;
        found.push(label)?;
    }
    Ok(found)
}

/// LABEL: `key=value`, one or more of them.
pub(crate) fn read_label(
    alloc: Global,
    escape: Escape,
    text: &str,
) -> Result<InstructionKind, TextFault>
    ensures { Meets (label_read escape text.now) (label_due escape text.now) result }
{
    let words = split(alloc, escape, text)?;
    let Some(pairs) = label_pairs_among(alloc, escape, &words)? else {
        return Err(Fault::Because(Code::R06));
    };
    closed(escape, text)?;
    let labels = read_labels(alloc, escape, &pairs)?;
    Ok(InstructionKind::Label { labels })
}
