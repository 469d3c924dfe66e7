ghost use Rattle.std.specs.Prelude.{◌≡◌, Some, true, option_map, IfOk};
ghost use Rattle.std.specs.List.{list_all};
ghost use Rattle.ascii.specs.Names.{is_name};
ghost use Rattle.words.specs.Pairs.{pair};
ghost use Rattle.expand.specs.Word.{Finds};
ghost use Rattle.instructions.specs.Env.{pairs_among, pair_alone, pairs_in, has_pairs, assignment_of, assignments_of, has_bad_name, env_read, env_due};
ghost use Rattle.instructions.specs.Instruction.{assignment_names};
ghost use Rattle.instructions.specs.Least.{Meets};
ghost use Rattle.instructions.specs.PrivateLent.{lent_texts, lent_pair, lent_pairs};

use crate::{Assignment, InstructionKind};
use ascii::{first_piece, is_name};
use expand::{Kind, Word};
use lines::Escape;
use plain::{Code, Fault, Items, Memory, Text, VariableName};
use std::alloc::Global;
use std::marker::Model;
use words::{TextFault, closed, pair, split};

/// An assignment whose name isn't tested yet: a line whose names are bad is refused for a bad word first. Contracts see the assignment.
#[derive(Drop)]
struct Draft {
    name: Text,
    value: Word,
}

impl Model for Draft {
    ghost use Rattle.instructions.specs.declared.instruction.Assignment.{Assignment};
    ghost use Rattle.instructions.specs.contracts.instruction.Assignment as assignment;

    ghost Value = { Assignment };

    ghost coded = { assignment.the_row.coded };

    ghost view = { λ d. record { name = d.name; value = d.value } };
}

impl Draft {
    /// The assignment, if its name is one.
    #[tactic(auto, using(crate::proofs::NameLemmas::name_fits))]
    fn named(self) -> Assignment
        requires { is_name self.name ≡ true }
        ensures { result ≡ self }
    {
        let Draft { name, value } = self;
        Assignment {
            name: VariableName::of(name),
            value,
        }
    }
}

/// The names and values of words `name=value`, where there are any and each has an `=`.
#[tactic(auto, using(options::proofs::ListLaws::behind_none, options::proofs::ListLaws::behind_some))]
fn pairs_among<'a>(
    alloc: Global,
    words: &[&'a str],
) -> Result<Option<Vec<(&'a str, &'a str)>>, Memory>
    ensures { IfOk result (λ found. option_map (λ pairs. lent_pairs pairs.items) found ≡ pairs_among pair (lent_texts words.now)) }
{
    if words.is_empty() {
        return Ok(None);
    }
    let mut pairs = Vec::new(alloc);
    for word in words {
        match pair(word) {
            Some(pair) => pairs.push(pair)?,
            None => return Ok(None),
        }
    }
    Ok(Some(pairs))
}

/// A name and a value, where there is a value.
fn pair_alone<'a>(
    alloc: Global,
    name: &'a str,
    value: &'a str,
) -> Result<Option<Vec<(&'a str, &'a str)>>, Memory>
    ensures { IfOk result (λ found. option_map (λ pairs. lent_pairs pairs.items) found ≡ pair_alone name.now value.now) }
{
    if value.is_empty() {
        return Ok(None);
    }
    let mut pairs = Vec::new(alloc);
    pairs.push((name, value))?;
    Ok(Some(pairs))
}

/// The assignment of a name and a value; R09 where the value is no word.
fn read_assignment(alloc: Global, escape: Escape, pair: &(&str, &str)) -> Result<Draft, TextFault>
    ensures { Finds (assignment_of escape (lent_pair pair.now)) result }
{
    let (name, value) = *pair;
    let value = Word::read(alloc, Kind::Quoted, escape, value)?;
    let name = Text::from_str(alloc, name)?;
    Ok(Draft { name, value })
}

/// The assignments of names and values; R09 where a value is no word.
fn read_assignments(
    alloc: Global,
    escape: Escape,
    pairs: &[(&str, &str)],
) -> Result<Items<Draft>, TextFault>
    ensures { Finds (assignments_of escape (lent_pairs pairs.now)) result }
{
    let mut found = Items::new(alloc);
    for pair in pairs {
        let assignment = read_assignment(alloc, escape, pair)?;
        found.push(assignment)?;
    }
    Ok(found)
}

/// The assignments of drafts whose names are names.
fn named(alloc: Global, drafts: Items<Draft>) -> Result<Items<Assignment>, Memory>
    requires { list_all is_name (assignment_names drafts) ≡ true }
    ensures { IfOk result (λ assignments. assignments ≡ drafts) }
{
    let mut assignments = Items::new(alloc);
    for draft in drafts.into_vec() {
        assignments.push(draft.named())?;
    }
    Ok(assignments)
}

/// Whether one of the names is none of a variable.
fn has_bad_name(pairs: &[(&str, &str)]) -> bool
    ensures { result ≡ has_bad_name (Some (lent_pairs pairs.now)) }
{
    for (name, _) in pairs {
        if !is_name(name.as_bytes()) {
            return true;
        }
    }
    false
}

/// The names and values of a text behind ENV.
fn pairs_in<'a>(
    alloc: Global,
    escape: Escape,
    text: &'a str,
) -> Result<Option<Vec<(&'a str, &'a str)>>, Memory>
    ensures { IfOk result (λ found. option_map (λ pairs. lent_pairs pairs.items) found ≡ pairs_in escape text.now) }
{
    let (name, value) = first_piece(text);
    if pair(name).is_none() {
        return pair_alone(alloc, name, value);
    }
    let words = split(alloc, escape, text)?;
    pairs_among(alloc, &words)
}

/// Whether the first piece of a text has an `=`.
fn has_pairs(text: &str) -> bool
    ensures { result ≡ has_pairs text.now }
{
    pair(first_piece(text).0).is_some()
}

/// ENV: `name=value`, one or more of them, or `name value`.
pub(crate) fn read_env(
    alloc: Global,
    escape: Escape,
    text: &str,
) -> Result<InstructionKind, TextFault>
    ensures { Meets (env_read escape text.now) (env_due escape text.now) result }
{
    let Some(pairs) = pairs_in(alloc, escape, text)? else {
        return Err(Fault::Because(Code::R06));
    };
    if has_pairs(text) {
        closed(escape, text)?;
    }
    let pairs = pairs.as_slice();
    let drafts = read_assignments(alloc, escape, pairs)?;
    if has_bad_name(pairs) {
        return Err(Fault::Because(Code::R10));
    }
    let assignments = named(alloc, drafts)?;
    Ok(InstructionKind::Env { assignments })
}
