ghost use Rattle.std.specs.Prelude.{◌≡◌, true, map, IfOk};
ghost use Rattle.std.specs.List.{list_all};
ghost use Rattle.ascii.specs.Names.{is_name};
ghost use Rattle.expand.specs.Word.{Finds};
ghost use Rattle.instructions.specs.Arg.{argument_cut, argument_of, arguments_of, has_bad_name, arg_read, arg_due};
ghost use Rattle.instructions.specs.Instruction.{argument_names};
ghost use Rattle.instructions.specs.Least.{Meets};
ghost use Rattle.instructions.specs.PrivateLent.{lent_texts, lent_argument, lent_arguments};

use crate::expanded::are_none;
use crate::{Argument, InstructionKind};
use ascii::is_name;
use expand::{Kind, Word};
use lines::Escape;
use plain::{Code, Fault, Items, Memory, Text, VariableName};
use std::alloc::Global;
use std::marker::Model;
use words::{TextFault, closed, pair, split};

/// An argument whose name isn't tested yet: a line whose names are bad is refused for a bad word first. Contracts see the argument.
#[derive(Drop)]
struct Draft {
    name: Text,
    default: Option<Word>,
}

impl Model for Draft {
    ghost use Rattle.instructions.specs.declared.instruction.Argument.{Argument};
    ghost use Rattle.instructions.specs.contracts.instruction.Argument as argument;

    ghost Value = { Argument };

    ghost coded = { argument.the_row.coded };

    ghost view = { λ d. record { name = d.name; default = d.default } };
}

impl Draft {
    /// The argument, if its name is one.
    #[tactic(auto, using(crate::proofs::NameLemmas::name_fits))]
    fn named(self) -> Argument
        requires { is_name self.name ≡ true }
        ensures { result ≡ self }
    {
        let Draft { name, default } = self;
        Argument {
            name: VariableName::of(name),
            default,
        }
    }
}

/// The name of a word of ARG, and its default where it is cut.
fn argument_cut(word: &str) -> (&str, Option<&str>)
    ensures { lent_argument result ≡ argument_cut word.now }
{
    match pair(word) {
        Some((name, default)) => (name, Some(default)),
        None => (word, None),
    }
}

/// The names and defaults of words.
fn argument_cuts<'a>(
    alloc: Global,
    words: &[&'a str],
) -> Result<Vec<(&'a str, Option<&'a str>)>, Memory>
    ensures { IfOk result (λ cuts. lent_arguments cuts.items ≡ map argument_cut (lent_texts words.now)) }
{
    let mut cuts = Vec::new(alloc);
    for word in words {
        cuts.push(argument_cut(word))?;
    }
    Ok(cuts)
}

/// The argument of a name and a default; R09 where the default is no word.
fn read_argument(
    alloc: Global,
    escape: Escape,
    cut: &(&str, Option<&str>),
) -> Result<Draft, TextFault>
    ensures { Finds (argument_of escape (lent_argument cut.now)) result }
{
    let (name, default) = *cut;
    let default = match default {
        Some(text) => Some(Word::read(alloc, Kind::Quoted, escape, text)?),
        None => None,
    };
    let name = Text::from_str(alloc, name)?;
    Ok(Draft { name, default })
}

/// The arguments of names and defaults; R09 where a default is no word.
fn read_arguments(
    alloc: Global,
    escape: Escape,
    cuts: &[(&str, Option<&str>)],
) -> Result<Items<Draft>, TextFault>
    ensures { Finds (arguments_of escape (lent_arguments cuts.now)) result }
{
    let mut found = Items::new(alloc);
    for cut in cuts {
        let argument = read_argument(alloc, escape, cut)?;
        found.push(argument)?;
    }
    Ok(found)
}

/// The arguments of drafts whose names are names.
fn named(alloc: Global, drafts: Items<Draft>) -> Result<Items<Argument>, Memory>
    requires { list_all is_name (argument_names drafts) ≡ true }
    ensures { IfOk result (λ arguments. arguments ≡ drafts) }
{
    let mut arguments = Items::new(alloc);
    for draft in drafts.into_vec() {
        arguments.push(draft.named())?;
    }
    Ok(arguments)
}

/// Whether one of the names is none of a variable.
fn has_bad_name(cuts: &[(&str, Option<&str>)]) -> bool
    ensures { result ≡ has_bad_name (lent_arguments cuts.now) }
{
    for (name, _) in cuts {
        if !is_name(name.as_bytes()) {
            return true;
        }
    }
    false
}

/// ARG: `name` or `name=default`, one or more of them.
pub(crate) fn read_arg(
    alloc: Global,
    escape: Escape,
    text: &str,
) -> Result<InstructionKind, TextFault>
    ensures { Meets (arg_read escape text.now) (arg_due escape text.now) result }
{
    let words = split(alloc, escape, text)?;
    if are_none(&words) {
        return Err(Fault::Because(Code::R06));
    }
    closed(escape, text)?;
    let cuts = argument_cuts(alloc, &words)?;
    let cuts = cuts.as_slice();
    let drafts = read_arguments(alloc, escape, cuts)?;
    if has_bad_name(cuts) {
        return Err(Fault::Because(Code::R10));
    }
    let arguments = named(alloc, drafts)?;
    Ok(InstructionKind::Arg { arguments })
}
