ghost use Rattle.std.specs.Prelude.{option_map};
ghost use Rattle.instructions.specs.Least.{Meets};
ghost use Rattle.instructions.specs.Parsing.{named_read, named_due, IsParsed};

use crate::arg::read_arg;
use crate::command::{read_cmd, read_entrypoint};
use crate::copy::read_copy;
use crate::env::read_env;
use crate::expose::read_expose;
use crate::from::read_from;
use crate::keyword::{Keyword, keyword_of};
use crate::label::read_label;
use crate::one_word::{read_stop_signal, read_user, read_workdir};
use crate::run::read_run;
use crate::shell::read_shell;
use crate::volume::read_volume;
use crate::{Instruction, InstructionKind};
use ascii::first_piece;
use lines::{Line, LineFault};
use plain::{Code, Fault, Refusal};
use std::alloc::Global;
use words::TextFault;

/// The instruction that a logical line spells (Dockerfile reference), with its flags, mounts and heredocs, and the line's
/// number.
///
/// A line that spells none is refused with the least code that is due: R04 for an unknown name, R06 for a wrong number of
/// arguments (an empty rest, a word without `=`, a second word that isn't AS and a SHELL that isn't JSON count here too) or an
/// empty body or list of a RUN, R07 for a flag that is unknown, repeated or malformed, R08 for a heredoc that isn't allowed,
/// R09 for an open quote in words and for a text that is expanded and is no word (a quote is open in it, or a substitution is
/// bad), R10 for a bad name of a variable or a stage, R16 for a bad owner or mode, R17 for a malformed mount, R18 for more
/// than 16 mounts. Expanded are the words, or the strings of the list, of EXPOSE, USER, WORKDIR, STOPSIGNAL, VOLUME and COPY,
/// the image of FROM, the defaults of ARG, the values of ENV, the keys and values of LABEL, and the bodies of COPY whose mark
/// stands in no quotes.
/// The line's heredocs are taken to be those of its marks, as a reader of lines gives them.
pub fn parse(alloc: Global, line: &Line) -> Result<Instruction, LineFault>
    ensures { IsParsed line.now result }
{
    let (name, rest) = first_piece(line.text.as_str());
    let number = line.number;
    match read(alloc, keyword_of(name), line, rest) {
        Ok(kind) => Ok(Instruction::new(number, kind)),
        Err(Fault::Because(code)) => {
            let refusal = Refusal { code, line: number };
            Err(Fault::Because(refusal))
        }
        Err(Fault::Memory) => Err(Fault::Memory),
    }
}

/// What the name and the text behind it spell.
fn read(
    alloc: Global,
    keyword: Option<Keyword>,
    line: &Line,
    rest: &str,
) -> Result<InstructionKind, TextFault>
    ensures { Meets (named_read keyword line.now rest.now) (named_due keyword line.now rest.now) result }
{
    let Some(keyword) = keyword else {
        return Err(Fault::Because(Code::R04));
    };
    let escape = line.escape;
    let heredocs = line.heredocs.as_slice();
    match keyword {
        Keyword::From => read_from(alloc, escape, rest),
        Keyword::Arg => read_arg(alloc, escape, rest),
        Keyword::Env => read_env(alloc, escape, rest),
        Keyword::Label => read_label(alloc, escape, rest),
        Keyword::Expose => read_expose(alloc, escape, rest),
        Keyword::User => read_user(alloc, escape, rest),
        Keyword::Workdir => read_workdir(alloc, escape, rest),
        Keyword::StopSignal => read_stop_signal(alloc, escape, rest),
        Keyword::Volume => read_volume(alloc, escape, rest),
        Keyword::Shell => read_shell(alloc, rest),
        Keyword::Cmd => read_cmd(alloc, rest),
        Keyword::Entrypoint => read_entrypoint(alloc, rest),
        Keyword::Run => read_run(alloc, heredocs, rest),
        Keyword::Copy => read_copy(alloc, escape, heredocs, rest),
    }
}
