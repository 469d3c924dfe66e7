// The table: a sentence and a remedy for each cause.
ghost use Rattle.std.specs.Prelude.{◌≡◌, IfOk};
ghost use Rattle.std.specs.Option.{option_copied};
ghost use Rattle.std.specs.String.{string_bytes};
ghost use Rattle.sentences.specs.Table.{unknown_sentence, unknown_remedy, wrong_with, arguments_sentence, flag_sentence, name_sentence, number_sentence, arguments_remedy, flag_remedy, heredoc_remedy, name_remedy, number_remedy, sentence, remedy, required_sentence, required_remedy};

use crate::Subject;
use plain::Code;
use std::alloc::{AllocError, Global};

/// The sentence for R04, by the line's instruction: some are left out of the language on purpose.
fn unknown_sentence(subject: Subject) -> &'static str
    ensures { result.now ≡ unknown_sentence subject }
{
    match subject {
        Subject::Add => "ADD is left out here on purpose",
        Subject::Onbuild => "ONBUILD is left out here on purpose",
        Subject::Healthcheck =>
            "HEALTHCHECK is left out here on purpose: an OCI configuration has no place for it",
        Subject::Maintainer => "MAINTAINER is left out here on purpose: it is deprecated",
        _ => "there is no such instruction here",
    }
}

/// The sentence for R06, by the line's instruction.
fn arguments_sentence(subject: Subject) -> &'static str
    ensures { result.now ≡ arguments_sentence subject }
{
    match subject {
        Subject::From => "FROM takes an image, and after it AS and a name at most",
        Subject::Arg => "ARG takes one name or more",
        Subject::Env => "ENV takes names with their values",
        Subject::Label => "LABEL takes keys with their values",
        Subject::Expose => "EXPOSE takes one port or more",
        Subject::User | Subject::Workdir | Subject::StopSignal =>
            "this instruction takes one word, which is not empty",
        Subject::Volume => "VOLUME takes one path or more, none of them empty",
        Subject::Shell => "SHELL takes a list in JSON with one text or more",
        Subject::Cmd | Subject::Entrypoint => "there is nothing to run",
        Subject::Run => "there is nothing to run, or an empty list or heredoc",
        Subject::Copy => "COPY takes one source or more and a destination, none of them empty",
        _ => "the number of arguments is wrong, or one is empty",
    }
}

/// The sentence for R07, by the line's instruction.
fn flag_sentence(subject: Subject) -> &'static str
    ensures { result.now ≡ flag_sentence subject }
{
    match subject {
        Subject::From => "FROM takes no flag here",
        Subject::Run => "RUN takes the flag --mount alone, with a value",
        Subject::Copy => "a flag of COPY is unknown, stands twice, or has a wrong value",
        _ => "a flag is unknown, stands twice, or has a wrong value",
    }
}

/// The sentence for R10, by the line's instruction.
fn name_sentence(subject: Subject) -> &'static str
    ensures { result.now ≡ name_sentence subject }
{
    match subject {
        Subject::From => "this is no name of a stage",
        Subject::Label => "the key of a label is empty",
        _ => "this is no name of a variable",
    }
}

/// The sentence for R16, by the line's instruction.
fn number_sentence(subject: Subject) -> &'static str
    ensures { result.now ≡ number_sentence subject }
{
    match subject {
        Subject::Expose =>
            "a port has to be a number from 1 to 65535, with /tcp or /udp after it at most",
        _ => "the owner and the mode have to be numbers",
    }
}

/// What is wrong where an input is refused with a code, in one sentence. Where a code has several causes the line's instruction tells them
/// apart, or the sentence names those that are left.
pub fn sentence(code: Code, subject: Subject) -> &'static str
    ensures { result.now ≡ sentence code subject }
{
    match code {
        Code::R01 => "the text is not UTF-8",
        Code::R02 => "this directive stands above already",
        Code::R03 => "the escape character has to be a backslash or a backtick",
        Code::R04 => unknown_sentence(subject),
        Code::R05 => "the first instruction other than ARG has to be FROM",
        Code::R06 => arguments_sentence(subject),
        Code::R07 => flag_sentence(subject),
        Code::R08 => "a heredoc is not closed, or not allowed so",
        Code::R09 => "a quote is open, or a substitution is malformed",
        Code::R10 => name_sentence(subject),
        Code::R11 => "a stage above has this name already, whatever the case of its letters",
        Code::R12 => "there is no image of this name, and no stage of it above",
        Code::R13 => "there is no stage of the target's name or number",
        Code::R14 => "several sources need a destination that ends in /",
        Code::R15 => "the pattern of a source is malformed",
        Code::R16 => number_sentence(subject),
        Code::R17 => "a mount is malformed, or two mounts clash",
        Code::R18 => "a limit is passed",
        Code::R19 => "a line of the ignore file is malformed",
        Code::R20 => "the input is no bundle",
    }
}

/// The remedy for R04, by the line's instruction.
fn unknown_remedy(subject: Subject) -> &'static str
    ensures { result.now ≡ unknown_remedy subject }
{
    match subject {
        Subject::Add =>
            "use COPY for files, and let a RUN fetch what is on a network and unpack archives",
        Subject::Onbuild => "write its instruction into each file that is built on this one",
        Subject::Healthcheck => "drop the line, and give the check to what runs the image",
        Subject::Maintainer => "write LABEL maintainer=name",
        _ =>
            "use FROM, ARG, ENV, LABEL, EXPOSE, USER, WORKDIR, STOPSIGNAL, VOLUME, SHELL, CMD, ENTRYPOINT, RUN or COPY",
    }
}

/// What is wrong, and after it the name that may have been meant, if there is one.
pub fn wrong_with(alloc: Global, wrong: &str, meant: Option<&str>) -> Result<String, AllocError>
    ensures { IfOk result (λ text. string_bytes text ≡ wrong_with wrong.now (option_copied meant.entry)) }
{
    match meant {
        None => String::from_str(alloc, wrong),
        Some(name) => format!(in alloc; "{wrong}; did you mean {name}?"),
    }
}

/// The remedy for R06, by the line's instruction.
fn arguments_remedy(subject: Subject) -> &'static str
    ensures { result.now ≡ arguments_remedy subject }
{
    match subject {
        Subject::From => "write FROM image or FROM image AS name",
        Subject::Arg => "write ARG name or ARG name=default",
        Subject::Env => "write ENV name=value, and quotes around a value with blanks",
        Subject::Label => "write LABEL key=value, and quotes around a value with blanks",
        Subject::Expose => "write EXPOSE 80 or EXPOSE 80/udp",
        Subject::User | Subject::Workdir | Subject::StopSignal =>
            "write one word, with quotes around blanks, and give each variable in it a value",
        Subject::Volume =>
            "write VOLUME /path or VOLUME [\"/path\"], and give each variable in it a value",
        Subject::Shell => "write SHELL [\"/bin/sh\", \"-c\"]",
        Subject::Cmd | Subject::Entrypoint => "write a command, or a list in JSON",
        Subject::Run =>
            "write a command, a list in JSON with one text or more, or a heredoc with a line",
        Subject::Copy => "write COPY source destination, and give each variable in it a value",
        _ => "write as many as the instruction takes",
    }
}

/// The remedy for R07, by the line's instruction.
fn flag_remedy(subject: Subject) -> &'static str
    ensures { result.now ≡ flag_remedy subject }
{
    match subject {
        Subject::From =>
            "drop the flag (--platform is left out on purpose: an image comes with the bundle)",
        Subject::Run => "drop the flag, or write --mount=type=cache,target=/path",
        Subject::Copy =>
            "write --from=name, --chown=1000:1000, --chmod=644 or --link, each once at most",
        _ => "drop the flag, or mend its value",
    }
}

/// The remedy for R08, by the line's instruction.
fn heredoc_remedy(subject: Subject) -> &'static str
    ensures { result.now ≡ heredoc_remedy subject }
{
    match subject {
        Subject::Run =>
            "close it by a line with its name alone; give RUN one heredoc with nothing beside it and without #! in it",
        Subject::Copy =>
            "close it by a line with its name alone; let it be a source, a word of its own, and without --from",
        _ => "close it by a line with its name alone",
    }
}

/// The remedy for R10, by the line's instruction.
fn name_remedy(subject: Subject) -> &'static str
    ensures { result.now ≡ name_remedy subject }
{
    match subject {
        Subject::From =>
            "begin with a letter, go on with letters, digits, -, _ and ., and take another name than scratch",
        Subject::Label => "give each variable in the key a value, or write the key out",
        _ => "begin with a letter or _, and go on with letters, digits and _",
    }
}

/// The remedy for R16, by the line's instruction.
fn number_remedy(subject: Subject) -> &'static str
    ensures { result.now ≡ number_remedy subject }
{
    match subject {
        Subject::Expose => "write EXPOSE 80 or EXPOSE 80/udp, without leading zeros",
        _ => "write --chown=1000:1000 and --chmod=644 (names would need the image's /etc/passwd)",
    }
}

/// What helps against a refusal, by its code and the instruction of its line.
pub fn remedy(code: Code, subject: Subject) -> &'static str
    ensures { result.now ≡ remedy code subject }
{
    match code {
        Code::R01 => "save the file as UTF-8",
        Code::R02 => "drop one of the two",
        Code::R03 => "write # escape=\\ or # escape=`",
        Code::R04 => unknown_remedy(subject),
        Code::R05 => "begin with FROM and an image, or with FROM scratch",
        Code::R06 => arguments_remedy(subject),
        Code::R07 => flag_remedy(subject),
        Code::R08 => heredoc_remedy(subject),
        Code::R09 =>
            "close the quote; write ${name}, ${name:-word}, ${name:+word} or ${name:?word}, and \\$ for the character $",
        Code::R10 => name_remedy(subject),
        Code::R11 => "rename one of the two",
        Code::R12 => "pack the image by --image NAME=FILE, or name a stage above",
        Code::R13 => "name a stage of the file, or count from 0",
        Code::R14 => "write / at the end of the destination",
        Code::R15 => "close each [, and write \\[ where the character [ is meant",
        Code::R16 => number_remedy(subject),
        Code::R17 =>
            "write type=bind or type=cache (tmpfs, secret and ssh are left out on purpose), keys once each, and targets that are neither / nor within one another",
        Code::R18 => "split the file or the instruction, or shorten the value or the path",
        Code::R19 => "mend this line of .dockerignore",
        Code::R20 => "make it by dfsolve pack, or see what a bundle is in docs/FORMATS.md",
    }
}

/// What is wrong if a variable that is required doesn't pass its test (R21), before the text that the line is refused with.
pub(crate) fn required_sentence() -> &'static str
    ensures { result.now ≡ required_sentence }
{
    "a required variable is unset or empty"
}

/// What helps against it.
pub(crate) fn required_remedy() -> &'static str
    ensures { result.now ≡ required_remedy }
{
    "give it a value above, by ENV or ARG, or by a build argument that an ARG takes"
}
