ghost use Rattle.std.specs.Prelude.{◌≡◌, ◌++◌, ◌-◌, [], ◌∷◌, map, option_map, IfOk};
ghost use Rattle.std.specs.Option.{option_copied};
ghost use Rattle.std.specs.String.{string_bytes};
ghost use Rattle.lines.specs.Text.{without_byte_order_mark, text_lines};
ghost use Rattle.sentences.specs.Table.{remedy, sentence};
ghost use Rattle.checks.specs.Mark.{placed_spot};
ghost use Rattle.checks.specs.Shown.{place_of, readable_lines, line_at, own_by, own_in, word_in, shown_place, shown_told, shown_fault, shown_faults, shown_flaw, shown_check};
ghost use Rattle.checks.specs.Visible.{visible};
ghost use Rattle.flaws.specs.Places.{place_text};

use crate::Form;
use crate::layout::{shown_json, shown_plain};
use crate::mark::{Marked, marked_by, spot_by};
use crate::visible::visible;
use expand::{Reason, Rejection};
use flaws::{Flaw, place_text};
use meant::{message_by, own_of};
use plain::{Code, Memory, Text};
use pointed::Pointed;
use sentences::{Message, Subject, code_of, headed, noted, place_line, remedy, sentence};
use std::alloc::{AllocError, Global};

/// What is shown of faults of a build of this target with images of these names, in their order and in this form, whose lines are counted in this text: that
/// of the Dockerfile, which is the file of this name, or of its ignore file, which is called `.dockerignore`. It need not be UTF-8: what isn't is shown as
/// U+FFFD. Of a number that the text hasn't no line is shown, or an empty one where one is shown alone.
///
/// A fault is shown with all lines of its instruction, and with what `message_by` of `meant` says of it. Of a word that a fault is about, as far as the lines
/// tell it, the column is shown, and to a person its line alone, with a mark under it.
///
/// To a person a character that can't be seen, other than a tab, is shown by its number, as `\x1b` or `\u200b`, in a line, in what is said of it and in the
/// file's name, so none gives orders to a terminal. A program gets all of them as they stand.
pub fn shown_faults(
    alloc: Global,
    file: &str,
    faults: &[Rejection],
    target: Option<&Text>,
    images: &[Text],
    text: &[u8],
    form: Form,
) -> Result<Text, Memory>
    ensures { IfOk result (λ shown. shown ≡ shown_faults file.now form (option_copied target.entry) images.now (readable_lines text.now) faults.now) }
{
    let readable = String::from_utf8_lossy(alloc, text)?;
    let shown = shown_in(alloc, file, faults, target, images, readable.as_str(), form)?;
    Ok(Text::from_string(shown))
}

/// What is shown to a person of bytes that are no bundle, with this place.
fn shown_place(alloc: Global, place: &str) -> Result<String, Memory>
    ensures { IfOk result (λ text. string_bytes text ≡ shown_place place.now) }
{
    let subject = Subject::of_line("");
    let wrong = format!(in alloc; "{}: {place}", sentence(Code::R20, subject))?;
    let head = headed(alloc, "bundle", "R20", wrong.as_str())?;
    let helps = noted(alloc, "", remedy(Code::R20, subject))?;
    let mut text = head;
    text.push_str(helps.as_str())?;
    Ok(text)
}

/// What is shown of bytes that are no bundle, with where they are wrong. To a person a character of a key that can't be seen is shown by its number.
fn shown_flaw(alloc: Global, flaw: &Flaw, form: Form) -> Result<String, Memory>
    ensures { IfOk result (λ text. string_bytes text ≡ shown_flaw form (place_text flaw.now)) }
{
    let place = place_text(alloc, flaw)?;
    match form {
        Form::Plain => {
            let place = visible(alloc, place.as_str())?;
            shown_place(alloc, place.as_str())
        }
        Form::Json => place_line(alloc, "bundle", Code::R20, place.as_str()),
    }
}

/// What is shown of a bundle's faults: those of bytes that are no bundle with where they are wrong, and others as `shown_faults` shows them.
pub(crate) fn shown_check(
    alloc: Global,
    file: &str,
    flaw: Option<&Flaw>,
    target: Option<&Text>,
    images: &[Text],
    faults: &[Rejection],
    text: &[u8],
    form: Form,
) -> Result<Text, Memory>
    ensures { IfOk result (λ shown. shown ≡ shown_check file.now form (option_copied flaw.entry) (option_copied target.entry) images.now (readable_lines text.now) faults.now) }
{
    match flaw {
        Some(flaw) => Ok(Text::from_string(shown_flaw(alloc, flaw, form)?)),
        None => shown_faults(alloc, file, faults, target, images, text, form),
    }
}

/// What `shown_faults` shows of a text that is UTF-8.
fn shown_in(
    alloc: Global,
    file: &str,
    faults: &[Rejection],
    target: Option<&Text>,
    images: &[Text],
    text: &str,
    form: Form,
) -> Result<String, Memory>
    ensures { IfOk result (λ shown. string_bytes shown ≡ shown_faults file.now form (option_copied target.entry) images.now (text_lines text.now) faults.now) }
{
    if faults.is_empty() {
        return Ok(String::new(alloc));
    }
    let lines = lines_of(alloc, text)?;
    shown_each(alloc, file, faults, target, images, lines.as_slice(), form)
}

/// What is shown of faults, one after another, their lines being among these.
fn shown_each(
    alloc: Global,
    file: &str,
    faults: &[Rejection],
    target: Option<&Text>,
    images: &[Text],
    lines: &[&str],
    form: Form,
) -> Result<String, Memory>
    ensures { IfOk result (λ shown. string_bytes shown ≡ shown_faults file.now form (option_copied target.entry) images.now (map (λ line. line.now) lines.now) faults.now) }
{
    let mut text = String::new(alloc);
    for fault in faults {
        let shown = shown_fault(alloc, file, fault, target, images, lines, form)?;
        text.push_str(shown.as_str())?;
    }
    Ok(text)
}

/// The line of this number alone.
fn one_line<'a>(alloc: Global, lines: &[&'a str], number: u32) -> Result<Vec<&'a str>, Memory>
    ensures { IfOk result (λ own. map (λ line. line.now) own.items ≡ line_at (map (λ line. line.now) lines.now) number ∷ []) }
{
    let mut own = Vec::new(alloc);
    own.push(listed_line(lines, number))?;
    Ok(own)
}

/// The lines that a refusal for this reason is about: those of the instruction that begins on the line of this number. One alone is it of an ignore file, of
/// what isn't UTF-8, and of a directive.
fn own_by<'a>(
    alloc: Global,
    reason: &Reason,
    lines: &[&'a str],
    number: u32,
) -> Result<Vec<&'a str>, Memory>
    ensures { IfOk result (λ own. map (λ line. line.now) own.items ≡ own_by reason.now (map (λ line. line.now) lines.now) number) }
{
    match reason {
        Reason::Coded(Code::R01)
        | Reason::Coded(Code::R02)
        | Reason::Coded(Code::R03)
        | Reason::Coded(Code::R19) => one_line(alloc, lines, number),
        _ => own_of(alloc, lines, number),
    }
}

/// The same; none if the refusal is about no line, having number 0.
fn own_in<'a>(
    alloc: Global,
    reason: &Reason,
    lines: &[&'a str],
    number: u32,
) -> Result<Vec<&'a str>, Memory>
    ensures { IfOk result (λ own. map (λ line. line.now) own.items ≡ own_in reason.now (map (λ line. line.now) lines.now) number) }
{
    if number == 0 {
        return Ok(Vec::new(alloc));
    }
    own_by(alloc, reason, lines, number)
}

/// The word of what is found.
fn word_in<'a>(found: &Option<(usize, Pointed<'a>)>) -> Option<&'a str>
    ensures { option_map (λ word. word.now) result ≡ word_in (option_map placed_spot found.now) }
{
    match found {
        Some((_, spot)) => Some(spot.word),
        None => None,
    }
}

/// What is shown of a fault of a file with these lines.
fn shown_fault(
    alloc: Global,
    file: &str,
    fault: &Rejection,
    target: Option<&Text>,
    images: &[Text],
    lines: &[&str],
    form: Form,
) -> Result<String, Memory>
    ensures { IfOk result (λ text. string_bytes text ≡ shown_fault file.now form (option_copied target.entry) images.now (map (λ line. line.now) lines.now) fault.now) }
{
    let own = own_in(alloc, &fault.reason, lines, fault.line)?;
    let found = spot_by(alloc, &fault.reason, lines, own.as_slice(), fault.line)?;
    let message = message_by(
        alloc,
        target,
        images,
        None,
        lines,
        own.as_slice(),
        &fault.reason,
        fault.line,
        word_in(&found),
    )?;
    let marked = marked_by(alloc, &fault.reason, found)?;
    shown_told(
        alloc,
        file,
        fault,
        own.as_slice(),
        &message,
        marked.as_ref(),
        form,
    )
}

/// What is shown of a fault that is about these lines, with what is said of it and the word that is marked.
fn shown_told(
    alloc: Global,
    file: &str,
    fault: &Rejection,
    own: &[&str],
    message: &Message,
    marked: Option<&Marked>,
    form: Form,
) -> Result<String, Memory>
    ensures { IfOk result (λ text. string_bytes text ≡ shown_told file.now form fault.now (map (λ line. line.now) own.now) message.now (option_copied marked.entry)) }
{
    let code = code_of(alloc, &fault.reason)?;
    let (place, code) = (place_of(file, &fault.reason), code.as_str());
    match form {
        Form::Plain => shown_plain(alloc, place, code, fault.line, own, message, marked),
        Form::Json => shown_json(alloc, place, code, fault.line, own, message, marked),
    }
}

/// What a line is in that is refused for this reason.
fn place_of<'a>(file: &'a str, reason: &Reason) -> &'a str
    ensures { result.now ≡ place_of file.now reason.now }
{
    match reason {
        Reason::Coded(Code::R19) => ".dockerignore",
        Reason::Coded(Code::R20) => "bundle",
        Reason::Coded(_) | Reason::Required(_) => file,
    }
}

/// A text without its leading byte order mark.
fn without_byte_order_mark(text: &str) -> &str
    ensures { result.now ≡ without_byte_order_mark text.now }
{
    match text.strip_prefix('\u{feff}') {
        Some(rest) => rest,
        None => text,
    }
}

/// The lines of a text.
pub(crate) fn lines_of(alloc: Global, text: &str) -> Result<Vec<&str>, AllocError>
    ensures { IfOk result (λ lines. map (λ line. line.now) lines.items ≡ text_lines text.now) }
{
    without_byte_order_mark(text).lines().collect(alloc)
}

/// The place of a line among a file's, which counts from 0 where its number counts from 1.
fn index_of(number: u32) -> usize
    ensures { result ≡ number - 1 }
{
    (number as usize).saturating_sub(1)
}

/// The line of this number, the empty one where there is none.
fn listed_line<'a>(lines: &[&'a str], number: u32) -> &'a str
    ensures { result.now ≡ line_at (map (λ line. line.now) lines.now) number }
{
    match lines.get(index_of(number)) {
        Some(line) => line,
        None => "",
    }
}
