// The images that a file names.
ghost use Rattle.std.specs.Prelude.{◌≡◌, ◌<◌, ◌≤◌, ◌^◌, ◌++◌, [], length, is_some, IfOk, OnOk};
ghost use Rattle.std.specs.FinMap.{get as arg_value};
ghost use Rattle.std.specs.List.{cons_option, filter_map};
ghost use Rattle.stages.specs.Naming.{copy_reference, bind_reference, mount_reference, references};
ghost use Rattle.stages.specs.Before.{begun, declared_by, all_but_last};
ghost use Rattle.stages.specs.Due.{base_text, outer_fault};
ghost use Rattle.stages.specs.ImageNames.{image_text, base_image, reference_image, images_at, on_line, is_refused_argument, image_names_of};
ghost use Rattle.stages.specs.PrivateFaults.{outer_with, outer_other, outer_by, names_by};
ghost use Rattle.stages.specs.PrivateImageNames.{GoesOn};

use crate::faults::{argument_reason, push_name};
use crate::naming::{is_image_name, stage_called};
use crate::resolving::{all_but_last, begun, declared_by};
use ascii::are_digits;
use dockerfile::Dockerfile;
use expand::{Word, expand};
use instructions::{InstructionKind, Mount, MountKind};
use named::NamedRows;
use plain::{Exact, Fault, Items, Memory, Text};
use scopes::{Args, Scope};
use std::alloc::Global;
use std::hash::RandomState;

/// An image that a file names.
#[derive(Drop)]
pub struct ImageName {
    /// Its name, with the values of its variables.
    pub name: Text,
    /// The line of the instruction that names it.
    pub line: u32,
}

/// A text, if it names an image.
fn image_text(alloc: Global, names: &[Option<Text>], text: &Text) -> Result<Option<Text>, Memory>
    requires { length names.now < 2 ^ 32 }
    ensures { IfOk result (λ found. found ≡ image_text names.now text.now) }
{
    if stage_called(names, text).is_none() && is_image_name(text) {
        let name = text.copy(alloc)?;
        Ok(Some(name))
    } else {
        Ok(None)
    }
}

/// The image that a FROM names.
fn base_image(
    alloc: Global,
    outer: &Scope,
    names: &[Option<Text>],
    image: &Word,
) -> Result<Option<Text>, Memory>
    requires { length names.now < 2 ^ 32 }
    ensures { IfOk result (λ found. found ≡ base_image names.now (base_text outer.now image.now)) }
{
    match expand(alloc, image, outer) {
        Ok(text) => {
            let found = image_text(alloc, names, &text);
            drop(text);
            found
        }
        Err(Fault::Because(_)) => Ok(None),
        Err(Fault::Memory) => Err(Memory),
    }
}

/// The image that a COPY's `--from` names.
fn flag_image(
    alloc: Global,
    names: &[Option<Text>],
    from: &Option<Text>,
) -> Result<Option<Text>, Memory>
    requires { length names.now < 2 ^ 32 }
    ensures { IfOk result (λ found. found ≡ reference_image names.now (copy_reference from.now)) }
{
    match from {
        Some(text) => {
            if are_digits(text.as_str().as_bytes()) {
                Ok(None)
            } else {
                image_text(alloc, names, text)
            }
        }
        None => Ok(None),
    }
}

/// The image that a bind's `from` names.
fn bind_image(
    alloc: Global,
    names: &[Option<Text>],
    from: &Option<Text>,
) -> Result<Option<Text>, Memory>
    requires { length names.now < 2 ^ 32 }
    ensures { IfOk result (λ found. found ≡ reference_image names.now (bind_reference from.now)) }
{
    match from {
        Some(text) => image_text(alloc, names, text),
        None => Ok(None),
    }
}

/// Adds an image to some, if there is one.
fn push_image(images: &mut Items<Text>, image: Option<Text>) -> Result<(), Memory>
    ensures { OnOk result (images.new ≡ images.old ++ cons_option image []) }
{
    match image {
        Some(image) => images.push(image),
        None => Ok(()),
    }
}

/// The images that a RUN's binds name.
fn run_images(
    alloc: Global,
    names: &[Option<Text>],
    mounts: &[Mount],
) -> Result<Items<Text>, Memory>
    requires { length names.now < 2 ^ 32 }
    ensures { IfOk result (λ images. images ≡ filter_map (reference_image names.now) (filter_map (λ m. mount_reference m.kind) mounts.now)) }
{
    let mut images = Items::new(alloc);
    for mount in mounts {
        if let MountKind::Bind { from, .. } = &mount.kind {
            let image = bind_image(alloc, names, from)?;
            push_image(&mut images, image)?;
        }
    }
    Ok(images)
}

/// An image, if there is one, as a list.
fn only_image(alloc: Global, image: Option<Text>) -> Result<Items<Text>, Memory>
    ensures { IfOk result (λ images. images ≡ cons_option image []) }
{
    let mut images = Items::new(alloc);
    push_image(&mut images, image)?;
    Ok(images)
}

/// The images that an instruction of a stage names, after stages of these names.
fn inner_images(
    alloc: Global,
    names: &[Option<Text>],
    kind: &InstructionKind,
) -> Result<Items<Text>, Memory>
    requires { length names.now < 2 ^ 32 }
    ensures { IfOk result (λ images. images ≡ filter_map (reference_image names.now) (references kind.now)) }
{
    match kind {
        InstructionKind::Copy { flags, .. } => {
            let image = flag_image(alloc, names, &flags.from)?;
            only_image(alloc, image)
        }
        InstructionKind::Run { mounts, .. } => run_images(alloc, names, mounts.as_slice()),
        InstructionKind::From { .. }
        | InstructionKind::Arg { .. }
        | InstructionKind::Env { .. }
        | InstructionKind::Label { .. }
        | InstructionKind::Expose { .. }
        | InstructionKind::User { .. }
        | InstructionKind::Workdir { .. }
        | InstructionKind::StopSignal { .. }
        | InstructionKind::Volume { .. }
        | InstructionKind::Shell { .. }
        | InstructionKind::Cmd { .. }
        | InstructionKind::Entrypoint { .. } => Ok(Items::new(alloc)),
    }
}

/// The images that an instruction names, after stages of these names.
fn images_at(
    alloc: Global,
    outer: &Scope,
    names: &[Option<Text>],
    kind: &InstructionKind,
) -> Result<Items<Text>, Memory>
    requires { length names.now < 2 ^ 32 }
    ensures { IfOk result (λ images. images ≡ images_at outer.now names.now kind.now) }
{
    match begun(kind) {
        Some((image, _)) => {
            let image = base_image(alloc, outer, names, image)?;
            only_image(alloc, image)
        }
        None => inner_images(alloc, all_but_last(names), kind),
    }
}

/// A name whose bytes are shared with those of the same name that was found before: thousands of lines may name one image by a variable whose
/// value is long.
fn shared_name(alloc: Global, known: &mut NamedRows<Text>, name: Text) -> Result<Text, Memory>
    ensures { IfOk result (λ shared. shared ≡ name) }
{
    if let Some(same) = known.get(&name) {
        if same.same(&name) {
            return same.copy(alloc);
        }
    }
    let name = name.shared(alloc)?;
    let key = name.copy(alloc)?;
    let value = name.copy(alloc)?;
    known.set(key, value)?;
    Ok(name)
}

/// Adds images that are named on a line.
fn push_names(
    alloc: Global,
    known: &mut NamedRows<Text>,
    found: &mut Items<ImageName>,
    line: u32,
    images: Items<Text>,
) -> Result<(), Memory>
    ensures { OnOk result (found.new ≡ found.old ++ on_line line images) }
{
    for name in images.into_vec() {
        let name = shared_name(alloc, known, name)?;
        found.push(ImageName { name, line })?;
    }
    Ok(())
}

/// Declares what an ARG before the first FROM does, and answers whether the lines after it can be judged: not where it is refused.
fn declare_outer(
    alloc: Global,
    keys: RandomState,
    args: &Args,
    outer: &mut Scope,
    kind: &InstructionKind,
) -> Result<bool, Memory>
    ensures { IfOk result (GoesOn (is_some (outer_fault (arg_value args.now) outer.old (declared_by kind.now))) (outer_with (arg_value args.now) outer.old (declared_by kind.now)) outer.new) }
{
    match declared_by(kind) {
        Some(arguments) => {
            let reason = argument_reason(alloc, keys, args, outer, arguments)?;
            Ok(reason.is_none())
        }
        None => Ok(true),
    }
}

/// Takes an instruction other than FROM into the scope, and answers whether the lines after it can be judged.
fn take_other(
    alloc: Global,
    keys: RandomState,
    args: &Args,
    outer: &mut Scope,
    names: &[Option<Text>],
    kind: &InstructionKind,
) -> Result<bool, Memory>
    ensures { IfOk result (GoesOn (is_refused_argument (arg_value args.now) outer.old names.now (declared_by kind.now)) (outer_other (arg_value args.now) outer.old names.now (declared_by kind.now)) outer.new) }
{
    if names.is_empty() {
        declare_outer(alloc, keys, args, outer, kind)
    } else {
        Ok(true)
    }
}

/// Takes an instruction into what is known, and answers whether the lines after it can be judged.
fn take_in(
    alloc: Global,
    keys: RandomState,
    args: &Args,
    outer: &mut Scope,
    names: &mut Items<Option<Text>>,
    kind: &InstructionKind,
) -> Result<bool, Memory>
    ensures goes { IfOk result (GoesOn (is_refused_argument (arg_value args.now) outer.old names.old (declared_by kind.now)) (outer_by (arg_value args.now) outer.old names.old (declared_by kind.now) (begun kind.now)) outer.new) }
    ensures names { OnOk result (names.new ≡ names_by names.old (begun kind.now)) }
{
    match begun(kind) {
        Some((_, name)) => {
            push_name(alloc, names, name)?;
            Ok(true)
        }
        None => take_other(alloc, keys, args, outer, names.as_slice(), kind),
    }
}

/// The images that a file names by FROM, `--from` or a mount's `from`, with these build arguments, each with its line: in the order of the
/// file, and each as often as it is named.
///
/// A name is an image's if no stage before has it, and it is neither empty nor `scratch`. A FROM whose text has no value names none. It is
/// no matter whether a line is refused, unless it is an ARG before the first FROM: then it is the last that is looked at, as in
/// [`list_refusals`](crate::list_refusals).
pub fn image_names(
    alloc: Global,
    keys: RandomState,
    file: &Dockerfile,
    args: &Args,
) -> Result<Items<ImageName>, Memory>
    ensures { IfOk result (λ names. names ≡ image_names_of (arg_value args.now) file.now) }
{
    let mut found = Items::new(alloc);
    let mut outer = Scope::new(alloc, keys);
    let mut names = Items::new(alloc);
    let mut known = NamedRows::new(alloc, keys);
    let instructions = file.instructions();
    for instruction in instructions {
        let kind = instruction.kind();
        let images = images_at(alloc, &outer, names.as_slice(), kind)?;
        push_names(alloc, &mut known, &mut found, instruction.line(), images)?;
        let goes_on = take_in(alloc, keys, args, &mut outer, &mut names, kind)?;
        if !goes_on {
            return Ok(found);
        }
    }
    Ok(found)
}
