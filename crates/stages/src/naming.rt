// What names lead to.
ghost use Rattle.std.specs.Prelude.{◌≡◌, ◌<◌, ◌^◌, [], ◌∷◌, length, IfOk};
ghost use Rattle.std.specs.List.{filter_map};
ghost use Rattle.llb.specs.WellFormed.{is_well_formed_source};
ghost use Rattle.llb.specs.declared.op.Source.TheVariants as source;
ghost use Rattle.stages.specs.Naming.{is_called, stage_called, stage_numbered, stage_found, image_named, stage_or_image, base_named};
ghost use Rattle.stages.specs.Naming.{names_in, copy_reference, bind_reference, mount_reference, references, led_to, origins_of};
ghost use Rattle.instructions.specs.Least.{Meets};
ghost use Rattle.stages.specs.Due.{inner_due};
ghost use Rattle.stages.specs.PrivateResolving.{all_led};

use ascii::{are_digits, parse_number};
use instructions::{InstructionKind, Mount, MountKind};
use llb::Source;
use plain::{Code, Exact, Fault, Items, Memory, Text};
use plans::Images;
use rows::Origin;
use std::alloc::Global;
use words::TextFault;

/// Whether a stage has this name, whatever the case of letters.
pub(crate) fn is_called(text: &Text, name: &Option<Text>) -> bool
    ensures { result ≡ is_called text.now name.now }
{
    match name {
        None => false,
        Some(name) => name.as_str().eq_ignore_ascii_case(text.as_str()),
    }
}

/// The number of the first stage of this name.
pub(crate) fn stage_called(names: &[Option<Text>], text: &Text) -> Option<u32>
    requires { length names.now < 2 ^ 32 }
    ensures { result ≡ stage_called names.now text.now }
{
    for (number, name) in names.iter().enumerate() {
        if is_called(text, name) {
            return Some(number as u32);
        }
    }
    None
}

/// The number that a text of digits writes, where it is that of one of the stages.
fn stage_numbered(names: &[Option<Text>], text: &Text) -> Option<u32>
    requires { length names.now < 2 ^ 32 }
    ensures { result ≡ stage_numbered names.now text.now }
{
    match parse_number(text.as_str()) {
        Some(number) => {
            if (number as usize) < names.len() {
                Some(number)
            } else {
                None
            }
        }
        None => None,
    }
}

/// The number of the stage that a text names, by its number in decimal digits, else by its name.
pub(crate) fn stage_found(names: &[Option<Text>], text: &Text) -> Option<u32>
    requires { length names.now < 2 ^ 32 }
    ensures { result ≡ stage_found names.now text.now }
{
    if are_digits(text.as_str().as_bytes()) {
        stage_numbered(names, text)
    } else {
        stage_called(names, text)
    }
}

/// Whether a text may be the name of an image.
pub(crate) fn is_image_name(text: &Text) -> bool
    ensures { result ≡ is_well_formed_source (source.Image text.now) }
{
    text.len() != 0 && text.as_str() != "scratch"
}

/// The image of exactly this name.
fn image_named<C>(alloc: Global, images: &Images<C>, text: &Text) -> Result<Option<Origin>, Memory>
    ensures { IfOk result (λ found. found ≡ image_named (names_in images.now) text.now) }
{
    if images.find(text.as_str()).is_some() && is_image_name(text) {
        let name = text.copy(alloc)?;
        Ok(Some(Origin::Source(Source::Image(name))))
    } else {
        Ok(None)
    }
}

/// The stage that a text names, else the image.
fn stage_or_image<C>(
    alloc: Global,
    images: &Images<C>,
    names: &[Option<Text>],
    text: &Text,
) -> Result<Option<Origin>, Memory>
    requires { length names.now < 2 ^ 32 }
    ensures { IfOk result (λ found. found ≡ stage_or_image (names_in images.now) names.now text.now) }
{
    match stage_called(names, text) {
        Some(number) => Ok(Some(Origin::Stage(number))),
        None => image_named(alloc, images, text),
    }
}

/// What the text of a FROM leads to.
pub(crate) fn base_named<C>(
    alloc: Global,
    images: &Images<C>,
    names: &[Option<Text>],
    text: &Text,
) -> Result<Option<Origin>, Memory>
    requires { length names.now < 2 ^ 32 }
    ensures { IfOk result (λ found. found ≡ base_named (names_in images.now) names.now text.now) }
{
    if let Some(number) = stage_called(names, text) {
        return Ok(Some(Origin::Stage(number)));
    }
    if text.as_str() == "scratch" {
        return Ok(Some(Origin::Source(Source::Scratch)));
    }
    image_named(alloc, images, text)
}

/// What a COPY's `--from` leads to, after stages of these names.
fn flag_origin<C>(
    alloc: Global,
    images: &Images<C>,
    names: &[Option<Text>],
    from: &Option<Text>,
) -> Result<Option<Origin>, Memory>
    requires { length names.now < 2 ^ 32 }
    ensures { IfOk result (λ found. found ≡ led_to (names_in images.now) names.now (copy_reference from.now)) }
{
    let Some(text) = from else {
        return Ok(Some(Origin::Source(Source::Context)));
    };
    if are_digits(text.as_str().as_bytes()) {
        return match stage_numbered(names, text) {
            Some(number) => Ok(Some(Origin::Stage(number))),
            None => Ok(None),
        };
    }
    stage_or_image(alloc, images, names, text)
}

/// What a bind's `from` leads to, after stages of these names.
fn bind_origin<C>(
    alloc: Global,
    images: &Images<C>,
    names: &[Option<Text>],
    from: &Option<Text>,
) -> Result<Option<Origin>, Memory>
    requires { length names.now < 2 ^ 32 }
    ensures { IfOk result (λ found. found ≡ led_to (names_in images.now) names.now (bind_reference from.now)) }
{
    match from {
        None => Ok(Some(Origin::Source(Source::Context))),
        Some(text) => stage_or_image(alloc, images, names, text),
    }
}

/// What a COPY names, where it leads somewhere.
fn copy_origins<C>(
    alloc: Global,
    images: &Images<C>,
    names: &[Option<Text>],
    from: &Option<Text>,
) -> Result<Option<Items<Origin>>, Memory>
    requires { length names.now < 2 ^ 32 }
    ensures { IfOk result (λ found. found ≡ all_led (names_in images.now) names.now (copy_reference from.now ∷ [])) }
{
    let Some(origin) = flag_origin(alloc, images, names, from)? else {
        return Ok(None);
    };
    let mut origins = Items::new(alloc);
    origins.push(origin)?;
    Ok(Some(origins))
}

/// What a RUN's binds name, where all of them lead somewhere.
fn run_origins<C>(
    alloc: Global,
    images: &Images<C>,
    names: &[Option<Text>],
    mounts: &[Mount],
) -> Result<Option<Items<Origin>>, Memory>
    requires { length names.now < 2 ^ 32 }
    ensures { IfOk result (λ found. found ≡ all_led (names_in images.now) names.now (filter_map (λ m. mount_reference m.kind) mounts.now)) }
{
    let mut origins = Items::new(alloc);
    for mount in mounts {
        if let MountKind::Bind { from, .. } = &mount.kind {
            match bind_origin(alloc, images, names, from)? {
                Some(origin) => origins.push(origin)?,
                None => return Ok(None),
            }
        }
    }
    Ok(Some(origins))
}

/// What an instruction names beside its stage, where all of that leads somewhere, after stages of these names.
fn origins<C>(
    alloc: Global,
    images: &Images<C>,
    names: &[Option<Text>],
    kind: &InstructionKind,
) -> Result<Option<Items<Origin>>, Memory>
    requires { length names.now < 2 ^ 32 }
    ensures { IfOk result (λ found. found ≡ all_led (names_in images.now) names.now (references kind.now)) }
{
    match kind {
        InstructionKind::Copy { flags, .. } => copy_origins(alloc, images, names, &flags.from),
        InstructionKind::Run { mounts, .. } => run_origins(alloc, images, names, mounts.as_slice()),
        InstructionKind::From { .. }
        | InstructionKind::Arg { .. }
        | InstructionKind::Env { .. }
        | InstructionKind::Label { .. }
        | InstructionKind::Expose { .. }
        | InstructionKind::User { .. }
        | InstructionKind::Workdir { .. }
        | InstructionKind::StopSignal { .. }
        | InstructionKind::Volume { .. }
        | InstructionKind::Shell { .. }
        | InstructionKind::Cmd { .. }
        | InstructionKind::Entrypoint { .. } => Ok(Some(Items::new(alloc))),
    }
}

/// What an instruction names beside its stage, after stages of these names; R12 where one of its names leads nowhere.
pub(crate) fn origins_of<C>(
    alloc: Global,
    images: &Images<C>,
    names: &[Option<Text>],
    kind: &InstructionKind,
) -> Result<Items<Origin>, TextFault>
    requires { length names.now < 2 ^ 32 }
    ensures { Meets (Some (origins_of (names_in images.now) names.now kind.now)) (inner_due (names_in images.now) names.now kind.now) result }
{
    match origins(alloc, images, names, kind)? {
        Some(origins) => Ok(origins),
        None => Err(Fault::Because(Code::R12)),
    }
}
