// The images that the stages of a file name.
ghost use Rattle.std.specs.Prelude.{◌≡◌, [], ◌∷◌, option_map, IfOk, OnOk};
ghost use Rattle.std.specs.List.{filter_map};
ghost use Rattle.plain.specs.Marks.{is_marked};
ghost use Rattle.imagelist.specs.Images.{image_name, images_of, is_among, namings_inside, namings_on, stage_namings};
ghost use Rattle.imagelist.specs.PrivateCollecting.{with_namings};

use crate::image_rows::ImageRows;
use llb::Source;
use plain::{Memory, Text};
use rows::Origin;
use stages::{ResolvedInstruction, ResolvedStage};
use std::alloc::Global;
use std::hash::RandomState;

/// The name of an image, if that is what is named.
fn image_name(origin: &Origin) -> Option<&Text>
    ensures { option_map (λ name. name.now) result ≡ image_name origin.now }
{
    match origin {
        Origin::Source(Source::Image(name)) => Some(name),
        Origin::Source(Source::Scratch | Source::Context) | Origin::Stage(_) => None,
    }
}

/// Whether the image of a name is among what is named.
fn names_image(origins: &[Origin], name: &Text) -> bool
    ensures { result ≡ is_among (filter_map image_name origins.now) name.now }
{
    for origin in origins {
        if let Some(other) = image_name(origin) {
            if name.as_str() == other.as_str() {
                return true;
            }
        }
    }
    false
}

/// Adds the images that the instruction of a line names. It names few, so each is looked for among those before it.
fn add_origins(
    alloc: Global,
    rows: &mut ImageRows,
    line: u32,
    needed: bool,
    origins: &[Origin],
) -> Result<(), Memory>
    ensures { OnOk result (rows.new ≡ with_namings rows.old (namings_on line needed origins.now)) }
{
    for (index, origin) in origins.iter().enumerate() {
        if let Some(name) = image_name(origin) {
            if !names_image(&origins[..index], name) {
                rows.add(alloc, name, line, needed)?;
            }
        }
    }
    Ok(())
}

/// Adds the image that a stage begins with, if it is one.
fn add_base(
    alloc: Global,
    rows: &mut ImageRows,
    line: u32,
    needed: bool,
    base: &Origin,
) -> Result<(), Memory>
    ensures { OnOk result (rows.new ≡ with_namings rows.old (namings_on line needed (base.now ∷ []))) }
{
    match image_name(base) {
        Some(name) => rows.add(alloc, name, line, needed),
        None => Ok(()),
    }
}

/// Adds the images that the instructions of a stage name after its FROM.
fn add_instructions(
    alloc: Global,
    rows: &mut ImageRows,
    needed: bool,
    instructions: &[ResolvedInstruction],
) -> Result<(), Memory>
    ensures { OnOk result (rows.new ≡ with_namings rows.old (namings_inside needed instructions.now)) }
{
    for resolved in instructions {
        let line = resolved.instruction.line();
        add_origins(alloc, rows, line, needed, resolved.origins.as_slice())?;
    }
    Ok(())
}

/// Adds the images that a stage names.
fn add_stage(
    alloc: Global,
    rows: &mut ImageRows,
    needed: bool,
    stage: &ResolvedStage,
) -> Result<(), Memory>
    ensures { OnOk result (rows.new ≡ with_namings rows.old (stage_namings needed stage.now)) }
{
    add_base(alloc, rows, stage.line, needed, &stage.base)?;
    add_instructions(alloc, rows, needed, stage.instructions.as_slice())
}

/// Whether a stage is marked.
fn is_marked(marks: &[bool], stage: usize) -> bool
    ensures { result ≡ is_marked marks.now stage }
{
    match marks.get(stage) {
        Some(is_marked) => *is_marked,
        None => false,
    }
}

/// The images of a file's stages, of which those that are marked are needed. They are found by a hash with these keys.
pub(crate) fn images_of(
    alloc: Global,
    keys: RandomState,
    marks: &[bool],
    stages: &[ResolvedStage],
) -> Result<ImageRows, Memory>
    ensures { IfOk result (λ images. images ≡ images_of marks.now stages.now) }
{
    let mut images = ImageRows::new(alloc, keys);
    for (number, stage) in stages.iter().enumerate() {
        add_stage(alloc, &mut images, is_marked(marks, number), stage)?;
    }
    Ok(images)
}
