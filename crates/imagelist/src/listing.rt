// The images that a bundle's Dockerfile names, from the bytes of the bundle to the text that is told.
ghost use Rattle.std.specs.Prelude.{◌≡◌, true, Ok as OkOf, IfOk};
ghost use Rattle.std.specs.FinMap.{get as arg_value};
ghost use Rattle.stages.specs.Naming.{names_in};
ghost use Rattle.stages.specs.Resolved.{resolved, Returns};
ghost use Rattle.stubs.specs.Stubbing.{HoldsBy};
ghost use Rattle.imagelist.specs.PrivateListing.{rejection_fault};
ghost use Rattle.imagelist.specs.Telling.{FileNames, NamesImages, Reports, TableNames, TellsImages};

use crate::collecting::images_of;
use crate::image_rows::ImageRows;
use crate::writing::images_text;
use bundle::{Bundle, read_bundle};
use dockerfile::Dockerfile;
use expand::{Rejection, RejectionFault};
use imageconfig::BoxedConfig;
use lines::LineFault;
use plain::{Bytes, Fault, Memory};
use stages::TargetTable;
use std::alloc::Global;
use std::hash::RandomState;
use std::thread::Threads;
use stubs::stub_for;

/// The images that the Dockerfile of a bundle of these bytes names, as lines of compact JSON with the LF that ends each, in the order in which the
/// images are named first. A line has the image's name, with the values of its variables; the `lines` of the instructions that name it; whether it
/// is `needed`, so whether one of these is in a stage that the target needs; and the platform, which is told as it is given.
///
/// The bundle need not have the images: a stub stands for each that it lacks. All else that is refused before a stage is evaluated is refused here:
/// R20, R19, R01 to R04, R06 to R10 and R16 to R18 of the Dockerfile's text, lines and instructions, and R05, R11 to R13, R18 and R21 of its stages.
/// So R12 comes only for the empty name, for `scratch` in a COPY or a RUN, and for a number that no earlier stage has.
pub fn list_images(
    alloc: Global,
    keys: RandomState,
    rt: &(impl Threads + Sync),
    bytes: &[u8],
    platform: &str,
) -> Result<Bytes, RejectionFault>
    ensures { TellsImages platform.now bytes.now result }
{
    match named_images(alloc, keys, rt, bytes) {
        Ok(images) => {
            let text = images_text(alloc, platform, &images)?;
            Ok(text)
        }
        Err(fault) => Err(fault),
    }
}

/// The images that the Dockerfile of a bundle of these bytes names.
fn named_images(
    alloc: Global,
    keys: RandomState,
    rt: &(impl Threads + Sync),
    bytes: &[u8],
) -> Result<ImageRows, RejectionFault>
    ensures { Reports (NamesImages bytes.now) result }
{
    match read_bundle(alloc, keys, rt, bytes) {
        Ok(bundle) => named_by_bundle(alloc, keys, bundle),
        Err(fault) => Err(rejection_fault(fault)),
    }
}

/// The fault of what is read before any text is expanded.
fn rejection_fault(fault: LineFault) -> RejectionFault
    ensures { result ≡ rejection_fault fault }
{
    match fault {
        Fault::Because(refusal) => Fault::Because(Rejection::of(refusal)),
        Fault::Memory => Fault::Memory,
    }
}

/// The images that a bundle's Dockerfile names, where stubs stand for those that the bundle lacks.
fn named_by_bundle(
    alloc: Global,
    keys: RandomState,
    bundle: Bundle<BoxedConfig>,
) -> Result<ImageRows, RejectionFault>
    ensures { Reports (λ named. HoldsBy true (λ given. FileNames given named) bundle) result }
{
    match stub_for(alloc, keys, bundle, true) {
        Ok(given) => {
            let images = named_by_file(alloc, keys, &given);
            drop(given);
            images
        }
        Err(_) => Err(Fault::Memory),
    }
}

/// The images that a bundle's Dockerfile names.
fn named_by_file(
    alloc: Global,
    keys: RandomState,
    bundle: &Bundle<BoxedConfig>,
) -> Result<ImageRows, RejectionFault>
    ensures { Reports (FileNames bundle.now) result }
{
    match Dockerfile::read(alloc, bundle.dockerfile.as_slice()) {
        Ok(file) => named_by_stages(alloc, keys, bundle, file),
        Err(fault) => Err(rejection_fault(fault)),
    }
}

/// The images that the stages of a bundle's Dockerfile name.
fn named_by_stages(
    alloc: Global,
    keys: RandomState,
    bundle: &Bundle<BoxedConfig>,
    file: Dockerfile,
) -> Result<ImageRows, RejectionFault>
    ensures { Reports (TableNames (resolved (names_in bundle.now.images) (arg_value bundle.now.args) bundle.now.target file)) result }
{
    match table_of(alloc, keys, bundle, file) {
        Ok(table) => {
            let images = named_by_table(alloc, keys, table)?;
            Ok(images)
        }
        Err(fault) => Err(fault),
    }
}

/// What the names in a bundle's Dockerfile lead to.
fn table_of(
    alloc: Global,
    keys: RandomState,
    bundle: &Bundle<BoxedConfig>,
    file: Dockerfile,
) -> Result<TargetTable, RejectionFault>
    ensures { Returns (resolved (names_in bundle.now.images) (arg_value bundle.now.args) bundle.now.target file) result }
{
    TargetTable::resolve(
        alloc,
        keys,
        file,
        &bundle.images,
        &bundle.args,
        bundle.target.as_ref(),
    )
}

/// The images that the stages of a table name.
fn named_by_table(alloc: Global, keys: RandomState, table: TargetTable) -> Result<ImageRows, Memory>
    ensures { IfOk result (λ images. TableNames (OkOf table) (OkOf images)) }
{
    match table.needed(alloc) {
        Ok(needed) => {
            let images = images_of(alloc, keys, needed.as_slice(), table.stages());
            drop(table);
            images
        }
        Err(memory) => {
            drop(table);
            Err(memory)
        }
    }
}
