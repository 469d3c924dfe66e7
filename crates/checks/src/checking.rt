ghost use Rattle.std.specs.Prelude.{◌≡◌, [], ◌∷◌, map, None, Err, IfOk, unwrap_or};
ghost use Rattle.std.specs.FinMap.{get as arg_value};
ghost use Rattle.expand.specs.Reasons.{rejection_of};
ghost use Rattle.stages.specs.Faults.{stage_refusals};
ghost use Rattle.stages.specs.Naming.{names_in};
ghost use Rattle.plain.specs.declared.fault.Fault.TheVariants.{Because};
ghost use Rattle.imageconfig.specs.Reading.{config_in};
ghost use Rattle.evaluation.specs.Faults.{AreTableFaults};
ghost use Rattle.bundle.specs.IgnoreFile.{ignore_bytes_of};
ghost use Rattle.bundle.specs.Reading.{ReadsBundle};
ghost use Rattle.flaws.specs.Flaws.{flaw_in};
ghost use Rattle.checks.specs.Checks.{AreStageFaults, AreFileFaults, AreFaultsOf};
ghost use Rattle.checks.specs.Checked.{faulty_text, asked_target};

use bundle::{Bundle, read_bundle, read_ignore_bytes};
use dockerfile::Dockerfile;
use evaluation::list_faults;
use expand::Rejection;
use flaws::{Flaw, find};
use imageconfig::{BoxedConfig, Config};
use plain::{Bytes, Exact, Fault, Items, Memory, Refusal, Text};
use stages::{TargetTable, list_refusals};
use std::alloc::Global;
use std::hash::RandomState;
use std::thread::Threads;

/// The faults of a bundle, and the text that they are in.
#[derive(Drop)]
pub struct Findings {
    /// The faults, in the order of their lines.
    pub faults: Items<Rejection>,
    /// The bytes of the file whose lines they count: those of the ignore file if a line of it is bad, and else of the Dockerfile. There are
    /// none if there is no bundle.
    pub text: Bytes,
    /// The target that the bundle asks for. There is none if its Dockerfile isn't looked at.
    pub target: Option<Text>,
    /// Where the bytes are wrong if they are no bundle.
    pub flaw: Option<Flaw>,
}

/// All faults of the bytes of a bundle, of the first phase that has one, in the order of their lines (own).
///
/// There is one if the bytes are no bundle (R20), and if the ignore file has a bad line (R19). The faults of the Dockerfile's text are those of
/// `Dockerfile::check`, those of its stages are those of `list_refusals`, and those of the evaluation of the stages that the target needs are
/// those of `evaluation::list_faults`. An accepted bundle has none.
pub fn check_bundle(
    alloc: Global,
    keys: RandomState,
    rt: &(impl Threads + Sync),
    bytes: &[u8],
) -> Result<Findings, Memory>
    ensures faults { IfOk result (λ found. AreFaultsOf bytes.now found.faults) }
    ensures text { IfOk result (λ found. found.text ≡ faulty_text bytes.now) }
    ensures target { IfOk result (λ found. found.target ≡ asked_target bytes.now) }
    ensures flaw { IfOk result (λ found. found.flaw ≡ flaw_in config_in bytes.now) }
{
    flaws::laws::a_bundle_has_no_flaw::<Config>();
    match read_bundle(alloc, keys, rt, bytes) {
        Ok(bundle) => check_whole(alloc, keys, bundle),
        Err(Fault::Because(refusal)) => refused(alloc, keys, rt, bytes, refusal),
        Err(Fault::Memory) => Err(Memory),
    }
}

/// The fault of bytes that are refused before their Dockerfile is read.
fn refused(
    alloc: Global,
    keys: RandomState,
    rt: &(impl Threads + Sync),
    bytes: &[u8],
    refusal: Refusal,
) -> Result<Findings, Memory>
    requires { ReadsBundle config_in bytes.now (Err (Because refusal)) }
    ensures faults { IfOk result (λ found. found.faults ≡ rejection_of refusal ∷ []) }
    ensures text { IfOk result (λ found. found.text ≡ faulty_text bytes.now) }
    ensures target { IfOk result (λ found. found.target ≡ asked_target bytes.now) }
    ensures flaw { IfOk result (λ found. found.flaw ≡ flaw_in config_in bytes.now) }
{
    let text = ignore_file_or_none(alloc, keys, rt, bytes)?;
    let flaw = find::<Config>(alloc, keys, bytes)?;
    let faults = alone(alloc, Rejection::of(refusal))?;
    Ok(Findings {
        faults,
        text,
        target: None,
        flaw,
    })
}

/// The bytes of a bundle's ignore file; there are none if there is no bundle.
fn ignore_file_or_none(
    alloc: Global,
    keys: RandomState,
    rt: &(impl Threads + Sync),
    bytes: &[u8],
) -> Result<Bytes, Memory>
    ensures { IfOk result (λ text. text ≡ unwrap_or (ignore_bytes_of config_in bytes.now) []) }
{
    match read_ignore_bytes::<Config>(alloc, keys, rt, bytes) {
        Ok(text) => Ok(text),
        Err(Fault::Because(_)) => Ok(Bytes::from_vec(Vec::new(alloc))),
        Err(Fault::Memory) => Err(Memory),
    }
}

/// The text of a bundle's Dockerfile, and its target.
fn asked(alloc: Global, bundle: &Bundle<BoxedConfig>) -> Result<(Bytes, Option<Text>), Memory>
    ensures text { IfOk result (λ it. it.0 ≡ bundle.now.dockerfile) }
    ensures target { IfOk result (λ it. it.1 ≡ bundle.now.target) }
{
    let text = Bytes::from_slice(alloc, bundle.dockerfile.as_slice())?;
    let target = bundle.target.copy(alloc)?;
    Ok((text, target))
}

/// The faults of a bundle's Dockerfile, its text and the bundle's target.
fn check_whole(
    alloc: Global,
    keys: RandomState,
    bundle: Bundle<BoxedConfig>,
) -> Result<Findings, Memory>
    ensures faults { IfOk result (λ found. AreFileFaults bundle.images (arg_value bundle.args) bundle.target bundle.dockerfile found.faults) }
    ensures text { IfOk result (λ found. found.text ≡ bundle.dockerfile) }
    ensures target { IfOk result (λ found. found.target ≡ bundle.target) }
    ensures flaw { IfOk result (λ found. found.flaw ≡ None) }
{
    match asked(alloc, &bundle) {
        Ok((text, target)) => {
            let faults = check_file(alloc, keys, bundle)?;
            Ok(Findings {
                faults,
                text,
                target,
                flaw: None,
            })
        }
        Err(memory) => {
            drop(bundle);
            Err(memory)
        }
    }
}

/// A list of one fault.
fn alone(alloc: Global, refusal: Rejection) -> Result<Items<Rejection>, Memory>
    ensures { IfOk result (λ faults. faults ≡ refusal ∷ []) }
{
    let mut faults = Items::new(alloc);
    faults.push(refusal)?;
    Ok(faults)
}

/// Refusals of lines of which no text is expanded.
fn rejections(alloc: Global, refusals: &[Refusal]) -> Result<Items<Rejection>, Memory>
    ensures { IfOk result (λ faults. faults ≡ map rejection_of refusals.now) }
{
    let mut faults = Items::new(alloc);
    for refusal in refusals {
        faults.push(Rejection::of(*refusal))?;
    }
    Ok(faults)
}

/// The faults of a bundle's Dockerfile.
fn check_file(
    alloc: Global,
    keys: RandomState,
    bundle: Bundle<BoxedConfig>,
) -> Result<Items<Rejection>, Memory>
    ensures { IfOk result (λ faults. AreFileFaults bundle.images (arg_value bundle.args) bundle.target bundle.dockerfile faults) }
{
    match Dockerfile::check(alloc, bundle.dockerfile.as_slice()) {
        Ok(file) => check_stages(alloc, keys, bundle, file),
        Err(Fault::Because(refusals)) => {
            drop(bundle);
            rejections(alloc, refusals.as_slice())
        }
        Err(Fault::Memory) => {
            drop(bundle);
            Err(Memory)
        }
    }
}

/// The faults of the stages of a bundle's Dockerfile.
fn check_stages(
    alloc: Global,
    keys: RandomState,
    bundle: Bundle<BoxedConfig>,
    file: Dockerfile,
) -> Result<Items<Rejection>, Memory>
    ensures { IfOk result (λ faults. AreStageFaults bundle.images (arg_value bundle.args) bundle.target file faults) }
{
    match list_refusals(
        alloc,
        keys,
        &file,
        &bundle.images,
        &bundle.args,
        bundle.target.as_ref(),
    ) {
        Ok(faults) => check_names(alloc, keys, bundle, file, faults),
        Err(Memory) => {
            drop(bundle);
            drop(file);
            Err(Memory)
        }
    }
}

/// The faults of the stages of a file with these refusals of its names.
fn check_names(
    alloc: Global,
    keys: RandomState,
    bundle: Bundle<BoxedConfig>,
    file: Dockerfile,
    faults: Items<Rejection>,
) -> Result<Items<Rejection>, Memory>
    requires { faults ≡ stage_refusals (names_in bundle.images) (arg_value bundle.args) bundle.target file }
    ensures { IfOk result (λ found. AreStageFaults bundle.images (arg_value bundle.args) bundle.target file found) }
{
    if faults.is_empty() {
        drop(faults);
        check_named(alloc, keys, bundle, file)
    } else {
        drop(bundle);
        drop(file);
        Ok(faults)
    }
}

/// The faults of stages whose names all lead somewhere.
fn check_named(
    alloc: Global,
    keys: RandomState,
    bundle: Bundle<BoxedConfig>,
    file: Dockerfile,
) -> Result<Items<Rejection>, Memory>
    requires { stage_refusals (names_in bundle.images) (arg_value bundle.args) bundle.target file ≡ [] }
    ensures { IfOk result (λ faults. AreStageFaults bundle.images (arg_value bundle.args) bundle.target file faults) }
{
    stages::laws::the_first_fault_is_the_refusal();
    match TargetTable::resolve(
        alloc,
        keys,
        file,
        &bundle.images,
        &bundle.args,
        bundle.target.as_ref(),
    ) {
        Ok(table) => check_table(alloc, keys, bundle, table),
        Err(Fault::Because(_)) => unreachable!(),
        Err(Fault::Memory) => {
            drop(bundle);
            Err(Memory)
        }
    }
}

/// The faults that the evaluation of the needed stages finds.
fn check_table(
    alloc: Global,
    keys: RandomState,
    bundle: Bundle<BoxedConfig>,
    table: TargetTable,
) -> Result<Items<Rejection>, Memory>
    ensures { IfOk result (λ faults. AreTableFaults bundle.images (arg_value bundle.args) table faults) }
{
    let faults = list_faults(alloc, keys, table, &bundle.images, &bundle.args);
    drop(bundle);
    faults
}
