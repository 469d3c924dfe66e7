ghost use Rattle.std.specs.Prelude.{◌≡◌, [], Ok as OkOf, IfOk};
ghost use Rattle.std.specs.List.{All};
ghost use Rattle.std.specs.FinMap.{get as arg_value};
ghost use Rattle.stages.specs.Naming.{names_in};
ghost use Rattle.stages.specs.Resolved.{resolved, Returns};
ghost use Rattle.stages.specs.Table.{NamesKnown};
ghost use Rattle.build.specs.Lowerable.{IsLowerable};
ghost use Rattle.build.specs.PrivateAsking.{rejection_fault, IsFileAsked, IsTableAsked};
ghost use Rattle.build.specs.Telling.{IsAsked, HasStoreOf};

use bundle::{Bundle, read_bundle};
use cachemounts::CacheStore;
use dockerfile::Dockerfile;
use evaluation::{Evaluated, evaluate};
use expand::{Rejection, RejectionFault};
use imageconfig::BoxedConfig;
use lines::LineFault;
use plain::Fault;
use stages::TargetTable;
use std::alloc::Global;
use std::hash::RandomState;
use std::thread::Threads;

/// What a bundle asks for.
#[derive(Drop)]
pub struct Asked {
    /// The needed stages of its Dockerfile, evaluated.
    pub evaluated: Evaluated,
    /// What the caches hold before the build.
    pub caches: CacheStore,
}

/// What the bytes of a bundle ask for.
///
/// A refusal is reported exactly if they are refused: the least by phase, line and number, the phases being the bundle (R20), its ignore file
/// (R19), the Dockerfile's text (R01, R18), its lines (R02, R03, R08, R18), its instructions (R04, R06 to R10, R16 to R18), its stages (R05, R11 to R13,
/// R18, R21), and the evaluation of those that the target needs (R06, R10, R14 to R18, R21). `Memory` says nothing of them.
pub fn ask(
    alloc: Global,
    keys: RandomState,
    rt: &(impl Threads + Sync),
    bytes: &[u8],
) -> Result<Asked, RejectionFault>
    ensures asked { IsAsked bytes.now result }
    ensures lowerable { IfOk result (λ asked. IsLowerable asked.evaluated) }
    ensures caches { IfOk result (λ asked. asked.caches.holds ≡ []) }
    ensures store { IfOk result (λ asked. HasStoreOf bytes.now asked.caches) }
{
    match read_bundle(alloc, keys, rt, bytes) {
        Ok(bundle) => ask_file(alloc, keys, bundle),
        Err(fault) => Err(rejection_fault(fault)),
    }
}

/// The same of bytes that end here.
pub(crate) fn ask_once(
    alloc: Global,
    keys: RandomState,
    rt: &(impl Threads + Sync),
    bytes: Vec<u8>,
) -> Result<Asked, RejectionFault>
    ensures asked { IsAsked bytes.items result }
    ensures lowerable { IfOk result (λ asked. IsLowerable asked.evaluated) }
    ensures caches { IfOk result (λ asked. asked.caches.holds ≡ []) }
{
    let asked = ask(alloc, keys, rt, bytes.as_slice());
    drop(bytes);
    asked
}

/// The fault of what is read before any text is expanded.
pub(crate) fn rejection_fault(fault: LineFault) -> RejectionFault
    ensures { result ≡ rejection_fault fault }
{
    match fault {
        Fault::Because(refusal) => Fault::Because(Rejection::of(refusal)),
        Fault::Memory => Fault::Memory,
    }
}

/// What a bundle asks for.
fn ask_file(
    alloc: Global,
    keys: RandomState,
    bundle: Bundle<BoxedConfig>,
) -> Result<Asked, RejectionFault>
    requires { bundle.caches.holds ≡ [] }
    ensures asked { IsFileAsked bundle result }
    ensures lowerable { IfOk result (λ asked. IsLowerable asked.evaluated) }
    ensures store { IfOk result (λ asked. asked.caches ≡ bundle.caches) }
    ensures caches { IfOk result (λ asked. asked.caches.holds ≡ []) }
{
    match Dockerfile::read(alloc, bundle.dockerfile.as_slice()) {
        Ok(file) => ask_stages(alloc, keys, bundle, file),
        Err(fault) => {
            drop(bundle);
            Err(rejection_fault(fault))
        }
    }
}

/// What the stages of a bundle's Dockerfile ask for.
fn ask_stages(
    alloc: Global,
    keys: RandomState,
    bundle: Bundle<BoxedConfig>,
    file: Dockerfile,
) -> Result<Asked, RejectionFault>
    requires { bundle.caches.holds ≡ [] }
    ensures asked { IsTableAsked bundle (resolved (names_in bundle.images) (arg_value bundle.args) bundle.target file) result }
    ensures lowerable { IfOk result (λ asked. IsLowerable asked.evaluated) }
    ensures store { IfOk result (λ asked. asked.caches ≡ bundle.caches) }
    ensures caches { IfOk result (λ asked. asked.caches.holds ≡ []) }
{
    match table_of(alloc, keys, &bundle, file) {
        Ok(table) => ask_table(alloc, keys, bundle, table),
        Err(fault) => {
            drop(bundle);
            Err(fault)
        }
    }
}

/// What the names in a bundle's Dockerfile lead to.
pub(crate) fn table_of(
    alloc: Global,
    keys: RandomState,
    bundle: &Bundle<BoxedConfig>,
    file: Dockerfile,
) -> Result<TargetTable, RejectionFault>
    ensures table { Returns (resolved (names_in bundle.now.images) (arg_value bundle.now.args) bundle.now.target file) result }
    ensures known { IfOk result (λ table. All (NamesKnown (names_in bundle.now.images)) table.stages) }
{
    TargetTable::resolve(
        alloc,
        keys,
        file,
        &bundle.images,
        &bundle.args,
        bundle.target.as_ref(),
    )
}

/// What the stages in a table ask for.
pub(crate) fn ask_table(
    alloc: Global,
    keys: RandomState,
    bundle: Bundle<BoxedConfig>,
    table: TargetTable,
) -> Result<Asked, RejectionFault>
    requires idle { bundle.caches.holds ≡ [] }
    requires known { All (NamesKnown (names_in bundle.images)) table.stages }
    ensures asked { IsTableAsked bundle (OkOf table) result }
    ensures lowerable { IfOk result (λ asked. IsLowerable asked.evaluated) }
    ensures store { IfOk result (λ asked. asked.caches ≡ bundle.caches) }
    ensures caches { IfOk result (λ asked. asked.caches.holds ≡ []) }
{
    let Bundle {
        dockerfile,
        context,
        images,
        digests,
        args,
        caches,
        target,
    } = bundle;
    drop(dockerfile);
    drop(digests);
    drop(target);
    let evaluated = evaluate(alloc, keys, table, images, context, &args);
    drop(args);
    match evaluated {
        Ok(evaluated) => Ok(Asked { evaluated, caches }),
        Err(fault) => {
            drop(caches);
            Err(fault)
        }
    }
}
