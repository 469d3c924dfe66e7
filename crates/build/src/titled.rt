// What a bundle asks for, with what an engine's progress calls its steps.
ghost use Rattle.std.specs.Prelude.{◌≡◌, [], Ok as OkOf, IfOk};
ghost use Rattle.std.specs.List.{All};
ghost use Rattle.std.specs.FinMap.{get as arg_value};
ghost use Rattle.lines.specs.Text.{AreLines};
ghost use Rattle.dockerfile.specs.Dockerfile.{AreSpelled};
ghost use Rattle.stages.specs.Naming.{names_in};
ghost use Rattle.stages.specs.Resolved.{resolved};
ghost use Rattle.stages.specs.Table.{NamesKnown};
ghost use Rattle.titles.specs.Titles.{titles_of as titles_in};
ghost use Rattle.build.specs.Lowerable.{IsLowerable};
ghost use Rattle.build.specs.PrivateAsking.{IsFileAsked, IsTableAsked};
ghost use Rattle.build.specs.Telling.{IsAsked};
ghost use Rattle.build.specs.PrivateTitled.{asked_of};
ghost use Rattle.build.specs.Titled.{asked_in, AreTitlesOf, HasTitlesOf, HasLeftOut, HasDigests};

use crate::asking::{Asked, ask_table, rejection_fault, table_of};
use bundle::{Bundle, read_with_left_out};
use dockerfile::Dockerfile;
use expand::RejectionFault;
use imageconfig::BoxedConfig;
use lines::Line;
use named::NamedRows;
use paths::Path;
use plain::{Fault, Items, Memory, Text};
use stages::{TargetTable, stage_names};
use std::alloc::Global;
use std::hash::RandomState;
use std::thread::Threads;
use titles::titles_of;

/// What a bundle asks for, with what an engine's progress calls its steps, what its ignore file leaves out, and which digests its images have.
#[derive(Drop)]
pub struct Titled {
    pub asked: Asked,
    /// The title of each step of the Dockerfile, by the line of its instruction.
    pub titles: Items<Option<Text>>,
    /// The paths that the ignore file leaves out of the context: of those that are left out the ones that lie below no other, each once, in
    /// their order.
    pub left_out: Items<Path>,
    /// The digests that pin the names of images, by these names.
    pub digests: NamedRows<Text>,
}

/// What the bytes of a bundle ask for, what an engine's progress calls the steps of its Dockerfile, by the lines of their instructions, what
/// its ignore file leaves out of its context, and which digests its images have.
/// The refusals are those of `ask`.
pub fn ask_titled(
    alloc: Global,
    keys: RandomState,
    rt: &(impl Threads + Sync),
    bytes: &[u8],
) -> Result<Titled, RejectionFault>
    ensures asked { IsAsked bytes.now (asked_in result) }
    ensures lowerable { IfOk result (λ titled. IsLowerable titled.asked.evaluated) }
    ensures titles { IfOk result (λ titled. HasTitlesOf bytes.now titled.titles) }
    ensures left_out { IfOk result (λ titled. HasLeftOut bytes.now titled.left_out) }
    ensures digests { IfOk result (λ titled. HasDigests bytes.now titled.digests) }
{
    match read_with_left_out(alloc, keys, rt, bytes) {
        Ok((bundle, left_out)) => titled_bundle(alloc, keys, bundle, left_out),
        Err(fault) => Err(rejection_fault(fault)),
    }
}

/// What a bundle asks for, with the titles of its Dockerfile, what its ignore file leaves out, and its digests.
fn titled_bundle(
    alloc: Global,
    keys: RandomState,
    bundle: Bundle<BoxedConfig>,
    left_out: Items<Path>,
) -> Result<Titled, RejectionFault>
    requires { bundle.caches.holds ≡ [] }
    ensures asked { IsFileAsked bundle (asked_in result) }
    ensures lowerable { IfOk result (λ titled. IsLowerable titled.asked.evaluated) }
    ensures titles { IfOk result (λ titled. AreTitlesOf bundle titled.titles) }
    ensures left_out { IfOk result (λ titled. titled.left_out ≡ left_out) }
    ensures digests { IfOk result (λ titled. titled.digests ≡ bundle.digests) }
{
    let digests = match bundle.digests.copy(alloc) {
        Ok(digests) => digests,
        Err(_) => {
            drop(bundle);
            drop(left_out);
            return Err(Fault::Memory);
        }
    };
    match titled_file(alloc, keys, bundle) {
        Ok((asked, titles)) => Ok(Titled {
            asked,
            titles,
            left_out,
            digests,
        }),
        Err(fault) => {
            drop(left_out);
            drop(digests);
            Err(fault)
        }
    }
}

/// What a bundle asks for, with the titles of its Dockerfile.
fn titled_file(
    alloc: Global,
    keys: RandomState,
    bundle: Bundle<BoxedConfig>,
) -> Result<(Asked, Items<Option<Text>>), RejectionFault>
    requires { bundle.caches.holds ≡ [] }
    ensures asked { IsFileAsked bundle (asked_of result) }
    ensures lowerable { IfOk result (λ titled. IsLowerable titled.0.evaluated) }
    ensures titles { IfOk result (λ titled. AreTitlesOf bundle titled.1) }
{
    match Dockerfile::read_with_lines(alloc, bundle.dockerfile.as_slice()) {
        Ok((file, lines)) => {
            let titled = titled_stages(alloc, keys, bundle, file, lines.as_slice());
            drop(lines);
            titled
        }
        Err(fault) => {
            drop(bundle);
            Err(rejection_fault(fault))
        }
    }
}

/// What the stages of a bundle's Dockerfile ask for, with their titles.
fn titled_stages(
    alloc: Global,
    keys: RandomState,
    bundle: Bundle<BoxedConfig>,
    file: Dockerfile,
    lines: &[Line],
) -> Result<(Asked, Items<Option<Text>>), RejectionFault>
    requires idle { bundle.caches.holds ≡ [] }
    requires are { AreLines bundle.dockerfile lines.now }
    requires spelled { AreSpelled lines.now file }
    ensures asked { IsTableAsked bundle (resolved (names_in bundle.images) (arg_value bundle.args) bundle.target file) (asked_of result) }
    ensures lowerable { IfOk result (λ titled. IsLowerable titled.0.evaluated) }
    ensures titles { IfOk result (λ titled. AreTitlesOf bundle titled.1) }
{
    let names = match stage_names(alloc, &file) {
        Ok(names) => names,
        Err(_) => {
            drop(bundle);
            drop(file);
            return Err(Fault::Memory);
        }
    };
    match table_of(alloc, keys, &bundle, file) {
        Ok(table) => {
            let titled = titled_table(alloc, keys, bundle, table, lines, names.as_slice());
            drop(names);
            titled
        }
        Err(fault) => {
            drop(bundle);
            drop(names);
            Err(fault)
        }
    }
}

/// What the stages in a table ask for, with the titles of these lines, the stages having these names.
fn titled_table(
    alloc: Global,
    keys: RandomState,
    bundle: Bundle<BoxedConfig>,
    table: TargetTable,
    lines: &[Line],
    names: &[Option<Text>],
) -> Result<(Asked, Items<Option<Text>>), RejectionFault>
    requires idle { bundle.caches.holds ≡ [] }
    requires known { All (NamesKnown (names_in bundle.images)) table.stages }
    ensures asked { IsTableAsked bundle (OkOf table) (asked_of result) }
    ensures lowerable { IfOk result (λ titled. IsLowerable titled.0.evaluated) }
    ensures titles { IfOk result (λ titled. titled.1 ≡ titles_in lines.now names.now table.stages) }
{
    let titles = match titles_of(alloc, lines, names, table.stages()) {
        Ok(titles) => titles,
        Err(Memory) => {
            drop(bundle);
            drop(table);
            return Err(Fault::Memory);
        }
    };
    match ask_table(alloc, keys, bundle, table) {
        Ok(asked) => Ok((asked, titles)),
        Err(fault) => {
            drop(titles);
            Err(fault)
        }
    }
}
