ghost use Rattle.std.specs.Prelude.{◌≡◌, ◌<◌, ◌≤◌, [], IfOk, Ok as OkOf};
ghost use Rattle.plain.specs.Limits.{most_workers};
ghost use Rattle.checks.specs.Checked.{IsCheckOf};
ghost use Rattle.checks.specs.Shown.{readable_lines};
ghost use Rattle.checks.specs.declared.form.Form.TheVariants.{Plain};
ghost use Rattle.build.specs.Lowerable.{IsLowerable};
ghost use Rattle.build.specs.Meaning.{Asks};
ghost use Rattle.answering.specs.declared.status.Status.TheVariants.{Built, Failed, Refused};
ghost use Rattle.checks.specs.declared.checked.Checked.{Checked};
ghost use Rattle.explains.specs.Explained.{Explains, IsLeftOutBy, ShowsFailure, ShowsMissed, shown_missed};
ghost use Rattle.explains.specs.PrivateFailure.{IsAccepted, IsDockerfileOf, IsMissedOf};

use crate::failing::failure_of;
use build::{Asked, Status, ask};
use bundle::read_bundle;
use checks::{Checked, Form, check, shown_failure, shown_left_out, shown_missing};
use executor::Executor;
use imageconfig::Config;
use lacking::{Missed, missed_source};
use plain::{Bytes, Fault, Memory, Text};
use reasons::{LeavingLine, leaving_line};
use std::alloc::Global;
use std::hash::RandomState;
use std::sync::Wait;
use std::thread::Threads;
use trees::Cause;

/// What a person is told of a build.
#[derive(Drop)]
pub struct Explained {
    /// What its answer says.
    pub status: Status,
    /// The instruction that fails, with its cause, or all faults. It is empty if the build gives a tree, and holds no control characters but LF and
    /// tabs.
    pub text: Text,
}

/// What a person is told of the build of the bundle of these bytes, whose Dockerfile is the file of this name.
///
/// The bundle is built by this many workers, 1 to 64, as `run_build` builds it, and its answer isn't written. `Memory` says nothing of it. Nothing says
/// that it returns, since it may wait.
pub fn explain<E: Executor>(
    alloc: Global,
    keys: RandomState,
    rt: &(impl Threads + Wait + Sync),
    file: &str,
    bytes: &[u8],
    executor: &E,
    workers: u32,
) -> Result<Explained, Memory>
    requires { (0 < workers) × (workers ≤ most_workers) }
    ensures { IfOk result (λ explained. Explains file.now (E.out executor.now) bytes.now explained.status explained.text) }
{
    match ask(alloc, keys, rt, bytes) {
        Ok(asked) => explain_asked(alloc, keys, rt, file, bytes, asked, executor, workers),
        Err(Fault::Because(refusal)) => {
            drop(refusal);
            explain_faults(alloc, keys, rt, file, bytes)
        }
        Err(Fault::Memory) => Err(Memory),
    }
}

/// What a person is told of the build of a bundle that isn't refused.
fn explain_asked<E: Executor>(
    alloc: Global,
    keys: RandomState,
    rt: &(impl Threads + Wait + Sync),
    file: &str,
    bytes: &[u8],
    asked: Asked,
    executor: &E,
    workers: u32,
) -> Result<Explained, Memory>
    requires workers { (0 < workers) × (workers ≤ most_workers) }
    requires asks { Asks bytes.now (OkOf asked.evaluated) }
    requires lowerable { IsLowerable asked.evaluated }
    requires idle { asked.caches.holds ≡ [] }
    ensures { IfOk result (λ explained. Explains file.now (E.out executor.now) bytes.now explained.status explained.text) }
{
    match failure_of(alloc, rt, asked, executor, workers) {
        Ok(Some((line, cause))) => explain_failure(alloc, keys, rt, file, bytes, line, cause),
        Ok(None) => Ok(explain_nothing(alloc)),
        Err(memory) => Err(memory),
    }
}

/// What a person is told of a build that gives a tree.
fn explain_nothing(alloc: Global) -> Explained
    ensures status { result.status ≡ Built }
    ensures text { result.text ≡ [] }
{
    Explained {
        status: Status::Built,
        text: Text::from_string(String::new(alloc)),
    }
}

/// What a person is told of a build that fails.
fn explain_failure(
    alloc: Global,
    keys: RandomState,
    rt: &(impl Threads + Sync),
    file: &str,
    bytes: &[u8],
    line: u32,
    cause: Cause,
) -> Result<Explained, Memory>
    requires { IsAccepted bytes.now }
    ensures status { IfOk result (λ explained. explained.status ≡ Failed) }
    ensures text { IfOk result (λ explained. ShowsFailure file.now bytes.now line cause explained.text) }
{
    let text = show_failure(alloc, keys, rt, file, bytes, line, cause)?;
    Ok(Explained {
        status: Status::Failed,
        text,
    })
}

/// What is shown of an instruction of a bundle that isn't refused. The bundle is read again, for its Dockerfile and for what the instruction names.
fn show_failure(
    alloc: Global,
    keys: RandomState,
    rt: &(impl Threads + Sync),
    file: &str,
    bytes: &[u8],
    line: u32,
    cause: Cause,
) -> Result<Text, Memory>
    requires { IsAccepted bytes.now }
    ensures { IfOk result (ShowsFailure file.now bytes.now line cause) }
{
    let dockerfile = dockerfile_of(alloc, keys, rt, bytes)?;
    let missed = missed_of(alloc, keys, rt, bytes, line, cause)?;
    show_missed(
        alloc,
        keys,
        rt,
        file,
        bytes,
        dockerfile.as_slice(),
        line,
        cause,
        missed,
    )
}

/// The Dockerfile of a bundle that isn't refused.
fn dockerfile_of(
    alloc: Global,
    keys: RandomState,
    rt: &(impl Threads + Sync),
    bytes: &[u8],
) -> Result<Bytes, Memory>
    requires { IsAccepted bytes.now }
    ensures { IfOk result (IsDockerfileOf bytes.now) }
{
    match read_bundle::<Config>(alloc, keys, rt, bytes) {
        Ok(bundle) => {
            let text = Bytes::from_slice(alloc, bundle.dockerfile.as_slice());
            drop(bundle);
            text
        }
        Err(Fault::Because(_)) => {
            build::laws::a_bundle_asks_for_one_thing();
            unreachable!()
        }
        Err(Fault::Memory) => Err(Memory),
    }
}

/// The source that an instruction of a bundle that isn't refused misses, if that is known.
fn missed_of(
    alloc: Global,
    keys: RandomState,
    rt: &(impl Threads + Sync),
    bytes: &[u8],
    line: u32,
    cause: Cause,
) -> Result<Option<Missed>, Memory>
    requires { IsAccepted bytes.now }
    ensures { IfOk result (IsMissedOf bytes.now line cause) }
{
    match ask(alloc, keys, rt, bytes) {
        Ok(asked) => {
            let made = &asked.evaluated;
            let found = missed_source(alloc, &made.sources, made.rows.as_slice(), line, cause);
            drop(asked);
            found
        }
        Err(Fault::Because(_)) => {
            build::laws::a_bundle_asks_for_one_thing();
            unreachable!()
        }
        Err(Fault::Memory) => Err(Memory),
    }
}

/// The line of the ignore file that leaves a source out, if it is a path of the context and one does.
#[tactic(auto, using(crate::proofs::FailureFacts::left_known, crate::proofs::FailureFacts::left_none))]
fn left_out_by(
    alloc: Global,
    keys: RandomState,
    rt: &(impl Threads + Sync),
    bytes: &[u8],
    source: &str,
    is_path: bool,
) -> Result<Option<LeavingLine>, Memory>
    requires { IsAccepted bytes.now }
    ensures { IfOk result (IsLeftOutBy bytes.now source.now is_path) }
{
    if !is_path {
        return Ok(None);
    }
    match leaving_line::<Config>(alloc, keys, rt, bytes, source) {
        Ok(left) => Ok(left),
        Err(Fault::Because(_)) => {
            build::laws::a_bundle_asks_for_one_thing();
            unreachable!()
        }
        Err(Fault::Memory) => Err(Memory),
    }
}

/// What is shown of an instruction, by the source that it misses, if that is known.
fn show_missed(
    alloc: Global,
    keys: RandomState,
    rt: &(impl Threads + Sync),
    file: &str,
    bytes: &[u8],
    dockerfile: &[u8],
    line: u32,
    cause: Cause,
    missed: Option<Missed>,
) -> Result<Text, Memory>
    requires { IsAccepted bytes.now }
    ensures { IfOk result (ShowsMissed file.now bytes.now (readable_lines dockerfile.now) line cause missed) }
{
    match missed {
        None => shown_failure(alloc, file, dockerfile, line, cause),
        Some(missed) => {
            let source = missed.source.as_str();
            let left = left_out_by(alloc, keys, rt, bytes, source, missed.is_context_path)?;
            show_source(alloc, file, dockerfile, line, source, left)
        }
    }
}

/// What is shown of a COPY that misses a source, by the line of the ignore file that leaves it out, if one does.
fn show_source(
    alloc: Global,
    file: &str,
    dockerfile: &[u8],
    line: u32,
    source: &str,
    left: Option<LeavingLine>,
) -> Result<Text, Memory>
    ensures { IfOk result (λ text. text ≡ shown_missed file.now (readable_lines dockerfile.now) line source.now left) }
{
    match left {
        None => shown_missing(alloc, file, dockerfile, line, source),
        Some(left) => shown_left_out(
            alloc,
            file,
            dockerfile,
            line,
            source,
            left.number,
            left.text.as_slice(),
        ),
    }
}

/// All faults of a bundle, as what is told of its build.
fn explain_faults(
    alloc: Global,
    keys: RandomState,
    rt: &(impl Threads + Sync),
    file: &str,
    bytes: &[u8],
) -> Result<Explained, Memory>
    ensures status { IfOk result (λ explained. explained.status ≡ Refused) }
    ensures text { IfOk result (λ explained. (checked : Checked) × IsCheckOf file.now bytes.now Plain checked × (explained.text ≡ checked.text)) }
{
    let Checked { text, is_sound: _ } = check(alloc, keys, rt, file, bytes, Form::Plain)?;
    Ok(Explained {
        status: Status::Refused,
        text,
    })
}
