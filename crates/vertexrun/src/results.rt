ghost use Rattle.std.specs.Prelude.{◌≡◌, IsTrue, Some, Ok, IfOk, is_some, map, ◌+◌, length, vec_len};
ghost use Rattle.std.specs.Option.{option_map};
ghost use Rattle.runs.specs.Run.{fits_request};
ghost use Rattle.llb.specs.WellFormed.{is_well_formed_exec, is_well_formed_on};
ghost use Rattle.plans.specs.Plan.{caches_of, IsLeftBy};
ghost use Rattle.llb.specs.declared.op.Op.TheVariants.{Exec as ExecOp};
ghost use Rattle.plans.specs.Sources.{source_tree, HasSource};
ghost use Rattle.plans.specs.Value.{ended, run_value, result_of};

use crate::files::{settle_file, settle_merge};
use crate::requests::request_of;
use executor::{Executor, Outcome, Request};
use llb::{Exec, Op, Source};
use plain::{Exact, Memory, copied_items};
use plans::Sources;
use std::alloc::Global;
use trees::{Cause, Tree, TreeOrCause};

/// What a vertex came to: its value, and the trees that its caches hold from now on, as many as its operation uses.
#[derive(Drop)]
pub struct Ran {
    pub value: TreeOrCause,
    pub given: Vec<Tree>,
}

/// The value of an operation on the trees of its inputs, which are lent one by one; and what it leaves in the caches that it uses, of
/// which `copies` is what they hold, in their order. The operation is well formed on as many inputs (`Op::is_well_formed`), and a
/// source has its tree (`Sources::suffices`).
///
/// A command is lent copies of `copies`, which change no value, since an executor's answer never depends on its caches; what the
/// executor leaves in them is given. A command that isn't run (see [`request_of`]) leaves them as they were.
pub fn vertex_result<E: Executor>(
    alloc: Global,
    sources: &Sources,
    executor: &E,
    op: &Op,
    inputs: &[&Tree],
    copies: &[Tree],
) -> Result<Ran, Memory>
    requires well_formed { IsTrue (is_well_formed_on op.now (length inputs.now)) }
    requires source { HasSource sources.now op.now }
    requires copies { length copies.now ≡ length (caches_of op.now) }
    ensures value { IfOk result (λ ran. result_of (E.out executor.now) sources.now op.now (map (λ tree. tree.now) inputs.now) ≡ Some ran.value) }
    ensures given { IfOk result (λ ran. length ran.given.items ≡ length (caches_of op.now)) }
    ensures left { IfOk result (λ ran. IsLeftBy (E.leaves executor.now) op.now (map (λ tree. tree.now) inputs.now) copies.now ran.given.items) }
{
    if let Op::Exec(exec) = op {
        return exec_result(alloc, executor, exec, inputs, copies);
    }
    let value = match op {
        Op::Source(source) => source_value(alloc, sources, source)?,
        Op::Merge => Ok(settle_merge(alloc, inputs)?),
        _ => settle_file(alloc, op, inputs)?,
    };
    Ok(Ran {
        value,
        given: Vec::new(alloc),
    })
}

/// A copy of a source's tree.
fn source_value(alloc: Global, sources: &Sources, source: &Source) -> Result<TreeOrCause, Memory>
    requires { IsTrue (is_some (source_tree sources.now source.now)) }
    ensures { IfOk result (λ value. option_map Ok (source_tree sources.now source.now) ≡ Some value) }
{
    match sources.tree(source) {
        Some(tree) => Ok(Ok(tree.copy(alloc)?)),
        None => unreachable!(),
    }
}

/// What a command comes to on the trees of its inputs.
fn exec_result<E: Executor>(
    alloc: Global,
    executor: &E,
    exec: &Exec,
    inputs: &[&Tree],
    copies: &[Tree],
) -> Result<Ran, Memory>
    requires inputs { length inputs.now ≡ length exec.now.binds + 1 }
    requires well_formed { IsTrue (is_well_formed_exec exec.now) }
    requires copies { length copies.now ≡ length exec.now.caches }
    ensures value { IfOk result (λ ran. run_value (E.out executor.now) exec.now (map (λ tree. tree.now) inputs.now) ≡ Some ran.value) }
    ensures given { IfOk result (λ ran. length ran.given.items ≡ length exec.now.caches) }
    ensures left { IfOk result (λ ran. IsLeftBy (E.leaves executor.now) (ExecOp exec.now) (map (λ tree. tree.now) inputs.now) copies.now ran.given.items) }
{
    let [root, trees @ ..] = inputs else {
        unreachable!()
    };
    let given = copied_items(alloc, copies)?;
    match request_of(alloc, exec, root, trees)? {
        Ok(request) => run_result(alloc, executor, &request, given),
        Err(cause) => Ok(Ran {
            value: Err(cause),
            given,
        }),
    }
}

/// What the run of a request comes to, with these trees in its caches.
fn run_result<E: Executor>(
    alloc: Global,
    executor: &E,
    request: &Request,
    mut caches: Vec<Tree>,
) -> Result<Ran, Memory>
    requires mounts { IsTrue (fits_request request.now) }
    requires lent { length caches.items ≡ length request.now.caches }
    ensures value { IfOk result (λ ran. ran.value ≡ ended (E.out executor.now request.now)) }
    ensures given { IfOk result (λ ran. length ran.given.items ≡ length request.now.caches) }
    ensures left { IfOk result (λ ran. E.leaves executor.now request.now caches.items ran.given.items) }
{
    let value = match executor.run(alloc, request, &mut caches)? {
        Outcome::Done(tree) => Ok(tree),
        Outcome::Exit(status) => Err(Cause::Exit(status)),
    };
    Ok(Ran {
        value,
        given: caches,
    })
}
