ghost use Rattle.std.specs.Prelude.{◌≡◌, [], None, Some, Ok as OkOf, IfOk, IfSome, IfNone, slice_get, slice_index_or};
ghost use Rattle.board.specs.Claim.{IsClaim, IsResult};
ghost use Rattle.board.specs.Job.{job_problem};
ghost use Rattle.board.specs.Leaving.{IsLeftFor};
ghost use Rattle.runs.specs.declared.run.RunRequest.{RunRequest};
ghost use Rattle.plans.specs.Value.{trees_at};
ghost use Rattle.memo.specs.Kept.{kept_trees};
ghost use Rattle.memo.specs.Memo.{Knows};
ghost use Rattle.memo.specs.Numbers.{generation_of};
ghost use Rattle.solver.specs.Recall.{AreOf, IsFinding, IsKept, stays};

use crate::Numbering;
use crate::finding::{Finding, Findings};
use crate::running::vertex_at;
use board::{Claim, Job};
use cells::Place;
use executor::Executor;
use llb::{Op, Vertex, VertexId};
use memo::{Age, Memo};
use plain::Memory;
use std::alloc::Global;
use std::marker::Model;
use trees::{Tree, TreeOrCause};

/// A memo that is asked while a problem is solved, and what was found in it: the numbers that it has for the trees of the problem's vertices. So a tree that
/// was found is known by its number to whoever asks next, and is walked by nobody.
///
/// A tree whose number isn't known is sought in the memo, mostly once, and only where that pays. A source is sought, since it was read in this build, which
/// takes longer than a walk. What a command gave isn't, since it ran on trees that aren't known, or is new. What a copy gave is sought where a command runs
/// on it, if the tree is known into which the files were copied: then files may have come that were there in an earlier build, out of a folder in which
/// others changed.
#[derive(Drop)]
pub struct Recall<'m, 'k, E: Executor, N: Numbering> {
    memo: &'m Memo<'k, E>,
    // contracts don't see it
    findings: Findings<N>,
}

impl<'m, 'k, E: Executor, N: Numbering> Model for Recall<'m, 'k, E, N> {
    ghost use Rattle.std.specs.Prelude.{◌≡◌};
    ghost use Rattle.runs.specs.declared.run.RunRequest.{RunRequest};
    ghost use Rattle.memo.specs.Memo.{MemoValue, memo_code, Knows};

    ghost Value = { MemoValue E };

    ghost coded = { memo_code E.code };

    ghost view = { λ r. r.memo.now };

    ghost invariant = { λ r.
        (E.out r.memo.now.executor ≡ N.out)
        × (r.memo.now.recent.trees ≡ N.recent)
        × (r.memo.now.earlier.trees ≡ N.earlier)
        × ((request : RunRequest) → Knows r.memo.now request → N.knows request) };
}

impl<'m, 'k, E: Executor, N: Numbering> Recall<'m, 'k, E, N> {
    /// A memo in which nothing was found yet of so many vertices; none if it has no entry.
    pub fn new(
        alloc: Global,
        memo: &'m Memo<'k, E>,
        count: usize,
    ) -> Result<Option<Recall<'m, 'k, E, N>>, Memory>
        requires out { E.out memo.now.executor ≡ N.out }
        requires recent { memo.now.recent.trees ≡ N.recent }
        requires earlier { memo.now.earlier.trees ≡ N.earlier }
        requires knows { (request : RunRequest) → Knows memo.now request → N.knows request }
        ensures memo { IfOk result (λ found. IfSome found (λ recall. recall ≡ memo.now)) }
        ensures none { IfOk result (λ found. IfNone found ((memo.now.recent.entries ≡ []) × (memo.now.earlier.entries ≡ []))) }
    {
        if memo.recent_len() == 0 && memo.earlier_len() == 0 {
            return Ok(None);
        }
        let findings = Findings::<N>::new(alloc, count)?;
        Ok(Some(Recall { memo, findings }))
    }

    /// What was found, without the memo.
    pub fn into_findings(self) -> Findings<N> {
        let Recall { memo: _, findings } = self;
        findings
    }

    /// The tree that the memo has as a claim's result, if what is known of the inputs tells of one. Then it knows the request of the claim's vertex, if that is
    /// a command. The job may have another executor than the memo, with the same answers.
    pub(crate) fn tree<X: Executor, P: Place<TreeOrCause>>(
        &self,
        alloc: Global,
        job: &Job<X>,
        claim: &Claim<P>,
    ) -> Result<Option<&'m Tree>, Memory>
        requires named { AreOf (job_problem X.out job.now) N.out N.values }
        requires of { IsClaim (job_problem X.out job.now) claim.now }
        ensures value { IfOk result (λ found. IfSome found (λ tree. IsResult (job_problem X.out job.now) claim.now (OkOf tree.now))) }
        ensures known { IfOk result (λ found. IfSome found (λ tree. IsLeftFor (stays N.knows) (job_problem X.out job.now) claim.now claim.now.caches)) }
    {
        let memo = self.memo;
        let _known = job.graph();
        let recent = self.result_number(alloc, job, claim, Age::Recent)?;
        let earlier = self.result_number(alloc, job, claim, Age::Earlier)?;
        let finding = Finding {
            recent,
            earlier,
            is_remembered: recent.is_some(),
        };
        if recent.is_none() && earlier.is_none() {
            return Ok(None);
        }
        self.write(alloc, claim.vertex(), finding);
        match recent {
            Some(number) => Ok(memo.tree(Age::Recent, number)),
            None => match earlier {
                Some(number) => Ok(memo.tree(Age::Earlier, number)),
                None => Ok(None),
            },
        }
    }

    /// The number in a generation of the tree that it has as a claim's result.
    fn result_number<X: Executor, P: Place<TreeOrCause>>(
        &self,
        alloc: Global,
        job: &Job<X>,
        claim: &Claim<P>,
        age: Age,
    ) -> Result<Option<usize>, Memory>
        requires named { AreOf (job_problem X.out job.now) N.out N.values }
        requires of { IsClaim (job_problem X.out job.now) claim.now }
        ensures value { IfOk result (λ found. IfSome found (IsKept N.values (generation_of self.now age).trees claim.now.vertex)) }
        ensures known { IfOk result (λ found. IfSome found (λ number. IsLeftFor (stays N.knows) (job_problem X.out job.now) claim.now claim.now.caches)) }
    {
        let vertex = vertex_at(job, claim.vertex());
        let Some(inputs) = self.numbers_of(alloc, job, vertex, claim, age)? else {
            return Ok(None);
        };
        Ok(self.memo.find_kept(age, &vertex.op, inputs.as_slice()))
    }

    /// The numbers in a generation of the trees of a claim's inputs; none if one isn't known, and then no further one is sought.
    fn numbers_of<X: Executor, P: Place<TreeOrCause>>(
        &self,
        alloc: Global,
        job: &Job<X>,
        vertex: &Vertex,
        claim: &Claim<P>,
        age: Age,
    ) -> Result<Option<Vec<usize>>, Memory>
        requires named { AreOf (job_problem X.out job.now) N.out N.values }
        requires of { IsClaim (job_problem X.out job.now) claim.now }
        requires vertex { slice_get job.now.graph.vertices claim.now.vertex ≡ Some vertex.now }
        ensures { IfOk result (λ found. IfSome found (λ numbers. trees_at N.values vertex.now.inputs ≡ Some (kept_trees (generation_of self.now age) numbers.items))) }
    {
        let count = vertex.inputs.len();
        let mut numbers = Vec::with_capacity(alloc, count)?;
        for at in 0..count {
            let Some(number) = self.number_at(alloc, job, vertex, claim, at, age) else {
                return Ok(None);
            };
            numbers.push(number)?;
        }
        Ok(Some(numbers))
    }

    /// The number in a generation of the tree of an input of a claim, by the input's position, if it is known or the memo finds it.
    fn number_at<X: Executor, P: Place<TreeOrCause>>(
        &self,
        alloc: Global,
        job: &Job<X>,
        vertex: &Vertex,
        claim: &Claim<P>,
        at: usize,
        age: Age,
    ) -> Option<usize>
        requires named { AreOf (job_problem X.out job.now) N.out N.values }
        requires of { IsClaim (job_problem X.out job.now) claim.now }
        requires vertex { slice_get job.now.graph.vertices claim.now.vertex ≡ Some vertex.now }
        ensures { IfSome result (IsKept N.values (generation_of self.now age).trees (slice_index_or vertex.now.inputs at 0)) }
    {
        let Some(input) = vertex.inputs.as_slice().get(at) else {
            return None;
        };
        if let Some(finding) = self.findings.get(input.number()) {
            return finding.number(age);
        }
        if at >= claim.input_count() {
            return None;
        }
        match self.sought(alloc, job, &vertex.op, *input, at, claim.input(at)) {
            Some(finding) => {
                self.write(alloc, *input, finding);
                finding.number(age)
            }
            None => None,
        }
    }

    /// What comes of the search for the tree of a vertex, which an operation gets at this place, if that is worth a walk.
    fn sought<X: Executor>(
        &self,
        alloc: Global,
        job: &Job<X>,
        op: &Op,
        vertex: VertexId,
        place: usize,
        tree: &Tree,
    ) -> Option<Finding>
        requires { slice_index_or N.values vertex None ≡ Some (OkOf tree.now) }
        ensures { IfSome result (IsFinding N.values N.recent N.earlier vertex) }
    {
        let Some(node) = job.graph().vertex(vertex) else {
            return None;
        };
        match &node.op {
            Op::Source(_) => Some(Finding {
                recent: self.memo.source_number(alloc, Age::Recent, &node.op, tree),
                earlier: self.memo.source_number(alloc, Age::Earlier, &node.op, tree),
                is_remembered: false,
            }),
            Op::Exec(_) => None,
            _ => {
                if !is_command(op) || !self.is_base_known(node) {
                    return None;
                }
                Some(Finding {
                    recent: self.memo.input_number(alloc, Age::Recent, op, place, tree),
                    earlier: self.memo.input_number(alloc, Age::Earlier, op, place, tree),
                    is_remembered: false,
                })
            }
        }
    }

    /// Whether a number of the tree of a vertex's first input is known.
    fn is_base_known(&self, vertex: &Vertex) -> bool {
        let Some(base) = vertex.inputs.as_slice().first() else {
            return false;
        };
        match self.findings.get(base.number()) {
            Some(finding) => finding.recent.is_some() || finding.earlier.is_some(),
            None => false,
        }
    }

    /// Writes down what was found of the tree of a vertex, unless something was. If there is no memory for it, it is left out.
    fn write(&self, alloc: Global, vertex: VertexId, finding: Finding)
        requires { IsFinding N.values N.recent N.earlier vertex finding }
    {
        if (vertex.number() as usize) < self.findings.len() {
            let _written = self.findings.keep(alloc, vertex.number(), finding);
        }
    }
}

/// Whether an operation is a command, which an executor runs.
fn is_command(op: &Op) -> bool {
    matches!(op, Op::Exec(_))
}
