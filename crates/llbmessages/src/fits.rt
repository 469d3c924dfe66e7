// Proofs learn that a number fits its type only when code reads it. So these calls read each number, and do nothing else. By them what is
// written is known to be read as it was.

ghost use Rattle.std.specs.List.{AllByRecursion};
ghost use Rattle.llbmessages.specs.Exec.{FitsMount};
ghost use Rattle.llbmessages.specs.File.{FitsAction, FitsActionKind};
ghost use Rattle.llbmessages.specs.Op.{FitsInput, FitsMergeInput, FitsKind, FitsOp};

use crate::{FileAction, FileActionKind, Input, MergeInput, Mount, Op, OpKind};

/// Values whose numbers are within their types.
trait Fit {
    // what holds of a value's numbers
    ghost fits: { Self → Type 0 };

    /// Looks at a value's numbers.
    fn look(&self)
        ensures { fits self.now };
}

/// Looks at the numbers of some values.
fn look_at_all<T: Fit>(values: &[T])
    ensures { AllByRecursion T.fits values.now }
{
    for value in values {
        value.look();
    }
}

impl Fit for Input {
    ghost fits = { FitsInput };

    fn look(&self) {
        let _index = self.index;
    }
}

impl Fit for MergeInput {
    ghost fits = { FitsMergeInput };

    fn look(&self) {
        let _input = self.input;
    }
}

impl Fit for Mount {
    ghost fits = { FitsMount };

    fn look(&self) {
        let _numbers = (self.input, self.output);
    }
}

impl Fit for FileAction {
    ghost fits = { FitsAction };

    fn look(&self) {
        look_at_action(&self.kind);
        let _numbers = (self.input, self.secondary_input, self.output);
    }
}

fn look_at_action(kind: &FileActionKind)
    ensures { FitsActionKind kind.now }
{
    match kind {
        FileActionKind::Copy(copy) => {
            let _numbers = (copy.mode, copy.timestamp);
        }
        FileActionKind::MakeFile(file) => {
            let _numbers = (file.mode, file.timestamp);
        }
        FileActionKind::MakeDir(dir) => {
            let _numbers = (dir.mode, dir.timestamp);
        }
    }
}

fn look_at_kind(kind: &OpKind)
    ensures { FitsKind kind.now }
{
    match kind {
        OpKind::End | OpKind::Source(_) => {}
        OpKind::Exec(exec) => look_at_all(exec.mounts.as_slice()),
        OpKind::File(file) => look_at_all(file.actions.as_slice()),
        OpKind::Merge(merge) => look_at_all(merge.inputs.as_slice()),
    }
}

/// Looks at an operation's numbers.
pub(crate) fn look_at_op(op: &Op)
    ensures { FitsOp op.now }
{
    look_at_all(op.inputs.as_slice());
    look_at_kind(&op.kind);
}
