ghost use Rattle.std.specs.Prelude.{◌≡◌, IfOk};
ghost use Rattle.evaluation.specs.PrivateKept.{is_wanted, with_user, TellsWanted};

use crate::walk::is_marked;
use plain::{Items, Memory};
use rows::Origin;
use stages::ResolvedStage;
use std::alloc::Global;

/// How long what a stage leaves is wanted: until the last needed stage that begins with it has begun, and of the target to the end.
#[derive(Drop)]
pub struct Users {
    /// The stage whose configuration is answered.
    pub target: u32,
    /// For each stage the last needed one that begins with it, 0 if none does. A stage comes after the one that it begins with, so that isn't 0.
    pub last: Items<usize>,
}

/// Notes a needed stage of this number as the last so far that begins with what it begins with.
fn note_user(last: &mut [usize], base: &Origin, user: usize)
    ensures { last.new ≡ with_user last.old base.now user }
{
    match base {
        Origin::Source(_) => {}
        Origin::Stage(number) => {
            let number = *number as usize;
            if number < last.len() {
                last[number] = user;
            }
        }
    }
}

impl Users {
    /// The last users of these stages, of which just the marked ones are needed.
    pub(crate) fn of(
        alloc: Global,
        needed: &[bool],
        stages: &[ResolvedStage],
        target: u32,
    ) -> Result<Users, Memory>
        ensures { IfOk result (λ users. TellsWanted needed.now stages.now target (is_wanted users)) }
    {
        let mut last = vec![in alloc; 0; stages.len()]?;
        for (user, stage) in stages.iter().enumerate() {
            if is_marked(needed, user) {
                note_user(last.as_mut_slice(), &stage.base, user);
            }
        }
        Ok(Users {
            target,
            last: Items::from_vec(last),
        })
    }

    /// Whether what a stage leaves is wanted after the stage `at` has begun.
    pub(crate) fn is_wanted(&self, at: usize, number: usize) -> bool
        ensures { result ≡ is_wanted self.now at number }
    {
        let is_used = match self.last.as_slice().get(number) {
            Some(last) => at < *last,
            None => true,
        };
        number == self.target as usize || is_used
    }
}
