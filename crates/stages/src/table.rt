ghost use Rattle.std.specs.Prelude.{◌≡◌, ◌<◌, ◌≤◌, ℕ, false, length, option_map, IfOk};
ghost use Rattle.std.specs.List.{All};
ghost use Rattle.std.specs.FinMap.{get as arg_value};
ghost use Rattle.plain.specs.Limits.{most_stages};
ghost use Rattle.plain.specs.Marks.{is_marked};
ghost use Rattle.stages.specs.Naming.{names_in};
ghost use Rattle.stages.specs.Table.{AreStages, NamesKnown};
ghost use Rattle.stages.specs.Resolved.{target_of, resolved_stages, Returns};
ghost use Rattle.stages.specs.Needed.{AreNeeded};
ghost use Rattle.stages.specs.PrivateResolving.{with_last};
ghost use Rattle.stages.specs.PrivateTable.{stages_made};

use crate::marks::mark_needed;
use crate::naming::stage_found;
use crate::resolving::{Draft, add_all, with_last};
use crate::stage::ResolvedStage;
use crate::target::{are_arguments, refused};
use dockerfile::Dockerfile;
use expand::{Copied, RejectionFault};
use plain::{Code, Items, Memory, Text, no_marks, with_copy};
use plans::Images;
use scopes::{Args, Scope};
use std::alloc::Global;
use std::hash::RandomState;
use std::marker::Model;

/// The stages of a file, with what their names lead to.
#[derive(Drop)]
pub struct StageTable {
    outer: Scope,
    names: Items<Option<Text>>,
    stages: Items<ResolvedStage>,
}

impl Model for StageTable {
    ghost use Rattle.stages.specs.Table.{StagesValue, AreStages};

    ghost Value = { StagesValue };

    ghost use Rattle.stages.specs.PrivateTable.{stages_code};

    ghost coded = { stages_code };

    ghost view = { λ t. record { outer = t.outer; names = t.names; stages = t.stages } };

    ghost invariant = { λ t. AreStages (record { outer = t.outer; names = t.names; stages = t.stages }) };
}

impl StageTable {
    /// What the names of a file lead to, with these images and build arguments (Dockerfile reference).
    ///
    /// The first line is refused for which a code is due, with the least of its codes: R05 if an instruction other than ARG stands before the
    /// first FROM, and at line 1 if there is none other; R11 if an earlier stage has the stage's name, whatever the case of letters; R12 if a
    /// FROM, a `--from` or a mount's `from` leads to no image and no earlier stage, unless it is a FROM of `scratch`, the empty tree; R18 if a
    /// FROM's text, or one of an ARG before the first FROM, has more than 1,048,576 bytes, and at the 257th FROM; R21, with a text, if one of
    /// these texts needs a variable that doesn't count (`${v?w}`). A FROM whose text has no value isn't tested for what it leads to. The empty
    /// text and `scratch` are never names of images.
    pub fn resolve<C>(
        alloc: Global,
        keys: RandomState,
        file: Dockerfile,
        images: &Images<C>,
        args: &Args,
    ) -> Result<StageTable, RejectionFault>
        ensures table { Returns (resolved_stages (names_in images.now) (arg_value args.now) file) result }
        ensures known { IfOk result (λ table. All (NamesKnown (names_in images.now)) table.stages) }
    {
        let instructions = file.into_instructions();
        if are_arguments(instructions.as_slice()) {
            return Err(refused(Code::R05, 1));
        }
        let draft = match add_all(alloc, keys, images, args, instructions.into_vec()) {
            Ok(draft) => draft,
            Err(fault) => return Err(fault),
        };
        let table = StageTable::of_draft(draft)?;
        Ok(table)
    }

    /// The table of all that is known after a file's last instruction.
    fn of_draft(draft: Draft) -> Result<StageTable, Memory>
        requires { AreStages (stages_made draft.outer draft.names (with_last draft.stages draft.last)) }
        ensures { IfOk result (λ table. table ≡ stages_made draft.outer draft.names (with_last draft.stages draft.last)) }
    {
        let Draft {
            outer,
            names,
            stages,
            last,
        } = draft;
        match with_last(stages, last) {
            Ok(stages) => Ok(StageTable {
                outer,
                names,
                stages,
            }),
            Err(memory) => {
                drop(outer);
                drop(names);
                Err(memory)
            }
        }
    }

    /// The number of the stage that a text names by its number or its name, and of the last stage without a text (docker build, `--target`);
    /// `None` where there is no such stage.
    pub fn target(&self, text: Option<&Text>) -> Option<u32>
        ensures { result ≡ target_of self.now.names (option_map (λ t. t.now) text.entry) }
    {
        let names = self.names();
        match text {
            Some(text) => stage_found(names, text),
            None => Some((names.len() as u32).saturating_sub(1)),
        }
    }

    /// Which stages a target needs, by their numbers: the target, and all that a needed stage names by its FROM, a `--from` or a mount's
    /// `from` (Dockerfile reference, multi-stage builds). A number that no stage has needs none.
    pub fn needed(&self, alloc: Global, target: u32) -> Result<Items<bool>, Memory>
        ensures stage { target < length self.now.stages → IfOk result (AreNeeded self.now.stages target) }
        ensures none { length self.now.stages ≤ target → IfOk result (λ marks. (length marks ≡ length self.now.stages) × ((stage : ℕ) → is_marked marks stage ≡ false)) }
    {
        let stages = self.stages();
        if (target as usize) < stages.len() {
            mark_needed(alloc, stages, target)
        } else {
            let marks = no_marks(alloc, stages.len())?;
            Ok(Items::from_vec(marks))
        }
    }

    /// The scope of the ARGs before the first FROM.
    pub fn outer(&self) -> &Scope
        ensures { result.now ≡ self.now.outer }
    {
        &self.outer
    }

    /// The names of the stages by their numbers, `None` for a stage that has none.
    pub fn names(&self) -> &[Option<Text>]
        ensures names { result.now ≡ self.now.names }
        ensures few { length result.now ≤ most_stages }
        ensures whole { AreStages self.now }
    {
        self.names.as_slice()
    }

    /// The stages by their numbers.
    pub fn stages(&self) -> &[ResolvedStage]
        ensures stages { result.now ≡ self.now.stages }
        ensures whole { AreStages self.now }
    {
        self.stages.as_slice()
    }

    /// The scope of the ARGs before the first FROM, and the stages with their names. It takes no memory.
    pub fn into_parts(self) -> (Scope, Items<Option<Text>>, Items<ResolvedStage>)
        ensures outer { result.0 ≡ self.outer }
        ensures names { result.1 ≡ self.names }
        ensures stages { result.2 ≡ self.stages }
        ensures whole { AreStages self }
    {
        let StageTable {
            outer,
            names,
            stages,
        } = self;
        (outer, names, stages)
    }

    /// An equal table of its own.
    pub fn copy(&self, alloc: Global) -> Result<StageTable, Memory>
        ensures { IfOk result (λ copied. copied ≡ self.now) }
    {
        let stages = self.stages.copied(alloc)?;
        let (stages, names) = with_copy(alloc, stages, &self.names)?;
        match self.outer.copy(alloc) {
            Ok(outer) => Ok(StageTable {
                outer,
                names,
                stages,
            }),
            Err(memory) => {
                drop(stages);
                drop(names);
                Err(memory)
            }
        }
    }
}
