ghost use Rattle.std.specs.Prelude.{◌≡◌, ◌<◌, ◌≤◌, length, option_map, IfOk, IfErr};
ghost use Rattle.std.specs.List.{All};
ghost use Rattle.std.specs.FinMap.{get as arg_value};
ghost use Rattle.stages.specs.Naming.{names_in};
ghost use Rattle.stages.specs.Table.{targeted, IsTable, NamesKnown};
ghost use Rattle.stages.specs.Resolved.{resolved, Returns};
ghost use Rattle.stages.specs.Needed.{AreNeeded};

use crate::stage::ResolvedStage;
use crate::table::StageTable;
use crate::target::{refused, target_of};
use dockerfile::Dockerfile;
use expand::RejectionFault;
use plain::{Code, Items, Memory, Text};
use plans::Images;
use scopes::{Args, Scope};
use std::alloc::Global;
use std::hash::RandomState;
use std::marker::Model;

/// The stages of a file, and the one that is wanted.
#[derive(Drop)]
pub struct TargetTable {
    table: StageTable,
    target: u32,
}

impl Model for TargetTable {
    ghost use Rattle.stages.specs.Table.{TableValue, targeted, IsTable};

    ghost Value = { TableValue };

    ghost use Rattle.stages.specs.PrivateTable.{table_code};

    ghost coded = { table_code };

    ghost view = { λ t. targeted t.table t.target };

    ghost invariant = { λ t. IsTable (targeted t.table t.target) };
}

impl TargetTable {
    /// What the names of a file lead to, with these images and build arguments, for the target that a text names by its number or its name,
    /// else for the last stage (Dockerfile reference).
    ///
    /// R13, at line 0, comes before all else: there is no such target. Else the file is refused as [`StageTable::resolve`] tells it.
    pub fn resolve<C>(
        alloc: Global,
        keys: RandomState,
        file: Dockerfile,
        images: &Images<C>,
        args: &Args,
        target: Option<&Text>,
    ) -> Result<TargetTable, RejectionFault>
        ensures table { Returns (resolved (names_in images.now) (arg_value args.now) (option_map (λ t. t.now) target.entry) file) result }
        ensures known { IfOk result (λ table. All (NamesKnown (names_in images.now)) table.stages) }
    {
        let Some(target) = target_of(file.instructions(), target) else {
            drop(file);
            return Err(refused(Code::R13, 0));
        };
        match StageTable::resolve(alloc, keys, file, images, args) {
            Ok(table) => {
                let _known = table.stages();
                Ok(TargetTable { table, target })
            }
            Err(fault) => Err(fault),
        }
    }

    /// These stages with the one of this number as the one that is wanted; the stages themselves where none has this number.
    pub fn of(table: StageTable, target: u32) -> Result<TargetTable, StageTable>
        ensures ok { IfOk result (λ made. (target < length table.stages) × (made ≡ targeted table target)) }
        ensures err { IfErr result (λ left. (length table.stages ≤ target) × (left ≡ table)) }
    {
        if (target as usize) < table.stages().len() {
            Ok(TargetTable { table, target })
        } else {
            Err(table)
        }
    }

    /// Which stages the target needs, by their numbers: the target, and all that a needed stage names by its FROM, a `--from` or a mount's
    /// `from` (Dockerfile reference, multi-stage builds).
    pub fn needed(&self, alloc: Global) -> Result<Items<bool>, Memory>
        ensures { IfOk result (AreNeeded self.now.stages self.now.target) }
    {
        self.table.needed(alloc, self.target)
    }

    /// The number of the stage that is wanted. Stages count from 0, those that aren't needed too.
    pub fn target(&self) -> u32
        ensures { result ≡ self.now.target }
    {
        self.target
    }

    /// The scope of the ARGs before the first FROM.
    pub fn outer(&self) -> &Scope
        ensures { result.now ≡ self.now.outer }
    {
        self.table.outer()
    }

    /// The stages by their numbers.
    pub fn stages(&self) -> &[ResolvedStage]
        ensures stages { result.now ≡ self.now.stages }
        ensures whole { IsTable self.now }
    {
        self.table.stages()
    }

    /// The scope of the ARGs before the first FROM, the stages, and the number of the one that is wanted. It takes no memory.
    pub fn into_parts(self) -> (Scope, Items<ResolvedStage>, u32)
        ensures outer { result.0 ≡ self.outer }
        ensures stages { result.1 ≡ self.stages }
        ensures target { result.2 ≡ self.target }
        ensures whole { IsTable self }
    {
        let TargetTable { table, target } = self;
        let (outer, names, stages) = table.into_parts();
        drop(names);
        (outer, stages, target)
    }
}
