ghost use Rattle.std.specs.Prelude.{◌≡◌, [], IfOk, fold};
ghost use Rattle.std.specs.Hash.{slice};
ghost use Rattle.std.specs.Hash.DefaultHasher as sip;
ghost use Rattle.plain.specs.Hash.{variable_writes, variables_hash};
ghost use Rattle.plain.specs.Variable.{HaveNames};

use crate::items::same_items;
use crate::{Exact, Memory, Variable};
use std::alloc::Global;
use std::hash::{DefaultHasher, Hash, Hasher};
use std::marker::Model;
use std::sync::Arc;

/// Variables with their hash, so that whoever holds them needn't go through them to know it.
#[derive(Drop)]
struct Hashed {
    rows: Vec<Variable>,
    hash: u64,
}

impl Model for Hashed {
    ghost use Rattle.std.specs.Prelude.{◌≡◌, List};
    ghost use Rattle.std.specs.Coded.{coded_list};
    ghost use Rattle.plain.specs.Hash.{variables_hash};
    ghost use Rattle.plain.specs.Variable.{HaveNames};
    ghost use Rattle.plain.specs.declared.variable.Variable.{Variable};
    ghost use Rattle.plain.specs.contracts.variable.Variable as variable_row;

    ghost Value = { List Variable };

    ghost coded = { coded_list variable_row.the_row.coded };

    ghost view = { λ h. h.rows.items };

    ghost invariant = { λ h. (h.hash ≡ variables_hash h.rows.items) × HaveNames h.rows.items };
}

impl Hashed {
    fn new(rows: Vec<Variable>) -> Hashed
        ensures { result ≡ rows.items }
    {
        let hash = hash_of(rows.as_slice());
        Hashed { rows, hash }
    }

    fn as_slice(&self) -> &[Variable]
        ensures rows { result.now ≡ self.now }
        ensures names { HaveNames self.now }
    {
        self.rows.as_slice()
    }

    fn hash(&self) -> u64
        ensures { result ≡ variables_hash self.now }
    {
        self.hash
    }
}

/// The variables of an environment, in their order.
///
/// Copies share them: a Dockerfile may set thousands of them, and each of its commands has them all.
pub struct Variables {
    shared: Option<Arc<Hashed, Global>>,
}

/// They end by a call, so that no proof above goes by whether there are any at each place where they are let go.
impl Drop for Variables {
    fn drop(self) {
        let Variables { shared: _ } = self;
    }
}

impl Model for Variables {
    ghost use Rattle.std.specs.Prelude.{List};
    ghost use Rattle.std.specs.Coded.{coded_list};
    ghost use Rattle.plain.specs.PrivateShared.{variables_of};
    ghost use Rattle.plain.specs.declared.variable.Variable.{Variable};
    ghost use Rattle.plain.specs.contracts.variable.Variable as variable_row;

    ghost Value = { List Variable };

    ghost coded = { coded_list variable_row.the_row.coded };

    ghost view = { λ v. variables_of v.shared };
}

impl Variables {
    /// No variables. They take no memory.
    pub fn none() -> Variables
        ensures { result ≡ [] }
    {
        Variables { shared: None }
    }

    /// The variables of a list. None take no memory.
    pub fn of(alloc: Global, rows: Vec<Variable>) -> Result<Variables, Memory>
        ensures { IfOk result (λ variables. variables ≡ rows.items) }
    {
        if rows.is_empty() {
            return Ok(Variables::none());
        }
        let shared = Arc::new(alloc, Hashed::new(rows))?;
        Ok(Variables {
            shared: Some(shared),
        })
    }

    /// The variables, lent.
    pub fn as_slice(&self) -> &[Variable]
        ensures rows { result.now ≡ self.now }
        ensures names { HaveNames self.now }
    {
        match &self.shared {
            Some(shared) => shared.as_slice(),
            None => &[],
        }
    }

    /// A hash of the variables, which goes through none of them.
    pub fn hash(&self) -> u64
        ensures { result ≡ variables_hash self.now }
    {
        match &self.shared {
            Some(shared) => shared.hash(),
            None => hash_of(&[]),
        }
    }
}

impl Exact for Variables {
    fn same(&self, other: &Variables) -> bool {
        self.hash() == other.hash() && same_items(self.as_slice(), other.as_slice())
    }

    fn copy(&self, _alloc: Global) -> Result<Variables, Memory> {
        match &self.shared {
            Some(shared) => {
                let shared = Arc::try_clone(shared)?;
                Ok(Variables {
                    shared: Some(shared),
                })
            }
            None => Ok(Variables::none()),
        }
    }
}

/// The hash of variables: SipHash of their names and values. Its keys are fixed, so that a build does the same work each time.
fn hash_of(rows: &[Variable]) -> u64
    ensures hash { result ≡ variables_hash rows.now }
    ensures names { HaveNames rows.now }
{
    let mut state = DefaultHasher::new();
    write_rows(rows, &mut state);
    state.finish()
}

/// Writes how many variables there are, and then each.
fn write_rows(rows: &[Variable], state: &mut DefaultHasher)
    ensures written { state.new ≡ fold sip.write state.old (slice variable_writes rows.now) }
    ensures names { HaveNames rows.now }
{
    rows.len().hash(state);
    for row in rows {
        row.name.as_text().as_str().hash(state);
        row.value.as_str().hash(state);
    }
}
