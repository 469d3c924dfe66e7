ghost use Rattle.std.specs.Prelude.{◌≡◌, ◌↔◌, ◌++◌, ◌+◌, ◌≤◌, vec_len, vec_capacity, [], ℕ, List, true, false, length, map, IsTrue, IfOk, OnOk, OnErr};
ghost use Rattle.runs.specs.Run.{ids_differ, ids_of};
ghost use Rattle.cachemounts.specs.Holds.{can_take, new_holds, of_holder, is_holder, nobody, number_for};
ghost use Rattle.cachemounts.specs.Content.{common_content, tree_in, tree_held};
ghost use Rattle.cachemounts.specs.Changes.{Takes, Gives, Leaves};
ghost use Rattle.cachemounts.specs.Store.{IsAfter, IsStore};

use crate::contents::Contents;
use crate::{Content, Hold, content, holds};
use plain::{Items, Memory, Text};
use runs::CacheUse;
use std::alloc::Global;
use std::marker::Model;
use trees::Tree;

/// The contents of cache mounts, and who holds which of them. No two holds clash, whatever is called: a locked holder is alone on the common
/// content of its cache, and nobody has another one's slot.
#[derive(Drop)]
pub struct CacheStore {
    contents: Contents,
    holds: Vec<Hold>,
}

impl Model for CacheStore {
    ghost use Rattle.cachemounts.specs.StoreValue.{StoreValue, store_code};
    ghost use Rattle.cachemounts.specs.Store.{IsStore};

    ghost Value = { StoreValue };

    ghost coded = { store_code };

    ghost view = { λ s. record { contents = s.contents; holds = s.holds.items } };

    ghost invariant = { λ s. IsStore (record { contents = s.contents; holds = s.holds.items }) };
}

/// The lease of caches that a holder took, with copies of the trees that were in their contents then. It ends by `CacheStore::give` or
/// `CacheStore::release`. If it is let go in another way, its holder holds its caches until `CacheStore::leave` or `CacheStore::release_all`.
#[must_use]
#[derive(Drop)]
pub struct Lease {
    holder: usize,
    trees: Items<Tree>,
}

impl Model for Lease {
    ghost use Rattle.cachemounts.specs.StoreValue.{LeaseValue, lease_code};

    ghost Value = { LeaseValue };

    ghost coded = { lease_code };

    ghost view = { λ l. record { holder = l.holder; trees = l.trees } };
}

impl Lease {
    /// Copies of the trees that were in its contents when it was taken, in the order of the uses.
    pub fn trees(&self) -> &[Tree]
        ensures { result.now ≡ self.now.trees }
    {
        self.trees.as_slice()
    }

    /// The number of its holder.
    pub fn holder(&self) -> usize
        ensures { result ≡ self.now.holder }
    {
        self.holder
    }
}

impl CacheStore {
    /// A store in which every content is the empty tree, and of which nobody holds anything. It takes no memory.
    pub fn new(alloc: Global) -> CacheStore
        ensures { result ≡ record { contents = []; holds = [] } }
    {
        CacheStore {
            contents: Contents::new(alloc),
            holds: Vec::new(alloc),
        }
    }

    /// A store whose caches have these common contents, by their ids; every other content is the empty tree, and nobody holds anything. Of an
    /// id that is there twice the first tree counts.
    pub fn with_common(alloc: Global, trees: Vec<(Text, Tree)>) -> Result<CacheStore, Memory>
        ensures { IfOk result (λ store. store ≡ record { contents = map common_content trees.items; holds = [] }) }
    {
        let contents = content::common_contents(alloc, trees)?;
        let contents = Contents::of(alloc, contents)?;
        Ok(CacheStore {
            contents,
            holds: Vec::new(alloc),
        })
    }

    /// Whether these uses may begin now: a locked one where nobody holds the cache's common content, a shared one where no locked use does, a
    /// private one always (Dockerfile reference, RUN --mount=type=cache, sharing). It takes no memory.
    pub fn can_take(&self, uses: &[CacheUse]) -> bool
        ensures { result ≡ can_take self.now.holds uses.now }
    {
        holds::can_take(self.holds.as_slice(), uses)
    }

    /// Whether a holder holds anything.
    pub fn is_holder(&self, holder: usize) -> bool
        ensures { result ≡ is_holder holder self.now.holds }
    {
        holds::is_holder(self.holds.as_slice(), holder)
    }

    /// How many caches a holder holds.
    pub fn held_by(&self, holder: usize) -> usize
        ensures { result ≡ length (of_holder holder self.now.holds) }
    {
        holds::count_of(self.holds.as_slice(), holder)
    }

    /// Whether nobody holds anything.
    pub fn is_idle(&self) -> bool
        ensures { IsTrue result ↔ (self.now.holds ≡ []) }
    {
        self.holds.is_empty()
    }

    /// Takes the caches of uses that may begin now (`can_take`): shared and locked uses the common content of their caches, private ones their
    /// lowest free slots. No id may be named twice. The holder is the least number that holds nothing; one that takes no cache has a number that never
    /// holds any, so each lease that is out can be ended by itself. It makes the room for what will be given back, so `give` takes no memory. After
    /// `Memory` the store is as it was.
    pub fn take(&mut self, alloc: Global, uses: &[CacheUse]) -> Result<Lease, Memory>
        requires may { can_take self.old.holds uses.now ≡ true }
        requires differ { ids_differ (ids_of uses.now) ≡ true }
        ensures holder { IfOk result (λ lease. lease.holder ≡ number_for self.old.holds uses.now) }
        ensures free { IfOk result (λ lease. is_holder lease.holder self.old.holds ≡ false) }
        ensures ok { IfOk result (λ lease. IsAfter (Takes lease.holder uses.now) self.old self.new) }
        ensures trees { IfOk result (λ lease. lease.trees ≡ map (tree_held self.old.contents) (new_holds lease.holder self.old.holds uses.now)) }
        ensures held { IfOk result (λ lease. length (of_holder lease.holder self.new.holds) ≡ length uses.now) }
        ensures err { OnErr result (self.new ≡ self.old) }
    {
        let holder = holds::number_for(self.holds.as_slice(), uses);
        self.take_numbered(alloc, holder, uses)
    }

    /// Takes the caches of uses as `take` does, for a holder of a number that the caller chose, which has to hold nothing (`is_holder`). A lease
    /// without caches leaves its number free, so the caller sees to it that no two leases that are out have one number.
    pub fn take_as(
        &mut self,
        alloc: Global,
        holder: u32,
        uses: &[CacheUse],
    ) -> Result<Lease, Memory>
        requires free { is_holder holder self.old.holds ≡ false }
        requires may { can_take self.old.holds uses.now ≡ true }
        requires differ { ids_differ (ids_of uses.now) ≡ true }
        ensures ok { OnOk result (IsAfter (Takes holder uses.now) self.old self.new) }
        ensures lease { IfOk result (λ lease. lease ≡ record { holder = holder; trees = map (tree_held self.old.contents) (new_holds holder self.old.holds uses.now) }) }
        ensures err { OnErr result (self.new ≡ self.old) }
    {
        self.take_numbered(alloc, holder as usize, uses)
    }

    /// Takes the caches of uses that may begin now, for a holder that holds nothing.
    fn take_numbered(
        &mut self,
        alloc: Global,
        holder: usize,
        uses: &[CacheUse],
    ) -> Result<Lease, Memory>
        requires free { is_holder holder self.old.holds ≡ false }
        requires apart { is_holder nobody (new_holds holder self.old.holds uses.now) ≡ false }
        requires may { can_take self.old.holds uses.now ≡ true }
        requires differ { ids_differ (ids_of uses.now) ≡ true }
        ensures ok { OnOk result (IsAfter (Takes holder uses.now) self.old self.new) }
        ensures lease { IfOk result (λ lease. lease ≡ record { holder = holder; trees = map (tree_held self.old.contents) (new_holds holder self.old.holds uses.now) }) }
        ensures err { OnErr result (self.new ≡ self.old) }
    {
        let taken = holds::new_holds(alloc, holder, self.holds.as_slice(), uses)?;
        let trees = content::copies_of(alloc, &self.contents, taken.as_slice())?;
        let more = content::new_contents(alloc, &self.contents, taken.as_slice())?;
        self.holds.reserve(taken.len())?;
        self.contents.add(alloc, more)?;
        append(&mut self.holds, taken);
        Ok(Lease {
            holder,
            trees: Items::from_vec(trees),
        })
    }

    /// Ends a lease: each of its contents is the tree that is given back for it from now on, in the order of the uses. The trees have to be as
    /// many as the lease's holder holds caches (`held_by`). It takes no memory.
    pub fn give(&mut self, lease: Lease, trees: Vec<Tree>)
        requires { length trees.items ≡ length (of_holder lease.holder self.old.holds) }
        ensures { IsAfter (Gives lease.holder trees.items) self.old self.new }
    {
        let holder = lease.holder();
        drop(lease);
        content::give_back(&mut self.contents, self.holds.as_slice(), holder, trees);
        holds::drop_holder(&mut self.holds, holder);
    }

    /// Ends a lease, and leaves the contents as they are. It takes no memory.
    pub fn release(&mut self, lease: Lease)
        ensures { IsAfter (Leaves lease.holder) self.old self.new }
    {
        let holder = lease.holder();
        drop(lease);
        holds::drop_holder(&mut self.holds, holder);
    }

    /// Ends the lease of a holder, whose lease value is elsewhere, and leaves the contents as they are. It takes no memory.
    pub fn leave(&mut self, holder: usize)
        ensures after { IsAfter (Leaves holder) self.old self.new }
        ensures contents { self.new.contents ≡ self.old.contents }
    {
        holds::drop_holder(&mut self.holds, holder);
    }

    /// Copies of the contents that the store began with and of those that were held since, with their trees.
    pub fn contents(&self, alloc: Global) -> Result<Vec<Content>, Memory>
        ensures { IfOk result (λ contents. contents.items ≡ self.now.contents) }
    {
        content::copied(alloc, self.contents.as_slice())
    }

    /// Ends every lease that is out, and leaves the contents as they are. It takes no memory.
    pub fn release_all(&mut self)
        ensures { self.new ≡ record self.old { holds = [] } }
    {
        self.holds.clear();
    }
}

/// Adds elements where there is room for them. It takes no memory.
fn append<T: Drop>(list: &mut Vec<T>, mut more: Vec<T>)
    requires { vec_len list.old + vec_len more ≤ vec_capacity list.old }
    ensures { list.new.items ≡ list.old.items ++ more.items }
{
    list.append(&mut more).unwrap();
}
