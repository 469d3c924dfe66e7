// What the definitions of holds come to: each function's contract is one law, and its body is empty.
ghost use Rattle.std.specs.Prelude.{◌≡◌, ℕ, true, List, Option, Some, map, slice_get};
ghost use Rattle.trees.specs.TreeMap.{TreeMap};
ghost use Rattle.cachemounts.specs.Content.{common_content, tree_in, tree_at_first};
ghost use Rattle.cachemounts.specs.Holds.{is_common, is_lawful, lowest_free, free_number, IsLowestFree, IsFreeNumber};
ghost use Rattle.cachemounts.specs.declared.holds.Access.TheVariants.{Alone};
ghost use Rattle.cachemounts.specs.declared.holds.Hold.{Hold};

/// Where no two holds clash, whoever holds the common content of a cache alone is the only one who holds it.
pub fn a_locked_holder_is_alone()
    ensures { (holds : List Hold) → is_lawful holds ≡ true → (i j : ℕ) (hold other : Hold)
        → slice_get holds i ≡ Some hold → slice_get holds j ≡ Some other
        → hold.access ≡ Alone → is_common other.access ≡ true → hold.id ≡ other.id → i ≡ j }
{}

/// A private use gets the lowest slot that nobody holds.
pub fn the_lowest_free_slot_is_found()
    ensures { (holds : List Hold) (id : List ℕ) → IsLowestFree holds id (lowest_free holds id) }
{}

/// A lease that has a cache gets the least number of a holder that holds nothing.
pub fn the_least_free_number_is_found()
    ensures { (holds : List Hold) → IsFreeNumber holds (free_number holds) }
{}

/// What is in the contents of a store that begins with common contents.
pub fn a_store_begins_with_common_contents()
    ensures { (rows : List (List ℕ × TreeMap)) (id : List ℕ) (slot : Option ℕ) → tree_in (map common_content rows) id slot ≡ tree_at_first rows id slot }
{}
