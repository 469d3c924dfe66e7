// Whether rows are those of one tree. Where two clash, two neighbours do once rows are sorted by their paths. Most lists are
// written in that order, so rows are sorted, as they are lent, only where they don't follow one another already and fingerprints
// don't tell them apart.

ghost use Rattle.std.specs.Prelude.{◌≡◌, ◌||◌, IfOk, Some, None, map};
ghost use Rattle.std.specs.List.{list_any};
ghost use Rattle.paths.specs.Fronts.{is_front};
ghost use Rattle.trees.specs.TreeMap.{is_file};
ghost use Rattle.entries.specs.Listing.{is_in_way, clash, are_apart, is_root, is_root_file, is_listing};
ghost use Rattle.entries.specs.PrivateOrder.{fits_after, follows, in_order_after};

use crate::fingerprint::are_told_apart;
use paths::Path;
use plain::Memory;
use std::alloc::Global;
use trees::Entry;

/// Whether a path lies below another, at any depth.
fn is_front(front: &Path, path: &Path) -> bool
    ensures { result ≡ is_front front.now path.now }
{
    front.depth() < path.depth() && path.is_at_or_under(front)
}

/// Whether an entry is a file.
pub(crate) fn is_file(entry: &Entry) -> bool
    ensures { result ≡ is_file (Some entry.now) }
{
    match entry {
        Entry::Directory(_) => false,
        Entry::File(_, _) => true,
    }
}

/// Whether a file stands on the way to what another row is of.
fn is_in_way(row: &(Path, Entry), other: &(Path, Entry)) -> bool
    ensures { result ≡ is_in_way row.now other.now }
{
    is_file(&row.1) && is_front(&row.0, &other.0)
}

/// Whether one of two rows is a file on the way to the other.
fn is_either_in_way(row: &(Path, Entry), other: &(Path, Entry)) -> bool
    ensures { result ≡ (is_in_way row.now other.now || is_in_way other.now row.now) }
{
    is_in_way(row, other) || is_in_way(other, row)
}

/// Whether two rows can't stand in one list.
fn clash(row: &(Path, Entry), other: &(Path, Entry)) -> bool
    ensures { result ≡ clash row.now other.now }
{
    row.0 == other.0 || is_either_in_way(row, other)
}

/// Whether no row clashes with the next.
fn neighbours_fit(rows: &[&(Path, Entry)]) -> bool
    ensures { result ≡ fits_after None (map (λ row. row.now) rows.now) }
{
    let mut before: Option<&(Path, Entry)> = None;
    for row in rows {
        if let Some(last) = before {
            if clash(last, row) {
                return false;
            }
        }
        before = Some(*row);
    }
    true
}

/// The rows, lent.
fn lent(alloc: Global, rows: &[(Path, Entry)]) -> Result<Vec<&(Path, Entry)>, Memory>
    ensures { IfOk result (λ lent. map (λ row. row.now) lent.items ≡ rows.now) }
{
    let mut lent = Vec::with_capacity(alloc, rows.len())?;
    for row in rows {
        lent.push(row)?;
    }
    Ok(lent)
}

/// Whether a row comes after another, and not below it where that is a file.
fn follows(last: &(Path, Entry), row: &(Path, Entry)) -> bool
    ensures { result ≡ follows last.now row.now }
{
    last.0.cmp(&row.0).is_lt() && !is_in_way(last, row)
}

/// Whether each row follows the one before it.
fn are_in_order(rows: &[(Path, Entry)]) -> bool
    ensures { result ≡ in_order_after None rows.now }
{
    let mut before: Option<&(Path, Entry)> = None;
    for row in rows {
        if let Some(last) = before {
            if !follows(last, row) {
                return false;
            }
        }
        before = Some(row);
    }
    true
}

/// Whether no two rows clash.
fn are_apart(alloc: Global, rows: &[(Path, Entry)]) -> Result<bool, Memory>
    ensures { IfOk result (λ apart. apart ≡ are_apart rows.now) }
{
    if are_in_order(rows) {
        return Ok(true);
    }
    if are_told_apart(alloc, rows)? {
        return Ok(true);
    }
    let mut sorted = lent(alloc, rows)?;
    sorted.sort_unstable_by(|row, other| row.0.cmp(&other.0));
    Ok(neighbours_fit(sorted.as_slice()))
}

/// Whether a path is that of the root.
fn is_root(path: &Path) -> bool
    ensures { result ≡ is_root path.now }
{
    match path.components() {
        [] => true,
        [_, ..] => false,
    }
}

/// Whether a row is a file that is to be the root.
fn is_root_file(row: &(Path, Entry)) -> bool
    ensures { result ≡ is_root_file row.now }
{
    is_file(&row.1) && is_root(&row.0)
}

/// Whether a row among these is a file that is to be the root.
fn has_root_file(rows: &[(Path, Entry)]) -> bool
    ensures { result ≡ list_any is_root_file rows.now }
{
    for row in rows {
        if is_root_file(row) {
            return true;
        }
    }
    false
}

/// Whether rows are a list of a tree's entries.
#[tactic(auto, unfolding(crate::specs::Listing::is_listing))]
pub(crate) fn is_listing(alloc: Global, rows: &[(Path, Entry)]) -> Result<bool, Memory>
    ensures { IfOk result (λ listed. listed ≡ is_listing rows.now) }
{
    if has_root_file(rows) {
        return Ok(false);
    }
    are_apart(alloc, rows)
}
