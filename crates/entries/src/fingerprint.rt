// Fingerprints of paths: numbers that tell rows apart without comparing their paths. Rows in no order are read twice, one behind the other,
// and what is sorted are numbers, where a sort of the rows reads the texts of two paths, at places apart, at each comparison. One path has
// one fingerprint, and this is all that is used of them: where two rows have the same one, or a file has that of a path above a row,
// fingerprints tell nothing.

ghost use Rattle.std.specs.Prelude.{◌≡◌, ◌↔◌, true, IfOk, IsTrue, map, nat_eq};
ghost use Rattle.std.specs.List.{list_all, IsDistinct};
ghost use Rattle.std.specs.List.Sorted.{IsStrictlyIncreasing};
ghost use Rattle.entries.specs.Listing.{are_apart};
ghost use Rattle.entries.specs.PrivateFingerprint.{after_byte, after_name, fingerprint, file_fingerprints, is_clear};

use crate::apart::is_file;
use crate::sought::Sought;
use paths::Path;
use plain::{Memory, Text};
use std::alloc::Global;
use trees::Entry;

/// The fingerprint of the root, where FNV-1a of 64 bits begins.
const ROOT: u64 = 0xcbf2_9ce4_8422_2325;

/// What FNV-1a of 64 bits multiplies by.
const PRIME: u64 = 0x0100_0000_01b3;

/// A fingerprint with a byte more, by FNV-1a.
#[tactic(auto, unfolding(crate::specs::PrivateFingerprint::after_byte))]
fn after_byte(number: u64, byte: u8) -> u64
    ensures { result ≡ after_byte number byte }
{
    (number ^ u64::from(byte)).wrapping_mul(PRIME)
}

/// The fingerprint of a path in a directory, of that of the directory.
fn after_name(directory: u64, name: &Text) -> u64
    ensures { result ≡ after_name directory name.now }
{
    let mut number = directory;
    let bytes = name.as_str().as_bytes();
    for byte in bytes {
        number = after_byte(number, *byte);
    }
    after_byte(number, b'/')
}

/// The fingerprint of a path.
#[tactic(auto, unfolding(crate::specs::PrivateFingerprint::root_fingerprint))]
fn fingerprint(path: &Path) -> u64
    ensures { result ≡ fingerprint path.now }
{
    let mut number = ROOT;
    let names = path.components();
    for name in names {
        number = after_name(number, name);
    }
    number
}

/// The fingerprints of all rows' paths, and those of the files' alone, each in the order of the rows.
fn read_fingerprints(alloc: Global, rows: &[(Path, Entry)]) -> Result<(Vec<u64>, Vec<u64>), Memory>
    ensures all { IfOk result (λ numbers. numbers.0.items ≡ map (λ row. fingerprint row.0) rows.now) }
    ensures files { IfOk result (λ numbers. numbers.1.items ≡ file_fingerprints rows.now) }
{
    let mut all = Vec::with_capacity(alloc, rows.len())?;
    let mut files = Vec::with_capacity(alloc, rows.len())?;
    for row in rows {
        let number = fingerprint(&row.0);
        all.push(number)?;
        if is_file(&row.1) {
            files.push(number)?;
        }
    }
    Ok((all, files))
}

/// Whether each number is below the next.
fn rises(numbers: &[u64]) -> bool
    ensures { IsTrue result ↔ IsStrictlyIncreasing numbers.now }
{
    numbers.is_sorted_by(|number, next| *number < *next)
}

/// Whether no two of the numbers are equal.
fn are_distinct(mut numbers: Vec<u64>) -> bool
    ensures { IsTrue result ↔ IsDistinct nat_eq numbers.items }
{
    numbers.sort_unstable();
    rises(numbers.as_slice())
}

/// Whether no path that this one lies below has one of these fingerprints.
#[tactic(auto, unfolding(crate::specs::PrivateFingerprint::root_fingerprint))]
fn is_clear(sought: &mut Sought, path: &Path) -> bool
    ensures clear { result ≡ is_clear sought.old path.now }
    ensures same { sought.new ≡ sought.old }
{
    let mut number = ROOT;
    let names = path.components();
    for name in names {
        if sought.contains(number) {
            return false;
        }
        number = after_name(number, name);
    }
    true
}

/// Whether no path that a row's lies below has one of these fingerprints.
fn all_are_clear(sought: &mut Sought, rows: &[(Path, Entry)]) -> bool
    ensures { result ≡ list_all (λ row. is_clear sought.old row.0) rows.now }
{
    for row in rows {
        if !is_clear(sought, &row.0) {
            return false;
        }
    }
    true
}

/// Whether no path that a row's lies below has one of these fingerprints.
fn are_ways_clear(alloc: Global, numbers: Vec<u64>, rows: &[(Path, Entry)]) -> Result<bool, Memory>
    ensures { IfOk result (λ clear. clear ≡ list_all (λ row. is_clear numbers.items row.0) rows.now) }
{
    let mut sought = Sought::new(alloc, numbers)?;
    Ok(all_are_clear(&mut sought, rows))
}

/// Whether fingerprints tell that no two rows clash: no two rows have one, and no path that a row's lies below has that of a file. Where
/// they don't tell, two rows may still be apart.
pub(crate) fn are_told_apart(alloc: Global, rows: &[(Path, Entry)]) -> Result<bool, Memory>
    ensures { IfOk result (λ told. IsTrue told → are_apart rows.now ≡ true) }
{
    let (all, files) = read_fingerprints(alloc, rows)?;
    let clear = are_ways_clear(alloc, files, rows)?;
    Ok(are_distinct(all) && clear)
}
