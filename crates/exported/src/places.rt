// Where trees are in a definition, and the numbers by which an operation speaks of its inputs.

ghost use Rattle.std.specs.Prelude.{◌≡◌, pos, length, IfOk, OnOk};
ghost use Rattle.exported.specs.Places.{digest_of, number_of, with_place, inputs_of, index_in, index_at};

use plain::{Exact, Items, Memory, Text};
use sha2::{Digest, Sha256};
use std::alloc::Global;

/// The digest of an operation, by its bytes.
#[tactic(auto, unfolding(crate::specs::Places::digest_of))]
pub fn digest_of(alloc: Global, bytes: &[u8]) -> Result<Text, Memory>
    ensures { IfOk result (λ digest. digest ≡ digest_of bytes.now) }
{
    let digest = Sha256::digest(bytes);
    let mut text = String::from_str(alloc, "sha256:")?;
    text.push_str(hex::encode(alloc, digest.as_slice())?.as_str())?;
    Ok(Text::from_string(text))
}

/// The number of a digest among others; how many they are where it isn't one of them.
pub(crate) fn number_of(digests: &[Text], digest: &Text) -> usize
    ensures { result ≡ number_of digests.now digest.now }
{
    for (number, other) in digests.iter().enumerate() {
        if other == digest {
            return number;
        }
    }
    digests.len()
}

/// Adds the digest of a place, if it isn't there.
fn add_place(alloc: Global, digests: &mut Items<Text>, place: &Option<Text>) -> Result<(), Memory>
    ensures { OnOk result (digests.new ≡ with_place digests.old place.now) }
{
    let Some(digest) = place else {
        return Ok(());
    };
    if number_of(digests.as_slice(), digest) == digests.len() {
        digests.push(digest.copy(alloc)?)?;
    }
    Ok(())
}

/// The inputs of an operation on the trees of these places.
pub(crate) fn inputs_of(alloc: Global, places: &[Option<Text>]) -> Result<Items<Text>, Memory>
    ensures { IfOk result (λ digests. digests ≡ inputs_of places.now) }
{
    let mut digests = Items::new(alloc);
    for place in places {
        add_place(alloc, &mut digests, place)?;
    }
    Ok(digests)
}

/// A number as an index of LLB.
pub(crate) fn index(number: usize) -> Result<i64, Memory>
    ensures { IfOk result (λ index. index ≡ pos number) }
{
    // So many values as other numbers would count fit no memory.
    match i64::try_from(number) {
        Ok(index) => Ok(index),
        Err(_) => Err(Memory),
    }
}

/// The number of the input that has the tree of a place; -1 for the empty tree.
pub(crate) fn index_in(digests: &[Text], place: &Option<Text>) -> Result<i64, Memory>
    ensures { IfOk result (λ index. index ≡ index_in digests.now place.now) }
{
    match place {
        None => Ok(-1),
        Some(digest) => index(number_of(digests, digest)),
    }
}

/// The same of the place of this number among some; -1 where there is none.
pub(crate) fn index_at(
    digests: &[Text],
    places: &[Option<Text>],
    number: usize,
) -> Result<i64, Memory>
    ensures { IfOk result (λ index. index ≡ index_at digests.now places.now number) }
{
    match places.get(number) {
        Some(place) => index_in(digests, place),
        None => Ok(-1),
    }
}
