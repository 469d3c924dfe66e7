ghost use Rattle.std.specs.Prelude.{◌≡◌, IfOk};
ghost use Rattle.serde_json.specs.Read.{read};
ghost use Rattle.flaws.specs.Flaws.{json_flaw, flaw_within, flaw_in};

use crate::flaw::Flaw;
use crate::kinds::bundle;
use borrowed::FromLentKeyed;
use json::Scratch;
use plain::limits::MOST_BUNDLE_BYTES;
use plain::{Fault, Memory};
use std::alloc::Global;
use std::hash::RandomState;

/// Where a text is wrong as a bundle. What is lent of it ends here.
fn find_in_text<C: FromLentKeyed>(
    alloc: Global,
    keys: RandomState,
    text: &str,
) -> Result<Option<Flaw>, Memory>
    ensures { IfOk result (λ found. found ≡ json_flaw C.reading (read text.now)) }
{
    let mut scratch = Scratch::new(alloc);
    match borrowed::read(alloc, text, &mut scratch) {
        Ok(value) => {
            let found = bundle::<C>(alloc, keys, &value);
            drop(value);
            Ok(found?.map(Flaw::At))
        }
        Err(Fault::Because(_)) => Ok(Some(Flaw::NoJson)),
        Err(Fault::Memory) => Err(Memory),
    }
}

/// Where bytes of which there may be so many are wrong as a bundle.
#[tactic(auto, unfolding(crate::specs::Flaws::flaw_within))]
fn find_within<C: FromLentKeyed>(
    alloc: Global,
    keys: RandomState,
    most: usize,
    bytes: &[u8],
) -> Result<Option<Flaw>, Memory>
    ensures { IfOk result (λ found. found ≡ flaw_within most C.reading bytes.now) }
{
    if bytes.len() > most {
        return Ok(Some(Flaw::TooLong));
    }
    match str::from_utf8(bytes) {
        Ok(text) => find_in_text::<C>(alloc, keys, text),
        Err(error) => Ok(Some(Flaw::NoText(error.valid_up_to()))),
    }
}

/// Where bytes are wrong as a bundle: none if they are one, which `bundle::read_bundle` then reads.
///
/// Of several faults it is the first: of all JSON the keys that aren't known, and then the values in the order of the table in docs/FORMATS.md. It
/// takes no more than twice the time of a reading.
#[tactic(auto, unfolding(plain::specs::Limits::most_bundle_bytes))]
pub fn find<C: FromLentKeyed>(
    alloc: Global,
    keys: RandomState,
    bytes: &[u8],
) -> Result<Option<Flaw>, Memory>
    ensures { IfOk result (λ found. found ≡ flaw_in C.reading bytes.now) }
{
    find_within::<C>(alloc, keys, MOST_BUNDLE_BYTES, bytes)
}
