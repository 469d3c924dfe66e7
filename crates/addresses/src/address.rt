ghost use Rattle.std.specs.Prelude.{◌≡◌, false, IfOk};
ghost use Rattle.serde_json.specs.View.{view};
ghost use Rattle.serde_json.specs.Written.{has_float};
ghost use Rattle.addresses.specs.Address.{address_of};

use plain::{Memory, Text};
use serde_json::Value;
use sha2::{Digest, Sha256};
use std::alloc::Global;

/// The address of an operation: `sha256:` and the digest of its compact text.
#[tactic(auto, unfolding(crate::specs::Address::address_of))]
pub fn address_of(alloc: Global, operation: &Value) -> Result<Text, Memory>
    requires { has_float (view operation.now) ≡ false }
    ensures { IfOk result (λ address. address ≡ address_of (view operation.now)) }
{
    let text = operation.to_string(alloc)?;
    let digest = Sha256::digest(text.as_bytes());
    let mut address = String::from_str(alloc, "sha256:")?;
    address.push_str(hex::encode(alloc, digest.as_slice())?.as_str())?;
    Ok(Text::from_string(address))
}
