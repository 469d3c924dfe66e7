ghost use Rattle.std.specs.Prelude.{◌≡◌};
ghost use Rattle.memo.specs.Key.{key_of, Takes};

use crate::written::Written;
use llb::Op;
use sha2::{Digest, Sha256};

/// The key of an operation. It takes no memory.
///
/// Nobody who writes a Dockerfile can search for operations that share a key in a useful time, as they could for those that share a hash of a
/// graph's vertices. Even then they would be compared one by one, which costs time and changes no answer.
#[tactic(auto, unfolding(crate::specs::Key::key_of))]
pub(crate) fn key_of(op: &Op) -> u64
    ensures { result ≡ key_of op.now }
{
    let mut hasher = Sha256::new();
    op.write_to(&mut hasher);
    let digest = hasher.finalize();
    u64::from_be_bytes([
        digest[0], digest[1], digest[2], digest[3], digest[4], digest[5], digest[6], digest[7],
    ])
}
