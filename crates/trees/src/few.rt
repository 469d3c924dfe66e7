ghost use Rattle.std.specs.Prelude.{◌≡◌, ◌≤◌, IfSome, take};

/// The most bytes of a file that lie in the value itself: as many as a pointer takes, since every entry has room for them.
const SHORT: usize = 8;

/// Few bytes, and how many of them count. Their number is as wide as there is room for beside a tag, so that a copy is one of two whole words.
#[derive(Clone, Copy, Debug, Drop)]
pub(crate) struct Few {
    len: u32,
    bytes: [u8; SHORT],
    ghost fits: { len ≤ 8 },
}

impl Few {
    /// These bytes, if they are few enough.
    pub(crate) fn of(bytes: &[u8]) -> Option<Few>
        ensures { IfSome result (λ few. take few.len few.bytes ≡ bytes.now) }
    {
        if bytes.len() > SHORT {
            return None;
        }
        let mut held = [0; SHORT];
        held[..bytes.len()].copy_from_slice(bytes);
        Some(Few {
            len: bytes.len() as u32,
            bytes: held,
        })
    }

    /// The bytes, lent.
    pub(crate) fn as_slice(&self) -> &[u8]
        ensures { result.now ≡ take self.now.len self.now.bytes }
    {
        &self.bytes[..self.len as usize]
    }
}
