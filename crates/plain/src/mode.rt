ghost use Rattle.std.specs.Prelude.{◌≡◌, ◌<◌, SomeIff};

use crate::{Exact, Memory};
use std::alloc::Global;
use std::marker::Model;

/// The permission bits of a file or a directory, from 0 to 07777: those of read, write and execute for owner, group and
/// others, and above them set-user-id, set-group-id and sticky (`chmod` of POSIX). What kind of entry it is isn't in them.
#[derive(Clone, Copy, Debug)]
pub struct Mode {
    bits: u16,
}

impl Model for Mode {
    ghost use Rattle.std.specs.Prelude.{ℕ, ◌<◌};
    ghost use Rattle.std.specs.Coded.{coded_ℕ};

    ghost Value = { ℕ };

    ghost coded = { coded_ℕ };

    ghost view = { λ m. m.bits };

    ghost inverse = { λ n. record { bits = n } };

    ghost invariant = { λ m. m.bits < 4096 };
}

impl Mode {
    /// The mode of these bits; `None` exactly where they are above 07777.
    pub fn new(bits: u16) -> Option<Mode>
        ensures { SomeIff result (bits < 4096) bits }
    {
        if bits < 4096 {
            Some(Mode { bits })
        } else {
            None
        }
    }

    /// The bits, from 0 to 07777.
    pub fn bits(self) -> u16
        ensures value { result ≡ self }
        ensures small { result < 4096 }
    {
        self.bits
    }

    /// 0755: the mode of a directory for which nothing else is said.
    pub fn directory() -> Mode
        ensures { result ≡ 493 }
    {
        Mode { bits: 0o755 }
    }

    /// 0644: the mode of a file for which nothing else is said.
    pub fn file() -> Mode
        ensures { result ≡ 420 }
    {
        Mode { bits: 0o644 }
    }
}

impl PartialEq for Mode {
    ghost use Rattle.std.specs.Prelude.{nat_eq};
    ghost use Rattle.std.specs.Cmp.{nat_eq_equiv, partial_equiv_from_equiv};

    ghost eq = { nat_eq };

    ghost laws = { partial_equiv_from_equiv nat_eq_equiv };

    fn eq(&self, other: &Mode) -> bool {
        self.bits == other.bits
    }
}

impl Eq for Mode {
    ghost use Rattle.std.specs.Cmp.{nat_eq_equiv};

    ghost laws = { nat_eq_equiv };
}

impl Exact for Mode {
    fn same(&self, other: &Mode) -> bool {
        self.bits == other.bits
    }

    fn copy(&self, _alloc: Global) -> Result<Mode, Memory> {
        Ok(*self)
    }
}
