// What the flags of COPY and RUN say: `--from`, `--chown`, `--chmod` and `--link`, and the mounts of `--mount`.
//
// It is given flags as `words` cuts them, and reads their names and values. It knows nothing else of a line, and doesn't say in which
// order faults are told: each call answers for one fault alone, whatever the others are. A stage, an image or a path that a flag names
// isn't looked for here.
//
// The central definitions are `copy_flags` in specs/Copy.antt and `mounts` in specs/Mount.antt: what a list of flags says, where their
// values are well-formed. `laws` says what follows of flags that COPY and RUN know.
//
// ```
// let (flags, rest) = flags(alloc, "--from=a --chown=1 --link f /d")?;
// are_copy_flags(flags.as_slice())            // true
// copy_flags(alloc, flags.as_slice())?        // from `a`, owner 1:1, no mode, linked
// ```
#![tactic(auto)]

mod copy;
mod item;
pub mod laws;
mod mount;
mod numbers;
mod value;

pub use copy::{CopyFlags, are_copy_flags, copy_flags, has_from};
pub use mount::{Mount, MountKind, are_mount_flags, mounts};
