// Laws of the definitions. The functions do nothing: what is proved of them, their contracts, are the laws.

ghost use Rattle.std.specs.Prelude.{◌≡◌, ◌≢◌, ◌<◌, ℕ, true, List, [], Some, length};
ghost use Rattle.options.specs.Copy.{are_copy_flags, copy_flags};
ghost use Rattle.options.specs.Mount.{mounts};
ghost use Rattle.options.specs.declared.copy.CopyFlags.{CopyFlags};
ghost use Rattle.options.specs.declared.mount.Mount.{Mount};
ghost use Rattle.words.specs.declared.flag.Flag.{Flag};

/// Where COPY knows all of its flags, `--from` names something, if it is there.
pub fn from_names_something()
    ensures { (flags : List Flag) (said : CopyFlags) (name : List ℕ) → are_copy_flags flags ≡ true → copy_flags flags ≡ Some said
        → said.from ≡ Some name → name ≢ [] }
{}

/// The mode that flags give has permission bits alone: it is at most 07777.
pub fn modes_fit()
    ensures { (flags : List Flag) (said : CopyFlags) (mode : ℕ) → copy_flags flags ≡ Some said → said.mode ≡ Some mode → mode < 4096 }
{}

/// A RUN has as many mounts as flags.
pub fn each_flag_is_a_mount()
    ensures { (flags : List Flag) (found : List Mount) → mounts flags ≡ Some found → length found ≡ length flags }
{}
