ghost use Rattle.std.specs.Prelude.{◌≡◌, true};
ghost use Rattle.ascii.specs.Names.{is_name};

/// A heredoc's mark as it is written, with its name lent.
#[derive(Clone, Copy)]
pub struct WrittenMark<'a> {
    pub name: &'a [u8],
    pub quoted: bool,
    pub strips: bool,
    ghost has_name: { is_name name.now ≡ true },
}
