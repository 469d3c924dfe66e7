/// What quotes do in a text that is expanded.
#[derive(Clone, Copy, Debug, PartialEq, Eq)]
pub enum Kind {
    /// They are the shell's and are removed, as in a word of an instruction.
    Quoted,
    /// They are characters like others, as in a string of the JSON form and in a heredoc's body.
    Unquoted,
}
