ghost use Rattle.std.specs.Prelude.{◌≡◌};
ghost use Rattle.expand.specs.Value.{choice_of};

/// What the word of a variable is for.
#[derive(Clone, Copy, Debug, PartialEq, Eq)]
pub enum Operator {
    /// `-`: it stands in for a variable that doesn't pass the test.
    Default,
    /// `+`: it stands in for a variable that passes the test.
    Alternative,
    /// `?`: it says why the text is refused if the variable doesn't pass the test.
    Required,
}

/// What is asked of a variable with a word.
#[derive(Clone, Copy, Debug, PartialEq, Eq)]
pub enum Test {
    /// Without `:`: whether it is set, perhaps to the empty text.
    IsSet,
    /// With `:`: whether it is set and not empty.
    IsFilled,
}

/// What a variable with a word stands for.
#[derive(Clone, Copy, Debug, PartialEq, Eq)]
pub enum Choice {
    /// The variable's own text.
    Own,
    /// The value of the word.
    Word,
    /// The empty text.
    Nothing,
    /// None: the text is refused.
    Refusal,
}

impl Operator {
    /// What a variable with a word stands for if it passes its test, or doesn't.
    pub fn choice(self, passes: bool) -> Choice
        ensures { result ≡ choice_of self passes }
    {
        match (self, passes) {
            (Operator::Default | Operator::Required, true) => Choice::Own,
            (Operator::Default, false) => Choice::Word,
            (Operator::Alternative, true) => Choice::Word,
            (Operator::Alternative, false) => Choice::Nothing,
            (Operator::Required, false) => Choice::Refusal,
        }
    }
}
