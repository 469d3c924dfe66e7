use plain::Text;

/// What one variable of an ENV or an ARG says of its name.
#[derive(Debug, Drop)]
pub enum Declaration {
    /// The name has the value, whatever any ARG says of it.
    Env { name: Text, value: Text },
    /// The name is declared, and has the value if there is one.
    Arg { name: Text, value: Option<Text> },
}
