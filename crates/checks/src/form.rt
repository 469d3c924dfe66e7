/// How faults are shown.
#[derive(Clone, Copy, Debug, PartialEq, Eq)]
pub enum Form {
    /// To a person: each with the lines that it is about, what is wrong and what helps.
    Plain,
    /// To a program: each as a line of JSON, as `sentences::json_line` gives it.
    Json,
}
