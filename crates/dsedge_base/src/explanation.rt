/// What there is to say of words that give no plan.
#[derive(Debug, Drop)]
pub enum Explanation {
    /// Their form is wrong. The parser of command lines says which of them is, how the command is used, and where help
    /// is.
    Form(String),
    /// Their form is right, and `mark` is asked to mark by other workers than 1 to 64.
    Workers,
    /// Their form is right, and another value is none that its option takes, or an option goes with another kind of
    /// meter.
    Value,
}
