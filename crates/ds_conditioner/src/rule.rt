/// What is done with frames whose packets leave their last meter red.
#[derive(Clone, Copy, Debug, PartialEq, Eq)]
pub enum RedRule {
    /// They stay in the capture, marked red.
    Keep,
    /// They are left out, with their record's own bytes.
    Drop,
}
