/// What there is to say something of, once a plan has ended.
#[derive(Debug, Drop)]
pub struct Findings {
    /// The texts of the files that the words name, in the order of the words; none where not all of them were read.
    pub texts: Vec<Vec<u8>>,
    /// What there is to say of the verdict on a run; nothing where none was judged, and where it was kept.
    pub verdict: String,
}
