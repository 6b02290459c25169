//! The formats of a job.

/// The format of a job, which its first line gives.
#[derive(Clone, Copy, Debug, PartialEq, Eq)]
pub enum Format {
    /// The third matrix of an operator is not written: it is the first unit vectors.
    One,
    /// All three matrices of an operator are written.
    Two,
}
