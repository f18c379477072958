//! What is shown of a run.
use nv_load::Load;

/// What is shown of a run.
#[derive(Clone, Copy, Debug, PartialEq, Eq)]
pub(crate) enum Show {
    /// Its report.
    Report,
    /// What is counted of it: it is one of generated calls.
    Summary(Load),
}
