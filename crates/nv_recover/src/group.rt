/// A committed group of the log.
#[derive(Clone, Copy, Debug, PartialEq, Eq)]
pub(crate) struct Group {
    pub(crate) leader: u64,
    pub(crate) count: u64,
}
