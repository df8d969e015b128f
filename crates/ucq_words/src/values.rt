//! What words stand for.

/// What is to be done.
#[derive(Drop)]
pub enum Job {
    /// Read these files, 1 to 64 of them, in this order.
    Files(Vec<String>),
    /// Make the input of this size, 1 to 4,000.
    Make(u32),
}

/// What is printed beside the union of each query.
#[derive(Clone, Copy, Debug, PartialEq, Eq)]
pub enum Mode {
    /// Nothing.
    Plain,
    /// Which queries are contained in which, each query without needless atoms, and which rules the others imply.
    Within,
}

/// What the words stand for.
#[derive(Drop)]
pub struct Settings {
    /// 1 to 64.
    pub workers: u32,
    /// The most rows, 1 to 65,536.
    pub budget: u32,
    /// Whether answers are to be printed.
    pub answers: bool,
    pub mode: Mode,
    pub job: Job,
}
