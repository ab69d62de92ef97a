/// Which open chunks a flush closes.
#[derive(Clone, Copy, Debug)]
pub enum FlushKind {
    /// Those whose first entry is at least the flush interval old.
    Due,
    /// All of them.
    All,
}
