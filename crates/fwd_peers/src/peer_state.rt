/// How far a source's connection has come.
#[derive(Clone, Copy)]
pub enum PeerState {
    /// It is read and written.
    Open,
    /// It had a fault: it is read no more, and written until nothing waits.
    Lingering,
    /// It is to go, once what waits was written as far as its stream takes it.
    Over,
}
