/// What a connection of a monitor is told.
#[derive(Drop)]
pub enum Reply {
    /// Nothing yet: the bytes so far may still become a request.
    More,
    /// These bytes, behind which the connection is to be closed.
    Bytes(Vec<u8>),
}
