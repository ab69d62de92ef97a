//! Laws, each the contract of a function that does nothing.

ghost use Rattle.std.specs.Prelude.{◌≡◌, ◌≢◌, ◌<◌, false, List, [], length};
ghost use Rattle.fwd_session.specs.History.{Setup, SessionHistory, IsSane};
ghost use Rattle.fwd_session.specs.Live.{LiveSession, live_session, session_begins};
ghost use Rattle.fwd_workers.specs.declared.serve.Served.{Served as TheServed};
ghost use Rattle.fwd_workers.specs.declared.serve.Served.TheVariants as served;
ghost use Rattle.fwd_workers.specs.Served.{
  Deed,
  Seen,
  Sends,
  AreTheLinks,
  AreWrittenFirst,
  HasHeard,
  IsAcknowledged,
  IsOver,
  IsServed,
  Lives,
};

/// What a session was told of and heard is what its link took and gave, turn after turn, but when
/// out of memory. So where a turn comes to `Acked`, the whole frame of each chunk that it brought
/// the acknowledgement of was written on that link, and the last byte of a value that names that
/// chunk was read afterwards.
///
/// `acked` says so of a turn of any session. `any` says it of each turn in a session's life, from
/// its beginning on a link that took and gave nothing, also of one that ends with a fault: between
/// its write and its read the link has taken each frame, whole, at the place where the load put it,
/// just behind all that the session had been handed before. `whole` says that a turn that comes to
/// `Acked` brings one acknowledgement at least.
pub fn served_bytes_are_the_links()
    ensures lasts { (s : SessionHistory) (what : TheServed) (t : LiveSession)
        (before after : Seen) → IsSane s → s.down ≡ false → AreTheLinks s before
        → IsServed what (live_session s) t before after → what ≢ served.Memory
        → IsOver t after }
    ensures acked { (s : SessionHistory) (t : LiveSession) (before after : Seen) → IsSane s
        → s.down ≡ false → AreTheLinks s before
        → IsServed served.Acked (live_session s) t before after
        → IsAcknowledged s before after }
    ensures any { (setup : Setup) (deeds : List Deed) (what : TheServed)
        (s middle t : LiveSession) (start before between after : Seen) → start.taken ≡ []
        → start.given ≡ [] → Lives deeds (session_begins setup) s start before
        → s.down ≡ false → Sends s middle before between → HasHeard what middle t between after
        → AreWrittenFirst (record { setup = setup; start = start; deeds = deeds }) s t
        before between after }
    ensures whole { (setup : Setup) (deeds : List Deed) (s middle t : LiveSession)
        (start before between after : Seen) → start.taken ≡ [] → start.given ≡ []
        → Lives deeds (session_begins setup) s start before → s.down ≡ false
        → Sends s middle before between → HasHeard served.Acked middle t between after
        → length s.accepted < length t.accepted }
{}
