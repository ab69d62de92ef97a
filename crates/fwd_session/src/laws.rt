//! Laws, each the contract of a function that does nothing.

ghost use Rattle.std.specs.Prelude.{
  ◌≡◌,
  ◌≤◌,
  ℕ,
  List,
  ◌∷◌,
  ◌++◌,
  true,
  false,
  length,
  take,
  drop,
};
ghost use Rattle.std.specs.List.{concat, AllByRecursion};
ghost use Rattle.fwd_msgpack.specs.declared.fault.ScanFault.{ScanFault};
ghost use Rattle.fwd_msgpack.specs.Scans.{Whole, Short, Bad, first_of};
ghost use Rattle.fwd_handshake.specs.declared.credentials.Login.{Login};
ghost use Rattle.fwd_chunks.specs.History.{CarriedChunk};
ghost use Rattle.fwd_session.specs.declared.fault.SessionFault.{SessionFault};
ghost use Rattle.fwd_session.specs.declared.fault.SessionFault.TheVariants.{BadReply};
ghost use Rattle.fwd_session.specs.declared.handshake.Handshake.{Handshake};
ghost use Rattle.fwd_session.specs.declared.told.SessionHeard.TheVariants.{Fault, NotUp};
ghost use Rattle.fwd_session.specs.Said.{
  Awaited,
  said_in,
  word_of,
  word_then,
  silence,
  failing,
  reply_stream,
  rest_of,
};
ghost use Rattle.fwd_session.specs.History.{
  Setup,
  SessionHistory,
  IsSane,
  IsFramed,
  IsAcknowledged,
  is_ready,
  room,
  is_late,
  to_send,
  acked,
  newly_accepted,
  piece_told,
  piece_out,
  begins,
  loads,
  sends,
  hears,
  unloads,
  looks,
};
ghost use Rattle.fwd_session.specs.Live.{
  LiveSession,
  live_session,
  live_is_ready,
  live_room,
  live_is_late,
  live_acked,
  live_piece_told,
  live_piece_out,
  session_begins,
  session_loads,
  session_sends,
  session_hears,
  session_hears_all,
  session_unloads,
  session_looks,
};

use crate::limits::{REPLY_LIMIT, REPLY_NESTING, WINDOW_LIMIT};

/// What bytes say, by what stands at their front: a value, less than one, or no value.
pub fn said_by_front()
    ensures whole { (login : Login) (salt : List ℕ) (at : Handshake) (awaited : List Awaited)
        (bytes : List ℕ) (used : ℕ) → first_of REPLY_LIMIT REPLY_NESTING bytes ≡ Whole used →
        said_in login salt at awaited (reply_stream bytes)
        ≡ word_then at awaited (take used bytes) (word_of login salt at awaited (take used bytes))
        (λ next left. said_in login salt next left (reply_stream (drop used bytes))) }
    ensures behind { (bytes : List ℕ) (used : ℕ)
        → first_of REPLY_LIMIT REPLY_NESTING bytes ≡ Whole used →
        rest_of (reply_stream bytes) ≡ rest_of (reply_stream (drop used bytes)) }
    ensures short { (login : Login) (salt : List ℕ) (at : Handshake) (awaited : List Awaited)
        (bytes : List ℕ) → first_of REPLY_LIMIT REPLY_NESTING bytes ≡ Short →
        said_in login salt at awaited (reply_stream bytes) ≡ silence at }
    ensures rest { (bytes : List ℕ) → first_of REPLY_LIMIT REPLY_NESTING bytes ≡ Short →
        rest_of (reply_stream bytes) ≡ bytes }
    ensures bad { (login : Login) (salt : List ℕ) (at : Handshake) (awaited : List Awaited)
        (bytes : List ℕ) (fault : ScanFault)
        → first_of REPLY_LIMIT REPLY_NESTING bytes ≡ Bad fault →
        said_in login salt at awaited (reply_stream bytes) ≡ failing BadReply at }
{}

/// However the bytes are cut, the same session is left.
pub fn pieces_are_one()
    ensures { (s : LiveSession) (bytes : List ℕ) (pieces : List (List ℕ))
        → session_hears_all s (bytes ∷ pieces) ≡ session_hears s (concat (bytes ∷ pieces)) }
{}

/// The live part is enough: what happens to a session's history happens alike to its live part, and
/// what is asked of it is answered alike.
pub fn live_follows()
    ensures begins { (setup : Setup) → live_session (begins setup) ≡ session_begins setup }
    ensures ready { (s : SessionHistory) → is_ready s ≡ live_is_ready (live_session s) }
    ensures room { (s : SessionHistory) → room s ≡ live_room (live_session s) }
    ensures late { (s : SessionHistory) (now : ℕ)
        → is_late s now ≡ live_is_late (live_session s) now }
    ensures acked { (s : SessionHistory) → acked s ≡ live_acked (live_session s) }
    ensures told { (s : SessionHistory) (bytes : List ℕ) → IsSane s →
        piece_told s bytes ≡ live_piece_told (live_session s) bytes }
    ensures out { (s : SessionHistory) (bytes : List ℕ) → IsSane s →
        piece_out s bytes ≡ live_piece_out (live_session s) bytes }
    ensures loads { (s : SessionHistory) (c : CarriedChunk) (now : ℕ) → IsSane s → s.down ≡ false
        → live_session (loads s c now) ≡ session_loads (live_session s) c now }
    ensures sends { (s : SessionHistory) (count : ℕ) →
        live_session (sends s count) ≡ session_sends (live_session s) count }
    ensures hears { (s : SessionHistory) (bytes : List ℕ) → IsSane s →
        live_session (hears s bytes) ≡ session_hears (live_session s) bytes }
    ensures unloads { (s : SessionHistory) →
        live_session (unloads s) ≡ session_unloads (live_session s) }
    ensures looks { (s : SessionHistory) (now : ℕ) → s.down ≡ false →
        live_session (looks s now) ≡ session_looks (live_session s) now }
{}

/// What holds of every session's history, at the beginning and after each step.
pub fn stays_sane()
    ensures begins { (setup : Setup) → IsSane (begins setup) }
    ensures loads { (s : SessionHistory) (c : CarriedChunk) (now : ℕ) → IsSane s
        → IsSane (loads s c now) }
    ensures sends { (s : SessionHistory) (count : ℕ) → IsSane s → s.down ≡ false →
        count ≤ length (to_send s) → IsSane (sends s count) }
    ensures hears { (s : SessionHistory) (bytes : List ℕ) → IsSane s
        → IsSane (hears s bytes) }
    ensures unloads { (s : SessionHistory) → IsSane s → IsSane (unloads s) }
    ensures looks { (s : SessionHistory) (now : ℕ) → IsSane s → s.down ≡ false →
        IsSane (looks s now) }
{}

/// The frame of each chunk that is not acknowledged stands whole among what was appended, from the
/// load on, through the byte that its chunk tells. The session is loaded only where it is ready.
pub fn stays_framed()
    ensures begins { (setup : Setup) → IsFramed (begins setup) }
    ensures loads { (s : SessionHistory) (c : CarriedChunk) (now : ℕ) → IsFramed s
        → is_ready s ≡ true → IsFramed (loads s c now) }
    ensures sends { (s : SessionHistory) (count : ℕ) → IsFramed s → IsFramed (sends s count) }
    ensures hears { (s : SessionHistory) (bytes : List ℕ) → IsSane s → IsFramed s
        → IsFramed (hears s bytes) }
    ensures unloads { (s : SessionHistory) → IsFramed s → IsFramed (unloads s) }
    ensures looks { (s : SessionHistory) (now : ℕ) → IsFramed s → IsFramed (looks s now) }
{}

/// Only a chunk whose whole frame is handed on is acknowledged, and only by a value that names it:
/// each that a piece brings, and so each that joins those that are accepted.
pub fn accepts_handed_on()
    ensures acknowledged { (s : SessionHistory) (bytes : List ℕ) →
        AllByRecursion (IsAcknowledged s bytes) (newly_accepted s bytes) }
    ensures joins { (s : SessionHistory) (bytes : List ℕ) → s.down ≡ false →
        (hears s bytes).accepted ≡ s.accepted ++ newly_accepted s bytes }
    ensures room { (s : SessionHistory) (bytes : List ℕ) → room (hears s bytes) ≡ room s }
{}

/// A fault puts a session down, and so does lateness; once it is down no piece changes anything.
pub fn faults_put_down()
    ensures fault { (s : LiveSession) (bytes : List ℕ) (fault : SessionFault) →
        live_piece_told s bytes ≡ Fault fault → (session_hears s bytes).down ≡ true }
    ensures late { (s : LiveSession) (now : ℕ) → live_is_late s now ≡ true →
        (session_looks s now).down ≡ true }
    ensures refused { (s : LiveSession) (bytes : List ℕ) → s.down ≡ true →
        live_piece_told s bytes ≡ NotUp }
    ensures unchanged { (s : LiveSession) (bytes : List ℕ) → s.down ≡ true →
        session_hears s bytes ≡ s }
    ensures not_ready { (s : LiveSession) → s.down ≡ true → live_is_ready s ≡ false }
{}

/// The limits of a server's replies, in bytes and in arrays and maps that stand one in another, and
/// of a session's chunks.
pub fn reply_limits()
    ensures bytes { REPLY_LIMIT ≡ 65536 }
    ensures nesting { REPLY_NESTING ≡ 64 }
    ensures window { WINDOW_LIMIT ≡ 8 }
{}
