//! Laws over the definitions, each the contract of a function that does nothing. A law by cases on
//! events ends in one case for all that change nothing, so that a further event without effect
//! needs only its variant and its line in the step.

ghost use Rattle.std.specs.Prelude.{
  ◌≡◌,
  ◌++◌,
  ◌∷◌,
  ◌&&◌,
  ◌+◌,
  ◌<◌,
  ◌≤◌,
  ◌⊎◌,
  ℕ,
  List,
  [],
  Some,
  None,
  true,
  false,
  length,
  replicate,
  slice_get,
};
ghost use Rattle.std.specs.List.{list_any};
ghost use Rattle.fwd_source.specs.History.{SourceHistory};
ghost use Rattle.fwd_source.specs.Live.{LiveSource};
ghost use Rattle.fwd_model.specs.declared.answer.Answer.TheVariants as answer;
ghost use Rattle.fwd_model.specs.declared.config.Config.{Config};
ghost use Rattle.fwd_model.specs.declared.event.EndKind.{EndKind};
ghost use Rattle.fwd_model.specs.declared.event.Event.{Event};
ghost use Rattle.fwd_model.specs.declared.event.Event.TheVariants as event;
ghost use Rattle.fwd_model.specs.declared.fault.Refusal.TheVariants.{NotNow};
ghost use Rattle.fwd_model.specs.Outcome.{answer_of, state_of, within, is_refusal};
ghost use Rattle.fwd_model.specs.Step.{step, answers, after};
ghost use Rattle.fwd_chunks.specs.Cells.{has_number};
ghost use Rattle.fwd_chunks.specs.Spans.{AreRising};
ghost use Rattle.fwd_chunks.specs.History.{CarriedChunk};
ghost use Rattle.fwd_model.specs.Layers.{Worker};
ghost use Rattle.fwd_model.specs.Outputs.{carried_by, count_at, has_chunk};
ghost use Rattle.fwd_book.specs.History.{Untold, Told, Admission, request_at, untold};
ghost use Rattle.fwd_session.specs.declared.fault.SessionFault.{SessionFault};
ghost use Rattle.fwd_session.specs.ServerAcks.{Accepted};
ghost use Rattle.fwd_session.specs.History.{
  SessionHistory,
  first_in,
  is_handed_on,
  newly_accepted,
  room,
  says,
};
ghost use Rattle.fwd_session.specs.Live.{LiveSession, live_room};
ghost use Rattle.fwd_model.specs.History.{History, Lane, histories, source_at, counts, reports, IsReached};
ghost use Rattle.fwd_model.specs.Names.{Commute, are_unrelated, is_accept};
ghost use Rattle.fwd_model.specs.Delivered.{
  IsDueAt,
  IsTold,
  IsToldAmong,
  IsDelivered,
  IsHandedOn,
  answered,
  HasBegun,
  NoneBegan,
  reached,
  session_of,
};
ghost use Rattle.fwd_model.specs.Live.{
  LiveLane,
  LiveRelay,
  live,
  lives,
  live_relay_counts,
  live_relay_reports,
  live_source_at,
};

/// The live part is enough: from a history that a run reaches, what an event comes to, seen in
/// its live part, is what it comes to at the history's live part.
pub fn live_follows()
    ensures step { (config : Config) (h : History) (e : Event) → IsReached config h →
        within live (step histories h e) ≡ step lives (live h) e }
    ensures counts { (h : History) → counts h ≡ live_relay_counts (live h) }
    ensures reports { (config : Config) (h : History) → IsReached config h →
        reports h ≡ live_relay_reports (live h) }
{}

/// The same over a list of events.
pub fn live_run_follows()
    ensures answers { (config : Config) (h : History) (es : List Event) → IsReached config h →
        answers histories h es ≡ answers lives (live h) es }
    ensures after { (config : Config) (h : History) (es : List Event) → IsReached config h →
        live (after histories h es) ≡ after lives (live h) es }
{}

/// An event that is refused leaves the history as it was, and the live part too.
pub fn refusal_changes_nothing()
    ensures history { (h : History) (e : Event)
        → is_refusal (answer_of (step histories h e)) ≡ true →
        state_of h (step histories h e) ≡ h }
    ensures live { (r : LiveRelay) (e : Event)
        → is_refusal (answer_of (step lives r e)) ≡ true →
        state_of r (step lives r e) ≡ r }
{}

/// Whoever is told was delivered: where a connection was told, among any list of events, that a
/// request of its was acknowledged, the events before had delivered that request.
pub fn told_is_delivered()
    ensures { (config : Config) (es : List Event) (id r o : ℕ) (t : IsTold config es id r o) →
        IsDelivered config t.before id r o }
{}

/// The same of the answers to further events: whoever is told among them was delivered, by what
/// came before.
pub fn told_among_is_delivered()
    ensures { (config : Config) (es events : List Event) (id r o : ℕ)
        (t : IsToldAmong events (answers histories (reached config es) events) id r o) →
        IsDelivered config (es ++ t.before) id r o }
{}

/// A request that a run has marked as told was told by a collect of that run, to its connection.
pub fn marked_is_told()
    ensures { (config : Config) (es : List Event) (o i : ℕ) (l : Lane) (a : Admission) →
        slice_get (reached config es).lanes o ≡ Some l
        → slice_get l.output.book.admissions i ≡ Some a → a.fate ≡ Told →
        IsTold config es a.request.origin.conn a.request.origin.request o }
{}

/// A collect tells its connection just the requests that are due at the output, by rising number:
/// those that the output entered for it, of which nothing became yet, and whose entries are all
/// acknowledged.
pub fn collect_tells_what_is_due()
    ensures told { (config : Config) (es : List Event) (id r o : ℕ) (numbers out : List ℕ)
        (l : Lane) → slice_get (reached config es).lanes o ≡ Some l →
        answered config es (event.Collect id o) ≡ answer.Told numbers out →
        has_number r numbers ≡ true → IsDueAt l id r }
    ensures all { (config : Config) (es : List Event) (id r o : ℕ) (numbers out : List ℕ)
        (l : Lane) → slice_get (reached config es).lanes o ≡ Some l →
        answered config es (event.Collect id o) ≡ answer.Told numbers out →
        IsDueAt l id r → has_number r numbers ≡ true }
    ensures rising { (config : Config) (es : List Event) (id o : ℕ) (numbers out : List ℕ)
        (l : Lane) → slice_get (reached config es).lanes o ≡ Some l →
        answered config es (event.Collect id o) ≡ answer.Told numbers out → AreRising numbers }
{}

/// The request that waits first at a connection was never entered before: no output owes an answer
/// to a request of its connection and number.
pub fn waiting_is_new()
    ensures history { (config : Config) (h : History) (id o : ℕ) (s : SourceHistory) (l : Lane) →
        IsReached config h → source_at id h.connections ≡ Some s → slice_get h.lanes o ≡ Some l →
        request_at (untold l.output.book) (record { conn = id; request = s.admitted + 1 })
        ≡ None }
    ensures live { (config : Config) (h : History) (id o : ℕ) (s : LiveSource) (l : LiveLane) →
        IsReached config h → live_source_at id (live h).connections ≡ Some s →
        slice_get (live h).lanes o ≡ Some l →
        request_at l.output.book.requests (record { conn = id; request = s.admitted + 1 })
        ≡ None }
{}

/// A request without entries is told at the first collect of its connection.
pub fn told_without_entries()
    ensures { (h : History) (o i : ℕ) (s : SourceHistory) (l : Lane) (a : Admission) →
        source_at a.request.origin.conn h.connections ≡ Some s → s.shut ≡ false →
        slice_get h.lanes o ≡ Some l → slice_get l.output.book.admissions i ≡ Some a
        → a.fate ≡ Untold →
        a.request.spans ≡ [] → (numbers out : List ℕ)
        × (answer_of (step histories h (event.Collect a.request.origin.conn o))
        ≡ answer.Told numbers out)
        × (has_number a.request.origin.request numbers ≡ true) }
{}

/// What is heard before the link took the last byte of a chunk's frame does not acknowledge that
/// chunk: each that is acknowledged then was so before, at the same place, or its frame was handed
/// on (`each`). So where no frame is handed on, and none was acknowledged before, nothing is
/// settled (`nothing`).
pub fn early_reply_settles_nothing()
    ensures each { (h : History) (o w i : ℕ) (bytes : List ℕ) (l : Lane) (s t : SessionHistory)
        (a : Accepted) → slice_get h.lanes o ≡ Some l → slice_get l.sessions w ≡ Some (Some s) →
        session_of (state_of h (step histories h (event.Heard o w bytes))) o w ≡ Some t →
        slice_get t.accepted i ≡ Some a →
        slice_get s.accepted i ≡ Some a ⊎ IsHandedOn s a.chunk }
    ensures nothing { (h : History) (o w : ℕ) (bytes : List ℕ) (l : Lane) (s : SessionHistory) →
        slice_get h.lanes o ≡ Some l → slice_get l.sessions w ≡ Some (Some s)
        → s.accepted ≡ [] →
        list_any (is_handed_on s) s.carried ≡ false →
        answer_of
        (step histories (state_of h (step histories h (event.Heard o w bytes)))
        (event.Settle o w))
        ≡ answer.Refused NotNow }
{}

/// The acknowledgements that were accepted before a fault in the same piece stand, each that comes
/// before it: the fault is answered, and the chunk that was accepted first of all that are not
/// settled can be settled (`stands`), and so can each that was accepted, once those before it are
/// (`later`).
pub fn acknowledgement_before_fault_stands()
    ensures each { (s : SessionHistory) (bytes : List ℕ) →
        length (newly_accepted s bytes) ≡ length (says s bytes).replies }
    ensures stands { (h : History) (o w : ℕ) (a : Accepted) (bytes : List ℕ) (l : Lane)
        (s : SessionHistory) (f : SessionFault) →
        slice_get h.lanes o ≡ Some l → slice_get l.sessions w ≡ Some (Some s)
        → s.down ≡ false →
        first_in (s.accepted ++ newly_accepted s bytes) ≡ Some a →
        (says s bytes).fault ≡ Some f →
        (answer_of (step histories h (event.Heard o w bytes)) ≡ answer.SessionFaulted f)
        × (answer_of
        (step histories (state_of h (step histories h (event.Heard o w bytes)))
        (event.Settle o w))
        ≡ answer.Settled (count_at a.chunk.number l.output)) }
    ensures later { (h : History) (o w i : ℕ) (a : Accepted) (bytes : List ℕ) (l m : Lane)
        (s : SessionHistory) (f : SessionFault) →
        slice_get h.lanes o ≡ Some l → slice_get l.sessions w ≡ Some (Some s)
        → s.down ≡ false →
        slice_get (s.accepted ++ newly_accepted s bytes) i ≡ Some a →
        (says s bytes).fault ≡ Some f →
        let settling = event.Heard o w bytes ∷ replicate i (event.Settle o w) in
        slice_get (after histories h settling).lanes o ≡ Some m →
        answer_of (step histories (after histories h settling) (event.Settle o w))
        ≡ answer.Settled (count_at a.chunk.number m.output) }
{}

/// A session begins once: behind its beginning, and before it has ended, no other session of its
/// worker begins. That none ended in between is said by the events (`NoneEnded`); no state
/// remembers it.
pub fn session_begins_once()
    ensures { (config : Config) (es : List Event) (o w : ℕ) (b : HasBegun config es o w) →
        NoneBegan config (b.before ++ event.Up o w b.server b.salt b.moment ∷ []) b.later o w }
{}

/// A worker has no more chunks than its output's window, loaded or not, and where it took one and
/// did not load it, its session has room for it.
pub fn window_is_kept()
    ensures few { (config : Config) (h : History) (o w : ℕ) (l : Lane) (x : Worker SessionHistory)
        → IsReached config h → slice_get h.lanes o ≡ Some l
        → histories.worker_at l w ≡ Some x →
        length (carried_by l.output.buffer w) ≤ l.config.acks.window }
    ensures room { (config : Config) (h : History) (o w : ℕ) (l : Lane) (x : Worker SessionHistory)
        (s : SessionHistory) (c : CarriedChunk) → IsReached config h → slice_get h.lanes o ≡ Some l
        → histories.worker_at l w ≡ Some x → x.session ≡ Some s → x.taken ≡ Some c →
        0 < room s }
    ensures live { (config : Config) (h : History) (o w : ℕ) (l : LiveLane) (x : Worker LiveSession)
        (s : LiveSession) (c : CarriedChunk) → IsReached config h →
        slice_get (live h).lanes o ≡ Some l →
        lives.worker_at l w ≡ Some x → x.session ≡ Some s → x.taken ≡ Some c →
        0 < live_room s }
{}

/// At its session's end a worker gives back all that it has: the numbers that are answered rise,
/// and they are those of its chunks.
pub fn end_gives_back_all()
    ensures rising { (config : Config) (h : History) (o w now : ℕ) (kind : EndKind)
        (numbers : List ℕ) (l : Lane) → IsReached config h → slice_get h.lanes o ≡ Some l →
        answer_of (step histories h (event.End o w kind now)) ≡ answer.Ended numbers →
        AreRising numbers }
    ensures all { (config : Config) (h : History) (o w now : ℕ) (kind : EndKind)
        (numbers : List ℕ) (l : Lane) → IsReached config h → slice_get h.lanes o ≡ Some l →
        answer_of (step histories h (event.End o w kind now)) ≡ answer.Ended numbers →
        (k : ℕ) → has_number k numbers ≡ has_chunk k (carried_by l.output.buffer w) }
{}

/// Events that name nothing in common, and do not both accept a connection, come to the same in
/// either order: from a history that a run reaches each is answered alike, and they lead to one
/// history. Two connections, two outputs, the sessions of two workers, and an output and the
/// session of one of its workers have nothing in common.
pub fn unrelated_events_commute()
    ensures { (config : Config) (h : History) (e f : Event) → IsReached config h →
        are_unrelated e f ≡ true → (is_accept e && is_accept f) ≡ false → Commute h e f }
{}
