//! Laws over the definitions, each the contract of a function that does nothing.

ghost use Rattle.std.specs.Prelude.{
  ◌≡◌,
  ◌≢◌,
  ◌<◌,
  ◌^◌,
  ℕ,
  List,
  length,
  map,
  take,
  drop,
  Option,
  Some,
  None,
  option_map,
  if◌then◌else◌,
};
ghost use Rattle.fwd_modes.specs.Requests.{Request};
ghost use Rattle.fwd_modes.specs.declared.origin.Origin.{Origin};
ghost use Rattle.fwd_chunks.specs.declared.chunk.Chunk.{Chunk};
ghost use Rattle.fwd_chunks.specs.declared.flush.FlushKind.{FlushKind};
ghost use Rattle.fwd_chunks.specs.declared.chunk_state.ChunkState.TheVariants.{Closed};
ghost use Rattle.fwd_chunks.specs.declared.wanted.Wanted.{Wanted};
ghost use Rattle.fwd_chunks.specs.Cells.{is_carried};
ghost use Rattle.fwd_chunks.specs.declared.span.Span.{Span};
ghost use Rattle.fwd_chunks.specs.History.{
  CarriedChunk,
  BufferSetting,
  BufferHistory,
  opening,
  enters,
  refusal,
  spans_of,
  closing,
  looks,
  given,
  given_for,
  IsGiven,
  carried_chunk_of,
  counts,
};
ghost use Rattle.fwd_chunks.specs.Events.{
  BufferEvent,
  history_next,
  IsReached,
  NumbersRise,
  TagNumbersRise,
  NumbersHaveOneTag,
};
ghost use Rattle.fwd_chunks.specs.Live.{
  LiveBuffer,
  IsCarried,
  live_buffer,
  live_opening,
  live_next,
  live_refusal,
  live_looks,
  live_enters,
  live_spans,
  live_closing,
  live_first_closing,
  live_flushes,
  live_given,
  live_given_for,
  live_takes,
  live_carried_chunk,
  live_carried,
  live_settles,
  live_frees,
  live_counts,
  staged,
};
ghost use Rattle.fwd_chunks.specs.TagCounts.{
  Tagged,
  AddsUp,
  AreTagCounts,
  tag_counts,
  report,
  live_report,
};
ghost use Rattle.fwd_chunks.specs.Free.{IsLeastFree, IsLeastWanted};
ghost use Rattle.fwd_chunks.specs.Soundness.{IsSound};
ghost use Rattle.fwd_chunks.specs.Spans.{run_in, AreRising, AreCutBy, IsHeld, AreHeld, IsGone};

/// The live part is enough: from a history that a run reaches, what an event leaves, seen in its
/// live part, is what it leaves of the history's live part.
pub fn live_follows()
    ensures opening { (setting : BufferSetting)
        → live_buffer (opening setting) ≡ live_opening setting }
    ensures next { (setting : BufferSetting) (h : BufferHistory) (event : BufferEvent)
        → setting.limits.retry_max < 2 ^ 64 →
        IsReached setting h
        → live_buffer (history_next h event) ≡ live_next (live_buffer h) event }
{}

/// What a history answers is what its live part does.
pub fn live_answers()
    ensures refusal { (setting : BufferSetting) (h : BufferHistory) (origin : Origin) (r : Request)
        (now : ℕ) →
        IsReached setting h → refusal h origin r now ≡ live_refusal (live_buffer h) r now }
    ensures spans { (setting : BufferSetting) (h : BufferHistory) (origin : Origin) (r : Request)
        (now : ℕ) →
        IsReached setting h → spans_of h origin r now ≡ live_spans (live_buffer h) r now }
    ensures closing { (setting : BufferSetting) (h : BufferHistory) (now : ℕ)
        (kind : FlushKind) →
        IsReached setting h
        → length (closing h now kind) ≡ length (live_closing (live_buffer h) now kind) }
    ensures given { (setting : BufferSetting) (h : BufferHistory) (wanted : Wanted)
        → setting.limits.retry_max < 2 ^ 64 →
        IsReached setting h
        → option_map (carried_chunk_of h) (given_for h wanted)
        ≡ option_map (live_carried_chunk (live_buffer h)) (live_given_for (live_buffer h) wanted) }
    ensures carried { (setting : BufferSetting) (h : BufferHistory) (number : ℕ)
        → IsReached setting h →
        live_carried (live_buffer h) number
        ≡ (if is_carried number h.carried then Some (carried_chunk_of h number) else None) }
    ensures counts { (h : BufferHistory) → counts h ≡ live_counts (live_buffer h) }
{}

/// What is held of each tag: each tag that an entry has stands once, by rising bytes, and no other,
/// each with how many of the entries have it, at least one, and their bytes. Over all tags these
/// add up to what is held. The history's report is that of its live part.
pub fn tags_add_up()
    ensures counts { (held : List Tagged) → AreTagCounts held (tag_counts held) }
    ensures adds_up { (b : LiveBuffer) → IsSound b → AddsUp (live_report b) }
    ensures live { (setting : BufferSetting) (h : BufferHistory) → IsReached setting h
        → report h ≡ live_report (live_buffer h) }
{}

/// The number that a worker is given is free, and no free number is below it; where none is
/// given, none is free.
pub fn given_is_least()
    ensures is { (h : BufferHistory) → IsGiven h (given h) }
    ensures only { (h : BufferHistory) (answer : Option ℕ) → IsGiven h answer
        → answer ≡ given h }
{}

/// The same of the live buffer, in words that share nothing with its search: at each moment the
/// chunk that a worker is given is free, and no free chunk has a lower number; where none is given,
/// none is free.
pub fn live_given_is_least()
    ensures is { (b : LiveBuffer) (now : ℕ) → IsSound b →
        IsLeastFree (live_looks b now) (live_given (live_looks b now)) }
    ensures only { (b : LiveBuffer) (now : ℕ) (answer : Option Chunk) → IsSound b →
        IsLeastFree (live_looks b now) answer → answer ≡ live_given (live_looks b now) }
{}

/// The same for what a worker wants: at each moment the chunk that it is given is free and one that
/// it wants, and no such chunk has a lower number; where none is given, there is none.
pub fn live_given_is_wanted()
    ensures is { (b : LiveBuffer) (wanted : Wanted) (now : ℕ) → IsSound b →
        IsLeastWanted (live_looks b now) wanted (live_given_for (live_looks b now) wanted) }
    ensures only { (b : LiveBuffer) (wanted : Wanted) (now : ℕ) (answer : Option Chunk) →
        IsSound b → IsLeastWanted (live_looks b now) wanted answer →
        answer ≡ live_given_for (live_looks b now) wanted }
{}

/// If no chunk is free that a worker wants, and a flush closes some, the worker is given the first of
/// these: chunks that are closed for a worker are closed for one that takes one of them.
pub fn closed_is_given()
    ensures { (b : LiveBuffer) (wanted : Wanted) (now : ℕ) (kind : FlushKind) → IsSound b →
        live_given_for (live_looks b now) wanted ≡ None →
        live_given_for (live_looks (live_flushes b now kind) now) wanted
        ≡ option_map (staged Closed) (live_first_closing b now kind) }
{}

/// Every live buffer that a run reaches is sound.
pub fn reached_is_sound()
    ensures { (setting : BufferSetting) (h : BufferHistory) → setting.limits.first < 2 ^ 64
        → setting.limits.retry_max < 2 ^ 64 →
        IsReached setting h → IsSound (live_buffer h) }
{}

/// Numbers rise: in list order those of one tag never fall, nor do those of one request's
/// entries; and all entries of a number have one tag.
pub fn numbers_rise()
    ensures tags { (setting : BufferSetting) (h : BufferHistory) → IsReached setting h
        → TagNumbersRise h.cells }
    ensures request { (setting : BufferSetting) (h : BufferHistory) (origin : Origin) (r : Request)
        (now : ℕ) →
        IsReached setting h → NumbersRise (drop (length h.cells) (enters h origin r now).cells) }
    ensures one_tag { (setting : BufferSetting) (h : BufferHistory) → IsReached setting h
        → NumbersHaveOneTag h.cells }
{}

/// The runs that a request's entries take cut them to the last, their numbers rise, and once it is
/// entered the chunks hold them. What a worker has of a chunk has the runs that the chunk holds.
pub fn spans_are_held()
    ensures cut { (b : LiveBuffer) (r : Request) (now : ℕ) → IsSound b →
        AreCutBy (live_spans b r now) r.entries }
    ensures rising { (b : LiveBuffer) (r : Request) (now : ℕ) → IsSound b →
        AreRising (map (λ s. s.number) (live_spans b r now)) }
    ensures held { (b : LiveBuffer) (r : Request) (now : ℕ) → IsSound b →
        AreHeld (live_enters b r now).chunks r.tag (live_spans b r now) r.entries }
    ensures carried { (b : LiveBuffer) (load : CarriedChunk) (tag : List ℕ) (s : Span)
        (own : List (List ℕ)) → IsSound b → IsCarried b load → s.number ≡ load.number →
        IsHeld b.chunks tag s own
        → (load.tag ≡ tag) × (run_in load.entries s ≡ take s.count own) }
{}

/// A run stays in its chunk until that is settled, and a number whose chunk is settled gets no
/// other.
pub fn held_stays()
    ensures enters { (b : LiveBuffer) (r : Request) (now : ℕ) (tag : List ℕ) (s : Span)
        (own : List (List ℕ)) → IsSound b → IsHeld b.chunks tag s own →
        IsHeld (live_enters b r now).chunks tag s own }
    ensures flushes { (b : LiveBuffer) (now : ℕ) (kind : FlushKind) (tag : List ℕ) (s : Span)
        (own : List (List ℕ)) → IsHeld b.chunks tag s own →
        IsHeld (live_flushes b now kind).chunks tag s own }
    ensures takes { (b : LiveBuffer) (worker : ℕ) (wanted : Wanted) (now : ℕ) (tag : List ℕ)
        (s : Span) (own : List (List ℕ)) → IsHeld b.chunks tag s own →
        IsHeld (live_takes b worker wanted now).chunks tag s own }
    ensures frees { (b : LiveBuffer) (number : ℕ) (loss : Option ℕ) (tag : List ℕ) (s : Span)
        (own : List (List ℕ)) → IsHeld b.chunks tag s own →
        IsHeld (live_frees b number loss).chunks tag s own }
    ensures settles { (b : LiveBuffer) (number : ℕ) (tag : List ℕ) (s : Span)
        (own : List (List ℕ)) → s.number ≢ number → IsHeld b.chunks tag s own →
        IsHeld (live_settles b number).chunks tag s own }
    ensures gone { (b : LiveBuffer) (load : CarriedChunk) → IsSound b → IsCarried b load →
        IsGone (live_settles b load.number) load.number }
    ensures gone_enters { (b : LiveBuffer) (r : Request) (now n : ℕ) → IsSound b → IsGone b n →
        IsGone (live_enters b r now) n }
    ensures gone_flushes { (b : LiveBuffer) (now : ℕ) (kind : FlushKind) (n : ℕ) → IsGone b n →
        IsGone (live_flushes b now kind) n }
    ensures gone_takes { (b : LiveBuffer) (worker : ℕ) (wanted : Wanted) (now n : ℕ) → IsGone b n →
        IsGone (live_takes b worker wanted now) n }
    ensures gone_frees { (b : LiveBuffer) (number : ℕ) (loss : Option ℕ) (n : ℕ) → IsGone b n →
        IsGone (live_frees b number loss) n }
    ensures gone_settles { (b : LiveBuffer) (number n : ℕ) → IsGone b n →
        IsGone (live_settles b number) n }
{}
