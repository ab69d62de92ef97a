//! Laws, each the contract of a function that does nothing,
//! or no more than the calls of which it speaks.

ghost use Rattle.std.specs.Prelude.{◌≡◌, ◌≤◌, ◌<◌, ◌+◌, ◌^◌, ℕ, List, ◌∷◌, None, true, false, length, take, drop};
ghost use Rattle.std.specs.List.{concat};
ghost use Rattle.fwd_msgpack.specs.declared.fault.ScanFault.{ScanFault};
ghost use Rattle.fwd_msgpack.specs.declared.limits.Limits.{Limits as ValueLimits};
ghost use Rattle.fwd_msgpack.specs.Scans.{Whole, Short, Bad, first_of, split_of, values_of};
ghost use Rattle.fwd_modes.specs.Requests.{Request};
ghost use Rattle.fwd_source.specs.declared.fault.SourceFault.{SourceFault};
ghost use Rattle.fwd_source.specs.declared.fault.SourceFault.TheVariants.{Scan};
ghost use Rattle.fwd_source.specs.declared.piece.Piece.TheVariants.{Fault, Closed};
ghost use Rattle.fwd_source.specs.Asked.{requests_in, leftmost_fault};
ghost use Rattle.fwd_source.specs.Judged.{AwaitedPing, judged_of, value_then, resting, failed};
ghost use Rattle.fwd_source.specs.History.{Setup, SourceHistory, IsSane, opened, is_closed, waiting, unsent, new_pong, hears, piece_next, piece_answer, gives, appends, drains, shuts};
ghost use Rattle.fwd_source.specs.Live.{LiveSource, live_source, opened_source, judged_piece, source_hears, source_gives, source_appends, source_drains, source_shuts, live_piece_next, live_piece_answer, live_pieces_next};

use crate::source::Source;
use fwd_base::Bytes;

/// What bytes say, by what stands at their front: a value, less than one, or a fault.
pub fn judged_by_front()
    ensures whole { (limits : ValueLimits) (awaited : AwaitedPing) (n : ℕ) (bytes : List ℕ)
        (used : ℕ)
        → first_of limits.bytes limits.depth bytes ≡ Whole used
        → judged_of limits awaited n bytes
        ≡ value_then limits.depth awaited n (take used bytes)
        (λ g k. judged_of limits g k (drop used bytes)) }
    ensures short { (limits : ValueLimits) (awaited : AwaitedPing) (n : ℕ) (bytes : List ℕ)
        → first_of limits.bytes limits.depth bytes ≡ Short
        → judged_of limits awaited n bytes ≡ resting awaited bytes }
    ensures bad { (limits : ValueLimits) (awaited : AwaitedPing) (n : ℕ) (bytes : List ℕ)
        (fault : ScanFault)
        → first_of limits.bytes limits.depth bytes ≡ Bad fault
        → judged_of limits awaited n bytes ≡ failed (Scan fault) }
{}

/// Where no PING is awaited, a connection's requests are those of its values before the leftmost
/// fault, in order, nil left out: a value that is no request, or what begins no value behind them
/// all. Asked is only that no request has a number past the last.
pub fn requests_are_values()
    ensures requests { (limits : ValueLimits) (n : ℕ) (bytes : List ℕ)
        → n + length (values_of (split_of limits.bytes limits.depth bytes)) < 2 ^ 64
        → (judged_of limits None n bytes).requests
        ≡ requests_in limits.depth (split_of limits.bytes limits.depth bytes) }
    ensures fault { (limits : ValueLimits) (n : ℕ) (bytes : List ℕ)
        → n + length (values_of (split_of limits.bytes limits.depth bytes)) < 2 ^ 64
        → (judged_of limits None n bytes).fault
        ≡ leftmost_fault limits.depth (split_of limits.bytes limits.depth bytes) }
{}

/// However the bytes are cut, the same source is left.
pub fn pieces_are_one()
    ensures { (s : LiveSource) (bytes : List ℕ) (pieces : List (List ℕ))
        → live_pieces_next s (bytes ∷ pieces)
        ≡ live_piece_next s (concat (bytes ∷ pieces)) }
{}

/// The live part is enough: what happens to a connection's history happens alike to its live part,
/// and a piece is told the same.
pub fn live_source_follows()
    ensures opened { (setup : Setup) → live_source (opened setup) ≡ opened_source setup }
    ensures hears { (s : SourceHistory) (bytes : List ℕ) → IsSane s → is_closed s ≡ false
        → live_source (hears s bytes) ≡ source_hears (live_source s) bytes }
    ensures piece { (s : SourceHistory) (bytes : List ℕ) → IsSane s
        → live_source (piece_next s bytes) ≡ live_piece_next (live_source s) bytes }
    ensures answer { (s : SourceHistory) (bytes : List ℕ) → IsSane s
        → piece_answer s bytes ≡ live_piece_answer (live_source s) bytes }
    ensures pong { (s : SourceHistory) (bytes : List ℕ) → IsSane s → is_closed s ≡ false →
        new_pong s bytes ≡ (judged_piece (live_source s) bytes).pong }
    ensures gives { (s : SourceHistory) → live_source (gives s) ≡ source_gives (live_source s) }
    ensures appends { (s : SourceHistory) (bytes : List ℕ) → IsSane s → s.shut ≡ false
        → live_source (appends s bytes) ≡ source_appends (live_source s) bytes }
    ensures drains { (s : SourceHistory) (count : ℕ)
        → live_source (drains s count) ≡ source_drains (live_source s) count }
    ensures shuts { (s : SourceHistory) → live_source (shuts s) ≡ source_shuts (live_source s) }
{}

/// What is admitted and drained came before, at the opening and after each step.
pub fn source_stays_sane()
    ensures opened { (setup : Setup) → IsSane (opened setup) }
    ensures hears { (s : SourceHistory) (bytes : List ℕ) → IsSane s → is_closed s ≡ false
        → IsSane (hears s bytes) }
    ensures piece { (s : SourceHistory) (bytes : List ℕ) → IsSane s
        → IsSane (piece_next s bytes) }
    ensures gives { (s : SourceHistory) (r : Request) (rs : List Request) → IsSane s
        → waiting s ≡ r ∷ rs → IsSane (gives s) }
    ensures appends { (s : SourceHistory) (bytes : List ℕ) → IsSane s
        → IsSane (appends s bytes) }
    ensures drains { (s : SourceHistory) (count : ℕ) → IsSane s → s.shut ≡ false
        → count ≤ length (unsent s) → IsSane (drains s count) }
    ensures shuts { (s : SourceHistory) → IsSane s → IsSane (shuts s) }
{}

/// A fault closes the connection, and once it is closed
/// each further piece is refused and changes nothing.
pub fn faults_close()
    ensures closes { (s : LiveSource) (bytes : List ℕ) (fault : SourceFault) →
        live_piece_answer s bytes ≡ Fault fault → (live_piece_next s bytes).closed ≡ true }
    ensures refused { (s : LiveSource) (bytes : List ℕ) → s.closed ≡ true
        → live_piece_answer s bytes ≡ Closed }
    ensures unchanged { (s : LiveSource) (bytes : List ℕ) → s.closed ≡ true
        → live_piece_next s bytes ≡ s }
{}

/// Answers that together fit the room are all taken, however many they are.
pub fn answers_fit(source: &mut Source, answers: &[Bytes])
    requires not_shut { source.old.live.shut ≡ false }
    requires room { length (concat answers.now) ≤ source.old.room }
    ensures { source.new.live ≡ source_appends source.old.live (concat answers.now) }
{
    for answer in answers {
        source.answer(answer.as_slice()).unwrap();
    }
}
