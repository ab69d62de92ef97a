//! Laws, each the contract of a function that does nothing.

ghost use Rattle.std.specs.Prelude.{
  ◌≡◌,
  ℕ,
  Bool,
  List,
  Some,
  None,
  true,
  ◌&&◌,
  map,
  filter,
  slice_get,
};
ghost use Rattle.fwd_modes.specs.Acks.{ack_name};
ghost use Rattle.fwd_modes.specs.declared.origin.Origin.{Origin};
ghost use Rattle.fwd_session.specs.ServerAcks.{ServerAck};
ghost use Rattle.fwd_chunks.specs.Spans.{AreCutBy, AreRising};
ghost use Rattle.fwd_book.specs.History.{
  BookSetting,
  Entered,
  CanBeTold,
  BookHistory,
  opening,
  name_at,
  request_at,
  untold,
  is_fresh,
  enters,
  settles,
  tells,
  forgets,
  owed,
  is_settled,
  due,
  tells_due,
  forgets_of,
  owed_of,
};
ghost use Rattle.fwd_book.specs.Receipts.{Receipt, IsRightFor, receipt_of, receipts};
ghost use Rattle.fwd_book.specs.Live.{
  LiveBook,
  IsOf,
  IsSound,
  live_book,
  live_opening,
  live_enters,
  live_settles,
  live_drops,
  live_leaves,
  live_owed,
  live_due,
  live_tells_due,
  live_forgets_of,
  live_owed_of,
};

/// The live part is enough: what happens to a book's history happens alike to its live part, and
/// what is asked of it is answered alike. No number of a request that comes was acknowledged, and
/// who is told is told that all its entries were.
pub fn live_follows()
    ensures opening { (setting : BookSetting) →
        live_book (opening setting) ≡ live_opening setting }
    ensures enters { (b : BookHistory) (q : Entered) → is_fresh b.settled q ≡ true →
        live_book (enters b q) ≡ live_enters (live_book b) q }
    ensures settles { (b : BookHistory) (e : ServerAck) →
        live_book (settles b e) ≡ live_settles (live_book b) e }
    ensures tells { (b : BookHistory) (origins : List Origin) → CanBeTold b origins →
        live_book (tells b origins) ≡ live_leaves (live_book b) origins }
    ensures forgets { (b : BookHistory) (origins : List Origin) →
        live_book (forgets b origins) ≡ live_leaves (live_book b) origins }
    ensures receipts { (b : BookHistory) (origins : List Origin) →
        receipts b.settled (untold b) origins
        ≡ receipts (live_book b).settled (live_book b).requests origins }
    ensures owed { (b : BookHistory) (origins : List Origin) →
        owed b origins ≡ live_owed (live_book b) origins }
    ensures due { (b : BookHistory) (conn : ℕ) → due b conn ≡ live_due (live_book b) conn }
    ensures tells_due { (b : BookHistory) (conn : ℕ) →
        live_book (tells_due b conn) ≡ live_tells_due (live_book b) conn }
    ensures forgets_of { (b : BookHistory) (conn : ℕ) →
        live_book (forgets_of b conn) ≡ live_forgets_of (live_book b) conn }
    ensures owed_of { (b : BookHistory) (conn : ℕ) →
        owed_of b conn ≡ live_owed_of (live_book b) conn }
{}

/// A new book is sound, and a sound book stays so: where a request of a new origin comes whose
/// runs cut its entries, whose numbers rise, and none of which was acknowledged; where what was
/// acknowledged names its chunk at this output and is of what each request has; and where requests
/// leave.
pub fn stays_sound()
    ensures opening { (setting : BookSetting) → IsSound (live_opening setting) }
    ensures enters { (b : LiveBook) (q : Entered) → IsSound b →
        request_at b.requests q.origin ≡ None → AreCutBy q.spans q.entries →
        AreRising (map (λ s. s.number) q.spans) → is_fresh b.settled q ≡ true →
        IsSound (live_enters b q) }
    ensures settles { (b : LiveBook) (e : ServerAck) → IsSound b →
        ack_name e.reply ≡ Some (name_at b.setting e.number) →
        ((i : ℕ) (q : Entered) → slice_get b.requests i ≡ Some q → IsOf q e) →
        IsSound (live_settles b e) }
    ensures leaves { (b : LiveBook) (origins : List Origin) → IsSound b →
        IsSound (live_leaves b origins) }
    ensures drops { (b : LiveBook) (gone : Entered → Bool) → IsSound b →
        IsSound (live_drops gone b) }
{}

/// Each receipt that a sound book gives is right for the request of its origin.
pub fn receipts_are_right()
    ensures { (b : LiveBook) (origins : List Origin) (i : ℕ) (r : Receipt) → IsSound b →
        slice_get (receipts b.settled b.requests origins) i ≡ Some r →
        (q : Entered) × (request_at b.requests r.origin ≡ Some q) × IsRightFor b.setting q r }
{}

/// Whoever hands in the origins of the requests that pass a test is given the receipts of those
/// whose entries are all acknowledged, and has them leave.
pub fn origins_are_enough()
    ensures receipts { (b : LiveBook) (test : Entered → Bool) → IsSound b →
        receipts b.settled b.requests (map (λ q. q.origin) (filter test b.requests))
        ≡ map (receipt_of b.settled) (filter (λ q. test q && is_settled b.settled q) b.requests) }
    ensures leaves { (b : LiveBook) (test : Entered → Bool) → IsSound b →
        live_leaves b (map (λ q. q.origin) (filter test b.requests)) ≡ live_drops test b }
{}

/// What a connection is to be told is found under its own origins: each request, and the receipt of
/// each.
pub fn due_is_found()
    ensures requests { (b : LiveBook) (conn : ℕ) → IsSound b →
        map (λ o. request_at b.requests o) (map (λ q. q.origin) (live_due b conn))
        ≡ map Some (live_due b conn) }
    ensures receipts { (b : LiveBook) (conn : ℕ) → IsSound b →
        receipts b.settled b.requests (map (λ q. q.origin) (live_due b conn))
        ≡ map (receipt_of b.settled) (live_due b conn) }
{}
