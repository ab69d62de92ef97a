//! Laws of the definitions: each is the contract of a function that does nothing. `IsFirst` says
//! what a stream begins with by the values that could still follow; `first_of` computes the same by
//! a fold over the bytes. The abstract relay uses the fold, so that its worked examples compute.

ghost use Rattle.std.specs.Prelude.{◌≡◌, ◌≤◌, List, [], ◌∷◌, ℕ, ◌++◌, length, Some, None};
ghost use Rattle.std.specs.List.{flat_map};
ghost use Rattle.fwd_msgpack.specs.declared.head.Head.{Head};
ghost use Rattle.fwd_msgpack.specs.declared.head.Head.TheVariants.{Arr, Map};
ghost use Rattle.fwd_msgpack.specs.declared.head.HeadRead.TheVariants as read;
ghost use Rattle.fwd_msgpack.specs.Scans.{Verdict, IsWhole, elements_of, pairs_of, most_bytes, most_deep, first_of, verdict_of, whole_len, split_of, continued};
ghost use Rattle.fwd_msgpack.specs.Scanners.{Standing, onward, standing_behind, taken, heard};
ghost use Rattle.fwd_msgpack.specs.declared.limits.Limits.{Limits};
ghost use Rattle.fwd_msgpack.specs.declared.scanner.Fed.{Fed};
ghost use Rattle.fwd_msgpack.specs.Values.{IsValue};
ghost use Rattle.fwd_msgpack.specs.Streams.{AreBytes, HasMembers, IsFirst, IsStream, IsWithinLimits};
ghost use Rattle.fwd_msgpack.specs.Heads.{IsHead, IsSpelled, head_bytes, reading_of};

/// A written head is read back whole as itself, whatever follows it.
#[tactic(auto, using(crate::proofs::Spellings::read_back))]
pub fn read_back()
    ensures { (head : Head) (rest : List ℕ) → IsHead head → IsSpelled head
        → reading_of (head_bytes head ++ rest) ≡ read.Whole head (length (head_bytes head)) }
{}

/// No spelling of a head is shorter than the written one.
pub fn written_is_shortest()
    ensures { (bytes : List ℕ) (head : Head) (n : ℕ) → AreBytes bytes
        → reading_of bytes ≡ read.Whole head n → length (head_bytes head) ≤ n }
{}

/// What a scan finds at the front of a stream is what the stream begins with.
pub fn first_is_first()
    ensures { (limit deep : ℕ) (bytes : List ℕ) → AreBytes bytes
        → IsFirst limit deep bytes (first_of limit deep bytes) }
{}

/// A stream begins with one thing only.
pub fn one_verdict()
    ensures { (limit deep : ℕ) (bytes : List ℕ) (v w : Verdict) → AreBytes bytes
        → IsFirst limit deep bytes v → IsFirst limit deep bytes w → v ≡ w }
{}

/// No value is a proper prefix of another.
pub fn no_prefix()
    ensures { (deep most : ℕ) (value more : List ℕ) → IsValue deep value
        → IsValue most (value ++ more) → more ≡ [] }
{}

/// What a stream is split into: its values, each within the
/// limits, and a rest that is less than one, or the first fault.
pub fn split_is_stream()
    ensures { (limit deep : ℕ) (bytes : List ℕ) → AreBytes bytes
        → IsStream limit deep bytes (split_of limit deep bytes) }
{}

/// A stream in two pieces is the first one, continued: its values stay, and its rest goes on.
pub fn split_continues()
    ensures { (limit deep : ℕ) (bytes more : List ℕ)
        → split_of limit deep (bytes ++ more)
        ≡ continued limit deep (split_of limit deep bytes) more }
{}

/// The elements of a whole value are the members of an
/// array: its head, and as many values as it opens.
pub fn elements_are_members()
    ensures { (bytes : List ℕ) (values : List (List ℕ)) → IsWhole bytes
        → elements_of bytes ≡ Some values → (n : ℕ) × HasMembers (Arr n) bytes values }
{}

/// The pairs of a whole value are the members of a map, each key before its value: its head, and
/// twice as many values as it has pairs.
pub fn pairs_are_members()
    ensures { (bytes : List ℕ) (pairs : List (List ℕ × List ℕ)) → IsWhole bytes
        → pairs_of bytes ≡ Some pairs
        → (n : ℕ) × HasMembers (Map n) bytes (flat_map (λ p. p.0 ∷ p.1 ∷ []) pairs) }
{}

/// What is whole is a value, at most 128 deep and less than 2^32 bytes long.
pub fn whole_is_value()
    ensures { (bytes : List ℕ) → IsWhole bytes → IsWithinLimits most_bytes most_deep bytes }
{}

/// Pieces one after the other lead a scan to where their joining does.
pub fn pieces_are_joined()
    ensures { (limits : Limits) (before piece : List ℕ)
        → onward (standing_behind limits before) piece
        ≡ standing_behind limits (before ++ piece) }
{}

/// What a scanner answers to a piece is what all its bytes begin with: the verdict of `cut` on the
/// pieces before and this one, joined.
pub fn answer_is_first()
    ensures { (limits : Limits) (before piece : List ℕ) (old : Standing) (answer : Fed)
        → old ≡ standing_behind limits before → whole_len (verdict_of old.state) ≡ None
        → verdict_of (onward old piece).state ≡ heard (taken old.state) answer
        → first_of limits.bytes limits.depth (before ++ piece) ≡ heard (length before) answer }
{}
