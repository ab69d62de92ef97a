//! Laws, each the contract of a function that does nothing.

ghost use Rattle.std.specs.Prelude.{◌≡◌, ◌++◌, List, true};
ghost use Rattle.fwd_model.specs.declared.config.Config.{Config};
ghost use Rattle.fwd_model.specs.declared.event.Event.{Event};
ghost use Rattle.fwd_model.specs.Step.{after, answers};
ghost use Rattle.fwd_model.specs.History.{History, histories, IsReached};
ghost use Rattle.fwd_model.specs.Names.{Named};
ghost use Rattle.fwd_laws.specs.Merging.{AreOneAtEach, Merges, all_free, answers_at};

/// Two lists of events that name nothing in common may be merged in any way: each event is answered
/// as among its own, and all lead to one history.
pub fn unrelated_lists_merge()
    ensures answers { (config : Config) (h : History) (es fs gs : List Event) →
        IsReached config h → all_free es fs ≡ true → Merges es fs gs →
        Merges (answers histories h es) (answers histories h fs) (answers histories h gs) }
    ensures after { (config : Config) (h : History) (es fs gs : List Event) →
        IsReached config h → all_free es fs ≡ true → Merges es fs gs →
        after histories h gs ≡ after histories h (es ++ fs) }
{}

/// The lists of events at each part of the relay, at its connections, its outputs and the sessions
/// of its workers, have one history: however a list joins them, it leads there, and at each part
/// the events are answered alike.
pub fn parts_have_one_history()
    ensures after { (config : Config) (h : History) (es fs : List Event) → IsReached config h →
        AreOneAtEach es fs → after histories h es ≡ after histories h fs }
    ensures answers { (config : Config) (h : History) (es fs : List Event) (part : Named) →
        IsReached config h → AreOneAtEach es fs → answers_at part h es ≡ answers_at part h fs }
{}
