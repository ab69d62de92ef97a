//! Laws over the definitions, each the contract of a function that does nothing.

ghost use Rattle.std.specs.Prelude.{◌≡◌, ◌≢◌, ℕ, List, true, Ok, Err};
ghost use Rattle.fwd_settings.specs.declared.settings.Settings.{Settings};
ghost use Rattle.fwd_settings.specs.declared.fault.SettingsFault.TheVariants as faults;
ghost use Rattle.fwd_settings.specs.Ranges.{in_range};
ghost use Rattle.fwd_settings.specs.Whole.{settings_of};

/// Settings that are accepted are in their ranges: each number and each text's length, and the
/// counts of outputs and servers, of which one at least is no standby. Where there are users
/// there is a key.
#[tactic(auto, using(crate::proofs::RangeLemmas::accepted_within))]
pub fn accepted_is_in_range()
    ensures { (text : List ℕ) (accepted : Settings) → settings_of text ≡ Ok accepted
        → in_range accepted ≡ true }
{}

/// A text is refused for what it says: never when out of memory, and never as a file that was not
/// read.
#[tactic(auto, using(crate::proofs::RefusalLemmas::never_refused))]
pub fn refusals_are_of_the_text()
    ensures memory { (text : List ℕ) → settings_of text ≢ Err faults.Memory }
    ensures unreadable { (text : List ℕ) → settings_of text ≢ Err faults.Unreadable }
{}
