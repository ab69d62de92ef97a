//! Laws over the definitions, each the contract of a function that does nothing. What happened to
//! the servers is one list, the newest first, so that the losses since a server last settled a
//! chunk are read off it.

ghost use Rattle.std.specs.Prelude.{◌≡◌, ◌+◌, ◌%◌, ◌<◌, ◌≤◌, ◌^◌, ℕ, List, true, false, Some, None, length, slice_get, slice_index};
ghost use Rattle.fwd_failover.specs.History.{ServersSetting, Happening, ServersHistory, looked, lost, settled};
ghost use Rattle.fwd_failover.specs.Choices.{primaries, standbys, order_of, is_usable, choice};
ghost use Rattle.fwd_failover.specs.Live.{live_servers, live_choice, live_looked, live_lost, live_settled};

/// The order in which a worker tries the servers: of p primaries in its turn t, below p, the one at
/// the place `(worker + t) mod p`, and then the standbys in file order.
pub fn order_goes_round()
    ensures primaries { (s : ServersSetting) (worker turn : ℕ) → turn < length (primaries s)
        → slice_index (order_of (primaries s) (standbys s) worker) turn
        ≡ slice_index (primaries s) ((worker + turn) % length (primaries s)) }
    ensures standbys { (s : ServersSetting) (worker turn : ℕ) → 0 < length (primaries s)
        → slice_index (order_of (primaries s) (standbys s) worker) (length (primaries s) + turn)
        ≡ slice_index (standbys s) turn }
{}

/// The server that is chosen is usable; there is none only where no server is usable; and it is a
/// standby only where no primary is usable.
pub fn choice_is_usable()
    ensures usable { (s : ServersSetting) (happened : List Happening) (worker moment server : ℕ)
        → choice s happened worker moment ≡ Some server
        → is_usable s happened moment server ≡ true }
    ensures none { (s : ServersSetting) (happened : List Happening) (worker moment : ℕ)
        → choice s happened worker moment ≡ None → (server : ℕ)
        → server < length s.standby → is_usable s happened moment server ≡ false }
    ensures standby { (s : ServersSetting) (happened : List Happening) (worker moment server : ℕ)
        → choice s happened worker moment ≡ Some server
        → slice_get s.standby server ≡ Some true → (primary : ℕ)
        → slice_get s.standby primary ≡ Some false
        → is_usable s happened moment primary ≡ false }
{}

/// What is kept is enough: the choice by it is the choice by all losses and settlings so far.
pub fn choice_by_live_part()
    ensures { (s : ServersSetting) (h : ServersHistory) (worker moment : ℕ)
        → s.retry_max < 2 ^ 64
        → choice s h.happened worker moment ≡ live_choice (live_servers s h) worker moment }
{}

/// What is kept goes on as the history does: at a look, a loss and a settling.
pub fn live_follows()
    ensures looked { (s : ServersSetting) (h : ServersHistory) (now : ℕ)
        → live_servers s (looked h now) ≡ live_looked (live_servers s h) now }
    ensures lost { (s : ServersSetting) (h : ServersHistory) (server now : ℕ)
        → s.retry_max < 2 ^ 64
        → live_servers s (lost s h server now) ≡ live_lost (live_servers s h) server now }
    ensures settled { (s : ServersSetting) (h : ServersHistory) (server : ℕ)
        → live_servers s (settled s h server) ≡ live_settled (live_servers s h) server }
{}
