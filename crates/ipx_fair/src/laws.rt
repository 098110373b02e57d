//! What follows from the definitions alone, for every state and every list of events, so for every stretch of time.
ghost use Rattle.std.specs.Prelude.{◌≡◌, ℕ, ◌+◌, ◌*◌, ◌<◌, ◌≤◌, Bool, true, List, length};
ghost use Rattle.ipx_fair.specs.declared.setting.Setting.{Setting};
ghost use Rattle.ipx_fair.specs.Queues.{total, waiting};
ghost use Rattle.ipx_fair.specs.States.{State, empty};
ghost use Rattle.ipx_fair.specs.Serving.{Served};
ghost use Rattle.ipx_fair.specs.Hearing.{queue_of, Said};
ghost use Rattle.ipx_fair.specs.Events.{Event, Runs};
ghost use Rattle.ipx_fair.specs.Keeping.{IsKept};
ghost use Rattle.ipx_fair.specs.Laws.{Anything, AtMost, SomeWait, HasMore, elapsed, given, given_to, KeepsTo, LosesNothing};

/// What queues have together stays within the room, and within the room and the reserve, but for what each of them may have besides.
pub fn kept()
    ensures first { (setting : Setting) (speakers : ℕ) → setting.one ≤ setting.own → IsKept (empty setting speakers) }
    ensures later { (old new : State) (events : List Event) → IsKept old → Runs Anything old events new → IsKept new }
{}

/// Where nothing is heard any more, all queues are empty after a time that the setting determines: no flood silences anybody for longer.
pub fn drains()
    ensures { (old new : State) (events : List Event) → IsKept old → Runs Anything old events new → given events ≡ 0
        → old.setting.room + old.setting.reserve + old.setting.one * length old.queues ≤ elapsed events → waiting new.queues ≡ 0 }
{}

/// A speaker whose queue is empty is heard, whatever the others say.
pub fn quiet_is_heard()
    ensures { (speaker weight : ℕ) (heard : Bool) (old new : State) → Said speaker weight heard old new
        → queue_of old.queues speaker ≡ 0 → weight ≤ old.setting.one → heard ≡ true }
{}

/// A speaker who says no more than one part in n of the time loses nothing: whatever the others say, as long as no more than n queues wait
/// at any time; or, where there are n speakers, in any case. At once he may say `one`; or `own`, where the reserve is that large.
pub fn part_is_heard()
    ensures packet { (n speaker : ℕ) (old new : State) (events : List Event) → 0 < n → IsKept old → Runs (AtMost n) old events new
        → KeepsTo n old.setting.one speaker (n * queue_of old.queues speaker) events → LosesNothing speaker events }
    ensures always { (n speaker : ℕ) (old new : State) (events : List Event) → 0 < n → IsKept old → Runs Anything old events new → length old.queues ≤ n
        → KeepsTo n old.setting.one speaker (n * queue_of old.queues speaker) events → LosesNothing speaker events }
    ensures more { (n speaker : ℕ) (old new : State) (events : List Event) → 0 < n → IsKept old → Runs (AtMost n) old events new
        → (n + 1) * old.setting.own ≤ old.setting.reserve
        → KeepsTo n old.setting.own speaker (n * queue_of old.queues speaker) events → LosesNothing speaker events }
{}

/// In no stretch of time is more given than the time that passed, and what queues may have at once.
pub fn bound()
    ensures { (old new : State) (events : List Event) → IsKept old → Runs Anything old events new
        → given events ≤ elapsed events + old.setting.room + old.setting.reserve + old.setting.one * length old.queues + length old.queues }
{}

/// A speaker whose queue waits all the time is given one part in n of it at least, less what was in his queue at first, where no more than n
/// queues wait at any time.
pub fn fair_part()
    ensures { (n speaker : ℕ) (old new : State) (events : List Event) → IsKept old → Runs (HasMore n speaker) old events new
        → elapsed events + n * queue_of new.queues speaker ≤ n * (given_to speaker events + queue_of old.queues speaker) + n }
{}

/// While some queue waits, no nanosecond is lost: what one speaker doesn't use of his part, the others have.
pub fn uses_all()
    ensures { (old new : State) (events : List Event) → Runs SomeWait old events new
        → given events + total old.queues + new.left ≡ elapsed events + old.left + total new.queues }
{}

/// What some time does to queues is one thing alone.
pub fn one_way()
    ensures { (time : ℕ) (old a b : List ℕ) (l m : ℕ) → Served time old a l → Served time old b m → (a ≡ b) × (l ≡ m) }
{}
