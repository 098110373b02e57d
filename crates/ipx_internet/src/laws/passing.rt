//! What a program that lets seconds pass may conclude of all of them.
ghost use Rattle.std.specs.Prelude.{◌≡◌, ℕ, ◌+◌};
ghost use Rattle.ipx_internet.specs.Moment.{Moment, net_at};
ghost use Rattle.ipx_internet.specs.Passed.{HasTicked};

/// Ticks of an internet in memory add up: what `Internet::second` says about each of several seconds (`ticked`) holds for all of them
/// together. So a loop over seconds can carry one fact, and at its end the laws of ticks apply.
pub fn seconds_pass()
    ensures at_first { (most_routes most_services : ℕ) (m : Moment) → HasTicked most_routes most_services 0 m m }
    ensures one_more { (most_routes most_services n : ℕ) (old now new : Moment) → net_at now ≡ net_at old → HasTicked most_routes most_services n old now
        → HasTicked most_routes most_services 1 now new → HasTicked most_routes most_services (n + 1) old new }
{}
