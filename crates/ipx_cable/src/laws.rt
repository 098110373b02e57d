//! What holds by the definitions alone, of every history, whatever hashes nodes have.
ghost use Rattle.std.specs.Prelude.{◌≡◌, ◌≢◌, ◌↔◌, ℕ, ◌+◌, ◌*◌, ◌^◌, ◌<◌, ◌≤◌, ◌==◌, Bool, true, false, List, ◌∷◌, ◌++◌, length, Option, None, Some};
ghost use Rattle.std.specs.List.{list_any};
ghost use Rattle.ipx_cable.specs.declared.station.Station.{Station};
ghost use Rattle.ipx_cable.specs.Stations.{is_kind, is_free, same_node, heard, has_another, place};
ghost use Rattle.ipx_cable.specs.Kinds.{stations_at, is_everybody};
ghost use Rattle.ipx_cable.specs.History.{Event, Word, History, Hashes, seconds, known, station_after, counts_after, is_used_after, speaks_after};
ghost use Rattle.ipx_cable.specs.Laws.{SpokeIn, WasHeard};
ghost use Rattle.ipx_cable.specs.Loops.{shut_now, is_late, left_here, left_there};
ghost use Rattle.ipx_cable.specs.Ranges.{number, Begins, IsFirst, behind};
ghost use Rattle.ipx_cable.specs.Paces.{most_wait, largest, least};
ghost use Rattle.ipx_cable.specs.Pacing.{More, State as Waiting, History as Paced, nothing as nothing_waits, after as waits, state_after, left_since, goes_at, IsShown, latest, GoesOn, HaveRoom, SomeWait};
ghost use Rattle.ipx_cable.specs.Twins.{many, counted, between as between_lines};
ghost use Rattle.ipx_cable.specs.Watching.{Hear, History as Watching, IsTold, is_of_zeros, StaysAt, GoesOn as SecondsGoOn, moves_since};
ghost use Rattle.ipx_cable.specs.Asking.{least_wait, spread, moment, is_due, are_due};
ghost use Rattle.ipx_cable.specs.Questions.{History as Questions, state_after as asked_after, asked_at, next_of};
ghost use Rattle.ipx_cable.specs.OwnNodes.{is_no_node, own_node};
ghost use Rattle.ipx_cable.specs.Probing.{History as Probing, seconds as passed, left_at, both, left_after, Unshut, CameLately, IsCable};

/// A station that is known is spoken to in its kind alone, and that is one of the four. It spoke in it less than 300 seconds ago, and it is the
/// kind in which it spoke last; or it spoke in others since then, each time less than five seconds after its last word in this one.
pub fn known_in_its_kind()
    ensures alone { (hash : Hashes) (history : History) (node : List ℕ) (station : Station) → station_after hash node history ≡ Some station
        → is_everybody node ≡ false → (kind : ℕ) → speaks_after hash node kind history ≡ (station.kind == kind) }
    ensures one { (hash : Hashes) (history : History) (node : List ℕ) (station : Station) → station_after hash node history ≡ Some station
        → is_kind station.kind ≡ true }
    ensures spoke { (hash : Hashes) (history : History) (node : List ℕ) (station : Station) → station_after hash node history ≡ Some station
        → SpokeIn node station.kind station.left history }
{}

/// What one station says changes nothing for another: whoever makes up nodes displaces nobody who is known.
pub fn nobody_is_displaced()
    ensures { (hash : Hashes) (history : History) (node other : List ℕ) (kind : ℕ) (is_for_all : Bool) → same_node other node ≡ false
        → station_after hash node (Word other kind is_for_all ∷ history) ≡ station_after hash node history }
{}

/// A station that says something that counts, while there is a place for it, is known in the kind in which it says it, unless it has just
/// spoken in another. There is a place where one is free. It stays known for 300 seconds, whatever is heard meanwhile.
pub fn heard_is_known()
    ensures now { (hash : Hashes) (history : History) (node : List ℕ) (kind index : ℕ) (is_for_all : Bool)
        → counts_after hash node kind is_for_all history ≡ true
        → has_another node kind (stations_at (hash node) (known hash history)) ≡ false
        → place node (stations_at (hash node) (known hash history)) ≡ Some index
        → station_after hash node (Word node kind is_for_all ∷ history) ≡ Some (heard node kind) }
    ensures room { (node : List ℕ) (stations : List Station) → list_any is_free stations ≡ true
        → (index : ℕ) × (place node stations ≡ Some index) }
    ensures later { (hash : Hashes) (later earlier : History) (node : List ℕ) (before : Station) → station_after hash node earlier ≡ Some before
        → seconds later < before.left → (station : Station) × (station_after hash node (later ++ earlier) ≡ Some station) }
{}

/// A kind is in use exactly if a word in it counted less than an hour ago.
pub fn used_kinds_were_heard()
    ensures { (hash : Hashes) (history : History) (kind : ℕ) → is_kind kind ≡ true
        → (is_used_after hash kind history ≡ true) ↔ WasHeard hash kind history }
{}

/// A packet for all, or for a station that isn't known, goes out in each kind that is in use; if none is, in all four.
pub fn strangers_hear_what_is_used()
    ensures used { (hash : Hashes) (history : History) (node : List ℕ) (used : ℕ) → station_after hash node history ≡ None
        → is_used_after hash used history ≡ true → (kind : ℕ) → speaks_after hash node kind history ≡ is_used_after hash kind history }
    ensures all_used { (hash : Hashes) (history : History) (node : List ℕ) (used : ℕ) → is_everybody node ≡ true
        → is_used_after hash used history ≡ true → (kind : ℕ) → speaks_after hash node kind history ≡ is_used_after hash kind history }
    ensures none { (hash : Hashes) (history : History) (node : List ℕ) → station_after hash node history ≡ None
        → ((used : ℕ) → is_used_after hash used history ≡ false) → (kind : ℕ) → speaks_after hash node kind history ≡ is_kind kind }
    ensures all_none { (hash : Hashes) (history : History) (node : List ℕ) → is_everybody node ≡ true
        → ((used : ℕ) → is_used_after hash used history ≡ false) → (kind : ℕ) → speaks_after hash node kind history ≡ is_kind kind }
{}

/// A packet goes out in at least one kind, for whomever it is.
pub fn speaks_in_one_at_least()
    ensures { (hash : Hashes) (history : History) (node : List ℕ) → (kind : ℕ) × (is_kind kind ≡ true) × (speaks_after hash node kind history ≡ true) }
{}

/// What a probe does to two links of a network is what `probe` does, and nothing for others. One that is too old does nothing.
pub fn probes_concern_two()
    ensures here { (here there sent now : ℕ) (lefts : List ℕ) → here < length lefts → there < length lefts → here ≢ there
        → left_at here (both here there sent now lefts) ≡ left_here here there sent now (left_at here lefts) }
    ensures there { (here there sent now : ℕ) (lefts : List ℕ) → here < length lefts → there < length lefts → here ≢ there
        → left_at there (both here there sent now lefts) ≡ left_there here there sent now (left_at there lefts) }
    ensures others { (here there sent now link : ℕ) (lefts : List ℕ) → link ≢ here → link ≢ there
        → left_at link (both here there sent now lefts) ≡ left_at link lefts }
    ensures late { (here there sent now : ℕ) (lefts : List ℕ) → is_late sent now ≡ true → both here there sent now lefts ≡ lefts }
{}

/// A link is open as long as no probe went between it and an earlier one; so the first link of a network is always open.
pub fn first_stays_open()
    ensures unshut { (count link : ℕ) (history : Probing) → Unshut link history → left_after count link history ≡ 0 }
    ensures first { (count : ℕ) (history : Probing) → left_after count 0 history ≡ 0 }
{}

/// A link on which the probe of an earlier one came is shut in this second and in the five after it, whatever happens meanwhile.
pub fn later_is_shut()
    ensures { (count here there : ℕ) (history : Probing) → here < count → there < here → CameLately here there history
        → 0 < left_after count here history }
{}

/// A link opens once six seconds have passed in which no probe went between it and an earlier one: five whole ones and what was left of one.
pub fn opens_again()
    ensures { (count link : ℕ) (later earlier : Probing) → Unshut link later → shut_now ≤ passed later
        → left_after count link (later ++ earlier) ≡ 0 }
{}

/// Of links that are one cable exactly one is open, the first, as long as its probes come on the others.
pub fn one_stays_open()
    ensures { (is_in : ℕ → Bool) (first count : ℕ) (history : Probing) → IsCable is_in first count history
        → (link : ℕ) → link < count → is_in link ≡ true → (left_after count link history ≡ 0) ↔ (link ≡ first) }
{}

/// A range whose own address is its first has this one and those that follow it, as many as it leaves bits for.
pub fn ranges_are_without_gaps()
    ensures { (bits : ℕ) (host address : List ℕ) → number host < 2 ^ 32 → number address < 2 ^ 32 → IsFirst bits host
        → Begins bits host address ↔ ((number host ≤ number address) × (number address < number host + behind bits)) }
{}

/// A range of more bits has fewer addresses: none that isn't in the one of fewer.
pub fn more_bits_are_narrower()
    ensures narrower { (fewer more : ℕ) (host address : List ℕ) → fewer ≤ more → Begins more host address → Begins fewer host address }
    ensures everybody { (host address : List ℕ) → Begins 0 host address }
    ensures one { (host address : List ℕ) → number host < 2 ^ 32 → number address < 2 ^ 32 → Begins 32 host address → number host ≡ number address }
{}

/// Whatever waits at a moment has gone four seconds later, if it is asked, whatever comes meanwhile.
pub fn all_go_in_time()
    ensures { (start : Waiting) (count between now later : ℕ) (history : Paced) → let state = waits (More count between now) start in
        0 < now → IsShown history → left_since state history < state.waiting → now + most_wait ≤ later
        → goes_at later (state_after state history) }
{}

/// As long as some wait, and no more than may go so far apart, no more go in any time than one, and one for each such stretch of it.
pub fn none_goes_too_early()
    ensures { (apart count between begin later : ℕ) (history : Paced) → let state = waits (More count between begin) nothing_waits in
        0 < count → 0 < begin → apart ≤ least count between → HaveRoom apart state history → SomeWait state history → GoesOn begin history
        → latest begin history ≤ later → later < largest → goes_at later (state_after state history)
        → begin + left_since state history * apart ≤ later }
{}

/// Of a node that is heard on one link alone nobody is told, whatever other nodes do.
pub fn who_stays_is_not_told()
    ensures { (node : List ℕ) (link second before : ℕ) (history : Watching) → is_of_zeros node ≡ false → StaysAt node link history
        → IsTold node link second before history → ⊥ }
{}

/// A node is told of only if it was heard on another link than before at least five times within a minute.
pub fn who_is_told_moves()
    ensures { (node : List ℕ) (link second before : ℕ) (history : Watching) → SecondsGoOn (Hear node link second ∷ history)
        → IsTold node link second before history
        → (begin : ℕ) × (second ≤ begin + counted) × (many ≤ moves_since begin node (Hear node link second ∷ history)) }
{}

/// From one time that somebody is told to the next, a minute passes.
pub fn told_once_a_minute()
    ensures { (first then : List ℕ) (at link from second before last : ℕ) (later earlier : Watching) → 0 < from
        → IsTold first at from before earlier → IsTold then link second last (later ++ Hear first at from ∷ earlier)
        → from + between_lines ≤ second }
{}

/// Whoever hasn't answered is asked again once his moment has come, at the next look: he is due then, and so it is time for all to be looked at.
pub fn nobody_is_forgotten()
    ensures { (count who now : ℕ) (history : Questions) → is_due now (asked_at who (asked_after count history)) ≡ true
        → are_due now (next_of (asked_after count history).next) ≡ true }
{}

/// The next time is a quarter of a second to three quarters away, as far as numbers go.
pub fn asked_again_in_time()
    ensures early { (now number : ℕ) → now + (least_wait + spread) ≤ largest → now + least_wait ≤ moment now number }
    ensures late { (now number : ℕ) → moment now number < now + (least_wait + spread) }
{}

/// The gateway's node means one station: neither all nor none, unless the card's address or what is said does.
pub fn own_node_is_one()
    ensures everybody { (is_tunnel is_of_several : Bool) (card : List ℕ) (said : Option (List ℕ)) (hash : ℕ) → is_everybody card ≡ false
        → ((node : List ℕ) → said ≡ Some node → is_everybody node ≡ false) → is_everybody (own_node is_tunnel is_of_several card said hash) ≡ false }
    ensures nobody { (is_tunnel is_of_several : Bool) (card : List ℕ) (said : Option (List ℕ)) (hash : ℕ)
        → ((node : List ℕ) → said ≡ Some node → is_no_node node ≡ false) → is_no_node (own_node is_tunnel is_of_several card said hash) ≡ false }
{}
