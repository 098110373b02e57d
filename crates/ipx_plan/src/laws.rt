//! What holds of every plan, by the definitions alone.
ghost use Rattle.std.specs.Prelude.{◌≡◌, ◌≢◌, ◌↔◌, ◌⊎◌, ℕ, ◌<◌, ◌≤◌, Bool, true, false, List, length, Option, None, Some};
ghost use Rattle.std.specs.List.{slice_get};
ghost use Rattle.ipx_plan.specs.declared.link.Link.{Link};
ghost use Rattle.ipx_plan.specs.declared.fate.Fate.{Fate};
ghost use Rattle.ipx_plan.specs.declared.origin.Cable.TheVariants.{Kept, Opened};
ghost use Rattle.ipx_plan.specs.declared.origin.Origin.{Origin};
ghost use Rattle.ipx_plan.specs.Carriers.{is_shared, is_tunnel};
ghost use Rattle.ipx_plan.specs.Likeness.{is_at_same_port, apart, distance, distance_at};
ghost use Rattle.ipx_plan.specs.Cables.{is_first_on_cable};
ghost use Rattle.ipx_plan.specs.Tunnels.{is_found};
ghost use Rattle.ipx_plan.specs.Planned.{Planned, IsPlan};
ghost use Rattle.ipx_plan.specs.Laws.{was_of, becomes_of, cable_of, GoesOn, IsAsItWas, GoesOnWhole};

/// Two configurations allow one plan alone.
pub fn one_way()
    ensures { (old new : List Link) (a b : Planned) → IsPlan old new a → IsPlan old new b → a ≡ b }
{}

/// A plan speaks of each link once. New link k continues old link j exactly if old link j is continued by new link k: so no two new links
/// continue one, and no old one is continued by two.
pub fn once()
    ensures origins { (old new : List Link) (plan : Planned) → IsPlan old new plan → length plan.origins ≡ length new }
    ensures fates { (old new : List Link) (plan : Planned) → IsPlan old new plan → length plan.fates ≡ length old }
    ensures both { (old new : List Link) (plan : Planned) → IsPlan old new plan → (j k : ℕ) →
        (was_of plan k ≡ Some j) ↔ (becomes_of plan j ≡ Some k) }
{}

/// What is continued is alike, and keeps its network.
pub fn alike()
    ensures alike { (old new : List Link) (plan : Planned) → IsPlan old new plan → (j k : ℕ) →
        was_of plan k ≡ Some j → distance_at old new j k < apart }
    ensures network { (a b : Link) → distance a b < apart → a.network.0 ≡ b.network.0 }
{}

/// As many links stay as can: no link is added that is like one which is removed.
pub fn as_many()
    ensures { (old new : List Link) (plan : Planned) → IsPlan old new plan → (j k : ℕ) →
        was_of plan k ≡ None → becomes_of plan j ≡ None → distance_at old new j k ≡ apart }
{}

/// If nothing has changed, there is nothing to do: the router and all links, cables and tunnels stay.
pub fn nothing_changed()
    ensures router { (links : List Link) (plan : Planned) → IsPlan links links plan → plan.keeps_router ≡ true }
    ensures origins { (links : List Link) (plan : Planned) → IsPlan links links plan → (k : ℕ) (origin : Origin) →
        slice_get plan.origins k ≡ Some origin → IsAsItWas k origin }
    ensures fates { (links : List Link) (plan : Planned) → IsPlan links links plan → (j : ℕ) (fate : Fate) →
        slice_get plan.fates j ≡ Some fate → GoesOnWhole j fate }
{}

/// Two new links have one cable exactly if they share it by what they say. A cable that is kept carries what it carried before. Each old
/// cable is closed exactly if no new link keeps it. What is opened is opened once, and isn't open already.
pub fn cables()
    ensures shared { (old new : List Link) (plan : Planned) → IsPlan old new plan → (k l : ℕ) (a b : Link) →
        slice_get new k ≡ Some a → slice_get new l ≡ Some b → k ≢ l
        → (cable_of plan k ≡ cable_of plan l) ↔ ((is_shared a.carrier ≡ true) × (a.carrier ≡ b.carrier)) }
    ensures kept { (old new : List Link) (plan : Planned) → IsPlan old new plan → (j k : ℕ) (link : Link) →
        slice_get new k ≡ Some link → cable_of plan k ≡ Some (Kept j)
        → (before : Link) × (slice_get old j ≡ Some before) × (is_first_on_cable old j before ≡ true) × (before.carrier ≡ link.carrier) }
    ensures closed { (old new : List Link) (plan : Planned) → IsPlan old new plan → (j : ℕ) (before : Link) (fate : Fate) →
        slice_get old j ≡ Some before → is_first_on_cable old j before ≡ true → slice_get plan.fates j ≡ Some fate
        → (fate.is_closed ≡ true) ↔ ((k : ℕ) → cable_of plan k ≢ Some (Kept j)) }
    ensures opened { (old new : List Link) (plan : Planned) → IsPlan old new plan → (i k : ℕ) →
        cable_of plan k ≡ Some (Opened i) → (i ≤ k) × (cable_of plan i ≡ Some (Opened i)) }
    ensures anew { (old new : List Link) (plan : Planned) → IsPlan old new plan → (i j k : ℕ) (link before : Link) →
        slice_get new k ≡ Some link → cable_of plan k ≡ Some (Opened i) → is_shared link.carrier ≡ true
        → slice_get old j ≡ Some before → before.carrier ≢ link.carrier }
{}

/// A tunnel whose clients find the next one where it was goes on there, with them; so does one at the same port. Each other tunnel ends.
pub fn clients()
    ensures stay { (old new : List Link) (plan : Planned) → IsPlan old new plan → (j k : ℕ) (a b : Link) →
        was_of plan k ≡ Some j → slice_get old j ≡ Some a → slice_get new k ≡ Some b → is_found a b ≡ true → GoesOn plan k }
    ensures at_port { (a b : Link) → is_at_same_port a b ≡ true → is_found a b ≡ true }
    ensures once { (old new : List Link) (plan : Planned) → IsPlan old new plan → (j : ℕ) (a : Link) (fate : Fate) →
        slice_get old j ≡ Some a → is_tunnel a.carrier ≡ true → slice_get plan.fates j ≡ Some fate
        → (fate.ends_tunnel ≡ false) ↔ ((k : ℕ) × (was_of plan k ≡ Some j) × GoesOn plan k) }
{}
