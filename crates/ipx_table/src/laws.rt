//! What holds by the definitions alone, of every list of facts.
ghost use Rattle.std.specs.Prelude.{◌≡◌, ℕ, ◌≤◌, ◌<◌, false, List, [], ◌∷◌, ◌++◌, length, slice_get, None, Some};
ghost use Rattle.std.specs.List.{AllByRecursion};
ghost use Rattle.std.specs.Ordering.{is_eq};
ghost use Rattle.ipx_table.specs.Reading.{rules_of, count_by};
ghost use Rattle.ipx_table.specs.Facts.{Fact, Offered, Second, PortEnd, End, Marked};
ghost use Rattle.ipx_table.specs.Alive.{alive, lifetime, IsAliveAt};
ghost use Rattle.ipx_table.specs.Accepted.{marked};
ghost use Rattle.ipx_table.specs.Shares.{IsSharedBy};
ghost use Rattle.ipx_table.specs.Taken.{taken};
ghost use Rattle.ipx_table.specs.Stands.{Stands, IsAscending, IsDistinct, held as held_after, record_of, second_later, without_port};
ghost use Rattle.ipx_table.specs.declared.held.Held.{Held};
ghost use Rattle.ipx_table.specs.declared.taken.Taken.TheVariants.{Nothing, Worse, Admitted, Full};

use crate::offer::Offer;

/// The alive offers have pairwise different keys, there are at most as many as the capacity, and each is
/// under 180 seconds old.
pub fn alive_offers<O: Offer>()
    ensures distinct { (capacity : ℕ) (shares : List ℕ) (facts : List (Fact O)) → let rules = rules_of O.reading O.Key.cmp capacity shares in
        IsDistinct rules.by_key (alive rules (marked rules facts)) }
    ensures few { (capacity : ℕ) (shares : List ℕ) (facts : List (Fact O)) → let rules = rules_of O.reading O.Key.cmp capacity shares in
        length (alive rules (marked rules facts)) ≤ capacity }
    ensures young { (capacity : ℕ) (shares : List ℕ) (facts : List (Fact O)) → let rules = rules_of O.reading O.Key.cmp capacity shares in
        AllByRecursion (λ h. h.age < lifetime) (alive rules (marked rules facts)) }
{}

/// The list of alive offers holds the offer of each place that is alive, with its age, and no other: place by place
/// it is what the definition of a place says.
pub fn alive_places<O: Offer>()
    ensures place { (capacity : ℕ) (shares : List ℕ) (facts : List (Marked O)) (k : ℕ) (held : Held O) → let rules = rules_of O.reading O.Key.cmp capacity shares in
        slice_get (alive rules facts) k ≡ Some held → (place : ℕ) × IsAliveAt rules facts place held }
    ensures listed { (capacity : ℕ) (shares : List ℕ) (facts : List (Marked O)) (place : ℕ) (held : Held O) → let rules = rules_of O.reading O.Key.cmp capacity shares in
        IsAliveAt rules facts place held → (k : ℕ) × (slice_get (alive rules facts) k ≡ Some held) }
{}

/// An offer that is refused, or no better than the one that is held, changes nothing: no record and no age.
pub fn refused_offers<O: Offer>()
    ensures worse { (capacity : ℕ) (shares : List ℕ) (facts : List (Fact O)) (offer : O) → let rules = rules_of O.reading O.Key.cmp capacity shares in
        taken rules O.eq facts offer ≡ Worse → alive rules (marked rules (facts ++ Offered offer ∷ [])) ≡ alive rules (marked rules facts) }
    ensures full { (capacity : ℕ) (shares : List ℕ) (facts : List (Fact O)) (offer : O) → let rules = rules_of O.reading O.Key.cmp capacity shares in
        taken rules O.eq facts offer ≡ Full → alive rules (marked rules (facts ++ Offered offer ∷ [])) ≡ alive rules (marked rules facts) }
    ensures nothing { (capacity : ℕ) (shares : List ℕ) (facts : List (Fact O)) (offer : O) → let rules = rules_of O.reading O.Key.cmp capacity shares in
        taken rules O.eq facts offer ≡ Nothing → alive rules (marked rules (facts ++ Offered offer ∷ [])) ≡ alive rules (marked rules facts) }
{}

/// A list of records that stands for facts holds the offer of each alive place, with its age, and no other; by key.
pub fn standing_records<O: Offer>()
    ensures place { (capacity : ℕ) (shares : List ℕ) (facts : List (Fact O)) (records : List (Held O)) (k : ℕ) (held : Held O) → let rules = rules_of O.reading O.Key.cmp capacity shares in
        Stands rules records facts → slice_get records k ≡ Some held → (place : ℕ) × IsAliveAt rules (marked rules facts) place held }
    ensures listed { (capacity : ℕ) (shares : List ℕ) (facts : List (Fact O)) (records : List (Held O)) (place : ℕ) (held : Held O) → let rules = rules_of O.reading O.Key.cmp capacity shares in
        Stands rules records facts → IsAliveAt rules (marked rules facts) place held → (k : ℕ) × (slice_get records k ≡ Some held) }
    ensures ascending { (capacity : ℕ) (shares : List ℕ) (facts : List (Fact O)) (records : List (Held O)) → let rules = rules_of O.reading O.Key.cmp capacity shares in
        Stands rules records facts → IsAscending rules.by_key records }
{}

/// What one fact more does to the records: an offer changes that of its own key alone; with a second those that expire go,
/// and the rest are a second older; with the end of a port its records go, and the rest stay; with an end all go.
pub fn next_facts<O: Offer>()
    ensures others { (capacity : ℕ) (shares : List ℕ) (facts : List (Fact O)) (offer : O) (key : O.Key) → let rules = rules_of O.reading O.Key.cmp capacity shares in
        is_eq (O.Key.cmp (O.reading.key offer) key) ≡ false
        → record_of O.reading.key O.Key.cmp key (held_after rules (facts ++ Offered offer ∷ [])) ≡ record_of O.reading.key O.Key.cmp key (held_after rules facts) }
    ensures second { (capacity : ℕ) (shares : List ℕ) (facts : List (Fact O)) → let rules = rules_of O.reading O.Key.cmp capacity shares in
        held_after rules (facts ++ Second ∷ []) ≡ second_later (held_after rules facts) }
    ensures port_end { (capacity : ℕ) (shares : List ℕ) (facts : List (Fact O)) (port : ℕ) → let rules = rules_of O.reading O.Key.cmp capacity shares in
        held_after rules (facts ++ PortEnd port ∷ []) ≡ without_port rules.port port (held_after rules facts) }
    ensures end { (capacity : ℕ) (shares : List ℕ) (facts : List (Fact O)) → let rules = rules_of O.reading O.Key.cmp capacity shares in
        held_after rules (facts ++ End ∷ []) ≡ [] }
{}

/// A port never has more alive offers than its share, whatever the other ports sent and whatever the shares sum to; and so
/// no more records, in a table that stands for the facts.
pub fn shares_hold<O: Offer>()
    ensures within { (capacity : ℕ) (shares : List ℕ) (facts : List (Fact O)) (port : ℕ) → let rules = rules_of O.reading O.Key.cmp capacity shares in
        count_by rules.port port (alive rules (marked rules facts)) ≤ rules.share port }
    ensures records { (capacity : ℕ) (shares : List ℕ) (facts : List (Fact O)) (records : List (Held O)) (port : ℕ) → let rules = rules_of O.reading O.Key.cmp capacity shares in
        Stands rules records facts → count_by rules.port port records ≤ rules.share port }
{}

/// Where all offers came by ports whose shares sum to at most the capacity, a port below its share finds room for a new key,
/// whatever these ports sent. Ports by which nothing came may have any share.
pub fn room_within_a_share<O: Offer>()
    ensures admitted { (capacity : ℕ) (shares ports : List ℕ) (facts : List (Fact O)) (offer : O) → let rules = rules_of O.reading O.Key.cmp capacity shares in
        IsSharedBy rules ports (facts ++ Offered offer ∷ []) → rules.is_down offer ≡ false
        → record_of O.reading.key O.Key.cmp (O.reading.key offer) (alive rules (marked rules facts)) ≡ None
        → count_by rules.port (rules.port offer) (alive rules (marked rules facts)) < rules.share (rules.port offer)
        → taken rules O.eq facts offer ≡ Admitted }
    ensures records { (capacity : ℕ) (shares ports : List ℕ) (facts : List (Fact O)) (records : List (Held O)) (offer : O) → let rules = rules_of O.reading O.Key.cmp capacity shares in
        Stands rules records facts → IsSharedBy rules ports (facts ++ Offered offer ∷ []) → rules.is_down offer ≡ false
        → record_of O.reading.key O.Key.cmp (O.reading.key offer) records ≡ None
        → count_by rules.port (rules.port offer) records < rules.share (rules.port offer)
        → taken rules O.eq facts offer ≡ Admitted }
{}
