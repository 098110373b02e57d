//! What holds by the definitions alone, of every history.
ghost use Rattle.std.specs.Prelude.{◌≡◌, ◌≢◌, ℕ, ◌+◌, ◌<◌, ◌≤◌, ◌==◌, Bool, true, false, List, [], ◌∷◌, ◌++◌, length, None, Some};
ghost use Rattle.std.specs.List.{list_any, position};
ghost use Rattle.ipx_peers.specs.declared.opened.Opened.{Opened};
ghost use Rattle.ipx_peers.specs.declared.verdict.Verdict.TheVariants.{Greet};
ghost use Rattle.ipx_peers.specs.Numbers.{most_places, slots_count, place_lasts};
ghost use Rattle.ipx_peers.specs.Windows.{is_fresh, newest};
ghost use Rattle.ipx_peers.specs.Events.{Begins, Hears, Sends, History};
ghost use Rattle.ipx_peers.specs.Places.{same, is_of, is_away};
ghost use Rattle.ipx_peers.specs.States.{counts, place_at, verdict, next_number, state};
ghost use Rattle.ipx_peers.specs.Laws.{hears, is_heard, numbers_of, GoesOn, AreNew, CameFrom, CameLately};

/// No number of a session is heard twice, until it begins again. Where each session with which it begins is new, no datagram is heard twice at all.
pub fn once()
    ensures number { (later earlier : History) (first again : Opened) → GoesOn later → hears earlier first ≡ true
        → same again.session first.session ≡ true → again.number ≡ first.number → hears (later ++ Hears first ∷ earlier) again ≡ false }
    ensures datagram { (later earlier : History) (opened : Opened) → AreNew (later ++ Hears opened ∷ earlier) → hears earlier opened ≡ true
        → hears (later ++ Hears opened ∷ earlier) opened ≡ false }
{}

/// Whatever is heard echoes the session of this time, and is another's.
pub fn fresh()
    ensures echo { (history : History) (opened : Opened) → hears history opened ≡ true → same opened.echo (state history).session ≡ true }
    ensures other { (history : History) (opened : Opened) → hears history opened ≡ true → same opened.session (state history).session ≡ false }
{}

/// The numbers by which a place's next one is judged are all that were heard of its session since the last beginning; of a session that is no
/// place's none was.
pub fn window()
    ensures known { (history : History) (session : List ℕ) (index : ℕ) → position (is_of session) (state history).places ≡ Some index
        → (place_at index (state history).places).numbers ≡ numbers_of session history }
    ensures unknown { (history : History) (session : List ℕ) → position (is_of session) (state history).places ≡ None
        → numbers_of session history ≡ [] }
{}

/// A datagram that counts and echoes one's session is heard, if its number wasn't, and is less than 256 behind the highest: from a place that is
/// known, and from a new one while there is room.
pub fn recent_is_heard()
    ensures known { (history : History) (opened : Opened) (some : ℕ) (others : List ℕ) → counts (state history) opened ≡ true
        → same opened.echo (state history).session ≡ true → numbers_of opened.session history ≡ some ∷ others
        → list_any (λ number. number == opened.number) (numbers_of opened.session history) ≡ false
        → newest (numbers_of opened.session history) < opened.number + slots_count → hears history opened ≡ true }
    ensures new { (history : History) (opened : Opened) → counts (state history) opened ≡ true
        → same opened.echo (state history).session ≡ true → numbers_of opened.session history ≡ []
        → length (state history).places < most_places → hears history opened ≡ true }
{}

/// A place is where its datagram of the highest number came from.
pub fn roams()
    ensures { (history : History) (index : ℕ) → index < length (state history).places
        → CameFrom (place_at index (state history).places) history }
{}

/// A place that is present was heard less than 180 seconds ago.
pub fn silence()
    ensures { (history : History) (index : ℕ) → index < length (state history).places
        → is_away (place_at index (state history).places) ≡ false → CameLately (place_at index (state history).places) history }
{}

/// No number is sent twice under a session: each is higher than the one before, until it begins again; and where each session with which it
/// begins is new, it has this session only until then.
pub fn numbers()
    ensures higher { (later earlier : History) → GoesOn later → next_number (state (later ++ Sends ∷ earlier)) ≢ 0
        → next_number (state earlier) < next_number (state (later ++ Sends ∷ earlier)) }
    ensures session { (later earlier : History) (own : List ℕ) → AreNew (later ++ Begins own ∷ earlier)
        → same (state (later ++ Begins own ∷ earlier)).session own ≡ true → GoesOn later }
{}

/// Nothing is kept of a datagram that isn't heard, so of one that is greeted. There are at most 64 places, and none is present for more than
/// 180 seconds.
pub fn bounded()
    ensures unheard { (history : History) (opened : Opened) → hears history opened ≡ false → state (Hears opened ∷ history) ≡ state history }
    ensures greeted { (history : History) (opened : Opened) → verdict opened (state history) ≡ Greet → hears history opened ≡ false }
    ensures places { (history : History) → length (state history).places ≤ most_places }
    ensures left { (history : History) (index : ℕ) → (place_at index (state history).places).left ≤ place_lasts }
{}
