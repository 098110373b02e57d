//! What follows from the definitions alone, for every state and every list of events, so for every stretch of time.
ghost use Rattle.std.specs.Prelude.{◌≡◌, ℕ, ◌+◌, ◌-◌, ◌*◌, ◌^◌, ◌<◌, ◌≤◌, ◌==◌, nat_le, true, false, not, if◌then◌else◌, Some, List, length, get_or};
ghost use Rattle.ipx_fair.specs.Hearing.{queue_of};
ghost use Rattle.ipx_fair.specs.States.{State};
ghost use Rattle.ipx_fair.specs.Events.{Runs as RunsOfOne};
ghost use Rattle.ipx_fair.specs.Keeping.{IsKept};
ghost use Rattle.ipx_fair.specs.Laws.{Anything, AtMost, HasMore, elapsed, given, given_to, KeepsTo, LosesNothing};
ghost use Rattle.ipx_fair.specs.Numbers.{can_be};
ghost use Rattle.ipx_fair.specs.declared.meter.Meter.{Meter};
ghost use Rattle.ipx_limits.specs.declared.limits.HouseholdLimits.{HouseholdLimits};
ghost use Rattle.ipx_limits.specs.declared.limits.Limit.{Limit};
ghost use Rattle.ipx_limits.specs.declared.limits.Limits.{Limits};
ghost use Rattle.ipx_limits.specs.declared.network.NetworkSetting.{NetworkSetting};
ghost use Rattle.ipx_limits.specs.declared.line.Line.{Line};
ghost use Rattle.ipx_limits.specs.declared.line.LineAddress.{LineAddress};
ghost use Rattle.ipx_limits.specs.declared.line_room.LineUse.{LineUse};
ghost use Rattle.ipx_limits.specs.declared.queues.Queues.{Queues};
ghost use Rattle.ipx_limits.specs.declared.rank.Rank.{Rank};
ghost use Rattle.ipx_limits.specs.declared.rank.Rank.TheVariants.{Little, Within};
ghost use Rattle.ipx_limits.specs.LineParts.{ahead, from_now, cost, longest, receivers, pairs, pair_cost, said_cost, most_within};
ghost use Rattle.ipx_limits.specs.LineRoom.{place_of, speaks_to_itself, rank_of, most_room, room_of, room_for, has_room, most_used, is_little, is_of_part, is_spoken, is_received, LineSent, own_cost, own_after, most_of_one, lets_stranger, stranger_after};
ghost use Rattle.ipx_limits.specs.LineLaws.{Busy, quiet, busy_then, Event as OnLine, Runs as LineRuns, elapsed as time_on_line, copied, own_fill, fill_by, comes_first, room_behind, HasParts, IsWide, Saying, SayingRuns, said_fill, Stranger, StrangersRun, waited, sent as sent_on_line};
ghost use Rattle.ipx_limits.specs.declared.uses.Address.{Address};
ghost use Rattle.ipx_limits.specs.declared.uses.Client.{Client};
ghost use Rattle.ipx_limits.specs.Queues.{users_of, Taken, speakers};
ghost use Rattle.ipx_limits.specs.Several.{Event, Runs, of_it, said};
ghost use Rattle.ipx_limits.specs.Limits.{of_clients, limits_at, household_at, frames_on, told_each, told_on_links};
ghost use Rattle.ipx_limits.specs.Deciding.{is_ping, is_question, is_told};
ghost use Rattle.ipx_limits.specs.Receiving.{packet_weight, piece_weight};
ghost use Rattle.ipx_limits.specs.ClientEvents.{Home, Few, Event as AtHome, Runs as RunsAtHome, to_packets, to_pieces, to_address, ReceivesAll};
ghost use Rattle.ipx_limits.specs.Metered.{Use, Runs as UsesRun, elapsed as time_of_uses, counted, Event as Decided, any, time_of, passed, Handing, HandingRuns, FramesHanding, FramesRuns, LinksRun, PingingRuns, AnsweringRuns, PagingRuns, OfClient, ClientRuns, uses_of, pings_of, questions_of, answers_to, pages_to};
ghost use Rattle.ipx_limits.specs.declared.decision.Decision.{Decision};
ghost use Rattle.ipx_limits.specs.declared.decision.Decision.TheVariants.{Passes};
ghost use Rattle.ipx_limits.specs.declared.strangers.StrangersLimits.{StrangersLimits};
ghost use Rattle.ipx_limits.specs.Numbers.{most_rate, own_at_once, line_short};
ghost use Rattle.ipx_limits.specs.Strangers.{registration, strangers_at, Sent, Event as ToStrangers, AllRuns, OneRuns, sent, time_of as time_to_strangers};

/// What happens to one of several receivers that all have to hear a packet is what happens to a receiver, so all that `ipx_fair` promises
/// holds of it.
pub fn each_is_a_receiver()
    ensures { (old new : State) (events : List Event) → Runs Anything old events new → RunsOfOne Anything old (of_it events) new }
{}

/// A speaker who says no more than one part in n of what one of several receivers reads always finds room there: whatever the other
/// receivers hear, and whatever the other speakers say, as long as no more than n queues wait at any time; or, where it has no more queues,
/// in any case. At once he may say `one`; or `own`, where the reserve is that large. So where he keeps to his part of each of them, he loses
/// nothing.
pub fn part_of_each_is_heard()
    ensures packet { (n speaker : ℕ) (old new : State) (events : List Event) → 0 < n → IsKept old → Runs (AtMost n) old events new
        → KeepsTo n old.setting.one speaker (n * queue_of old.queues speaker) (said events) → LosesNothing speaker (said events) }
    ensures always { (n speaker : ℕ) (old new : State) (events : List Event) → 0 < n → IsKept old → Runs Anything old events new
        → length old.queues ≤ n
        → KeepsTo n old.setting.one speaker (n * queue_of old.queues speaker) (said events) → LosesNothing speaker (said events) }
    ensures more { (n speaker : ℕ) (old new : State) (events : List Event) → 0 < n → IsKept old → Runs (AtMost n) old events new
        → (n + 1) * old.setting.own ≤ old.setting.reserve
        → KeepsTo n old.setting.own speaker (n * queue_of old.queues speaker) (said events) → LosesNothing speaker (said events) }
{}

/// None of several receivers is given more than the time that passed for it, and what its queues may have at once.
pub fn each_is_bound()
    ensures { (old new : State) (events : List Event) → IsKept old → Runs Anything old events new
        → given (of_it events) ≤ elapsed (of_it events) + old.setting.room + old.setting.reserve
        + old.setting.one * length old.queues + length old.queues }
{}

/// Whose queue at one of several receivers waits all the time is given one part in n of its time, where no more than n wait there.
pub fn part_of_each_is_fair()
    ensures { (n speaker : ℕ) (old new : State) (events : List Event) → IsKept old → Runs (HasMore n speaker) old events new
        → elapsed (of_it events) + n * queue_of new.queues speaker
        ≤ n * (given_to speaker (of_it events) + queue_of old.queues speaker) + n }
{}

/// Who says no more to a client than his part loses nothing by the limits of the client and of its address: one part in n of the packets
/// that the client reads, one in m of their pieces, and, with all that he says to clients of the address, one in l of what these receive,
/// whatever the others say, as long as no more queues wait there. At once he may say one of the longest packets; or, to seven or fewer who
/// wait, `own`. A link with frames is a client whose address counts nothing. (what clients of one address say to each other has one limit for
/// all of them, which may refuse it)
pub fn client_receives_all()
    ensures one { (limits : Limits) (household : HouseholdLimits) (n m l speaker : ℕ) (old new : Home) (events : List AtHome)
        → 0 < n → 0 < m → 0 < l → IsKept old.client.packets → IsKept old.client.pieces → IsKept old.address
        → RunsAtHome limits household (Few n m l) old events new
        → KeepsTo n old.client.packets.setting.one speaker (n * queue_of old.client.packets.queues speaker) (said (to_packets limits events))
        → KeepsTo m old.client.pieces.setting.one speaker (m * queue_of old.client.pieces.queues speaker) (said (to_pieces limits events))
        → KeepsTo l old.address.setting.one speaker (l * queue_of old.address.queues speaker) (said (to_address household events))
        → ReceivesAll speaker events }
    ensures own { (limits : Limits) (household : HouseholdLimits) (n m l speaker : ℕ) (old new : Home) (events : List AtHome)
        → 0 < n → 0 < m → 0 < l → IsKept old.client.packets → IsKept old.client.pieces → IsKept old.address
        → RunsAtHome limits household (Few n m l) old events new
        → (n + 1) * old.client.packets.setting.own ≤ old.client.packets.setting.reserve
        → (l + 1) * old.address.setting.own ≤ old.address.setting.reserve
        → KeepsTo n old.client.packets.setting.own speaker (n * queue_of old.client.packets.queues speaker) (said (to_packets limits events))
        → KeepsTo m old.client.pieces.setting.one speaker (m * queue_of old.client.pieces.queues speaker) (said (to_pieces limits events))
        → KeepsTo l old.address.setting.own speaker (l * queue_of old.address.queues speaker) (said (to_address household events))
        → ReceivesAll speaker events }
{}

/// The limits of any setting are those of receivers that can be had. A packet weighs no more than `one`, the longest too, in as many frames as
/// a link may have: so whose queue is empty is heard. And where no more than seven queues wait, each may say `own` at once.
pub fn limits_can_be()
    ensures packets { (set : NetworkSetting) → can_be (limits_at set).received.packets 256 ≡ true }
    ensures pieces { (set : NetworkSetting) → can_be (limits_at set).received.pieces 256 ≡ true }
    ensures address { (rate : ℕ) → 0 < rate → rate ≤ most_rate → can_be (household_at rate).received 256 ≡ true }
    ensures links { can_be told_on_links 256 ≡ true }
    ensures one_at_address { (rate : ℕ) → (household_at rate).packet ≤ (household_at rate).received.one }
    ensures one_of_links { told_each ≤ told_on_links.one }
    ensures seven { (set : NetworkSetting) → (7 + 1) * (limits_at set).received.packets.own ≤ (limits_at set).received.packets.reserve }
    ensures seven_at_address { (rate : ℕ) → (7 + 1) * (household_at rate).received.own ≤ (household_at rate).received.reserve }
    ensures longest { (set : NetworkSetting) (bytes frames : ℕ) → frames ≤ frames_on set.link
        → (packet_weight (limits_at set).received frames ≤ (limits_at set).received.packets.one)
        × (piece_weight (limits_at set).received bytes frames ≤ (limits_at set).received.pieces.one) }
{}

/// As long as fewer speak than there are queues, who begins to speak gets one that nobody has.
pub fn few_have_queues_of_their_own()
    ensures { (first last number : ℕ) (old new : Queues) → Taken first last number old new → last < 256
        → speakers old first last < last + 1 - first → users_of old number ≡ 0 }
{}

/// A limit lets no more pass in any time than its rate, and what comes at once: `each` nanoseconds for each that counted are no more than
/// the time and the burst. What is used of it stays within the burst.
pub fn limit_holds()
    ensures most { (limit : Limit) (old new : Meter) (uses : List Use) → UsesRun limit old uses new → old.used ≤ limit.burst
        → counted uses * limit.each ≤ time_of_uses uses + limit.burst }
    ensures within { (limit : Limit) (old new : Meter) (uses : List Use) → UsesRun limit old uses new → old.used ≤ limit.burst
        → new.used ≤ limit.burst }
{}

/// The router hears no more of an address in any time than its limit lets pass, in packets, in questions, and in what routers tell:
/// whichever of its clients speaks, and whatever they say, as long as it has no more clients than so many at any time.
pub fn router_is_spared()
    ensures packets { (limits : Limits) (clients : ℕ) (old new : Handing) (events : List Decided) → HandingRuns limits clients old events new
        → old.account.handed.used ≤ limits.handed.burst
        → passed any events * limits.handed.each ≤ time_of events + limits.handed.burst }
    ensures questions { (limits : Limits) (clients : ℕ) (old new : Handing) (events : List Decided) → HandingRuns limits clients old events new
        → old.address.asked.used ≤ limits.questions.burst
        → passed is_question events * (of_clients clients limits.questions).each ≤ time_of events + limits.questions.burst }
    ensures advertisements { (limits : Limits) (clients : ℕ) (old new : Handing) (events : List Decided)
        → HandingRuns limits clients old events new → old.account.advertised.used ≤ limits.advertisements.burst
        → passed is_told events * limits.advertisements.each ≤ time_of events + limits.advertisements.burst }
{}

/// Nor does one client ping, ask, or get of the gateway's answers and of the router's, more than its own limits let pass, whatever others do,
/// and whatever is said in its name.
pub fn client_keeps_within()
    ensures pings { (limits : Limits) (old new : Client) (events : List OfClient) → ClientRuns limits old events new → old.pinged.used ≤ limits.pings.burst
        → counted (uses_of pings_of events) * limits.pings.each ≤ time_of_uses (uses_of pings_of events) + limits.pings.burst }
    ensures questions { (limits : Limits) (old new : Client) (events : List OfClient) → ClientRuns limits old events new
        → old.asked.used ≤ limits.questions.burst
        → counted (uses_of questions_of events) * limits.questions.each ≤ time_of_uses (uses_of questions_of events) + limits.questions.burst }
    ensures answers { (limits : Limits) (old new : Client) (events : List OfClient) → ClientRuns limits old events new
        → old.answered.used ≤ limits.answers.burst
        → counted (uses_of answers_to events) * limits.answers.each ≤ time_of_uses (uses_of answers_to events) + limits.answers.burst }
    ensures pages { (limits : Limits) (old new : Client) (events : List OfClient) → ClientRuns limits old events new
        → old.paged.used ≤ limits.pages.burst
        → counted (uses_of pages_to events) * limits.pages.each ≤ time_of_uses (uses_of pages_to events) + limits.pages.burst }
{}

/// The same of a network of frames: questions, and what routers tell.
pub fn router_is_spared_by_frames()
    ensures questions { (limits : Limits) (old new : FramesHanding) (events : List Decided) → FramesRuns limits old events new
        → old.asked.used ≤ limits.questions.burst
        → passed is_question events * limits.questions.each ≤ time_of events + limits.questions.burst }
    ensures advertisements { (limits : Limits) (old new : FramesHanding) (events : List Decided) → FramesRuns limits old events new
        → old.advertised.used ≤ limits.advertisements.burst
        → passed is_told events * limits.advertisements.each ≤ time_of events + limits.advertisements.burst }
{}

/// All networks of frames together tell the router no more in any time than that, and what they may tell at once.
pub fn router_is_spared_by_all_frames()
    ensures { (old new : State) (events : List Decided) → LinksRun old events new → IsKept old
        → passed is_told events * told_each ≤ time_of events + old.setting.room + old.setting.reserve
        + old.setting.one * length old.queues + length old.queues }
{}

/// All clients of a network together, and whoever is behind its frames, ping all others no more in any time than their limit lets pass.
pub fn pings_are_few()
    ensures { (limits : Limits) (old new : Meter) (events : List Decided) → PingingRuns limits old events new → old.used ≤ limits.all_pings.burst
        → passed is_ping events * limits.all_pings.each ≤ time_of events + limits.all_pings.burst }
{}

/// The gateway answers clients of an address no more in any time than its limit lets pass.
pub fn answers_are_few()
    ensures { (limits : Limits) (clients : ℕ) (old new : Address) (events : List Decided) → AnsweringRuns limits clients old events new
        → old.answered.used ≤ limits.answers.burst
        → passed any events * (of_clients clients limits.answers).each ≤ time_of events + limits.answers.burst }
{}

/// The router answers clients of an address no more in any time than its limit lets pass, in packets, whatever they ask, or others in their
/// name.
pub fn pages_are_few()
    ensures { (limits : Limits) (clients : ℕ) (old new : Address) (events : List Decided) → PagingRuns limits clients old events new
        → old.paged.used ≤ limits.pages.burst
        → passed any events * (of_clients clients limits.pages).each ≤ time_of events + limits.pages.burst }
{}

/// Places without a client are sent no more in any time than the limit lets go, in datagrams: all of them together, whichever they are, and
/// those of one address.
pub fn strangers_are_sent_little()
    ensures all { (limits : StrangersLimits) (old new : Meter) (events : List ToStrangers) → AllRuns limits old events new
        → old.used ≤ limits.all.burst → limits.all.burst < 2 ^ 64 - 1
        → sent events * limits.all.each ≤ time_to_strangers events + limits.all.burst }
    ensures one { (limits : StrangersLimits) (old new : Meter) (events : List ToStrangers) → OneRuns limits old events new
        → old.used ≤ limits.one.burst → limits.one.burst < 2 ^ 64 - 1
        → sent events * limits.one.each ≤ time_to_strangers events + limits.one.burst }
    ensures small { (rate : ℕ) → 0 < rate → rate ≤ most_rate
        → ((strangers_at rate).all.burst < 2 ^ 64 - 1) × ((strangers_at rate).one.burst < 2 ^ 64 - 1) }
{}

/// A newcomer's registration is answered and remembered, which takes four datagrams, if its address was sent nothing lately and there is room in
/// what goes to all.
pub fn newcomer_is_answered()
    ensures { (rate : ℕ) (decision : Decision) (address address_then all all_then : Meter)
        → Sent (strangers_at rate) registration decision address address_then all all_then → address.used ≡ 0
        → all.used + registration * (strangers_at rate).all.each ≤ (strangers_at rate).all.burst → decision ≡ Passes }
{}

/// A rank that comes first finds room wherever one behind it does.
pub fn better_finds_more_room()
    ensures { (line : Line) (rank other : Rank) → comes_first rank other ≡ true → room_of line other ≤ room_of line rank }
{}

/// What a narrow line keeps are moments: as long as a clock doesn't reach its end, what is used ends when it should.
pub fn moments_last()
    ensures later { (now moment nanoseconds : ℕ) → ahead (now + nanoseconds) moment ≡ ahead now moment - nanoseconds }
    ensures set { (now nanoseconds : ℕ) → now + nanoseconds < 2 ^ 64 → ahead now (from_now now nanoseconds) ≡ nanoseconds }
{}

/// What goes out by a narrow line takes of it, and of each part that its rank has, what the steps say of which these laws speak. (that other
/// speakers' parts stay as they are is in the calls' contracts)
pub fn sent_takes_its_part()
    ensures line { (now number bytes : ℕ) (rank : Rank) (old new : Line) (said said_then : ℕ) (to to_then : LineAddress)
        → LineSent now number bytes rank old new said said_then to to_then → now + most_used old < 2 ^ 64
        → ahead now new.used ≡ busy_then old bytes (ahead now old.used) }
    ensures said { (now number bytes : ℕ) (rank : Rank) (old new : Line) (said said_then : ℕ) (to to_then : LineAddress)
        → LineSent now number bytes rank old new said said_then to to_then → now + (ahead now said + said_cost old bytes) < 2 ^ 64
        → ahead now said_then ≡ (if is_little rank then ahead now said + said_cost old bytes else ahead now said) }
    ensures within { (now number bytes : ℕ) (rank : Rank) (old new : Line) (said said_then : ℕ) (to to_then : LineAddress)
        → LineSent now number bytes rank old new said said_then to to_then → place_of number < length to.within
        → now + (ahead now (get_or to.within (place_of number) 0) + pair_cost old to bytes) < 2 ^ 64
        → ahead now (get_or to_then.within (place_of number) 0)
        ≡ (if is_of_part rank then ahead now (get_or to.within (place_of number) 0) + pair_cost old to bytes else ahead now (get_or to.within (place_of number) 0)) }
    ensures spoken { (now number bytes : ℕ) (rank : Rank) (old new : Line) (said said_then : ℕ) (to to_then : LineAddress)
        → LineSent now number bytes rank old new said said_then to to_then → place_of number < length to.spoken
        → now + (ahead now (get_or to.spoken (place_of number) 0) + pairs old to * cost old bytes) < 2 ^ 64
        → ahead now (get_or to_then.spoken (place_of number) 0)
        ≡ (if is_spoken rank then ahead now (get_or to.spoken (place_of number) 0) + pairs old to * cost old bytes else ahead now (get_or to.spoken (place_of number) 0)) }
    ensures received { (now number bytes : ℕ) (rank : Rank) (old new : Line) (said said_then : ℕ) (to to_then : LineAddress)
        → LineSent now number bytes rank old new said said_then to to_then → now + (ahead now to.received + receivers old * cost old bytes) < 2 ^ 64
        → ahead now to_then.received ≡ (if is_received rank then ahead now to.received + receivers old * cost old bytes else ahead now to.received) }
    ensures own { (now bytes : ℕ) (line : Line) → now + most_used line < 2 ^ 64 → ahead now (own_after now line bytes).used ≡ busy_then line bytes (ahead now line.used) }
    ensures strangers { (now bytes address : ℕ) (line : Line) → lets_stranger now line address ≡ true → now + (ahead now line.to_strangers + own_cost line bytes) < 2 ^ 64
        → (nat_le (ahead now line.to_strangers) own_at_once ≡ true) × (nat_le (ahead now address) (most_of_one line) ≡ true)
        × (ahead now (stranger_after now line bytes).to_strangers ≡ ahead now line.to_strangers + own_cost line bytes) }
{}

/// Copies take no more of a narrow line in any time than that time, its room, and one of the longest packets: whatever else goes out, and
/// however busy the line is before.
pub fn line_is_bound()
    ensures { (line : Line) (speak_to : List ℕ) (old new : Busy) (events : List OnLine) → LineRuns line speak_to old events new
        → copied line events ≤ time_on_line events + most_room line + longest line }
{}

/// Those who are no clients get no more in any time than their part of a narrow line, and what it may have at once; nor does one address of them
/// than its part of that.
pub fn strangers_have_a_part()
    ensures { (line : Line) (parts most old new : ℕ) (events : List Stranger) → StrangersRun line parts most old events new → old ≤ most
        → parts * sent_on_line line events ≤ waited events + most + parts * longest line }
{}

/// On a narrow line copies of a rank, and those that come first, don't wait for others: as long as these alone, with the gateway's own
/// datagrams, wait no longer than the room that their rank has beyond the next, and one of the longest packets, all of them find room.
pub fn better_goes_first()
    ensures busy { (line : Line) (speak_to : List ℕ) (rank : Rank) (new : Busy) (speak : ℕ) (events : List OnLine)
        → LineRuns line speak_to (quiet speak speak_to) events new → new.line ≤ room_behind rank + longest line + fill_by line rank 0 events }
    ensures heard { (line : Line) (speak_to : List ℕ) (rank : Rank) (new : Busy) (speak : ℕ) (events : List OnLine) (used : LineUse)
        → LineRuns line speak_to (quiet speak speak_to) events new → used.line ≡ new.line
        → room_behind rank + longest line + fill_by line rank 0 events ≤ room_of line rank → has_room line rank used ≡ true }
{}

/// Whoever says no more than his parts finds room on a narrow line, whatever others say: as long as the line is wide enough for all who are on it,
/// and the gateway's own datagrams keep to their part, too.
pub fn within_is_heard()
    ensures within { (line : Line) (speak : ℕ) (speak_to : List ℕ) (new : Busy) (events : List OnLine) (to : LineAddress) (number bytes : ℕ) (used : LineUse)
        → LineRuns line speak_to (quiet speak speak_to) events new → HasParts line speak speak_to → IsWide line
        → own_fill line 0 events ≤ own_at_once + own_cost line line_short → used.line ≡ new.line → rank_of line to number bytes used ≡ Within
        → room_for line to number bytes used ≡ Some Within }
    ensures little { (line : Line) (speak : ℕ) (speak_to : List ℕ) (new : Busy) (events : List OnLine) (to : LineAddress) (number bytes : ℕ) (used : LineUse)
        → LineRuns line speak_to (quiet speak speak_to) events new → HasParts line speak speak_to → IsWide line
        → own_fill line 0 events ≤ own_at_once + own_cost line line_short → used.line ≡ new.line → rank_of line to number bytes used ≡ Little
        → room_for line to number bytes used ≡ Some Little }
{}

/// And who says no more to an address than the part of the line that he has there, and at once what it lets him, is within it. An address has
/// none for what it says to its own client there, if that is its only one.
pub fn part_is_within()
    ensures part { (line : Line) (to : LineAddress) (number bytes : ℕ) (old new : ℕ) (sayings : List Saying) (used : LineUse)
        → not (number == 0) ≡ true → speaks_to_itself line to number ≡ false → SayingRuns line to old sayings new → used.within ≤ new
        → said_fill line to old sayings + pair_cost line to bytes ≤ most_within line to → rank_of line to number bytes used ≡ Within }
    ensures itself { (line : Line) (to : LineAddress) (number bytes : ℕ) (used : LineUse) → speaks_to_itself line to number ≡ true
        → rank_of line to number bytes used ≡ Within → ⊥ }
{}
