//! What holds by the definitions alone, of every packet, whatever is answered about it; and of every list of fates.
ghost use Rattle.std.specs.Prelude.{◌≡◌, ℕ, ◌+◌, ◌≤◌, Bool, true, false, List, length, get_or, Some};
ghost use Rattle.std.specs.List.{sum, list_all, list_any};
ghost use Rattle.std.specs.Option.{is_some};
ghost use Rattle.ipx_fates.specs.declared.fate.Fate.{Fate};
ghost use Rattle.ipx_fates.specs.declared.reason.Reason.{Reason};
ghost use Rattle.ipx_fates.specs.declared.step.FrameStep.TheVariants as frames;
ghost use Rattle.ipx_fates.specs.declared.step.DatagramStep.TheVariants as datagrams;
ghost use Rattle.ipx_fates.specs.declared.step.WordStep.TheVariants as words;
ghost use Rattle.ipx_fates.specs.declared.step.RouterStep.TheVariants as routes;
ghost use Rattle.ipx_fates.specs.declared.step.Step.TheVariants.{Router, Frame, Word};
ghost use Rattle.ipx_fates.specs.Fates.{reason_at, reason_number};
ghost use Rattle.ipx_fates.specs.Datagrams.{speaks};
ghost use Rattle.ipx_fates.specs.declared.step.Step.{Step};
ghost use Rattle.ipx_fates.specs.Courses.{of_frame, of_datagram, after_step};
ghost use Rattle.ipx_fates.specs.Walks.{Answers, fate_of, steps_of};
ghost use Rattle.ipx_fates.specs.Conditions.{first_of, frame, datagram, word, is_said, frame_conditions, datagram_conditions};
ghost use Rattle.ipx_fates.specs.Counting.{largest};
ghost use Rattle.ipx_fates.specs.Laws.{is_heard, is_handed, router_hears, hands_on, place, IsBehind, reaches_nobody, is_unheard, tunnel_hears, counts_of, number_of, is_taken, is_here, can_be, is_lost_for};

/// Each packet has one fate, after at most twenty steps: of the conditions that hold of it, the first says which. Some condition always holds.
pub fn each_packet_has_one_fate()
    ensures frame { (told : Answers) → fate_of told of_frame ≡ first_of (frame_conditions told) }
    ensures datagram { (told : Answers) → fate_of told of_datagram ≡ first_of (datagram_conditions told) }
    ensures some_frame { (told : Answers) → is_some (fate_of told of_frame) ≡ true }
    ensures some_datagram { (told : Answers) → is_some (fate_of told of_datagram) ≡ true }
{}

/// What is next comes later in the order in which the steps are listed, whatever is answered. So no step is taken twice: what costs something is
/// asked once.
pub fn no_step_is_taken_twice()
    ensures { (answer : ℕ) (step : Step) → IsBehind (place step) (after_step answer step) }
{}

/// What is heard, or dropped by the router, the router heard; and what is handed on went to others of its network.
pub fn fates_say_what_happened()
    ensures heard_frame { (told : Answers) (fate : Fate) → fate_of told of_frame ≡ Some fate → is_heard fate ≡ true
        → list_any router_hears (steps_of told of_frame) ≡ true }
    ensures heard_datagram { (told : Answers) (fate : Fate) → fate_of told of_datagram ≡ Some fate → is_heard fate ≡ true
        → list_any router_hears (steps_of told of_datagram) ≡ true }
    ensures handed_frame { (told : Answers) (fate : Fate) → fate_of told of_frame ≡ Some fate → is_handed fate ≡ true
        → list_any hands_on (steps_of told of_frame) ≡ true }
    ensures handed_datagram { (told : Answers) (fate : Fate) → fate_of told of_datagram ≡ Some fate → is_handed fate ≡ true
        → list_any hands_on (steps_of told of_datagram) ≡ true }
{}

/// A frame of the gateway's own that came back reaches nobody: no other link, no other network, and not the router.
pub fn own_frames_reach_nobody()
    ensures { (told : Answers) → frame told frames.IsOwn ≡ true → reaches_nobody (steps_of told of_frame) ≡ true }
{}

/// Nor does what comes in the name of another: on one of several links a packet that names a client of a tunnel on another link as its source;
/// at a tunnel what doesn't name its sender's place. And on a link where stations use any kind of frames, a copy in another kind.
pub fn nobody_speaks_for_another()
    ensures frame { (told : Answers) → frame told frames.HasLinks ≡ true → frame told frames.NamesClient ≡ true
        → reaches_nobody (steps_of told of_frame) ≡ true }
    ensures kind { (told : Answers) → frame told frames.IsOfItsKind ≡ false → reaches_nobody (steps_of told of_frame) ≡ true }
    ensures datagram { (told : Answers) → is_said told speaks ≡ false → reaches_nobody (steps_of told of_datagram) ≡ true }
{}

/// What comes from an address that isn't allowed reaches nobody, and not even the tunnel hears it. What a stranger says, who is no client, reaches
/// nobody.
pub fn strangers_reach_nobody()
    ensures not_allowed { (told : Answers) → datagram told datagrams.IsAllowed ≡ false → reaches_nobody (steps_of told of_datagram) ≡ true }
    ensures unheard { (told : Answers) → datagram told datagrams.IsAllowed ≡ false → list_any tunnel_hears (steps_of told of_datagram) ≡ false }
    ensures stranger { (told : Answers) → datagram told datagrams.IsFromClient ≡ false → reaches_nobody (steps_of told of_datagram) ≡ true }
{}

/// What a client says to routers of other networks reaches nobody.
pub fn far_routers_hear_no_client()
    ensures { (told : Answers) → word told words.IsForFarRouters ≡ true → reaches_nobody (steps_of told of_datagram) ≡ true }
{}

/// Where a limit refuses a packet for all, nobody gets it; where one refuses it for the router, the router doesn't hear it, nor do other
/// networks get copies. (of a frame that holds no whole packet, on the only link of its network, no limit for the router is asked)
pub fn refused_packets_reach_nobody()
    ensures frame { (told : Answers) (why : Reason) → reason_at (told (Frame frames.LetsIn)) ≡ Some why
        → reaches_nobody (steps_of told of_frame) ≡ true }
    ensures word { (told : Answers) (why : Reason) → reason_at (told (Word words.LetsSay)) ≡ Some why
        → reaches_nobody (steps_of told of_datagram) ≡ true }
    ensures router_datagram { (told : Answers) (why : Reason) → reason_at (told (Router routes.LetsHear)) ≡ Some why
        → is_unheard (steps_of told of_datagram) ≡ true }
    ensures router_several { (told : Answers) (why : Reason) → frame told frames.HasLinks ≡ true
        → reason_at (told (Router routes.LetsHear)) ≡ Some why → is_unheard (steps_of told of_frame) ≡ true }
    ensures router_one { (told : Answers) (why : Reason) → frame told frames.IsWhole ≡ true
        → reason_at (told (Router routes.LetsHear)) ≡ Some why → is_unheard (steps_of told of_frame) ≡ true }
{}

/// Counts add up: those that came are those that were taken, lost and dropped; and each reason counts those that were lost for it. (as long as
/// nothing else is counted, and no more came than a count can say)
pub fn counts_add_up()
    ensures all { (fates : List Fate) → length fates ≤ largest → list_all can_be fates ≡ true
        → (counts_of fates).came ≡ number_of is_taken fates + sum (counts_of fates).lost + sum (counts_of fates).dropped }
    ensures came { (fates : List Fate) → length fates ≤ largest → list_all can_be fates ≡ true
        → (counts_of fates).came ≡ number_of is_here fates }
    ensures each { (why : Reason) (fates : List Fate) → length fates ≤ largest → list_all can_be fates ≡ true
        → get_or (counts_of fates).lost (reason_number why) 0 ≡ number_of (is_lost_for why) fates }
{}
