//! The way of a packet, as C knows it by numbers.
ghost use Rattle.std.specs.Prelude.{◌≡◌};
ghost use Rattle.ipx_c.specs.CourseValues.{frame_at, frame_number, router_at, router_number, word_at, word_number, datagram_at, datagram_number, step_at, step_number, fate_at, lost_for, fate_number, number_of, course_at, course_values};

use ipx_fates::{Course, DatagramStep, Fate, FrameStep, Reason, RouterStep, Step, WordStep};

/// Where a packet is on its way: the number of what is next, or 0; then the number of its fate, and that of the reason for which it is lost, or of the
/// router's drop. All bytes 0 are the end of a way on which nothing is counted.
#[repr(C)]
#[derive(Clone, Copy)]
pub struct CourseValues {
    pub(crate) next: u8,
    pub(crate) fate: u8,
    pub(crate) number: u16,
}

/// The way in the values. Where no step or no fate has the number, it is at its end, and nothing is counted.
pub(crate) fn course_at(values: &CourseValues) -> Course
    ensures { result ≡ course_at values.now }
{
    if values.next == 0 {
        return Course::Ends(fate_at(values.fate, values.number));
    }
    match step_at(values.next) {
        Some(step) => Course::Goes(step),
        None => Course::Ends(Fate::Elsewhere),
    }
}

/// The values of a way.
pub(crate) fn course_values(course: Course) -> CourseValues
    ensures { result ≡ course_values course }
{
    match course {
        Course::Goes(step) => CourseValues {
            next: step_number(step),
            fate: 0,
            number: 0,
        },
        Course::Ends(fate) => CourseValues {
            next: 0,
            fate: fate_number(fate),
            number: number_of(fate),
        },
    }
}

// ---- Fates

/// The fate with a number, and with the number of its reason, or of the router's drop.
fn fate_at(fate: u8, number: u16) -> Fate
    ensures { result ≡ fate_at fate number }
{
    match fate {
        1 => Fate::Heard,
        2 => Fate::Dropped(number),
        3 => Fate::HandedOn,
        4 => Fate::Answered,
        5 => Fate::Stays,
        6 => Fate::Awaited,
        7 => Fate::Probe,
        8 => lost_for(Reason::at(number)),
        _ => Fate::Elsewhere,
    }
}

/// That of what is lost for a reason.
fn lost_for(why: Option<Reason>) -> Fate
    ensures { result ≡ lost_for why }
{
    match why {
        Some(why) => Fate::Lost(why),
        None => Fate::Elsewhere,
    }
}

/// The number of a fate.
fn fate_number(fate: Fate) -> u8
    ensures { result ≡ fate_number fate }
{
    match fate {
        Fate::Elsewhere => 0,
        Fate::Heard => 1,
        Fate::Dropped(_) => 2,
        Fate::HandedOn => 3,
        Fate::Answered => 4,
        Fate::Stays => 5,
        Fate::Awaited => 6,
        Fate::Probe => 7,
        Fate::Lost(_) => 8,
    }
}

/// The number of its reason, or of the router's drop.
fn number_of(fate: Fate) -> u16
    ensures { result ≡ number_of fate }
{
    match fate {
        Fate::Dropped(number) => number,
        Fate::Lost(why) => u16::from(why.number()),
        _ => 0,
    }
}

// ---- Steps

/// The step with a number.
fn step_at(number: u8) -> Option<Step>
    ensures { result ≡ step_at number }
{
    if let Some(step) = frame_at(number) {
        return Some(Step::Frame(step));
    }
    if let Some(step) = router_at(number) {
        return Some(Step::Router(step));
    }
    if let Some(step) = word_at(number) {
        return Some(Step::Word(step));
    }
    match datagram_at(number) {
        Some(step) => Some(Step::Datagram(step)),
        None => None,
    }
}

/// The number of a step.
fn step_number(step: Step) -> u8
    ensures { result ≡ step_number step }
{
    match step {
        Step::Frame(step) => frame_number(step),
        Step::Router(step) => router_number(step),
        Step::Word(step) => word_number(step),
        Step::Datagram(step) => datagram_number(step),
    }
}

/// The step with a number, if it is one of these.
fn frame_at(number: u8) -> Option<FrameStep>
    ensures { result ≡ frame_at number }
{
    match number {
        1 => Some(FrameStep::IsFrame),
        2 => Some(FrameStep::HasNetwork),
        3 => Some(FrameStep::IsHeardBeside),
        4 => Some(FrameStep::IsTooLong),
        5 => Some(FrameStep::IsOwn),
        6 => Some(FrameStep::IsProbe),
        7 => Some(FrameStep::IsOfItsKind),
        8 => Some(FrameStep::IsForAnother),
        9 => Some(FrameStep::Capture),
        10 => Some(FrameStep::LetsIn),
        11 => Some(FrameStep::HasLinks),
        12 => Some(FrameStep::IsPacket),
        13 => Some(FrameStep::IsBeyondLink),
        14 => Some(FrameStep::NamesClient),
        15 => Some(FrameStep::PutOnLinks),
        16 => Some(FrameStep::IsForRouter),
        17 => Some(FrameStep::WasPut),
        18 => Some(FrameStep::IsFromClient),
        19 => Some(FrameStep::IsWhole),
        _ => None,
    }
}

/// The number of one of these.
fn frame_number(step: FrameStep) -> u8
    ensures { result ≡ frame_number step }
{
    match step {
        FrameStep::IsFrame => 1,
        FrameStep::HasNetwork => 2,
        FrameStep::IsHeardBeside => 3,
        FrameStep::IsTooLong => 4,
        FrameStep::IsOwn => 5,
        FrameStep::IsProbe => 6,
        FrameStep::IsOfItsKind => 7,
        FrameStep::IsForAnother => 8,
        FrameStep::Capture => 9,
        FrameStep::LetsIn => 10,
        FrameStep::HasLinks => 11,
        FrameStep::IsPacket => 12,
        FrameStep::IsBeyondLink => 13,
        FrameStep::NamesClient => 14,
        FrameStep::PutOnLinks => 15,
        FrameStep::IsForRouter => 16,
        FrameStep::WasPut => 17,
        FrameStep::IsFromClient => 18,
        FrameStep::IsWhole => 19,
    }
}

/// The step with a number, if it is one of these.
fn router_at(number: u8) -> Option<RouterStep>
    ensures { result ≡ router_at number }
{
    match number {
        20 => Some(RouterStep::LetsHear),
        21 => Some(RouterStep::IsForAll),
        22 => Some(RouterStep::Extend),
        23 => Some(RouterStep::IsAwaited),
        24 => Some(RouterStep::Hear),
        25 => Some(RouterStep::Outcome),
        _ => None,
    }
}

/// The number of one of these.
fn router_number(step: RouterStep) -> u8
    ensures { result ≡ router_number step }
{
    match step {
        RouterStep::LetsHear => 20,
        RouterStep::IsForAll => 21,
        RouterStep::Extend => 22,
        RouterStep::IsAwaited => 23,
        RouterStep::Hear => 24,
        RouterStep::Outcome => 25,
    }
}

/// The step with a number, if it is one of these.
fn word_at(number: u8) -> Option<WordStep>
    ensures { result ≡ word_at number }
{
    match number {
        26 => Some(WordStep::IsPing),
        27 => Some(WordStep::LetsReply),
        28 => Some(WordStep::Reply),
        29 => Some(WordStep::LeaveUnanswered),
        30 => Some(WordStep::IsForSomebody),
        31 => Some(WordStep::IsForFarRouters),
        32 => Some(WordStep::LetsSay),
        33 => Some(WordStep::Carry),
        34 => Some(WordStep::IsHeard),
        35 => Some(WordStep::WasCarried),
        _ => None,
    }
}

/// The number of one of these.
fn word_number(step: WordStep) -> u8
    ensures { result ≡ word_number step }
{
    match step {
        WordStep::IsPing => 26,
        WordStep::LetsReply => 27,
        WordStep::Reply => 28,
        WordStep::LeaveUnanswered => 29,
        WordStep::IsForSomebody => 30,
        WordStep::IsForFarRouters => 31,
        WordStep::LetsSay => 32,
        WordStep::Carry => 33,
        WordStep::IsHeard => 34,
        WordStep::WasCarried => 35,
    }
}

/// The step with a number, if it is one of these.
fn datagram_at(number: u8) -> Option<DatagramStep>
    ensures { result ≡ datagram_at number }
{
    match number {
        36 => Some(DatagramStep::IsTooLong),
        37 => Some(DatagramStep::Capture),
        38 => Some(DatagramStep::IsAllowed),
        39 => Some(DatagramStep::Hear),
        40 => Some(DatagramStep::IsPacket),
        41 => Some(DatagramStep::IsAnswered),
        42 => Some(DatagramStep::IsClient),
        43 => Some(DatagramStep::LetsAnswer),
        44 => Some(DatagramStep::Answer),
        45 => Some(DatagramStep::LetsStranger),
        46 => Some(DatagramStep::AnswerStranger),
        47 => Some(DatagramStep::IsClientNow),
        48 => Some(DatagramStep::IsFromClient),
        49 => Some(DatagramStep::IsPinged),
        50 => Some(DatagramStep::LetsPing),
        51 => Some(DatagramStep::Ping),
        _ => None,
    }
}

/// The number of one of these.
fn datagram_number(step: DatagramStep) -> u8
    ensures { result ≡ datagram_number step }
{
    match step {
        DatagramStep::IsTooLong => 36,
        DatagramStep::Capture => 37,
        DatagramStep::IsAllowed => 38,
        DatagramStep::Hear => 39,
        DatagramStep::IsPacket => 40,
        DatagramStep::IsAnswered => 41,
        DatagramStep::IsClient => 42,
        DatagramStep::LetsAnswer => 43,
        DatagramStep::Answer => 44,
        DatagramStep::LetsStranger => 45,
        DatagramStep::AnswerStranger => 46,
        DatagramStep::IsClientNow => 47,
        DatagramStep::IsFromClient => 48,
        DatagramStep::IsPinged => 49,
        DatagramStep::LetsPing => 50,
        DatagramStep::Ping => 51,
    }
}
