//! The first words of lines.
ghost use Rattle.std.specs.Prelude.{◌≡◌};
ghost use Rattle.script.specs.Names as spec;

/// What a line of the header says.
#[derive(Clone, Copy)]
pub enum HeaderName {
    Frames,
    Slots,
    Seed,
    Guest,
    Fail,
    Admit,
    Profile,
}

/// What a line behind the header does.
#[derive(Clone, Copy)]
pub enum EventName {
    Step,
    Run,
    In,
    Drain,
    Target,
    Poke,
    Write,
    Probe,
    Fault,
    Scan,
    Evict,
    Sample,
    Level,
    Audit,
    Dump,
    Stats,
    Damage,
    Repeat,
    End,
}

/// The line of the header that begins with a word.
#[tactic(auto, unfolding(crate::specs::Names::header_name_of))]
pub fn header_name(word: &str) -> Option<HeaderName>
    ensures { result ≡ spec.header_name_of word.now }
{
    match word {
        "frames" => Some(HeaderName::Frames),
        "slots" => Some(HeaderName::Slots),
        "seed" => Some(HeaderName::Seed),
        "guest" => Some(HeaderName::Guest),
        "fail" => Some(HeaderName::Fail),
        "admit" => Some(HeaderName::Admit),
        "profile" => Some(HeaderName::Profile),
        _ => None,
    }
}

/// The line behind the header that begins with a word.
#[tactic(auto, unfolding(crate::specs::Names::event_name_of))]
pub fn event_name(word: &str) -> Option<EventName>
    ensures { result ≡ spec.event_name_of word.now }
{
    match word {
        "step" => Some(EventName::Step),
        "run" => Some(EventName::Run),
        "in" => Some(EventName::In),
        "drain" => Some(EventName::Drain),
        "target" => Some(EventName::Target),
        "poke" => Some(EventName::Poke),
        "write" => Some(EventName::Write),
        "probe" => Some(EventName::Probe),
        "fault" => Some(EventName::Fault),
        "scan" => Some(EventName::Scan),
        "evict" => Some(EventName::Evict),
        "sample" => Some(EventName::Sample),
        "level" => Some(EventName::Level),
        "audit" => Some(EventName::Audit),
        "dump" => Some(EventName::Dump),
        "stats" => Some(EventName::Stats),
        "damage" => Some(EventName::Damage),
        "repeat" => Some(EventName::Repeat),
        "end" => Some(EventName::End),
        _ => None,
    }
}
