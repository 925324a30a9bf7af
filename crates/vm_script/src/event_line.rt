//! The lines of an event list: what one says, its verb, and the kinds of its numbers.

ghost use Rattle.std.specs.Prelude.{◌<◌, ◌^◌, ◌≡◌};
ghost use Rattle.vm_script.specs.{EventLines.form, EventWords.AreNarrow, EventWords.used, Verbs.kinds_of as kinds_in, Verbs.verb_name};

use vm_event::Event;

/// One event, or one of the two short forms for 64 events.
#[derive(Clone, Copy)]
pub enum EventLine {
    /// One event of the core.
    One(Event),
    /// Actor `a` stores the words of page `p`'s block into frame `f`, word by word.
    Fill { a: u32, p: u32, f: u32 },
    /// Actor `a` loads the words of page `p`, word by word.
    Loads { a: u32, p: u32 },
}

/// The first word of a line.
#[derive(Clone, Copy)]
pub(crate) enum Verb {
    Look,
    LockX,
    LockS,
    UnlockS,
    Mark,
    Unmark,
    LockW,
    Upgrade,
    Release,
    ReleaseE,
    Downgrade,
    TLoad,
    Install,
    Clear,
    Dirty,
    Clean,
    Load,
    Store,
    BLoad,
    Take,
    Give,
    Read,
    RFail,
    Write,
    WFail,
    Raise,
    NLoad,
    Claim,
    Hand,
    Own,
    Disown,
    OLoad,
    PBLoad,
    PTake,
    PGive,
    Fill,
    Loads,
}

/// What a number of a line is.
#[derive(Clone, Copy)]
pub(crate) enum FieldKind {
    Actor,
    Page,
    Frame,
    Place,
    Bundle,
    Spare,
    Word,
    State,
    Count,
}

// Every verb.
pub(crate) const VERBS: [Verb; 37] = [
    Verb::Look,
    Verb::LockX,
    Verb::LockS,
    Verb::UnlockS,
    Verb::Mark,
    Verb::Unmark,
    Verb::LockW,
    Verb::Upgrade,
    Verb::Release,
    Verb::ReleaseE,
    Verb::Downgrade,
    Verb::TLoad,
    Verb::Install,
    Verb::Clear,
    Verb::Dirty,
    Verb::Clean,
    Verb::Load,
    Verb::Store,
    Verb::BLoad,
    Verb::Take,
    Verb::Give,
    Verb::Read,
    Verb::RFail,
    Verb::Write,
    Verb::WFail,
    Verb::Raise,
    Verb::NLoad,
    Verb::Claim,
    Verb::Hand,
    Verb::Own,
    Verb::Disown,
    Verb::OLoad,
    Verb::PBLoad,
    Verb::PTake,
    Verb::PGive,
    Verb::Fill,
    Verb::Loads,
];

// The verb's word.
pub(crate) fn name_of(verb: Verb) -> &'static [u8]
    ensures { result.now ≡ verb_name verb }
{
    match verb {
        Verb::Look => b"look",
        Verb::LockX => b"lockx",
        Verb::LockS => b"locks",
        Verb::UnlockS => b"unlocks",
        Verb::Mark => b"mark",
        Verb::Unmark => b"unmark",
        Verb::LockW => b"lockw",
        Verb::Upgrade => b"upgrade",
        Verb::Release => b"release",
        Verb::ReleaseE => b"releasee",
        Verb::Downgrade => b"downgrade",
        Verb::TLoad => b"tload",
        Verb::Install => b"install",
        Verb::Clear => b"clear",
        Verb::Dirty => b"dirty",
        Verb::Clean => b"clean",
        Verb::Load => b"load",
        Verb::Store => b"store",
        Verb::BLoad => b"bload",
        Verb::Take => b"take",
        Verb::Give => b"give",
        Verb::Read => b"read",
        Verb::RFail => b"rfail",
        Verb::Write => b"write",
        Verb::WFail => b"wfail",
        Verb::Raise => b"raise",
        Verb::NLoad => b"nload",
        Verb::Claim => b"claim",
        Verb::Hand => b"hand",
        Verb::Own => b"own",
        Verb::Disown => b"disown",
        Verb::OLoad => b"oload",
        Verb::PBLoad => b"pbload",
        Verb::PTake => b"ptake",
        Verb::PGive => b"pgive",
        Verb::Fill => b"fill",
        Verb::Loads => b"loads",
    }
}

// The kinds of the numbers behind a verb.
pub(crate) fn kinds_of(verb: Verb) -> &'static [FieldKind]
    ensures { result.now ≡ kinds_in verb }
{
    match verb {
        Verb::Look
        | Verb::UnlockS
        | Verb::Release
        | Verb::ReleaseE
        | Verb::Downgrade
        | Verb::TLoad
        | Verb::Clear
        | Verb::Dirty
        | Verb::Clean
        | Verb::Read
        | Verb::RFail
        | Verb::Write
        | Verb::WFail
        | Verb::Raise
        | Verb::Own
        | Verb::Disown
        | Verb::Loads => &[FieldKind::Actor, FieldKind::Page],
        Verb::LockX | Verb::LockS | Verb::Mark | Verb::Unmark | Verb::LockW | Verb::Upgrade => &[
            FieldKind::Actor,
            FieldKind::Page,
            FieldKind::State,
        ],
        Verb::Install | Verb::Fill => &[FieldKind::Actor, FieldKind::Page, FieldKind::Frame],
        Verb::Load => &[FieldKind::Actor, FieldKind::Page, FieldKind::Place],
        Verb::OLoad => &[FieldKind::Actor, FieldKind::Frame],
        Verb::Store => &[
            FieldKind::Actor,
            FieldKind::Frame,
            FieldKind::Place,
            FieldKind::Word,
        ],
        Verb::BLoad => &[FieldKind::Actor, FieldKind::Bundle],
        Verb::Take => &[
            FieldKind::Actor,
            FieldKind::Bundle,
            FieldKind::Word,
            FieldKind::Word,
        ],
        Verb::Give => &[FieldKind::Actor, FieldKind::Bundle, FieldKind::Word],
        Verb::PBLoad => &[FieldKind::Actor, FieldKind::Spare],
        Verb::PTake => &[
            FieldKind::Actor,
            FieldKind::Spare,
            FieldKind::Word,
            FieldKind::Word,
        ],
        Verb::PGive => &[FieldKind::Actor, FieldKind::Spare, FieldKind::Word],
        Verb::NLoad | Verb::Hand => &[FieldKind::Actor],
        Verb::Claim => &[FieldKind::Actor, FieldKind::Word, FieldKind::Count],
    }
}

// The number, where it fits 32 bits.
fn narrow(value: u64) -> u32
    ensures { value < 2 ^ 32 → result ≡ value }
{
    (value % 0x1_0000_0000) as u32
}

// The line with this verb and these numbers.
pub(crate) fn line_with(verb: Verb, values: (u64, u64, u64, u64)) -> EventLine
    ensures { AreNarrow (kinds_in verb) (used (kinds_in verb) values) → form result ≡ (verb, used (kinds_in verb) values) }
{
    let (first, second, third, fourth) = values;
    let a = narrow(first);
    let p = narrow(second);
    let f = narrow(third);
    let event = match verb {
        Verb::Look => Event::Look { a, p },
        Verb::LockX => Event::LockX {
            a,
            p,
            expects: third,
        },
        Verb::LockS => Event::LockS {
            a,
            p,
            expects: third,
        },
        Verb::UnlockS => Event::UnlockS { a, p },
        Verb::Mark => Event::Mark {
            a,
            p,
            expects: third,
        },
        Verb::Unmark => Event::Unmark {
            a,
            p,
            expects: third,
        },
        Verb::LockW => Event::LockW {
            a,
            p,
            expects: third,
        },
        Verb::Upgrade => Event::Upgrade {
            a,
            p,
            expects: third,
        },
        Verb::Release => Event::Release { a, p },
        Verb::ReleaseE => Event::ReleaseE { a, p },
        Verb::Downgrade => Event::Downgrade { a, p },
        Verb::TLoad => Event::TLoad { a, p },
        Verb::Install => Event::Install { a, p, f },
        Verb::Clear => Event::Clear { a, p },
        Verb::Dirty => Event::Dirty { a, p },
        Verb::Clean => Event::Clean { a, p },
        Verb::Load => Event::Load { a, p, i: f },
        Verb::Store => Event::Store {
            a,
            f: p,
            i: f,
            w: fourth,
        },
        Verb::BLoad => Event::BLoad { a, g: p },
        Verb::Take => Event::Take {
            a,
            g: p,
            expects: third,
            mask: fourth,
        },
        Verb::Give => Event::Give {
            a,
            g: p,
            mask: third,
        },
        Verb::Read => Event::Read { a, p },
        Verb::RFail => Event::RFail { a, p },
        Verb::Write => Event::Write { a, p },
        Verb::WFail => Event::WFail { a, p },
        Verb::Raise => Event::Raise { a, p },
        Verb::NLoad => Event::NLoad { a },
        Verb::Claim => Event::Claim { a, x: second, n: f },
        Verb::Hand => Event::Hand { a },
        Verb::Own => Event::Own { a, p },
        Verb::Disown => Event::Disown { a, p },
        Verb::OLoad => Event::OLoad { a, f: p },
        Verb::PBLoad => Event::PBLoad { a, g: p },
        Verb::PTake => Event::PTake {
            a,
            g: p,
            expects: third,
            mask: fourth,
        },
        Verb::PGive => Event::PGive {
            a,
            g: p,
            mask: third,
        },
        Verb::Fill => return EventLine::Fill { a, p, f },
        Verb::Loads => return EventLine::Loads { a, p },
    };
    EventLine::One(event)
}
