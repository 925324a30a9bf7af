//! The commands as a table of forms: a row a command, with the slots of the words behind its name, and of each slot its name, its place
//! and the kind of its word. All that is read of a command line is read by this table.

ghost use Rattle.std.specs.Prelude.{◌≡◌};
ghost use Rattle.vm_words.specs.Forms.{kind_in, place_in, slot_text, slots_in, title};

/// A command.
#[derive(Clone, Copy)]
pub enum FormVerb {
    Run,
    Make,
    Check,
    Churn,
    Replay,
    Migrate,
    Serve,
    MakeBytes,
}

/// A word behind a command's name.
#[derive(Clone, Copy)]
pub enum FormSlot {
    Image,
    Script,
    Workers,
    Frames,
    Keep,
    Fail,
    FirstVersion,
    File,
    Pages,
    Pairs,
    Seed,
    Words,
    Input,
    Output,
}

/// Where a slot's word stands.
#[derive(Clone, Copy)]
pub enum FormPlace {
    /// In its turn among the words.
    Placed,
    /// Behind `--NAME`.
    Asked,
    /// Behind `--NAME`, and both may be left out.
    Optional,
}

/// What a slot's word is read as.
#[derive(Clone, Copy)]
pub enum FormKind {
    /// The name of a file.
    Name,
    /// A canonical decimal.
    Number,
    /// A plan of failures: entries `P:N`, with commas between them.
    Faults,
}

// Every command.
pub(crate) const VERBS: [FormVerb; 8] = [
    FormVerb::Run,
    FormVerb::Make,
    FormVerb::Check,
    FormVerb::Churn,
    FormVerb::Replay,
    FormVerb::Migrate,
    FormVerb::Serve,
    FormVerb::MakeBytes,
];

// The command's name.
pub(crate) fn title_of<'a>(verb: FormVerb) -> &'a str
    ensures { result.now ≡ title verb }
{
    match verb {
        FormVerb::Run => "run",
        FormVerb::Make => "make",
        FormVerb::Check => "check",
        FormVerb::Churn => "churn",
        FormVerb::Replay => "replay",
        FormVerb::Migrate => "migrate",
        FormVerb::Serve => "serve",
        FormVerb::MakeBytes => "make-bytes",
    }
}

// The slots behind the command's name, in order.
pub(crate) fn slots_of(verb: FormVerb) -> &'static [FormSlot]
    ensures { result.now ≡ slots_in verb }
{
    match verb {
        FormVerb::Run => &[
            FormSlot::Image,
            FormSlot::Script,
            FormSlot::Workers,
            FormSlot::Frames,
            FormSlot::Keep,
            FormSlot::Fail,
            FormSlot::FirstVersion,
        ],
        FormVerb::Make => &[
            FormSlot::File,
            FormSlot::Pages,
            FormSlot::Pairs,
            FormSlot::Seed,
            FormSlot::Words,
        ],
        FormVerb::Churn => &[
            FormSlot::Pairs,
            FormSlot::Seed,
            FormSlot::Workers,
            FormSlot::Frames,
            FormSlot::Words,
        ],
        FormVerb::Check | FormVerb::Replay => &[FormSlot::File],
        FormVerb::Migrate => &[FormSlot::Input, FormSlot::Output, FormSlot::Pages],
        FormVerb::Serve => &[
            FormSlot::File,
            FormSlot::Script,
            FormSlot::Workers,
            FormSlot::Frames,
        ],
        FormVerb::MakeBytes => &[FormSlot::File, FormSlot::Pages],
    }
}

// The slot's name: that of its option, where it is one.
pub(crate) fn name_of<'a>(slot: FormSlot) -> &'a str
    ensures { result.now ≡ slot_text slot }
{
    match slot {
        FormSlot::Image => "image",
        FormSlot::Script => "script",
        FormSlot::Workers => "workers",
        FormSlot::Frames => "frames",
        FormSlot::Keep => "keep",
        FormSlot::Fail => "fail",
        FormSlot::FirstVersion => "first-version",
        FormSlot::File => "file",
        FormSlot::Pages => "pages",
        FormSlot::Pairs => "pairs",
        FormSlot::Seed => "seed",
        FormSlot::Words => "words",
        FormSlot::Input => "input",
        FormSlot::Output => "output",
    }
}

// Where its word stands.
pub(crate) fn place_of(slot: FormSlot) -> FormPlace
    ensures { result ≡ place_in slot }
{
    match slot {
        FormSlot::Image | FormSlot::Script | FormSlot::File => FormPlace::Placed,
        FormSlot::Input | FormSlot::Output => FormPlace::Placed,
        FormSlot::Pages | FormSlot::Pairs | FormSlot::Seed => FormPlace::Placed,
        FormSlot::Workers | FormSlot::Frames => FormPlace::Asked,
        FormSlot::Keep | FormSlot::Fail | FormSlot::FirstVersion | FormSlot::Words =>
            FormPlace::Optional,
    }
}

// What its word is read as.
pub(crate) fn kind_of(slot: FormSlot) -> FormKind
    ensures { result ≡ kind_in slot }
{
    match slot {
        FormSlot::Image | FormSlot::Script | FormSlot::Keep | FormSlot::File => FormKind::Name,
        FormSlot::Input | FormSlot::Output => FormKind::Name,
        FormSlot::Workers | FormSlot::Frames | FormSlot::FirstVersion | FormSlot::Words =>
            FormKind::Number,
        FormSlot::Pages | FormSlot::Pairs | FormSlot::Seed => FormKind::Number,
        FormSlot::Fail => FormKind::Faults,
    }
}
