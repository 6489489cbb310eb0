//! What a person can ask for, by its first word.
ghost use Rattle.std.specs.Prelude.{◌≡◌, ◌≢◌, IfNone, IfSome};
ghost use Rattle.aig_shell.specs.Commands.{topic_word};

/// What a line asks for.
#[derive(Clone, Copy, Drop)]
pub(crate) enum Topic {
    Show,
    Why,
    Set,
    Start,
    Add,
    Drop,
    Gate,
    New,
    Out,
    Check,
    Diff,
    Save,
    Witness,
    Wave,
    Names,
    Help,
    Quit,
}

/// All topics, in the order of the help.
pub(crate) const TOPICS: [Topic; 17] = [
    Topic::Show,
    Topic::Why,
    Topic::Set,
    Topic::Start,
    Topic::Add,
    Topic::Drop,
    Topic::Gate,
    Topic::New,
    Topic::Out,
    Topic::Check,
    Topic::Diff,
    Topic::Save,
    Topic::Witness,
    Topic::Wave,
    Topic::Names,
    Topic::Help,
    Topic::Quit,
];

impl Topic {
    /// The topic of a line's first word.
    pub(crate) fn of(word: &[u8]) -> Option<Topic>
        ensures some { IfSome result (λ topic. word.now ≡ topic_word topic) }
        ensures none { IfNone result ((topic : Topic) → word.now ≢ topic_word topic) }
    {
        match word {
            b"show" => Some(Topic::Show),
            b"why" => Some(Topic::Why),
            b"set" => Some(Topic::Set),
            b"start" => Some(Topic::Start),
            b"add" => Some(Topic::Add),
            b"drop" => Some(Topic::Drop),
            b"gate" => Some(Topic::Gate),
            b"new" => Some(Topic::New),
            b"out" => Some(Topic::Out),
            b"check" => Some(Topic::Check),
            b"diff" => Some(Topic::Diff),
            b"save" => Some(Topic::Save),
            b"witness" => Some(Topic::Witness),
            b"wave" => Some(Topic::Wave),
            b"names" => Some(Topic::Names),
            b"help" => Some(Topic::Help),
            b"quit" => Some(Topic::Quit),
            _ => None,
        }
    }

    /// How it is written.
    pub(crate) fn usage(self) -> &'static str {
        match self {
            Topic::Show => "show NAME .. [@A-B]",
            Topic::Why => "why [NAME [FRAME]]",
            Topic::Set => "set FRAME NAME VALUE",
            Topic::Start => "start NAME VALUE",
            Topic::Add => "add [N]",
            Topic::Drop => "drop [N]",
            Topic::Gate => "gate NAME [A B]",
            Topic::New => "new A B",
            Topic::Out => "out NAME A",
            Topic::Check => "check",
            Topic::Diff => "diff [@A-B]",
            Topic::Save => "save CIRCUIT [STIM]",
            Topic::Witness => "witness FILE [NAME]",
            Topic::Wave => "wave FILE",
            Topic::Names => "names [TEXT]",
            Topic::Help => "help [COMMAND]",
            Topic::Quit => "quit",
        }
    }

    /// What it does.
    pub(crate) fn about(self) -> &'static str {
        match self {
            Topic::Show => "values over the frames: hexadecimal, or bits if one is x",
            Topic::Why => "the causes of a value, or of the witness's property",
            Topic::Set => "an input at a frame, or at frames A-B",
            Topic::Start => "a latch at frame 0, in this run alone",
            Topic::Add => "N frames at the end (1), with x at each input",
            Topic::Drop => "N frames from the end (1)",
            Topic::Gate => "what defines a literal; with A and B: its new sides",
            Topic::New => "a new gate; prints its literal",
            Topic::Out => "another literal for an output",
            Topic::Check => "which properties the run reaches",
            Topic::Diff => "what differs from the run that was read",
            Topic::Save => "write the circuit, and the inputs of all frames",
            Topic::Witness => "write the run up to a property, or the witness's",
            Topic::Wave => "write the run as a waveform",
            Topic::Names => "the names that contain TEXT",
            Topic::Help => "this list, or one line of it",
            Topic::Quit => "leave, as the end of the input does; ^C leaves at once",
        }
    }
}
