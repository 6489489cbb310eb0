//! Commands: what a line asks for, with its names still as text.
ghost use Rattle.std.specs.Prelude.{◌≡◌, ◌≢◌, ◌<◌, ℕ, List, ◌∷◌, [], IfErr, IfNone, IfOk, IfSome, length, map};
ghost use Rattle.std.specs.Prelude.{option_map};
ghost use Rattle.aig_shell.specs.Commands.{EndsCommand, topic_word};
ghost use Rattle.aig_shell.specs.Request.{maybe};

use crate::refusal::Refusal;
use crate::request::topic::Topic;

/// What is asked of a session, which stays as it is.
#[derive(Clone, Copy, Drop)]
pub(crate) enum ShellQuery<'a, 'w> {
    /// The values of names, at some frames.
    Show {
        names: &'w [&'a [u8]],
        frames: Option<&'a [u8]>,
    },
    /// Why a name has its value at a frame.
    Why {
        name: Option<&'a [u8]>,
        frame: Option<&'a [u8]>,
    },
    /// What defines a literal.
    Gate {
        name: &'a [u8],
    },
    /// Which properties the run reaches.
    Check,
    /// What differs from the run that was read, at some frames.
    Diff {
        frames: Option<&'a [u8]>,
    },
    /// The names that contain a text.
    Names {
        text: Option<&'a [u8]>,
    },
    /// The help.
    Help {
        command: Option<&'a [u8]>,
    },
}

/// What is done to the run or to the circuit.
#[derive(Clone, Copy, Drop)]
pub(crate) enum Edit<'a> {
    /// Inputs get a value at some frames.
    Set {
        frames: &'a [u8],
        name: &'a [u8],
        value: &'a [u8],
    },
    /// Latches get a value at frame 0.
    Start {
        name: &'a [u8],
        value: &'a [u8],
    },
    /// Frames more.
    Add {
        count: Option<&'a [u8]>,
    },
    /// Frames less.
    Drop {
        count: Option<&'a [u8]>,
    },
    /// A gate gets other sides.
    Rewire {
        name: &'a [u8],
        side0: &'a [u8],
        side1: &'a [u8],
    },
    /// One gate more.
    New {
        side0: &'a [u8],
        side1: &'a [u8],
    },
    /// An output gets another literal.
    Out {
        name: &'a [u8],
        literal: &'a [u8],
    },
}

/// What is written to files.
#[derive(Clone, Copy, Drop)]
pub(crate) enum Export<'a> {
    /// The circuit and the rows.
    Save {
        circuit: &'a [u8],
        stimulus: Option<&'a [u8]>,
    },
    /// A witness.
    Witness {
        file: &'a [u8],
        name: Option<&'a [u8]>,
    },
    /// A dump.
    Wave {
        file: &'a [u8],
    },
}

/// What a line asks for.
#[derive(Clone, Copy, Drop)]
pub(crate) enum ShellCommand<'a, 'w> {
    Query(ShellQuery<'a, 'w>),
    Edit(Edit<'a>),
    Export(Export<'a>),
    /// The end.
    Quit,
}

/// The only one of some words, where there is one; none where there are none.
fn at_most_one<'a>(words: &[&'a [u8]], topic: Topic) -> Result<Option<&'a [u8]>, Refusal<'a>>
    ensures ok { IfOk result (λ word. map (λ w. w.now) words.now ≡ maybe (option_map (λ w. w.now) word)) }
    ensures err { IfErr result (λ refusal. (1 < length words.now) × (refusal ≢ Refusal.Memory)) }
{
    match words {
        [] => Ok(None),
        [word] => Ok(Some(*word)),
        _ => Err(Refusal::Usage(topic)),
    }
}

/// What comes after a byte in a word that begins with it.
pub(crate) fn after_byte(word: &[u8], byte: u8) -> Option<&[u8]>
    ensures some { IfSome result (λ rest. word.now ≡ byte ∷ rest.now) }
    ensures none { IfNone result ((rest : List ℕ) → word.now ≢ byte ∷ rest) }
{
    match word.first() {
        Some(first) if *first == byte => Some(&word[1..]),
        _ => None,
    }
}

fn show_of<'a, 'w>(words: &'w [&'a [u8]]) -> Result<ShellCommand<'a, 'w>, Refusal<'a>>
    ensures { EndsCommand (topic_word Topic.Show ∷ map (λ w. w.now) words.now) result }
{
    let Some(last) = words.last() else {
        return Err(Refusal::Usage(Topic::Show));
    };
    match after_byte(*last, b'@') {
        Some(_) if words.len() == 1 => Err(Refusal::Usage(Topic::Show)),
        Some(frames) => Ok(ShellCommand::Query(ShellQuery::Show {
            names: &words[..words.len() - 1],
            frames: Some(frames),
        })),
        None => Ok(ShellCommand::Query(ShellQuery::Show {
            names: words,
            frames: None,
        })),
    }
}

fn why_of<'a, 'w>(words: &'w [&'a [u8]]) -> Result<ShellCommand<'a, 'w>, Refusal<'a>>
    ensures { EndsCommand (topic_word Topic.Why ∷ map (λ w. w.now) words.now) result }
{
    match words {
        [] => Ok(ShellCommand::Query(ShellQuery::Why {
            name: None,
            frame: None,
        })),
        [name] => Ok(ShellCommand::Query(ShellQuery::Why {
            name: Some(*name),
            frame: None,
        })),
        [name, frame] => Ok(ShellCommand::Query(ShellQuery::Why {
            name: Some(*name),
            frame: Some(*frame),
        })),
        _ => Err(Refusal::Usage(Topic::Why)),
    }
}

fn set_of<'a, 'w>(words: &'w [&'a [u8]]) -> Result<ShellCommand<'a, 'w>, Refusal<'a>>
    ensures { EndsCommand (topic_word Topic.Set ∷ map (λ w. w.now) words.now) result }
{
    match words {
        [frames, name, value] => Ok(ShellCommand::Edit(Edit::Set {
            frames: *frames,
            name: *name,
            value: *value,
        })),
        _ => Err(Refusal::Usage(Topic::Set)),
    }
}

fn start_of<'a, 'w>(words: &'w [&'a [u8]]) -> Result<ShellCommand<'a, 'w>, Refusal<'a>>
    ensures { EndsCommand (topic_word Topic.Start ∷ map (λ w. w.now) words.now) result }
{
    match words {
        [name, value] => Ok(ShellCommand::Edit(Edit::Start {
            name: *name,
            value: *value,
        })),
        _ => Err(Refusal::Usage(Topic::Start)),
    }
}

fn gate_of<'a, 'w>(words: &'w [&'a [u8]]) -> Result<ShellCommand<'a, 'w>, Refusal<'a>>
    ensures { EndsCommand (topic_word Topic.Gate ∷ map (λ w. w.now) words.now) result }
{
    match words {
        [name] => Ok(ShellCommand::Query(ShellQuery::Gate { name: *name })),
        [name, side0, side1] => Ok(ShellCommand::Edit(Edit::Rewire {
            name: *name,
            side0: *side0,
            side1: *side1,
        })),
        _ => Err(Refusal::Usage(Topic::Gate)),
    }
}

fn new_of<'a, 'w>(words: &'w [&'a [u8]]) -> Result<ShellCommand<'a, 'w>, Refusal<'a>>
    ensures { EndsCommand (topic_word Topic.New ∷ map (λ w. w.now) words.now) result }
{
    match words {
        [side0, side1] => Ok(ShellCommand::Edit(Edit::New {
            side0: *side0,
            side1: *side1,
        })),
        _ => Err(Refusal::Usage(Topic::New)),
    }
}

fn out_of<'a, 'w>(words: &'w [&'a [u8]]) -> Result<ShellCommand<'a, 'w>, Refusal<'a>>
    ensures { EndsCommand (topic_word Topic.Out ∷ map (λ w. w.now) words.now) result }
{
    match words {
        [name, literal] => Ok(ShellCommand::Edit(Edit::Out {
            name: *name,
            literal: *literal,
        })),
        _ => Err(Refusal::Usage(Topic::Out)),
    }
}

fn diff_of<'a, 'w>(words: &'w [&'a [u8]]) -> Result<ShellCommand<'a, 'w>, Refusal<'a>>
    ensures { EndsCommand (topic_word Topic.Diff ∷ map (λ w. w.now) words.now) result }
{
    let Some(word) = at_most_one(words, Topic::Diff)? else {
        return Ok(ShellCommand::Query(ShellQuery::Diff { frames: None }));
    };
    match after_byte(word, b'@') {
        Some(frames) => Ok(ShellCommand::Query(ShellQuery::Diff {
            frames: Some(frames),
        })),
        None => Err(Refusal::Usage(Topic::Diff)),
    }
}

fn save_of<'a, 'w>(words: &'w [&'a [u8]]) -> Result<ShellCommand<'a, 'w>, Refusal<'a>>
    ensures { EndsCommand (topic_word Topic.Save ∷ map (λ w. w.now) words.now) result }
{
    match words {
        [circuit] => Ok(ShellCommand::Export(Export::Save {
            circuit: *circuit,
            stimulus: None,
        })),
        [circuit, stimulus] => Ok(ShellCommand::Export(Export::Save {
            circuit: *circuit,
            stimulus: Some(*stimulus),
        })),
        _ => Err(Refusal::Usage(Topic::Save)),
    }
}

fn witness_of<'a, 'w>(words: &'w [&'a [u8]]) -> Result<ShellCommand<'a, 'w>, Refusal<'a>>
    ensures { EndsCommand (topic_word Topic.Witness ∷ map (λ w. w.now) words.now) result }
{
    match words {
        [file] => Ok(ShellCommand::Export(Export::Witness {
            file: *file,
            name: None,
        })),
        [file, name] => Ok(ShellCommand::Export(Export::Witness {
            file: *file,
            name: Some(*name),
        })),
        _ => Err(Refusal::Usage(Topic::Witness)),
    }
}

fn wave_of<'a, 'w>(words: &'w [&'a [u8]]) -> Result<ShellCommand<'a, 'w>, Refusal<'a>>
    ensures { EndsCommand (topic_word Topic.Wave ∷ map (λ w. w.now) words.now) result }
{
    match words {
        [file] => Ok(ShellCommand::Export(Export::Wave { file: *file })),
        _ => Err(Refusal::Usage(Topic::Wave)),
    }
}

/// A command that has no word.
fn alone<'a, 'w>(
    words: &'w [&'a [u8]],
    topic: Topic,
    command: ShellCommand<'a, 'w>,
) -> Result<ShellCommand<'a, 'w>, Refusal<'a>>
    ensures ok { IfOk result (λ done. (done ≡ command.entry) × (words.now ≡ [])) }
    ensures err { IfErr result (λ refusal. (words.now ≢ []) × (refusal ≢ Refusal.Memory)) }
{
    if words.is_empty() {
        Ok(command)
    } else {
        Err(Refusal::Usage(topic))
    }
}

impl<'a, 'w> ShellCommand<'a, 'w> {
    /// What the words after the first ask for.
    fn of_topic(topic: Topic, words: &'w [&'a [u8]]) -> Result<ShellCommand<'a, 'w>, Refusal<'a>>
        ensures { EndsCommand (topic_word topic ∷ map (λ w. w.now) words.now) result }
    {
        match topic {
            Topic::Show => show_of(words),
            Topic::Why => why_of(words),
            Topic::Set => set_of(words),
            Topic::Start => start_of(words),
            Topic::Add => Ok(ShellCommand::Edit(Edit::Add {
                count: at_most_one(words, topic)?,
            })),
            Topic::Drop => Ok(ShellCommand::Edit(Edit::Drop {
                count: at_most_one(words, topic)?,
            })),
            Topic::Gate => gate_of(words),
            Topic::New => new_of(words),
            Topic::Out => out_of(words),
            Topic::Check => alone(words, topic, ShellCommand::Query(ShellQuery::Check)),
            Topic::Diff => diff_of(words),
            Topic::Save => save_of(words),
            Topic::Witness => witness_of(words),
            Topic::Wave => wave_of(words),
            Topic::Names => Ok(ShellCommand::Query(ShellQuery::Names {
                text: at_most_one(words, topic)?,
            })),
            Topic::Help => Ok(ShellCommand::Query(ShellQuery::Help {
                command: at_most_one(words, topic)?,
            })),
            Topic::Quit => alone(words, topic, ShellCommand::Quit),
        }
    }

    /// What the words of a line ask for, the first of which is the command's.
    pub(crate) fn of(
        word: &'a [u8],
        words: &'w [&'a [u8]],
    ) -> Result<ShellCommand<'a, 'w>, Refusal<'a>>
        ensures { EndsCommand (word.now ∷ map (λ w. w.now) words.now) result }
    {
        match Topic::of(word) {
            Some(topic) => ShellCommand::of_topic(topic, words),
            None => Err(Refusal::NoCommand(word)),
        }
    }
}
