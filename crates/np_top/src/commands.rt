//! The commands.

ghost use Rattle.std.specs.Prelude.{◌≡◌, Some};
ghost use Rattle.std.specs.Option.{option_map};
ghost use Rattle.np_top.specs.Commands.{command_in, command_of};
ghost use Rattle.np_top.specs.Commands as commands;
ghost use Rattle.np_top.specs.Outcome.{texts_of};

use np_text::number;

/// A command, with the names of its files, the seed of a generated network, and the number of workers among whom the
/// judging of goals is divided.
#[derive(Clone, Copy)]
pub enum Command<'a> {
    /// `check NET [WORKERS]`
    Check(&'a [u8], usize),

    /// `atoms NET`
    Atoms(&'a [u8]),

    /// `synth NET`
    Synth(&'a [u8]),

    /// `ipsec NET`
    Ipsec(&'a [u8]),

    /// `trace NET SCRIPT`
    Trace(&'a [u8], &'a [u8]),

    /// `show NET`
    Show(&'a [u8]),

    /// `notes NET`
    Notes(&'a [u8]),

    /// `gen NUMBER [WORKERS]`
    Gen(u32, usize),
}

/// The seed that a word says, 0 to 4,294,967,295.
fn seed_of(word: &[u8]) -> Option<u32>
    ensures { result ≡ commands.seed_of word.now }
{
    let seed = number(word, 4_294_967_295)? as u32;
    Some(seed)
}

/// The number of workers that a word says, 1 to 64.
fn workers_of(word: &[u8]) -> Option<usize>
    ensures { result ≡ commands.workers_of word.now }
{
    let workers = number(word, 64)?;
    if workers == 0 {
        None
    } else {
        Some(workers as usize)
    }
}

/// The command `gen` with this seed and so many workers.
fn gen_on<'a>(seed: &'a [u8], workers: usize) -> Option<Command<'a>>
    ensures { option_map command_in result ≡ option_map commands.gen (commands.seed_of seed.now) }
{
    let seed = seed_of(seed)?;
    Some(Command::Gen(seed, workers))
}

/// The same where a word says how many there are.
fn gen_on_both<'a>(seed: &'a [u8], workers: &[u8]) -> Option<Command<'a>>
    ensures { option_map command_in result ≡ commands.by_workers workers.now (option_map commands.gen (commands.seed_of seed.now)) }
{
    let workers = workers_of(workers)?;
    gen_on(seed, workers)
}

/// The command `check` of this file where a word says how many workers there are.
fn check_on_both<'a>(file: &'a [u8], workers: &[u8]) -> Option<Command<'a>>
    ensures { option_map command_in result ≡ commands.by_workers workers.now (Some (commands.check file.now)) }
{
    let workers = workers_of(workers)?;
    Some(Command::Check(file, workers))
}

/// The command of these two words.
fn command_on<'a>(word: &str, second: &'a [u8]) -> Option<Command<'a>>
    ensures { option_map command_in result ≡ commands.command_on word.now second.now }
{
    match word {
        "check" => Some(Command::Check(second, 1)),
        "atoms" => Some(Command::Atoms(second)),
        "synth" => Some(Command::Synth(second)),
        "ipsec" => Some(Command::Ipsec(second)),
        "show" => Some(Command::Show(second)),
        "notes" => Some(Command::Notes(second)),
        "gen" => gen_on(second, 1),
        _ => None,
    }
}

/// The command of these three words.
fn command_on_both<'a>(word: &str, second: &'a [u8], third: &'a [u8]) -> Option<Command<'a>>
    ensures { option_map command_in result ≡ commands.command_on_both word.now second.now third.now }
{
    match word {
        "check" => check_on_both(second, third),
        "trace" => Some(Command::Trace(second, third)),
        "gen" => gen_on_both(second, third),
        _ => None,
    }
}

/// The command that the words are, if they fit one.
pub fn parse(words: &[String]) -> Option<Command<'_>>
    ensures { option_map command_in result ≡ command_of (texts_of words.now) }
{
    match words {
        [] | [_] => None,
        [word, second] => command_on(word.as_str(), second.as_bytes()),
        [word, second, third] => {
            command_on_both(word.as_str(), second.as_bytes(), third.as_bytes())
        }
        [_, _, _, _, ..] => None,
    }
}
