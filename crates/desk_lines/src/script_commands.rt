//! Reading the lines that begin with a command in place of a site's number.

ghost use Rattle.std.specs.Prelude.{◌≡◌};
ghost use Rattle.std.specs.Option.{option_map};
ghost use Rattle.desk_lines.specs.Commands.{command_of, index_at, sites_at, stored_of, stored_at, take_at, grow_input_at, request_input_of, input_at, send_at, deliver_at, restart_at, grow_at, stop_at, after_command, commanded};

use crate::requests::request_from;
use crate::script::ScriptLine;
use delta_wire::site_at;
use plain_words::{Words, number_at};
use rights_lattice::{MOST_SITES, Sites};
use world_steps::{Input, Step};

// The greatest index of a message that a line can name.
const GREATEST_INDEX: u64 = 1_000_000_000;

// The word at the head of a line that begins with a command in place of a site's number.
#[derive(Clone, Copy, Debug, PartialEq, Eq)]
enum Command {
    Send,
    Deliver,
    Restart,
    Grow,
    Stop,
}

#[tactic(auto, unfolding(crate::specs::Commands::command_of))]
fn command_of(word: &[u8]) -> Option<Command>
    ensures { result ≡ command_of word.now }
{
    if word == b"send".as_slice() {
        Some(Command::Send)
    } else if word == b"deliver".as_slice() {
        Some(Command::Deliver)
    } else if word == b"restart".as_slice() {
        Some(Command::Restart)
    } else if word == b"grow".as_slice() {
        Some(Command::Grow)
    } else if word == b"stop".as_slice() {
        Some(Command::Stop)
    } else {
        None
    }
}

fn index_at(words: &mut Words<'_>) -> Option<usize>
    ensures { option_map (λ k. (k, words.new)) result ≡ index_at words.old }
{
    let index = number_at(words, 0, GREATEST_INDEX)?;
    Some(index as usize)
}

fn sites_at(words: &mut Words<'_>) -> Option<Sites>
    ensures { option_map (λ n. (n, words.new)) result ≡ sites_at words.old }
{
    let count = number_at(words, 1, MOST_SITES)?;
    let sites = Sites::of(count)?;
    Some(sites)
}

#[tactic(auto, unfolding(crate::specs::Commands::stored_of))]
fn stored_of(word: &[u8]) -> Option<bool>
    ensures { result ≡ stored_of word.now }
{
    if word == b"kept".as_slice() {
        Some(true)
    } else if word == b"lost".as_slice() {
        Some(false)
    } else {
        None
    }
}

#[tactic(auto, unfolding(crate::specs::Commands::stored_at))]
fn stored_at(words: &mut Words<'_>) -> Option<bool>
    ensures { option_map (λ b. (b, words.new)) result ≡ stored_at words.old }
{
    let word = words.next()?;
    let is_stored = stored_of(word)?;
    Some(is_stored)
}

#[tactic(auto, unfolding(crate::specs::Commands::take_at))]
fn take_at(words: &mut Words<'_>) -> Option<Input>
    ensures { result ≡ take_at words.old }
{
    let message = index_at(words)?;
    if words.is_empty() {
        Some(Input::Take { message })
    } else {
        None
    }
}

#[tactic(auto, unfolding(crate::specs::Commands::grow_input_at))]
fn grow_input_at(words: &mut Words<'_>) -> Option<Input>
    ensures { result ≡ grow_input_at words.old }
{
    let sites = sites_at(words)?;
    if words.is_empty() {
        Some(Input::Grow { sites })
    } else {
        None
    }
}

#[tactic(auto, unfolding(crate::specs::Commands::request_input_of))]
fn request_input_of(word: &[u8], words: &mut Words<'_>) -> Option<Input>
    ensures { result ≡ request_input_of word.now words.old }
{
    let (number, request) = request_from(word, words)?;
    Some(Input::Request { number, request })
}

#[tactic(auto, unfolding(crate::specs::Commands::input_at))]
fn input_at(words: &mut Words<'_>) -> Option<Input>
    ensures { result ≡ input_at words.old }
{
    let word = words.next()?;
    if word == b"deliver".as_slice() {
        take_at(words)
    } else if word == b"grow".as_slice() {
        grow_input_at(words)
    } else {
        request_input_of(word, words)
    }
}

#[tactic(auto, unfolding(crate::specs::Commands::send_at))]
fn send_at(words: &mut Words<'_>) -> Option<ScriptLine>
    ensures { result ≡ send_at words.old }
{
    let by = site_at(words)?;
    let to = site_at(words)?;
    if words.is_empty() {
        Some(ScriptLine::Make(Step::Send { by, to }))
    } else {
        None
    }
}

#[tactic(auto, unfolding(crate::specs::Commands::deliver_at))]
fn deliver_at(words: &mut Words<'_>) -> Option<ScriptLine>
    ensures { result ≡ deliver_at words.old }
{
    let index = index_at(words)?;
    if words.is_empty() {
        Some(ScriptLine::Make(Step::Deliver { index }))
    } else {
        None
    }
}

#[tactic(auto, unfolding(crate::specs::Commands::restart_at))]
fn restart_at(words: &mut Words<'_>) -> Option<ScriptLine>
    ensures { result ≡ restart_at words.old }
{
    let site = site_at(words)?;
    if words.is_empty() {
        Some(ScriptLine::Make(Step::Restart { site }))
    } else {
        None
    }
}

#[tactic(auto, unfolding(crate::specs::Commands::grow_at))]
fn grow_at(words: &mut Words<'_>) -> Option<ScriptLine>
    ensures { result ≡ grow_at words.old }
{
    let site = site_at(words)?;
    let sites = sites_at(words)?;
    if words.is_empty() {
        Some(ScriptLine::Make(Step::Grow { site, sites }))
    } else {
        None
    }
}

#[tactic(auto, unfolding(crate::specs::Commands::stop_at))]
fn stop_at(words: &mut Words<'_>) -> Option<ScriptLine>
    ensures { result ≡ stop_at words.old }
{
    let site = site_at(words)?;
    let stored = stored_at(words)?;
    let input = input_at(words)?;
    Some(ScriptLine::Make(Step::Stop {
        site,
        input,
        stored,
    }))
}

fn after_command(command: Command, words: &mut Words<'_>) -> Option<ScriptLine>
    ensures { result ≡ after_command command words.old }
{
    match command {
        Command::Send => send_at(words),
        Command::Deliver => deliver_at(words),
        Command::Restart => restart_at(words),
        Command::Grow => grow_at(words),
        Command::Stop => stop_at(words),
    }
}

/// Reads the line that begins with this word, where the word is a command.
#[tactic(auto, unfolding(crate::specs::Commands::commanded))]
pub(crate) fn commanded(word: &[u8], words: &mut Words<'_>) -> Option<ScriptLine>
    ensures { result ≡ commanded word.now words.old }
{
    let command = command_of(word)?;
    after_command(command, words)
}
