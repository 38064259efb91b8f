//! Reading the lines of a script.

ghost use Rattle.std.specs.Prelude.{◌≡◌, ◌<◌, ◌≤◌, ℕ, Ok, Some, IfOk, IfSome};
ghost use Rattle.std.specs.Result.{result_ok};
ghost use Rattle.std.specs.List.{join_with_byte, slice_split};
ghost use Rattle.rights_lattice.specs.Limits.{greatest_site};
ghost use Rattle.plain_words.specs.Words.{is_space};
ghost use Rattle.plain_words.specs.Number.{number_of};
ghost use Rattle.book_core.specs.Limits.{IsLimit};
ghost use Rattle.desk_lines.specs.declared.script.ScriptLine.{ScriptLine};
ghost use Rattle.desk_lines.specs.Grammar.{script_text, IsScriptLine, sites_words, IsSites, limit_words};
ghost use Rattle.desk_lines.specs.Reading.{line_at_site, line_of, named_number, sites_from_line, limit_from_line};

use crate::line::{BadLine, Line};
use crate::script::ScriptLine;
use crate::script_commands::commanded;
use crate::session_lines::asked_in;
use book_core::Limit;
use plain_words::{Words, number_at, read_number};
use rights_lattice::{GREATEST_SITE, MOST_SITES, SiteId, Sites};
use world_steps::Step;

#[tactic(auto, unfolding(crate::specs::Reading::line_at_site))]
fn line_at_site(site: SiteId, words: &mut Words<'_>) -> Option<ScriptLine>
    ensures { result ≡ line_at_site site words.old }
{
    match asked_in(words)? {
        Line::Ask { number, request } => Some(ScriptLine::Make(Step::Ask {
            site,
            number,
            request,
        })),
        Line::Left { event } => Some(ScriptLine::Left { site, event }),
        Line::Totals { event } => Some(ScriptLine::Totals { site, event }),
        Line::Quit => None,
    }
}

fn site_of(word: &[u8]) -> Option<SiteId>
    ensures { result ≡ number_of 0 greatest_site word.now }
{
    let number = read_number(word, 0, GREATEST_SITE)?;
    let site = SiteId::of(number)?;
    Some(site)
}

#[tactic(auto, unfolding(crate::specs::Reading::line_of_words))]
fn line_of(bytes: &[u8]) -> Option<ScriptLine>
    ensures { result ≡ line_of bytes.now }
{
    let mut words = Words::new(bytes);
    let word = words.next()?;
    match site_of(word) {
        Some(site) => line_at_site(site, &mut words),
        None => commanded(word, &mut words),
    }
}

/// Reads a line of a script behind those that give the count of sites and the limit, without its line break;
/// `BadLine` where it is none.
pub fn read_step(bytes: &[u8]) -> Result<ScriptLine, BadLine>
    // What is read is spelled so.
    ensures found { IfOk result (λ l. IsScriptLine l × (bytes.now ≡ script_text l)) }
    // What is spelled so is read.
    ensures only { (l : ScriptLine) → IsScriptLine l → bytes.now ≡ script_text l → result ≡ Ok l }
    // Which line it is, as a function.
    ensures exact { result_ok result ≡ line_of bytes.now }
{
    match line_of(bytes) {
        Some(line) => Ok(line),
        None => Err(BadLine),
    }
}

#[tactic(auto, unfolding(crate::specs::Reading::named_number))]
fn named_number(name: &[u8], high: u64, bytes: &[u8]) -> Option<u64>
    ensures value { result ≡ named_number name.now high (slice_split is_space bytes.now) }
    ensures within { IfSome result (λ n. (1 ≤ n) × (n ≤ high)) }
{
    let mut words = Words::new(bytes);
    let word = words.next()?;
    if word != name {
        return None;
    }
    let number = number_at(&mut words, 1, high)?;
    if words.is_empty() { Some(number) } else { None }
}

/// Reads the first line of a script, which gives the count of sites; `None` where it does not.
pub fn read_sites(bytes: &[u8]) -> Option<Sites>
    ensures found { IfSome result
        (λ n. IsSites n × (bytes.now ≡ join_with_byte 32 (sites_words n))) }
    ensures only { (n : ℕ)
        → IsSites n → bytes.now ≡ join_with_byte 32 (sites_words n) → result ≡ Some n }
    ensures exact { result ≡ sites_from_line bytes.now }
{
    let count = named_number(b"sites", MOST_SITES, bytes)?;
    let sites = Sites::of(count)?;
    Some(sites)
}

/// Reads the line of a script that gives the limit of each history; `None` where it does not.
pub fn read_limit(bytes: &[u8]) -> Option<Limit>
    ensures found { IfSome result
        (λ n. IsLimit n × (bytes.now ≡ join_with_byte 32 (limit_words n))) }
    ensures only { (n : ℕ)
        → IsLimit n → bytes.now ≡ join_with_byte 32 (limit_words n) → result ≡ Some n }
    ensures exact { result ≡ limit_from_line bytes.now }
{
    let entries = named_number(b"limit", Limit::GREATEST, bytes)?;
    let limit = Limit::of(entries)?;
    Some(limit)
}
