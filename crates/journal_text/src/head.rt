//! The lines of a journal before its teams and players.

ghost use Rattle.std.specs.Prelude.{◌≡◌, ◌+◌, ◌≤◌, ◌^◌, Some, IfOk, [], codes, length};
ghost use Rattle.journal_text.specs.Lines.{lines_of, words_of};
ghost use Rattle.journal_text.specs.Forms.{number_form, number_in, version_form, version_in, control_form, control_fits, control_in, window_form, window_in};
ghost use Rattle.journal_text.specs.Reading.{GoesOn, InNames, behind_head, behind_version, head_in, journal_in, nothing, run};

use crate::fault::{JournalCause, ReadJournalFault, at_line};
use crate::lines::{four_words, next_line, three_words, two_words};
use entries::Control;

/// The lines of the head, each of which comes once, in this order. The line `rule N` stands in version 2 alone.
#[derive(Clone, Copy, Debug, PartialEq, Eq)]
pub(crate) enum Place {
    Version,
    Rule,
    Control,
    Window,
    Wave,
    Leaders,
}

/// What the lines before the teams say.
#[derive(Clone, Copy, Debug)]
pub(crate) struct Head {
    pub(crate) version: u32,
    pub(crate) rule: u32,
    pub(crate) control: Control,
    pub(crate) starts: u64,
    pub(crate) ends: u64,
    pub(crate) wave_ms: u64,
    pub(crate) leaders: u32,
}

impl Head {
    /// What stands in for the values that no line has said yet. A journal of version 1 is under the first pairing rule.
    fn nothing() -> Head
        ensures { result ≡ nothing }
    {
        Head {
            version: 1,
            rule: 1,
            control: Control {
                initial_ms: 0,
                inc_ms: 0,
                first_ms: 0,
            },
            starts: 0,
            ends: 0,
            wave_ms: 0,
            leaders: 0,
        }
    }
}

/// The number of a line `WORD N`, whatever its range.
#[tactic(auto, unfolding(crate::specs::Forms::number_form))]
fn number_form(line: &[u8], word: &[u8]) -> Option<u64>
    ensures { result ≡ number_form word.now (words_of line.now) }
{
    let (key, number) = two_words(line)?;
    if key != word {
        return None;
    }
    decimals::read(number)
}

/// The number of a line `WORD N`, from the least to the most.
#[tactic(auto, unfolding(crate::specs::Forms::number_in))]
fn number(line: &[u8], word: &[u8], least: u64, most: u64) -> Result<u64, JournalCause>
    ensures is { result ≡ number_in word.now least most (words_of line.now) }
    ensures within { IfOk result (λ n. n ≤ most) }
{
    let n = number_form(line, word).ok_or(JournalCause::Form)?;
    if least <= n && n <= most {
        Ok(n)
    } else {
        Err(JournalCause::Range)
    }
}

/// The version of its line, 1 or 2.
#[tactic(auto, unfolding(crate::specs::Forms::version_form))]
fn version_form(line: &[u8]) -> Option<u32>
    ensures { result ≡ version_form (words_of line.now) }
{
    let version = number_form(line, b"arena")?;
    if version == 1 || version == 2 {
        Some(version as u32)
    } else {
        None
    }
}

/// The version of its line.
#[tactic(auto, unfolding(crate::specs::Forms::version_in))]
fn version(line: &[u8]) -> Result<u32, JournalCause>
    ensures { result ≡ version_in (words_of line.now) }
{
    let version = version_form(line).ok_or(JournalCause::Form)?;
    Ok(version)
}

/// The pairing rule of its line.
fn rule(line: &[u8]) -> Result<u32, JournalCause>
    ensures { result ≡ number_in (codes "rule") 1 2 (words_of line.now) }
{
    let rule = number(line, b"rule", 1, 2)?;
    Ok(rule as u32)
}

/// The number of leaders of its line.
fn leaders(line: &[u8]) -> Result<u32, JournalCause>
    ensures { result ≡ number_in (codes "leaders") 1 20 (words_of line.now) }
{
    let leaders = number(line, b"leaders", 1, 20)?;
    Ok(leaders as u32)
}

/// Initial time, increment and time for the first move, whatever their ranges.
#[tactic(auto, unfolding(crate::specs::Forms::control_form))]
fn control_form(line: &[u8]) -> Option<(u64, u64, u64)>
    ensures { result ≡ control_form (words_of line.now) }
{
    let (key, initial, increment, opening) = four_words(line)?;
    if key != b"control".as_slice() {
        return None;
    }
    let initial = decimals::read(initial)?;
    let increment = decimals::read(increment)?;
    let opening = decimals::read(opening)?;
    Some((initial, increment, opening))
}

/// Whether the seconds and milliseconds of a time control are in their ranges.
fn control_fits(initial: u64, increment: u64, opening: u64) -> bool
    ensures { result ≡ control_fits (initial, increment, opening) }
{
    initial <= 10_800
        && increment <= 180
        && !(initial == 0 && increment == 0)
        && 1000 <= opening
        && opening <= 300_000
}

/// The time control of its line.
#[tactic(auto, unfolding(crate::specs::Forms::control_in))]
fn control(line: &[u8]) -> Result<Control, JournalCause>
    ensures { result ≡ control_in (words_of line.now) }
{
    let (initial, increment, opening) = control_form(line).ok_or(JournalCause::Form)?;
    if control_fits(initial, increment, opening) {
        Ok(Control {
            initial_ms: initial * 1000,
            inc_ms: increment * 1000,
            first_ms: opening,
        })
    } else {
        Err(JournalCause::Range)
    }
}

/// When an arena starts and ends, whatever the ranges.
#[tactic(auto, unfolding(crate::specs::Forms::window_form))]
fn window_form(line: &[u8]) -> Option<(u64, u64)>
    ensures { result ≡ window_form (words_of line.now) }
{
    let (key, starts, ends) = three_words(line)?;
    if key != b"window".as_slice() {
        return None;
    }
    let starts = decimals::read(starts)?;
    let ends = decimals::read(ends)?;
    Some((starts, ends))
}

/// When an arena starts and ends, of its line.
#[tactic(auto, unfolding(crate::specs::Forms::window_in))]
fn window(line: &[u8]) -> Result<(u64, u64), JournalCause>
    ensures { result ≡ window_in (words_of line.now) }
{
    let (starts, ends) = window_form(line).ok_or(JournalCause::Form)?;
    if starts < ends && ends <= 900_000_000 {
        Ok((starts, ends))
    } else {
        Err(JournalCause::Range)
    }
}

/// The line behind that of the version.
fn behind_version(version: u32) -> Place
    ensures { result ≡ behind_version version }
{
    if version == 1 {
        Place::Control
    } else {
        Place::Rule
    }
}

/// The head with one line more, and the line of it that comes next, if one does.
#[tactic(auto, unfolding(crate::specs::Reading::head_in))]
fn one_line(place: Place, head: Head, line: &[u8]) -> Result<(Option<Place>, Head), JournalCause>
    ensures { result ≡ head_in place head (words_of line.now) }
{
    match place {
        Place::Version => {
            let version = version(line)?;
            Ok((Some(behind_version(version)), Head { version, ..head }))
        }
        Place::Rule => {
            let rule = rule(line)?;
            Ok((Some(Place::Control), Head { rule, ..head }))
        }
        Place::Control => {
            let control = control(line)?;
            Ok((Some(Place::Window), Head { control, ..head }))
        }
        Place::Window => {
            let (starts, ends) = window(line)?;
            Ok((
                Some(Place::Wave),
                Head {
                    starts,
                    ends,
                    ..head
                },
            ))
        }
        Place::Wave => {
            let wave_ms = number(line, b"wave", 100, 600_000)?;
            Ok((Some(Place::Leaders), Head { wave_ms, ..head }))
        }
        Place::Leaders => {
            let leaders = leaders(line)?;
            Ok((None, Head { leaders, ..head }))
        }
    }
}

/// What the lines before the teams say, the number of the line behind them, and the text from there on.
#[tactic(auto, using(crate::proofs::Steps::head_step), unfolding(crate::specs::Reading::step, crate::specs::Reading::journal_in))]
pub(crate) fn head_of(text: &[u8]) -> Result<(Head, u64, &[u8]), ReadJournalFault>
    ensures read { GoesOn (λ r. run (InNames r.0 [] []) r.1 (lines_of r.2.now)) result (journal_in text.now) }
    ensures placed { IfOk result (λ r. r.1 + length r.2.now ≤ length text.now + 1) }
{
    let mut wanted = Some(Place::Version);
    let mut head = Head::nothing();
    let mut number = 1;
    let mut rest = text;
    'lines: while let Some(place) = wanted {
        let (line, after) = next_line(rest, number)?;
        let (next, more) = at_line(number, one_line(place, head, line))?;
        wanted = next;
        head = more;
        number += 1;
        rest = after;
    }
    Ok((head, number, rest))
}
