// A session: what the lines so far have settled, and the answer to the next one.
ghost use Rattle.std.specs.Prelude.{◌≡◌, IfSome, MatchResult, not, string_bytes, ◌==◌};
ghost use Rattle.std.specs.List.{find};
ghost use Rattle.std.specs.Option.{ok_or};
ghost use Rattle.words.specs.declared.refusal.Refusal.TheVariants.{Malformed};
ghost use Rattle.words.specs.Refusals.{IfRead};
ghost use Rattle.pagebook.specs.Desks.{view};
ghost use Rattle.pagebook.specs.Sessions.{Answers, Replies, Speaks, begun, outcome_of, session_view, spoken, stage_of};
ghost use Rattle.pagebook.specs.Stages.{Prints, Responds, Settles, ignored, stage_named};
ghost use Rattle.pagebook.specs.declared.session.Stage.TheVariants.{Start};

use super::desk::Desk;
use super::read_command::read_command;
use std::alloc::Global;
use std::str::{FromStr, from_utf8};
use text::text_value::TextValue;
use values::fingerprint::Fingerprint;
use values::rate::Rate;
use words::line::words_of;
use words::refusal::Refusal;

// What a line names and contracts say of a session, which holds a desk besides.
#[derive(Clone, Copy, Debug, PartialEq, Eq)]
pub(crate) enum Stage {
    // The kind of value is yet to be named.
    Start,
    Rates,
    Fingerprints,
}

#[derive(Drop)]
pub(crate) enum Session {
    // The kind of value is yet to be named.
    Start,
    Rates(Desk<Rate>),
    Fingerprints(Desk<Fingerprint>),
}

// The first byte of a line that is no space.
fn first_mark(line: &[u8]) -> Option<u8>
    ensures { result ≡ find (λ b. not (b == 32)) line.now }
{
    line.iter().copied().find(|b| *b != b' ')
}

// A line of spaces alone, or a comment.
fn is_ignored(line: &[u8]) -> bool
    ensures { result ≡ ignored line.now }
{
    // A line without such a byte is taken as a comment.
    first_mark(line).unwrap_or(b'#') == b'#'
}

// What a line prints once the kind of value is named: itself, an arrow and its answer.
#[tactic(auto, using(crate::proofs::Telling::answered))]
fn answer<V: TextValue>(heap: Global, desk: &mut Desk<V>, line: &str) -> Result<String, Refusal>
    ensures { IfRead result (λ text. Answers V.Value V.TextValue.own line.now (spoken text) (view desk.old) (view desk.new)) }
{
    let words = words_of(heap, line)?;
    let command = read_command(heap, words.as_slice())?;
    let answer = desk.carry_out(heap, command)?;
    Ok(format!(in heap; "{line} -> {answer}")?)
}

impl FromStr for Stage {
    type Err = Refusal;

    // The stage that a line names, if it names a kind of value.
    ghost from_str_gives = { λ line r. r ≡ ok_or (stage_named line) Malformed };

    fn from_str(line: &str) -> Result<Stage, Refusal> {
        match line {
            "values rate" => Ok(Stage::Rates),
            "values fingerprint" => Ok(Stage::Fingerprints),
            _ => Err(Refusal::Malformed),
        }
    }
}

impl Session {
    pub(crate) fn new() -> Session
        ensures { stage_of result ≡ Start }
    {
        Session::at(Stage::Start)
    }

    // A session that was just brought to a stage.
    fn at(stage: Stage) -> Session
        ensures stage { stage_of result ≡ stage }
        ensures view { session_view result ≡ begun stage }
    {
        match stage {
            Stage::Start => Session::Start,
            Stage::Rates => Session::Rates(Desk::new()),
            Stage::Fingerprints => Session::Fingerprints(Desk::new()),
        }
    }

    // What a line prints that is text and not ignored.
    fn speak(&mut self, heap: Global, line: &str) -> Result<String, Refusal>
        ensures settles { MatchResult result (λ s. Prints line.now (string_bytes s) × Settles (stage_of self.old) line.now (stage_of self.new)) (λ _. stage_of self.new ≡ stage_of self.old) }
        ensures replies { IfRead result (λ text. Speaks (session_view self.old) line.now (spoken text) (session_view self.new)) }
    {
        // A desk of each kind of value is a type of its own, so a match chooses it once.
        match self {
            Session::Rates(desk) => answer(heap, desk, line),
            Session::Fingerprints(desk) => answer(heap, desk, line),
            Session::Start => {
                let stage = line.parse()?;
                let text = format!(in heap; "{line} -> 0")?;
                *self = Session::at(stage);
                Ok(text)
            }
        }
    }

    // What a line prints, if it prints anything.
    pub(crate) fn respond(&mut self, heap: Global, line: &[u8]) -> Result<Option<String>, Refusal>
        ensures settles { Responds (stage_of self.old) line.now result (stage_of self.new) }
        ensures replies { IfSome (outcome_of result) (λ outcome. Replies (session_view self.old) line.now outcome (session_view self.new)) }
    {
        if is_ignored(line) {
            return Ok(None);
        }
        let line = from_utf8(line)?;
        Ok(Some(self.speak(heap, line)?))
    }
}
