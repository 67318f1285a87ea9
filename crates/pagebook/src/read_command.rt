// The command that the words of a line write.
ghost use Rattle.std.specs.Prelude.{◌≡◌, IfErr, vec_items};
ghost use Rattle.pagebook.specs.Commands.{bytes_of, PostReads, CommandReads};
ghost use Rattle.std.specs.Option.{option_map};
ghost use Rattle.words.specs.Lines.{texts};
ghost use Rattle.words.specs.Refusals.{IfRead};
ghost use Rattle.words.specs.declared.refusal.Refusal.TheVariants.{Malformed};

use super::command::{Command, Look};
use std::alloc::Global;
use text::text_value::TextValue;
use text::vote_text::read_vote;
use words::hexadecimal::read_hex;
use words::number::number_in;
use words::refusal::Refusal;

// The largest table that a line may ask for, in records.
const MOST_RECORDS: usize = 65_535;

// The largest frame memory that a line may ask for, in bytes.
const MOST_BYTES: usize = 1_000_000;

// The bytes that a word writes, at least one.
fn read_bytes(heap: Global, word: &str) -> Result<Vec<u8>, Refusal>
    ensures { IfRead result (λ o. option_map vec_items o ≡ bytes_of word.now) }
{
    let bytes = read_hex(heap, word)?;
    if bytes.is_empty() {
        return Err(Refusal::Malformed);
    }
    Ok(bytes)
}

// A post by the kind of its memory, the size of that and the stated count.
fn read_post<V>(form: &str, size: &str, count: &str) -> Result<Command<V>, Refusal>
    ensures value { IfRead result (λ o. PostReads form.now size.now count.now o) }
    ensures refusal { IfErr result (λ why. why ≡ Malformed) }
{
    let size = number_in(size)?;
    let count = number_in(count)?;
    match form {
        "table" if size <= MOST_RECORDS => Ok(Command::Table(size, count)),
        "frame" if size <= MOST_BYTES => Ok(Command::Frames(size, count)),
        _ => Err(Refusal::Malformed),
    }
}

// The command that words write, if they write one.
pub(crate) fn read_command<V: TextValue>(
    heap: Global,
    words: &[&str],
) -> Result<Command<V>, Refusal>
    ensures { IfRead result (λ o. CommandReads V.Value V.TextValue.own (texts words.now) o) }
{
    let [verb, rest @ ..] = words else {
        return Err(Refusal::Malformed);
    };
    match (*verb, rest) {
        ("frame", vote) => Ok(Command::Frame(read_vote(heap, vote)?)),
        ("send", vote) => Ok(Command::Send(read_vote(heap, vote)?)),
        ("read", [hex]) => Ok(Command::Read(read_bytes(heap, hex)?)),
        ("post", [form, size]) => read_post(form, size, "0"),
        ("post", [form, size, count]) => read_post(form, size, count),
        ("fill", [place, vote @ ..]) => Ok(Command::Fill(
            number_in(place)?,
            read_vote(heap, vote)?,
        )),
        ("poke", [offset, hex]) => Ok(Command::Poke(number_in(offset)?, read_bytes(heap, hex)?)),
        ("fetch", [place]) => Ok(Command::Look(Look::Fetch(number_in(place)?))),
        ("count", []) => Ok(Command::Look(Look::Count)),
        ("votes", []) => Ok(Command::Look(Look::Votes)),
        _ => Err(Refusal::Malformed),
    }
}
