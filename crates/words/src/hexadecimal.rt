// Bytes as hexadecimal text.
ghost use Rattle.std.specs.Prelude.{◌≡◌, IfOk, Some, Err, false, vec_items, string_bytes};
ghost use Rattle.std.specs.Char.{is_ascii_hexdigit};
ghost use Rattle.std.specs.List.{list_all};
ghost use Rattle.std.specs.Option.{option_map};
ghost use Rattle.words.specs.Hex.{hex_text, hex_bytes};
ghost use Rattle.words.specs.Refusals.{IfRead};
ghost use Rattle.words.specs.declared.refusal.Refusal.TheVariants.{Malformed};

use crate::refusal::Refusal;
use std::alloc::{AllocError, Global};

// Without a jump, so that a processor looks at all sixteen at once: one by one, a long word takes a quarter more time to read.
fn digits_in(part: &[u8; 16]) -> bool
    ensures { result ≡ list_all is_ascii_hexdigit part.now }
{
    let mut all = true;
    for c in part {
        all &= c.is_ascii_hexdigit();
    }
    all
}

fn parts_of_digits(parts: &[[u8; 16]]) -> bool
    ensures { result ≡ list_all (list_all is_ascii_hexdigit) parts.now }
{
    parts.iter().all(|part| digits_in(part))
}

fn few_digits(rest: &[u8]) -> bool
    ensures { result ≡ list_all is_ascii_hexdigit rest.now }
{
    rest.iter().all(|c| c.is_ascii_hexdigit())
}

// Whether every character is a hexadecimal digit, of either case.
fn all_digits(word: &[u8]) -> bool
    ensures { result ≡ list_all is_ascii_hexdigit word.now }
{
    let (parts, rest) = word.as_chunks::<16>();
    parts_of_digits(parts) && few_digits(rest)
}

// The bytes that a word writes with two digits each, if it writes bytes.
#[tactic(auto, using(crate::proofs::Hexes::read_as, crate::proofs::Hexes::read_none))]
pub fn read_hex(heap: Global, word: &str) -> Result<Vec<u8>, Refusal>
    ensures value { IfRead result (λ o. option_map vec_items o ≡ hex_bytes word.now) }
    ensures refusal { list_all is_ascii_hexdigit word.now ≡ false → result ≡ Err Malformed }
{
    // A word with another character is malformed however little memory is left, so the characters come first. `decode` refuses an odd
    // number of them before it looks at any, and so does this.
    if word.len() % 2 == 0 && !all_digits(word.as_bytes()) {
        return Err(Refusal::Malformed);
    }
    Ok(hex::decode(heap, word)?)
}

// Bytes as lower-case digits, two to a byte.
#[tactic(auto, using(crate::proofs::Hexes::shown_as, crate::proofs::Hexes::shown_back, values::specs::BigEndian::octets_from_fits))]
pub fn show_hex(heap: Global, bytes: &[u8]) -> Result<String, AllocError>
    ensures made { IfOk result (λ s. string_bytes s ≡ hex_text bytes.now) }
    ensures reads_back { IfOk result (λ s. hex_bytes (string_bytes s) ≡ Some bytes.now) }
{
    hex::encode(heap, bytes)
}
