// The text of a fingerprint: its bytes as 64 hexadecimal digits.
ghost use Rattle.text.specs.Fingerprints.{FingerprintReads, fingerprint_text};
ghost use Rattle.text.specs.Texts.{fingerprint_single, fingerprint_back, fingerprint_apart};

use crate::text_value::TextValue;
use std::alloc::{AllocError, Global};
use values::fingerprint::Fingerprint;
use values::value::Value;
use words::hexadecimal::{read_hex, show_hex};
use words::refusal::Refusal;

impl TextValue for Fingerprint {
    ghost text = { fingerprint_text };

    ghost reads = { FingerprintReads };

    ghost single = { fingerprint_single };

    ghost back = { fingerprint_back };

    ghost apart = { fingerprint_apart };

    fn from_word(heap: Global, word: &str) -> Result<Fingerprint, Refusal> {
        Fingerprint::read(&read_hex(heap, word)?).ok_or(Refusal::Malformed)
    }

    fn to_word(&self, heap: Global) -> Result<String, AllocError> {
        let mut bytes = [0; 32];
        self.write(&mut bytes);
        show_hex(heap, &bytes)
    }
}
