// Fingerprints as a kind of value: 32 bytes, and all zero for blank.
ghost use Rattle.std.specs.Prelude.{◌*◌};
ghost use Rattle.std.proofs.Common.{ap, ◌∙◌, lit≤};
ghost use Rattle.values.specs.Fingerprints.{fingerprint_bytes, fingerprint_parsed, fingerprint_blank};
ghost use Rattle.values.specs.FingerprintsLemmas.{length_words, octets_words, fingerprint_reading, fingerprint_writing};

use crate::fingerprint::Fingerprint;
use crate::value::Value;

impl Value for Fingerprint {
    ghost width = { 32 };

    ghost bytes = { fingerprint_bytes };

    ghost parsed = { fingerprint_parsed };

    ghost blank = { fingerprint_blank };

    ghost least = { lit≤ tt };

    ghost most = { lit≤ tt };

    ghost long = { λ f. length_words f.words ∙ ap (λ n. 8 * n) f.four };

    ghost octets = { λ f. octets_words f.words };

    ghost reading = { fingerprint_reading };

    ghost writing = { fingerprint_writing };

    fn width() -> usize {
        32
    }

    fn write(&self, out: &mut [u8]) {
        // By name, so that their order stands here.
        let [a, b, c, d] = self.words;
        let words = [a, b, c, d].map(u64::to_be_bytes);
        out.copy_from_slice(words.as_flattened());
    }

    fn read(from: &[u8]) -> Option<Fingerprint> {
        let ([a, b, c, d], []) = from.as_chunks::<8>() else {
            return None;
        };
        let words = [*a, *b, *c, *d].map(u64::from_be_bytes);
        Some(Fingerprint { words })
    }

    #[tactic(auto, using(crate::specs::FingerprintsLemmas::fingerprint_equal))]
    fn same(&self, other: &Fingerprint) -> bool {
        self == other
    }

    fn blank() -> Fingerprint {
        Fingerprint { words: [0; 4] }
    }
}
