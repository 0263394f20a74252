ghost use Rattle.std.specs.Prelude.{◌≡◌, [], ◌++◌, map};
ghost use Rattle.vr_digests.specs.Digests.{digits_of};
ghost use Rattle.vr_cli.specs.Taken.{bytes_in};

use http_server::Log;
use sha2::{Digest, Sha256};
use std::marker::Model;
use vr_base::{Failed, Sink};

/// A sink that keeps the SHA-256 (FIPS 180-4) of what was written, and none of the bytes: these are there for proofs alone,
/// in a log that takes no memory. It takes each piece whole, and no write fails. Contracts see it as the bytes written.
#[derive(Drop)]
pub struct DigestSink {
    hasher: Sha256,
    taken: Log<u8, ()>,
}

impl Model for DigestSink {
    ghost use Rattle.std.specs.Prelude.{List, ℕ};
    ghost use Rattle.sha2.specs.Hashers.{Holds256};
    ghost use Rattle.vr_cli.specs.Taken.{bytes_in};

    ghost Value = { List ℕ };

    ghost view = { λ sink. bytes_in sink.taken.items };

    ghost invariant = { λ sink. Holds256 sink.hasher (bytes_in sink.taken.items) };
}

/// Adds a piece to the log.
fn extend(taken: &mut Log<u8, ()>, piece: &[u8])
    ensures { bytes_in taken.new.items ≡ bytes_in taken.old.items ++ piece.now }
{
    for byte in piece {
        *taken = taken.and(byte, &());
    }
}

impl DigestSink {
    /// A sink to which nothing was written yet.
    pub fn new() -> DigestSink
        ensures { result ≡ [] }
    {
        DigestSink {
            hasher: Sha256::new(),
            taken: Log::new(),
        }
    }

    /// The SHA-256 of what was written, in 64 lower-case hex digits.
    pub fn digits(self) -> [u8; 64]
        ensures { result ≡ digits_of self }
    {
        let mut digits = [0; 64];
        let _ = hex::encode_to_slice(self.hasher.finalize(), &mut digits);
        digits
    }
}

impl Sink for DigestSink {
    ghost use Rattle.std.specs.Prelude.{Some};
    ghost use Rattle.vr_base.specs.Outside.{nothing_beside};

    ghost written = { λ sink. Some sink };

    ghost faults = { λ _. 0 };

    ghost beside = { λ _. nothing_beside };

    fn write(&mut self, piece: &[u8]) -> Result<usize, Failed> {
        self.hasher.update(piece);
        extend(&mut self.taken, piece);
        Ok(piece.len())
    }
}
