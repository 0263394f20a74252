ghost use Rattle.std.specs.Prelude.{◌≡◌};
ghost use Rattle.hex.specs.Hex.{encode_lower};
ghost use Rattle.sha2.specs.Sha256.{sha256};
ghost use Rattle.vr_policy_read.specs.Faults.{GivesKind};
ghost use Rattle.vr_policy_read.specs.Policies.{hash_of};

use crate::faults::ReadKind;
use sha2::{Digest, Sha256};

/// The SHA-256 (FIPS 180-4) of a policy file's bytes in 64 lower-case
/// hex digits. It takes no memory.
pub fn policy_hash(bytes: &[u8]) -> [u8; 64]
    ensures { result ≡ encode_lower (sha256 bytes.now) }
{
    lower_case_digits(Sha256::digest(bytes))
}

/// The 64 lower-case digits of a hash that a text spells in digits of either case.
pub fn parse_hash(text: &str) -> Result<[u8; 64], ReadKind>
    ensures { GivesKind result (hash_of text.now) }
{
    let mut bytes = [0; 32];
    match hex::decode_to_slice(text, &mut bytes) {
        Ok(()) => Ok(lower_case_digits(bytes)),
        Err(_) => Err(ReadKind::BadHash),
    }
}

fn lower_case_digits(bytes: [u8; 32]) -> [u8; 64]
    ensures { result ≡ encode_lower bytes }
{
    let mut digits = [0; 64];
    let _ = hex::encode_to_slice(bytes, &mut digits);
    digits
}
