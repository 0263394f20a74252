ghost use Rattle.std.specs.Prelude.{◌≡◌};
ghost use Rattle.sha2.specs.Sha256.{sha256};
ghost use Rattle.vr_digests.specs.Digests.{digits_of};

use sha2::{Digest, Sha256};
use vr_files::{FileBody, PAGE};

/// The SHA-256 (FIPS 180-4) of a file's bytes, which are taken page by page and not copied together.
fn digest_of(body: &FileBody) -> [u8; 32]
    ensures { result ≡ sha256 body.now }
{
    let mut hasher = Sha256::new();
    for place in 0..body.len().div_ceil(PAGE as u64) {
        if let Some(page) = body.page(place) {
            hasher.update(page);
        }
    }
    hasher.finalize()
}

/// The SHA-256 (FIPS 180-4) of a file's bytes in 64 lower-case hex digits. It copies no bytes of the file.
pub fn file_digits(body: &FileBody) -> [u8; 64]
    ensures { result ≡ digits_of body.now }
{
    let mut digits = [0; 64];
    let _ = hex::encode_to_slice(&digest_of(body), &mut digits);
    digits
}
