ghost use Rattle.std.specs.Prelude.{◌≡◌, IfErr, IfOk, IfSome};
ghost use Rattle.vr_face.specs.Keys.{most_keys};
ghost use Rattle.vr_policy_check.specs.Rules.{identity_ids};
ghost use Rattle.vr_cli.specs.FileWords.{BlamesOnly, IfAbsent, IsEither, IsPlaceOf};
ghost use Rattle.vr_cli.specs.Outputs.{in_file};
ghost use Rattle.vr_cli.specs.ServerFiles.{AreBothSaid, AreSaid, GivesBasis, GivesHeld, HasFileCause, IsKeysRefusal};
ghost use Rattle.vr_cli.specs.Servings.{basis_over, keys_in};
ghost use Rattle.vr_words.specs.Views.{placed};

use crate::reading::{load_policy, read_file};
use crate::status::Status;
use std::alloc::{AllocError, Global};
use vr_base::Folder;
use vr_face::{Keys, KeysFault, read_keys};
use vr_policy_check::CheckedPolicy;
use vr_policy_read::Policy;
use vr_words::Word;

/// The most bytes of a keys file.
const MOST_KEYS: usize = 1_048_576;

/// The ids of a policy's identities.
fn identity_ids(alloc: Global, policy: &Policy) -> Result<Vec<u32>, AllocError>
    ensures { IfOk result (λ ids. ids.items ≡ identity_ids policy.now) }
{
    let identities = policy.identities.as_slice();
    identities.iter().map(|identity| identity.id).collect(alloc)
}

/// Who holds which key by the bytes of a keys file, under a policy.
fn parse_keys(alloc: Global, bytes: &[u8], policy: &Policy) -> Result<Keys, Status>
    ensures answer { GivesHeld result (keys_in (identity_ids policy.now) most_keys bytes.now) }
    ensures refusal { IfErr result IsKeysRefusal }
{
    let ids = identity_ids(alloc, policy)?;
    match read_keys(alloc, bytes, ids.as_slice()) {
        Ok(keys) => Ok(keys),
        Err(KeysFault::Line(line)) => Err(Status::KeysRefused { line }),
        Err(KeysFault::OutOfMemory) => Err(Status::WantOfMemory),
    }
}

/// Who holds which key by the file that a word names, under a policy.
fn load_keys<F: Folder>(
    alloc: Global,
    folder: &mut F,
    word: Word<'_>,
    policy: &Policy,
) -> Result<Keys, Status>
    ensures same { F.files folder.new ≡ F.files folder.old }
    ensures told { IfSome (F.files folder.old) (λ files. GivesHeld result
        (in_file (keys_in (identity_ids policy.now) most_keys) (placed word.entry) files)) }
    ensures cause { HasFileCause (F.counts folder.old) (F.counts folder.new) result }
    ensures word { IfErr result (BlamesOnly (placed word.entry)) }
    ensures said { IfOk result (AreSaid (identity_ids policy.now)) }
{
    let bytes = read_file(alloc, folder, word, MOST_KEYS + 1)?;
    parse_keys(alloc, bytes.as_slice(), policy)
}

/// What a server rests on: the policy in the file that one word names, checked, the hash of the file, and who holds which
/// key by the file that another names.
pub fn load_basis<F: Folder>(
    alloc: Global,
    folder: &mut F,
    policy: Word<'_>,
    keys: Word<'_>,
) -> Result<(CheckedPolicy, [u8; 64], Keys), Status>
    ensures same { F.files folder.new ≡ F.files folder.old }
    ensures told { IfSome (F.files folder.old) (λ files. GivesBasis result
        (basis_over (placed policy.entry) (placed keys.entry) files)) }
    ensures cause { HasFileCause (F.counts folder.old) (F.counts folder.new) result }
    ensures word { IfErr result (λ status.
        IfAbsent status (IsPlaceOf (IsEither (placed policy.entry) (placed keys.entry)))) }
    ensures said { IfOk result AreBothSaid }
{
    let (policy, hash) = load_policy(alloc, folder, policy)?;
    let keys = load_keys(alloc, folder, keys, policy.policy())?;
    Ok((policy, hash, keys))
}
