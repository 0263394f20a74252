ghost use Rattle.std.specs.Prelude.{◌≡◌, ◌≤◌, ◌↔◌, Some, IfErr, IfOk, length, drop};
ghost use Rattle.std.specs.Option.{option_map};
ghost use Rattle.vr_face.specs.Resources.{Resource, StandsFor, kind_of, resource_of};
ghost use Rattle.vr_face.specs.Table.{HasRows};
ghost use Rattle.vr_face.specs.Targets.{resource_by};

use matchit::{InsertError, Router};
use std::alloc::Global;

/// What a target stands for.
#[derive(Clone, Copy)]
pub enum Target<'a> {
    /// The file with this name.
    File(&'a [u8]),
    /// The pipeline whose id has this text.
    Pipeline(&'a [u8]),
    PolicyHash,
}

/// The router of the three kinds of target.
pub fn routes(alloc: Global) -> Result<Router<u8>, InsertError>
    ensures rows { IfOk result HasRows }
    ensures memory { IfErr result (λ e. e ≡ InsertError.OutOfMemory) }
{
    let mut router = Router::new(alloc);
    router.insert("/files/{*name}", 0)?;
    router.insert("/pipelines/{id}", 1)?;
    router.insert("/policy/hash", 2)?;
    Ok(router)
}

// The bytes of a path from a place on.
fn rest_of(path: &str, start: usize) -> &[u8]
    requires { start ≤ length path.now }
    ensures { result.now ≡ drop start path.now }
{
    &path.as_bytes()[start..]
}

/// What a path stands for: a file, where at least one byte follows `/files/`; a pipeline, where at
/// least one byte and no slash follows `/pipelines/`; the hash of the policy at `/policy/hash`; and
/// nothing else. Nothing in a path is decoded.
pub fn target_of<'a>(router: &Router<u8>, path: &'a str) -> Option<Target<'a>>
    requires { HasRows router.now }
    ensures kind { option_map resource_by result ≡ kind_of path.now }
    ensures rule { (resource : Resource) →
        (kind_of path.now ≡ Some resource) ↔ StandsFor path.now resource }
{
    match router.at(path) {
        Ok(found) => match *found.value {
            0 => Some(Target::File(rest_of(path, "/files/".len()))),
            1 => Some(Target::Pipeline(rest_of(path, "/pipelines/".len()))),
            _ => Some(Target::PolicyHash),
        },
        Err(_) => None,
    }
}

/// What the bytes of a request's target stand for.
pub fn read_target<'a>(router: &Router<u8>, target: &'a [u8]) -> Option<Target<'a>>
    requires { HasRows router.now }
    ensures { option_map resource_by result ≡ resource_of target.now }
{
    match std::str::from_utf8(target) {
        Ok(path) => target_of(router, path),
        Err(_) => None,
    }
}
