ghost use Rattle.std.specs.Prelude.{◌≡◌, bytes_eq};
ghost use Rattle.vr_face.specs.Asks.{Gives, ask_of, asker, call_of, call_on, file_call, named_path, only_call, pipeline_id};
ghost use Rattle.vr_face.specs.Table.{HasRows};
ghost use Rattle.vr_face.specs.Targets.{resource_by};

use crate::answers::{Answer, Methods};
use crate::keys::Keys;
use crate::targets::{Target, read_target};
use http::Method;
use matchit::Router;
use std::alloc::Global;
use vr_base::{Bytes, Call, NoMemory, Path, PathFault, Reply, parse_path};
use vr_http::Request;
use vr_text::read_id;

/// A call of an identity.
#[derive(Drop)]
pub struct Ask {
    pub who: u32,
    pub call: Call,
}

/// Why a request makes no call.
#[derive(Drop)]
pub enum AskFault {
    /// It is answered without the desk.
    Answered(Answer),
    OutOfMemory,
}

impl From<NoMemory> for AskFault {
    ghost use Rattle.vr_face.specs.declared.asks.AskFault.TheVariants.{OutOfMemory};
    ghost use Rattle.std.specs.Prelude.{◌≡◌};

    ghost from_gives = { λ _ fault. fault ≡ OutOfMemory };

    fn from(_refused: NoMemory) -> AskFault {
        AskFault::OutOfMemory
    }
}

fn is_method(method: &Method, word: &str) -> bool
    ensures { result ≡ bytes_eq method.now word.now }
{
    method.as_str() == word
}

fn file_call(alloc: Global, name: &[u8], method: &Method, body: Bytes) -> Result<Call, AskFault>
    ensures { Gives result (file_call name.now method.now body) }
{
    if is_method(method, "GET") {
        let name = Bytes::from_slice(alloc, name)?;
        Ok(Call::Read { name })
    } else if is_method(method, "PUT") {
        let name = Bytes::from_slice(alloc, name)?;
        Ok(Call::Write { name, body })
    } else if is_method(method, "POST") {
        let name = Bytes::from_slice(alloc, name)?;
        Ok(Call::Append { name, body })
    } else {
        Err(AskFault::Answered(Answer::BadMethod(Methods::GetPutPost)))
    }
}

/// The path that a name stands for.
fn read_name(alloc: Global, name: &[u8]) -> Result<Path, AskFault>
    ensures { Gives result (named_path name.now) }
{
    match parse_path(alloc, name) {
        Ok(path) => Ok(path),
        Err(PathFault::OutOfMemory) => Err(AskFault::OutOfMemory),
        Err(fault) => Err(AskFault::Answered(Answer::Replied(Reply::BadPath { fault }))),
    }
}

fn read_pipeline(digits: &[u8]) -> Result<u32, AskFault>
    ensures { Gives result (pipeline_id digits.now) }
{
    match read_id(digits) {
        Some(id) => Ok(id),
        None => Err(AskFault::Answered(Answer::NoRoute)),
    }
}

fn only_call(methods: Methods, wanted: &str, method: &Method, call: Call) -> Result<Call, AskFault>
    ensures { Gives result (only_call methods wanted.now method.now call) }
{
    if is_method(method, wanted) {
        Ok(call)
    } else {
        Err(AskFault::Answered(Answer::BadMethod(methods)))
    }
}

/// The call that a method makes of what a target stands for.
fn call_on(alloc: Global, target: Target, method: &Method, body: Bytes) -> Result<Call, AskFault>
    ensures { Gives result (call_on (resource_by target.entry) method.now body) }
{
    match target {
        Target::File(name) => {
            let call = file_call(alloc, name, method, body)?;
            read_name(alloc, name)?;
            Ok(call)
        }
        Target::Pipeline(digits) => {
            let pipeline = read_pipeline(digits)?;
            only_call(Methods::Post, "POST", method, Call::Run { pipeline })
        }
        Target::PolicyHash => only_call(Methods::Get, "GET", method, Call::Hash),
    }
}

/// The identity that holds a request's key.
fn read_asker(keys: &Keys, key: &Option<[u8; 64]>) -> Result<u32, AskFault>
    ensures { Gives result (asker keys.now key.now) }
{
    let holder = match key {
        Some(key) => keys.who(key),
        None => None,
    };
    match holder {
        Some(who) => Ok(who),
        None => Err(AskFault::Answered(Answer::Replied(Reply::Unkeyed))),
    }
}

/// The call that a request with this target, method and body makes.
fn read_call(
    alloc: Global,
    router: &Router<u8>,
    target: &Bytes,
    method: &Method,
    body: Bytes,
) -> Result<Call, AskFault>
    requires { HasRows router.now }
    ensures { Gives result (call_of target.now method.now body) }
{
    match read_target(router, target.as_slice()) {
        Some(target) => call_on(alloc, target, method, body),
        None => Err(AskFault::Answered(Answer::NoRoute)),
    }
}

/// The call that a request makes, with who makes it, or what it is answered without the desk.
pub fn read_ask(
    alloc: Global,
    router: &Router<u8>,
    keys: &Keys,
    request: Request,
) -> Result<Ask, AskFault>
    requires { HasRows router.now }
    ensures { Gives result (ask_of keys.now request) }
{
    let Request {
        method,
        target,
        key,
        body,
        ..
    } = request;
    let call = read_call(alloc, router, &target, &method, body)?;
    let who = read_asker(keys, &key)?;
    Ok(Ask { who, call })
}
