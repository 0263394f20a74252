ghost use Rattle.std.specs.Prelude.{◌≡◌, ◌≤◌, ◌<◌, ◌*◌, ◌++◌, IfOk, OnOk, string_bytes};
ghost use Rattle.vr_generator.specs.Generator.{next_state, drawn, call_line, call_drawn, state_after, call_lines, policy_text, script_text};

use std::alloc::{AllocError, Global};
use std::fmt::Write;
use vr_base::{Bytes, NoMemory};

/// How many calls there are for each one of the number that is made.
const CALLS: u32 = 100;

/// The policy.
const POLICY: &str = "\
    {\"identities\":[\
    {\"id\":0,\"file_rights\":[{\"file_name\":\"/d/0/\",\"rights\":\"rw\"},{\"file_name\":\"/out\",\"rights\":\"rw\"},\
    {\"file_name\":\"/p/\",\"rights\":\"rwx\"}]},\
    {\"id\":1,\"file_rights\":[{\"file_name\":\"/d/1/\",\"rights\":\"rw\"},{\"file_name\":\"/out\",\"rights\":\"rw\"},\
    {\"file_name\":\"/p/\",\"rights\":\"x\"}]},\
    {\"id\":2,\"file_rights\":[{\"file_name\":\"/d/2/\",\"rights\":\"rw\"},{\"file_name\":\"/out\",\"rights\":\"rw\"},\
    {\"file_name\":\"/p/\",\"rights\":\"x\"}]},\
    {\"id\":3,\"file_rights\":[{\"file_name\":\"/d/3/\",\"rights\":\"rw\"},{\"file_name\":\"/out\",\"rights\":\"rw\"},\
    {\"file_name\":\"/p/\",\"rights\":\"x\"}]}],\
    \"programs\":[{\"program_file_name\":\"/p/m2\",\"file_rights\":[]},\
    {\"program_file_name\":\"/p/m4\",\"file_rights\":[{\"file_name\":\"/out\",\"rights\":67108864}]}],\
    \"pipelines\":[{\"id\":0,\"pipeline\":\"/p/m2\"},\
    {\"id\":1,\"pipeline\":\"/p/m4 ; /p/m2\"}]}";

/// The lines that write the two programs.
const FIRST_LINES: &str = "\
    0 write /p/m2 hex 0061736d01000000\
    010c0260047f7f7f7f017f600000\
    02230116776173695f736e617073686f745f7072657669657731\
    0866645f77726974650000\
    030201010503010001\
    070a01065f737461727400010a0f010d00410141004101410810001a0b\
    0b14010041000b0e0c00000002000000000000006869\n\
    0 write /p/m4 hex 0061736d01000000\
    010f0360037f7f7f017f60017f00600000\
    024e0216776173695f736e617073686f745f7072657669657731\
    10706174685f756e6c696e6b5f66696c650000\
    16776173695f736e617073686f745f70726576696577310970726f635f657869740001\
    030201020503010001\
    070a01065f737461727400020a0e010c00410341004103100010010b\
    0b09010041000b036f7574\n";

/// What draws make a call of.
#[derive(Clone, Copy, Debug)]
struct Drawn {
    who: u64,
    act: u64,
    folder: u64,
    size: u64,
}

/// Makes the next draw, and gives a number below this one.
fn draw(state: &mut u64, below: u64) -> u64
    requires { 0 < below }
    ensures value { result ≡ drawn below state.new }
    ensures after { state.new ≡ next_state state.old }
{
    *state = state
        .wrapping_mul(6_364_136_223_846_793_005)
        .wrapping_add(1_442_695_040_888_963_407);
    (*state >> 33) % below
}

/// Draws the next call.
fn draw_call(state: &mut u64) -> Drawn
    ensures value { result ≡ call_drawn state.old }
    ensures after { state.new ≡ state_after state.old }
{
    let who = draw(state, 4);
    let act = draw(state, 5);
    let folder = draw(state, 4);
    let size = draw(state, 2000);
    Drawn {
        who,
        act,
        folder,
        size,
    }
}

/// Adds the line of a call.
fn write_call(text: &mut String, call: Drawn) -> Result<(), AllocError>
    ensures { OnOk result (string_bytes text.new ≡ string_bytes text.old ++ call_line call) }
{
    let Drawn {
        who,
        folder,
        size,
        ..
    } = call;
    match call.act {
        0 => writeln!(text, "{who} write /d/{folder}/f fill 61 {size}"),
        1 => writeln!(text, "{who} append /d/{folder}/f fill 62 {size}"),
        2 => writeln!(text, "{who} read /d/{folder}/f"),
        3 => writeln!(text, "{who} write /out fill 63 {size}"),
        _ => {
            let pipeline = size % 2;
            writeln!(text, "{who} run {pipeline}")
        }
    }
}

/// Adds the lines of so many calls, which are drawn from this state on.
fn write_calls(text: &mut String, mut state: u64, count: u32) -> Result<(), AllocError>
    ensures { OnOk result
        (string_bytes text.new ≡ string_bytes text.old ++ call_lines count state) }
{
    for _ in 0..count {
        let call = draw_call(&mut state);
        write_call(text, call)?;
    }
    Ok(())
}

/// The policy and the script that are replayed for a number: the same for each build of the program.
#[tactic(auto, unfolding(crate::specs::Generator::policy_text, crate::specs::Generator::script_text))]
pub fn generate(alloc: Global, n: u32) -> Result<(Bytes, Bytes), NoMemory>
    requires { n ≤ 1000 }
    ensures policy { IfOk result (λ made. made.0 ≡ policy_text) }
    ensures script { IfOk result (λ made. made.1 ≡ script_text n) }
{
    let policy = Bytes::from_slice(alloc, POLICY.as_bytes())?;
    let mut script = String::from_str(alloc, FIRST_LINES)?;
    write_calls(&mut script, u64::from(n), CALLS * n)?;
    Ok((policy, Bytes::of(script.into_bytes())))
}
