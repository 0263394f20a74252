//! The functions of WASI snapshot preview 1 by their names and types.

ghost use Rattle.std.specs.Option.{option_copied};
ghost use Rattle.std.specs.Prelude.{◌≡◌, ◌&&◌, ◌↔◌, IsTrue, find, position, slice_get, unwrap_or};
ghost use Rattle.vr_wasi_calls.specs.Functions.{finds, function_of, has_name, has_type, name_of, number_of, params_of, results_of};
ghost use Rattle.vr_wasm_steps.specs.Rows.{same_types};

use vr_wasm_ast::{FuncType, ValType};

/// The functions of WASI snapshot preview 1 that a program may import.
#[derive(Clone, Copy, Debug, PartialEq, Eq)]
pub enum Function {
    FdRead,
    FdWrite,
    FdSeek,
    FdTell,
    FdClose,
    FdFdstatGet,
    FdFilestatGet,
    FdFilestatSetSize,
    FdPrestatGet,
    FdPrestatDirName,
    PathOpen,
    PathFilestatGet,
    PathUnlinkFile,
    ArgsSizesGet,
    ArgsGet,
    EnvironSizesGet,
    EnvironGet,
    SchedYield,
    ClockTimeGet,
    RandomGet,
    ProcExit,
    /// Any other function of the module that answers an error number.
    Unsupported,
}

/// The functions in the order of their numbers.
const FUNCTIONS: [Function; 21] = [
    Function::FdRead,
    Function::FdWrite,
    Function::FdSeek,
    Function::FdTell,
    Function::FdClose,
    Function::FdFdstatGet,
    Function::FdFilestatGet,
    Function::FdFilestatSetSize,
    Function::FdPrestatGet,
    Function::FdPrestatDirName,
    Function::PathOpen,
    Function::PathFilestatGet,
    Function::PathUnlinkFile,
    Function::ArgsSizesGet,
    Function::ArgsGet,
    Function::EnvironSizesGet,
    Function::EnvironGet,
    Function::SchedYield,
    Function::ClockTimeGet,
    Function::RandomGet,
    Function::ProcExit,
];

/// The number of a function that is not supported.
const UNSUPPORTED: u32 = 21;

/// The name of the module that the functions are imported from.
const MODULE: &[u8] = b"wasi_snapshot_preview1";

impl Function {
    /// The name by which it is imported.
    pub fn name(self) -> &'static [u8]
        ensures { result.now ≡ name_of self }
    {
        match self {
            Function::FdRead => b"fd_read",
            Function::FdWrite => b"fd_write",
            Function::FdSeek => b"fd_seek",
            Function::FdTell => b"fd_tell",
            Function::FdClose => b"fd_close",
            Function::FdFdstatGet => b"fd_fdstat_get",
            Function::FdFilestatGet => b"fd_filestat_get",
            Function::FdFilestatSetSize => b"fd_filestat_set_size",
            Function::FdPrestatGet => b"fd_prestat_get",
            Function::FdPrestatDirName => b"fd_prestat_dir_name",
            Function::PathOpen => b"path_open",
            Function::PathFilestatGet => b"path_filestat_get",
            Function::PathUnlinkFile => b"path_unlink_file",
            Function::ArgsSizesGet => b"args_sizes_get",
            Function::ArgsGet => b"args_get",
            Function::EnvironSizesGet => b"environ_sizes_get",
            Function::EnvironGet => b"environ_get",
            Function::SchedYield => b"sched_yield",
            Function::ClockTimeGet => b"clock_time_get",
            Function::RandomGet => b"random_get",
            Function::ProcExit => b"proc_exit",
            Function::Unsupported => b"",
        }
    }

    /// The types of its parameters.
    pub fn params(self) -> &'static [ValType]
        ensures { result.now ≡ params_of self }
    {
        match self {
            Function::FdRead | Function::FdWrite => &[
                ValType::I32,
                ValType::I32,
                ValType::I32,
                ValType::I32,
            ],
            Function::FdSeek => &[ValType::I32, ValType::I64, ValType::I32, ValType::I32],
            Function::FdTell
            | Function::FdFdstatGet
            | Function::FdFilestatGet
            | Function::FdPrestatGet
            | Function::ArgsSizesGet
            | Function::ArgsGet
            | Function::EnvironSizesGet
            | Function::EnvironGet
            | Function::RandomGet => &[ValType::I32, ValType::I32],
            Function::FdClose | Function::ProcExit => &[ValType::I32],
            Function::FdFilestatSetSize => &[ValType::I32, ValType::I64],
            Function::FdPrestatDirName | Function::PathUnlinkFile => &[
                ValType::I32,
                ValType::I32,
                ValType::I32,
            ],
            Function::PathOpen => &[
                ValType::I32,
                ValType::I32,
                ValType::I32,
                ValType::I32,
                ValType::I32,
                ValType::I64,
                ValType::I64,
                ValType::I32,
                ValType::I32,
            ],
            Function::PathFilestatGet => &[
                ValType::I32,
                ValType::I32,
                ValType::I32,
                ValType::I32,
                ValType::I32,
            ],
            Function::SchedYield | Function::Unsupported => &[],
            Function::ClockTimeGet => &[ValType::I32, ValType::I64, ValType::I32],
        }
    }

    /// The types of its results.
    pub fn results(self) -> &'static [ValType]
        ensures { result.now ≡ results_of self }
    {
        match self {
            Function::ProcExit => &[],
            _ => &[ValType::I32],
        }
    }

    /// Whether it has this type.
    pub fn has_type(self, sort: &FuncType) -> bool
        ensures { result ≡ has_type sort.now self }
    {
        are_same(sort.params.as_slice(), self.params())
            && are_same(sort.results.as_slice(), self.results())
    }

    /// Whether it has this name.
    pub fn has_name(self, name: &[u8]) -> bool
        ensures { result ≡ has_name name.now self }
    {
        self.name() == name
    }
}

fn are_equal(types: &[ValType], others: &[ValType]) -> bool
    ensures { IsTrue result ↔ (types.now ≡ others.now) }
{
    types == others
}

/// Whether two lists of types are the same.
fn are_same(types: &[ValType], others: &[ValType]) -> bool
    ensures { result ≡ same_types types.now others.now }
{
    are_equal(types, others)
}

/// The first of functions that has this name.
fn named<'a>(functions: &'a [Function], name: &[u8]) -> Option<&'a Function>
    ensures { option_copied result ≡ find (has_name name.now) functions.now }
{
    functions.iter().find(|function| function.has_name(name))
}

/// The place of the first of functions that has this name and type.
fn place_in(functions: &[Function], name: &[u8], sort: &FuncType) -> Option<usize>
    ensures { result ≡
        position (λ f. has_name name.now f && has_type sort.now f) functions.now }
{
    functions.iter().position(|function| function.has_name(name) && function.has_type(sort))
}

/// The number of the function of this name and type.
fn number_of(name: &[u8], sort: &FuncType) -> Option<u32>
    ensures { result ≡ number_of name.now sort.now }
{
    if named(&FUNCTIONS, name).is_some() {
        return Some(place_in(&FUNCTIONS, name, sort)? as u32);
    }
    if are_same(sort.results.as_slice(), &[ValType::I32]) {
        Some(UNSUPPORTED)
    } else {
        None
    }
}

/// The function at a place, or what is not supported.
fn function_at(functions: &[Function], place: usize) -> Function
    ensures { result ≡ unwrap_or (slice_get functions.now place) Function.Unsupported }
{
    match functions.get(place) {
        Some(function) => *function,
        None => Function::Unsupported,
    }
}

/// The function of a number.
pub fn function_of(which: u32) -> Function
    ensures { result ≡ function_of which }
{
    function_at(&FUNCTIONS, which as usize)
}

/// The number of the function of these names and this type.
pub fn find_function(module: &[u8], name: &[u8], sort: &FuncType) -> Option<u32>
    ensures { result ≡ finds «module».now name.now sort.now }
{
    if module == MODULE {
        number_of(name, sort)
    } else {
        None
    }
}
