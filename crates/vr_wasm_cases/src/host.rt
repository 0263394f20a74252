//! What the programs of the cases may import.

ghost use Rattle.std.specs.Prelude.{◌≡◌, ◌≤◌, ◌<◌};

use vr_wasm_ast::{FuncType, ValType};
use vr_wasm_num::Memory;
use vr_wasm_steps::{Host, HostAnswer};

/// A host with `next` of type () -> i32, which gives 7; with `exit` and `note` of type (i32) -> (); and with `rest`
/// and `lack` of type () -> (), of which one does nothing, and the other one runs out of memory.
#[derive(Drop)]
pub struct Notes {
    /// What `note` was called with last.
    pub noted: u64,
    /// How often memory ran out.
    pub stops: u64,
}

impl Host for Notes {
    ghost use Rattle.std.specs.Prelude.{ℕ};
    ghost use Rattle.vr_wasm_cases.specs.Calls.{fit, found, replied};

    ghost World = { ℕ };

    ghost world = { λ h. h.noted };

    ghost stops = { λ h. h.stops };

    ghost finds = { found };

    ghost reply = { replied };

    fn find(&self, _module: &[u8], name: &[u8], sort: &FuncType) -> Option<u32> {
        match (sort.params.as_slice(), sort.results.as_slice()) {
            ([], [ValType::I32]) if name == b"next".as_slice() => Some(0),
            ([ValType::I32], []) if name == b"exit".as_slice() => Some(1),
            ([ValType::I32], []) if name == b"note".as_slice() => Some(2),
            ([], []) if name == b"rest".as_slice() => Some(3),
            ([], []) if name == b"lack".as_slice() => Some(4),
            _ => None,
        }
    }

    fn call(&mut self, which: u32, args: &[u64], _memory: &mut Memory) -> HostAnswer {
        match (which, args) {
            (0, _) => HostAnswer::Value(7),
            (1, [code, ..]) => HostAnswer::Exit((*code % 0x1_0000_0000) as u32),
            (2, [value, ..]) => {
                self.noted = *value;
                HostAnswer::Nothing
            }
            (3, _) => HostAnswer::Nothing,
            (4, _) => {
                self.stops = self.stops.saturating_add(1);
                HostAnswer::NoMemory
            }
            _ => HostAnswer::Exit(0),
        }
    }

    ghost replies_fit = { fit };
}
