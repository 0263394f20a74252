//! Straight runs: instructions that stay in their sequence, one after the other.

ghost use Rattle.std.specs.Prelude.{◌≡◌};
ghost use Rattle.vr_wasm_steps.specs.Runs.{NeverLost};
ghost use Rattle.vr_wasm_run.specs.Machines.{config, program_of};
ghost use Rattle.vr_wasm_run.specs.Stretches.{TellsStretch};

use crate::running::Running;
use crate::stretch::Stretch;
use vr_wasm_steps::Host;

impl<'m, H: Host> Running<'m, H> {
    /// Goes through the instructions that stay in their sequence, up to one that leaves it. What is
    /// left of the sequence is put back once, at the end. An instruction is carried out at this
    /// place alone: so the compiler makes it a part of the loop, and its result needs no place in
    /// memory.
    pub fn straight(&mut self, fuel: u64) -> Stretch
        requires live { NeverLost (program_of H.reply self.old) (config H.world self.old) }
        ensures tells { TellsStretch H.world H.reply self.old fuel result self.new }
        ensures others { self.new ≡ record self.old { state = self.new.state } }
    {
        let mut code = self.state.stacks.code();
        let mut left = fuel;
        while let [instr, rest @ ..] = code {
            // It promises that the operands and locals are not too many.
            let _ = self.state.stacks.code();
            let Some(outcome) = self.state.apply(instr) else {
                self.state.stacks.advance(code);
                return Stretch::Through(left);
            };
            match outcome {
                Ok(cost) => {
                    if cost > left {
                        return Stretch::Short;
                    }
                    left -= cost;
                    code = rest;
                }
                Err(trap) => {
                    if left == 0 {
                        return Stretch::Short;
                    }
                    return Stretch::Trapped {
                        kind: trap.kind,
                        left,
                    };
                }
            }
        }
        self.state.stacks.advance(code);
        Stretch::Through(left)
    }
}
