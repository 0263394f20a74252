//! What a program can't see of a host changes no run.

ghost use Rattle.vr_wasm_in_step.specs.InStep.{Replies, RepliesAgree, StayInStep};

/// Which worlds of a host a program can't tell apart: in two of them each call gets the same reply,
/// and leaves two of them. It is for proofs, over the worlds and the replies of a `Host`.
pub trait Alike {
    ghost World: { Type 0 };

    ghost alike: { World → World → Type 0 };

    ghost reply: { Replies World };

    ghost replies_agree: { RepliesAgree alike reply reply };
}

/// Two runs of the same functions that begin in such worlds, and else alike, keep in step: rows of
/// the same cost, the same end or trap, and such worlds again. A call does nothing: it is made for
/// what it ensures.
pub fn stay_in_step<A: Alike>()
    ensures { StayInStep A.alike A.reply A.reply }
{}
