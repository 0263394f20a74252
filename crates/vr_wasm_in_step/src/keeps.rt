//! What each reply of a host keeps true holds all along a run.

ghost use Rattle.vr_wasm_in_step.specs.InStep.{Replies};
ghost use Rattle.vr_wasm_in_step.specs.Kept.{RepliesKeep, StayKept};

/// What each reply of a host keeps true of its world beside another world, as the one before the
/// run. It is for proofs, over the worlds and the replies of a `Host`.
pub trait Keeps {
    ghost World: { Type 0 };

    ghost kept: { World → World → Type 0 };

    ghost reply: { Replies World };

    ghost replies_keep: { (other : World) → RepliesKeep (kept other) reply };
}

/// Where it holds of the world before a run, it holds of the world of each configuration that the
/// run reaches, and of the world at its end. A call does nothing: it is made for what it ensures.
pub fn stay_kept<K: Keeps>()
    ensures { (other : K.World) → StayKept (K.kept other) K.reply }
{}
