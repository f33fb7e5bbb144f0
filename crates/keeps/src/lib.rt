// The ring that a stage keeps alive beside the queues' current ones; there is never more than one.
#![tactic(auto)]

ghost use Rattle.std.specs.Prelude.{◌≡◌};
ghost use Rattle.keeps.specs.Kept.{resize_keeps, steal_keeps, kept_of};

use parts::stage::{OwnStage, ResizeStage, SourceStage, Stage, StealStage};
use ring::Ring;

// A ring that is being built, from the claim to the swap, or one that is held, from its load until the answer. Soundness asks the same of both, places do
// not, so nothing, built and held stand side by side.
#[derive(Clone, Copy)]
pub enum Kept {
    Nothing,
    Built(Ring),
    Held(Ring),
}

fn resize_keeps(at: ResizeStage) -> Kept
    ensures { result ≡ resize_keeps at }
{
    match at {
        ResizeStage::LoadBack { .. } | ResizeStage::LoadFront { .. } => Kept::Nothing,
        ResizeStage::Copy { ring, .. } | ResizeStage::Swap { ring } => Kept::Built(ring),
    }
}

fn steal_keeps(at: StealStage) -> Kept
    ensures { result ≡ steal_keeps at }
{
    match at {
        StealStage::Read { ring, .. }
        | StealStage::ReloadRing { ring, .. }
        | StealStage::Exchange { ring, .. } => Kept::Held(ring),
        _ => Kept::Nothing,
    }
}

pub fn ring_kept(stage: Stage) -> Kept
    ensures { result ≡ kept_of stage }
{
    match stage {
        Stage::Steal(_, at) => steal_keeps(at),
        Stage::BatchSource(_, SourceStage::Take(haul, _))
        | Stage::BatchOwn(_, OwnStage::Put(haul, _)) => Kept::Held(haul.ring),
        _ => stage.resize().map_or(Kept::Nothing, resize_keeps),
    }
}
