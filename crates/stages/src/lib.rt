// What a stage tells of its next step.
#![tactic(auto)]

ghost use Rattle.std.specs.Prelude.{◌≡◌};
ghost use Rattle.stages.specs.Stages.{touched_of, idle_b, resize_claims, claims_b};

use parts::stage::{ResizeStage, Stage};

// The queue that the step touches, for a thread whose own queue is this.
pub fn touched(stage: Stage, own: usize) -> usize
    ensures { result ≡ touched_of stage own }
{
    match stage {
        Stage::Steal(queue, _) | Stage::Length(queue, _) | Stage::BatchSource(queue, _) => queue,
        _ => own,
    }
}

pub fn is_idle(stage: Stage) -> bool
    ensures { result ≡ idle_b stage }
{
    matches!(stage, Stage::Idle)
}

fn resize_claims(at: ResizeStage) -> bool
    ensures { result ≡ resize_claims at }
{
    matches!(at, ResizeStage::LoadFront { .. })
}

// The step claims a ring.
pub fn claims(stage: Stage) -> bool
    ensures { result ≡ claims_b stage }
{
    stage.resize().is_some_and(resize_claims)
}
