// What soundness asks of what a thread remembers.
ghost use Rattle.std.specs.Prelude.{◌≡◌};
ghost use Rattle.sound.specs.Sound.{named_sound, resize_sound, wanted_sound, haul_sound, all_sound, one_sound, take_sound, put_sound, numbers_sound, stage_sound};

use crate::kept::kept_sound;
use keeps::ring_kept;
use parts::stage::{
    AllStage, Haul, OneStage, OwnStage, PutStage, ResizeStage, SourceStage, Stage, TakeStage,
    Wanted,
};
use ring::Ring;

// The source queue exists.
fn named_sound(queues: usize, stage: Stage) -> bool
    ensures { result ≡ named_sound queues stage }
{
    match stage {
        Stage::Steal(queue, _)
        | Stage::Length(queue, _)
        | Stage::BatchSource(queue, _)
        | Stage::BatchOwn(queue, _) => queue < queues,
        _ => true,
    }
}

fn resize_sound(at: ResizeStage) -> bool
    ensures { result ≡ resize_sound at }
{
    match at {
        ResizeStage::LoadBack { capacity } | ResizeStage::LoadFront { capacity, .. } => {
            Ring::allowed(capacity)
        }
        ResizeStage::Copy { .. } | ResizeStage::Swap { .. } => true,
    }
}

fn wanted_sound(wanted: Wanted) -> bool
    ensures { result ≡ wanted_sound wanted }
{
    wanted.n <= Ring::LARGEST as u64
}

fn haul_sound(haul: Haul, counter: u64) -> bool
    ensures { result ≡ haul_sound haul counter }
{
    (haul.n <= Ring::LARGEST as u64) & (counter <= haul.n)
}

fn all_sound(haul: Haul, at: AllStage) -> bool
    ensures { result ≡ all_sound haul at }
{
    match at {
        AllStage::Copy { i } => haul_sound(haul, i),
        AllStage::ReloadRing | AllStage::Exchange => haul_sound(haul, 0),
    }
}

fn one_sound(haul: Haul, at: OneStage) -> bool
    ensures { result ≡ one_sound haul at }
{
    match at {
        OneStage::ExchangeFirst { .. } => haul_sound(haul, 0),
        OneStage::ReloadBack { i }
        | OneStage::Read { i }
        | OneStage::ReloadRing { i, .. }
        | OneStage::Exchange { i, .. } => haul_sound(haul, i),
    }
}

fn take_sound(haul: Haul, at: TakeStage) -> bool
    ensures { result ≡ take_sound haul at }
{
    match at {
        TakeStage::ReadFirst => haul_sound(haul, 0),
        TakeStage::All(stage) => all_sound(haul, stage),
        TakeStage::One(stage) => one_sound(haul, stage),
    }
}

fn put_sound(haul: Haul, at: PutStage) -> bool
    ensures { result ≡ put_sound haul at }
{
    match at {
        PutStage::WriteCopy { i, .. } | PutStage::WriteOne { i, .. } => haul_sound(haul, i),
        PutStage::Swap { x, .. } => haul_sound(haul, x),
        PutStage::StoreBack => haul_sound(haul, 0),
    }
}

fn numbers_sound(stage: Stage) -> bool
    ensures { result ≡ numbers_sound stage }
{
    match stage {
        Stage::BatchSource(_, SourceStage::LoadRing { wanted, .. })
        | Stage::BatchOwn(_, OwnStage::LoadBack { wanted }) => wanted_sound(wanted),
        Stage::BatchSource(_, SourceStage::Take(haul, at)) => take_sound(haul, at),
        Stage::BatchOwn(_, OwnStage::Put(haul, at)) => put_sound(haul, at),
        _ => stage.resize().is_none_or(resize_sound),
    }
}

pub fn stage_sound(queues: usize, places: usize, stage: Stage) -> bool
    ensures { result ≡ stage_sound queues places stage }
{
    named_sound(queues, stage) & (kept_sound(places, ring_kept(stage)) & numbers_sound(stage))
}
