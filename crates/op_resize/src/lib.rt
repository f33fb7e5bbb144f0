// A resize of a queue, a step at a time.
#![tactic(auto)]

ghost use Rattle.std.specs.Prelude.{◌≡◌};
ghost use Rattle.op_resize.specs.Resize.{copying as copyingOf, found_of, claimed as claimed_of, resizing, resize_of};

use cells::copy;
use index::Index;
use parts::out::{Claim, Claimed, Resized};
use parts::queue::Queue;
use parts::stage::ResizeStage;
use ring::{PlaceNumber, Ring, RingNumber};

// The next index is i: copy it, or swap where it is the back just loaded.
#[tactic(auto, unfolding(index::specs::Index::same_b))]
fn copying(b: Index, i: Index, ring: Ring) -> Resized
    ensures { result ≡ copyingOf b i ring }
{
    if i == b {
        return Resized::Stage(ResizeStage::Swap { ring });
    }
    Resized::Stage(ResizeStage::Copy { b, i, ring })
}

// What a claim finds, where this is the lowest-numbered free place, or the place count with none free; the last number is never given.
pub fn found(place: usize, places: usize, number: RingNumber) -> Claim
    ensures { result ≡ found_of place places number }
{
    if place < places && number.0 < u64::MAX {
        return Some(Claimed {
            number,
            place: PlaceNumber(place),
        });
    }
    None
}

fn claimed(capacity: usize, b: Index, q: Queue, claim: Claim) -> Resized
    ensures { result ≡ claimed_of capacity b q claim }
{
    match claim {
        None => Resized::NoRing,
        Some(Claimed { number, place }) => copying(
            b,
            q.front,
            Ring {
                number,
                place,
                capacity,
            },
        ),
    }
}

// A step of a resize of queue q.
pub fn resize_step(at: ResizeStage, q: Queue, claim: Claim, pool: &mut [u64]) -> Resized
    ensures { resizing result pool.new ≡ resize_of at q claim pool.old }
{
    match at {
        ResizeStage::LoadBack { capacity } => {
            let b = q.back;
            Resized::Stage(ResizeStage::LoadFront { capacity, b })
        }
        ResizeStage::LoadFront { capacity, b } => claimed(capacity, b, q, claim),
        ResizeStage::Copy { b, i, ring } => {
            copy(pool, q.ring, ring, i);
            copying(b, i.plus(1), ring)
        }
        ResizeStage::Swap { ring } => Resized::Done(Queue { ring, ..q }),
    }
}
