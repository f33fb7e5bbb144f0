// What was taken into a FIFO queue one by one is reversed, by swaps from the outside in.
ghost use Rattle.std.specs.Prelude.{◌≡◌};
ghost use Rattle.op_batch_put.specs.Swap.{near_of, swap_of};

use cells::{read, write};
use index::Index;
use op_batch::{mirror, swapping, turn_after};
use parts::queue::Queue;
use parts::stage::{Haul, PutStage, SwapStage};

// The cell of a swap that is nearer the front; the other is its mirror image.
fn near_cell(haul: Haul, x: u64) -> Index
    ensures { result ≡ near_of haul x }
{
    haul.b.plus(x)
}

// The queue stays as it is.
pub fn swap_step(haul: Haul, x: u64, at: SwapStage, q: Queue, pool: &mut [u64]) -> PutStage
    ensures { (result, pool.new) ≡ swap_of haul x at q pool.old }
{
    match at {
        SwapStage::ReadNear => {
            let near = read(pool, q.ring, near_cell(haul, x));
            PutStage::Swap {
                x,
                at: SwapStage::ReadFar { near },
            }
        }
        SwapStage::ReadFar { near } => {
            let far = read(pool, q.ring, mirror(haul, x));
            PutStage::Swap {
                x,
                at: SwapStage::WriteNear { near, far },
            }
        }
        SwapStage::WriteNear { near, far } => {
            write(pool, q.ring, near_cell(haul, x), far);
            PutStage::Swap {
                x,
                at: SwapStage::WriteFar { near },
            }
        }
        SwapStage::WriteFar { near } => {
            write(pool, q.ring, mirror(haul, x), near);
            swapping(turn_after(haul.n / 2, x))
        }
    }
}
