// The cells of a ring in the lent pool; pool and ring come as two, since the pool is lent for one step. A ring occupies the first cells of its place, and is worked on as that stretch of the pool alone.
#![tactic(auto)]

ghost use Rattle.std.specs.Prelude.{◌≡◌, ◌<◌, ◌≤◌, length, get_or, set, IfSome};
ghost use Rattle.cells.specs.Cells.{stands_b, stretch_of, read_of, written_of, copied_of};

use index::Index;
use ring::Ring;
use std::ops::Range;

// The cells of a place: as many as the largest ring has.
pub const PLACE_CELLS: usize = Ring::LARGEST;

// The pool has the ring's place, and a ring may have its capacity. Of a sound machine's rings and its pool this is always so.
#[tactic(auto, unfolding(crate::specs::Cells::stands_b))]
fn stands(pool: &[u64], ring: Ring) -> bool
    ensures { result ≡ stands_b pool.now ring }
{
    if ring.place.0 < pool.len() / PLACE_CELLS {
        return Ring::allowed(ring.capacity);
    }
    false
}

fn get(stretch: &[u64], at: usize) -> u64
    requires { at < length stretch.now }
    ensures { result ≡ get_or stretch.now at 0 }
{
    stretch[at]
}

fn put(stretch: &mut [u64], at: usize, job: u64)
    requires { at < length stretch.old }
    ensures { stretch.new ≡ set stretch.old at job }
{
    stretch[at] = job;
}

// Where the ring's cells lie in the pool, if it has them.
#[tactic(auto, using(crate::proofs::StandLaws::standing))]
fn stretch(pool: &[u64], ring: Ring) -> Option<Range<usize>>
    ensures value { result ≡ stretch_of pool.now ring }
    ensures within { IfSome result (λ r. (r.start ≤ r.end) × (r.end ≤ length pool.now)) }
{
    if !stands(pool, ring) {
        return None;
    }
    let start = ring.place.0 * PLACE_CELLS;
    Some(start..start + ring.capacity)
}

// The job in the cell of index i.
#[tactic(auto, unfolding(crate::specs::Cells::read_of))]
pub fn read(pool: &[u64], ring: Ring, i: Index) -> u64
    ensures { result ≡ read_of pool.now ring i }
{
    let Some(cells) = stretch(pool, ring) else {
        return 0;
    };
    let at = i.cell(ring.capacity);
    get(&pool[cells.start..cells.end], at)
}

// A job is written to the cell of index i.
#[tactic(auto, unfolding(crate::specs::Cells::written_of))]
pub fn write(pool: &mut [u64], ring: Ring, i: Index, job: u64)
    ensures { pool.new ≡ written_of pool.old ring i job }
{
    if let Some(cells) = stretch(pool, ring) {
        put(&mut pool[cells], i.cell(ring.capacity), job);
    }
}

// The cell of index i is copied from one ring to another.
pub fn copy(pool: &mut [u64], from: Ring, to: Ring, i: Index)
    ensures { pool.new ≡ copied_of pool.old from to i }
{
    let job = read(pool, from, i);
    write(pool, to, i, job);
}
