// A call of either kind. A request is data: callers in C send it as numbers. Here, and where a call is set up, begun and stepped, each arm returns: a `match` that is
// itself the result has one more local, as large as a machine.
ghost use Rattle.std.specs.Prelude.{◌≡◌};
ghost use Rattle.machine.specs.State.{leaves};
ghost use Rattle.machine.specs.Call.{call_of};

use crate::state::{Called, Machine};
use gate::Request;

impl Machine {
    pub fn call(self, pool: &mut [u64], thread: usize, request: Request) -> Called
        ensures { leaves result pool.new ≡ call_of self pool.old thread request }
    {
        match request {
            Request::Step => return self.step(pool, thread),
            Request::Begin(operation) => return self.begin(pool, thread, operation),
        }
    }
}
