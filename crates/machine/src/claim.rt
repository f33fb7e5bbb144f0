// What a claim finds.
ghost use Rattle.std.specs.Prelude.{◌≡◌};
ghost use Rattle.machine.specs.Claim.{free_ring, claim_of};

use crate::state::Machine;
use op_resize::found;
use parts::out::Claim;
use parts::stage::Stage;
use stages::claims;

impl Machine {
    #[tactic(auto, unfolding(crate::specs::Claim::free_ring))]
    fn free_ring(&self) -> Claim
        ensures { result ≡ free_ring self.now }
    {
        let place = self.rings().free_place(self.place_count);
        found(place, self.place_count, self.next_ring)
    }

    // What the step at a stage claims.
    pub(crate) fn claim(&self, stage: Stage) -> Claim
        ensures { result ≡ claim_of self.now stage }
    {
        if claims(stage) {
            return self.free_ring();
        }
        None
    }
}
