//! What services are taken from that are written into a packet where it lies: no list of them is made before.
ghost use Rattle.std.specs.Prelude.{◌≡◌, ◌<◌, ◌≤◌, [], length};
ghost use Rattle.ipx_router.specs.Numbers.{services_a_page};
ghost use Rattle.ipx_router.specs.inside.Putting.{PutsServices};

/// Services, from the first on.
pub(crate) trait ServiceSource {
    ghost use Rattle.std.specs.Prelude.{ℕ, List};
    ghost use Rattle.ipx_wire.specs.declared.service.Service.{Service};

    /// Those that are left.
    ghost left: { Self → List Service };

    /// The room that is enough for a packet of the next ones.
    ghost needs: { Self → ℕ };

    /// Writes the next ones, as many as a packet has at most, behind the place for its front, and returns how many they are.
    fn put(&mut self, out: &mut [u8]) -> usize
        requires room { needs self.old ≤ length out.old }
        ensures puts { PutsServices (left self.old) (left self.new) result out.old out.new }
        ensures few { result ≤ services_a_page }
        ensures last { result < services_a_page → left self.new ≡ [] };
}
