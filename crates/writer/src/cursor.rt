// A place in octets that are lent, where one run after the other is written. Its room is shown, so that no write tests a bound.
ghost use Rattle.std.specs.Prelude.{◌++◌};
ghost use Rattle.octets.specs.Octets.{big_endian};
ghost use Rattle.writer.specs.Cursor.{HasRoom, Writes};

#[derive(Drop)]
pub struct Cursor<'a> {
    pub octets: &'a mut [u8],
    pub at: usize,
}

impl Cursor<'_> {
    #[tactic(auto, using(crate::proofs::Runs::run_stored))]
    pub fn put(&mut self, run: &[u8])
        requires { HasRoom self.old run.now }
        ensures { Writes self.old self.new run.now }
    {
        let end = self.at + run.len();
        self.octets[self.at..end].copy_from_slice(run);
        self.at = end;
    }

    // Two numbers, each with its highest octet first.
    #[tactic(auto, using(crate::proofs::Runs::room_first, crate::proofs::Runs::room_then))]
    pub fn put_pair(&mut self, first: u32, second: u32)
        requires { HasRoom self.old (big_endian 4 first ++ big_endian 4 second) }
        ensures { Writes self.old self.new (big_endian 4 first ++ big_endian 4 second) }
    {
        self.put_u32(first);
        self.put_u32(second);
    }

    #[tactic(auto, using(crate::proofs::Runs::octets_of_u32), unfolding(octets::specs::Octets::big_endian))]
    fn put_u32(&mut self, n: u32)
        requires { HasRoom self.old (big_endian 4 n) }
        ensures { Writes self.old self.new (big_endian 4 n) }
    {
        self.put(&n.to_be_bytes());
    }
}
