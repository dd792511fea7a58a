// The record of choices: for each module 0, or one more than the place of the version that is chosen, as the rules' selections have it; and the module to
// choose next.
ghost use Rattle.std.specs.Prelude.{◌≡◌, suc, ◌<◌, replicate, set};
ghost use Rattle.search.specs.Choosing.{choices};
ghost use Rattle.moves.specs.Wanted.{none_wanted, wanted_in};

use frames::access::put;
use frames::numbers::{ModuleNo, Place};
use moves::wanted;
use moves::wanted::Wanted;
use store::limits::MODULES;
use store::tables::Tables;

#[derive(Drop)]
pub struct Choices {
    pub chosen: [u16; MODULES as usize],
    pub next: Wanted,
}

impl Choices {
    // Nothing is chosen, and nothing is known of what is next.
    pub fn none() -> Choices
        ensures { result ≡ choices (replicate 32 0) none_wanted }
    {
        Choices {
            chosen: [0; MODULES as usize],
            next: Wanted::nothing(),
        }
    }

    // A module's version is chosen.
    pub fn choose(mut self, m: ModuleNo, p: Place) -> Choices
        requires { p.0 < 65535 }
        ensures { result ≡ choices (set self.chosen m.0 (suc p.0)) self.next }
    {
        put(&mut self.chosen, m.0 as usize, p.0 + 1);
        self
    }

    // The choice of a wanted module is taken back: it is next again.
    pub fn take_back(mut self, w: Wanted) -> Choices
        ensures { result ≡ choices (set self.chosen w.owner.0 0) w }
    {
        self.next = w;
        put(&mut self.chosen, w.owner.0 as usize, 0);
        self
    }

    // The module to choose next is found, with the need that asks for it and the range that is left to it; or that none is wanted.
    pub fn next_module(mut self, t: &Tables, modules: u16) -> Choices
        ensures { result ≡ choices self.chosen (wanted_in t.now self.chosen modules) }
    {
        self.next = wanted::next_of(t, &self.chosen, modules);
        self
    }
}
