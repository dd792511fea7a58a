// Module numbers, places and versions: numbers of different kinds, which can't be swapped by accident.
ghost use Rattle.std.specs.Prelude.{◌≡◌};
ghost use Rattle.rules.specs.Catalogue.{is_within};
ghost use Rattle.frames.specs.Numbers.{order_of};

use std::cmp::Ordering;

// A module's number, from 0, the root.
#[derive(Clone, Copy, PartialEq, Eq, PartialOrd, Ord)]
pub struct ModuleNo(pub u16);

// A version's place: its number among all versions of a catalogue, in which a module's versions stand side by side, oldest first.
#[derive(Clone, Copy, PartialEq, Eq, PartialOrd, Ord)]
pub struct Place(pub u16);

// A version: major, minor and patch as the three bytes of one number.
#[derive(Clone, Copy, PartialEq, Eq, PartialOrd, Ord)]
pub struct Version(pub u32);

impl Version {
    // The lowest version.
    pub const LOWEST: Version = Version(0);
    // As an upper end it leaves out nothing.
    pub const NO_END: Version = Version(0xFFFFFF);

    // How a version stands to another: major, minor and patch, compared in that order.
    pub fn compare(self, other: Version) -> Ordering
        ensures { result ≡ order_of self.0 other.0 }
    {
        self.cmp(&other)
    }

    // In the range from low up to, not including, high.
    pub fn is_within(self, low: Version, high: Version) -> bool
        ensures { result ≡ is_within low.0 high.0 self.0 }
    {
        (low <= self) & (self < high)
    }
}
