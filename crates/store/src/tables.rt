// The tables that a catalogue is read into: what they hold at the start, what a frame adds, and what they tell of the version last read.
ghost use Rattle.std.specs.Prelude.{◌≡◌, ◌-◌, ◌<◌, true};
ghost use Rattle.store.specs.Frame.{state_told, fields_told};
ghost use Rattle.store.specs.Tables.{no_tables, is_version, is_need, kept, version_kept, need_kept, last_in};

use crate::frame::{Fields, Last, State};
use crate::limits::{MODULES, NEEDS, VERSIONS};
use frames::access::{at, put};
use frames::kinds::Kind;
use frames::numbers::{ModuleNo, Place, Version};

// The mark of a version that is not there.
pub const UNUSED: u16 = 0;

// Arrays side by side, as the checker is lent lists of any lengths. Versions by place: number, owner, first need, and a mark: unused, or one more than its needs. Modules: the place of the first version, and how many.
// Needs by number: the version's place, the target, and the range.
#[derive(Drop)]
pub struct Tables {
    pub values: [u32; VERSIONS as usize],
    pub owners: [u16; VERSIONS as usize],
    pub starts: [u16; VERSIONS as usize],
    pub marks: [u16; VERSIONS as usize],
    pub firsts: [u16; MODULES as usize],
    pub counts: [u16; MODULES as usize],
    pub needies: [u16; NEEDS as usize],
    pub targets: [u16; NEEDS as usize],
    pub lows: [u32; NEEDS as usize],
    pub highs: [u32; NEEDS as usize],
}

// One less, or 0.
pub fn one_less(x: u16) -> u16
    ensures { result ≡ x - 1 }
{
    x.saturating_sub(1)
}

impl Tables {
    // Tables that hold nothing.
    pub fn none() -> Tables
        ensures { result ≡ no_tables }
    {
        Tables {
            values: [0; VERSIONS as usize],
            owners: [0; VERSIONS as usize],
            starts: [0; VERSIONS as usize],
            marks: [UNUSED; VERSIONS as usize],
            firsts: [0; MODULES as usize],
            counts: [0; MODULES as usize],
            needies: [0; NEEDS as usize],
            targets: [0; NEEDS as usize],
            lows: [0; NEEDS as usize],
            highs: [0; NEEDS as usize],
        }
    }

    // The version last read, of so many.
    pub fn last(&self, versions: u16) -> Last
        ensures { result ≡ last_in self.now.values self.now.owners self.now.marks versions }
    {
        let place = one_less(versions);
        let i = place as usize;
        let owner = at(&self.owners, i, 0);
        let value = at(&self.values, i, 0);
        let mark = at(&self.marks, i, UNUSED);
        Last {
            place: Place(place),
            owner: ModuleNo(owner),
            value: Version(value),
            needs: one_less(mark),
        }
    }

    // A version frame's entries, for the version and for its module, of which `count` versions stand before it.
    fn keep_version(&mut self, s: State, count: u16, f: Fields)
        requires { count < 65535 }
        ensures { self.new ≡ version_kept self.old (state_told s) count (fields_told f) }
    {
        let i = s.versions as usize;
        let m = f.owner.0 as usize;
        put(&mut self.values, i, f.low.0);
        put(&mut self.owners, i, f.owner.0);
        put(&mut self.starts, i, s.needs);
        put(&mut self.marks, i, UNUSED + 1);
        if count == 0 {
            put(&mut self.firsts, m, s.versions);
        }
        put(&mut self.counts, m, count + 1);
    }

    // A need frame's entries, and the mark of the version that has it.
    fn keep_need(&mut self, s: State, last: Last, f: Fields)
        requires { last.needs < 65534 }
        ensures { self.new ≡ need_kept self.old (state_told s) last (fields_told f) }
    {
        let k = s.needs as usize;
        let p = last.place.0;
        put(&mut self.marks, p as usize, last.needs + 2);
        put(&mut self.needies, k, p);
        put(&mut self.targets, k, f.owner.0);
        put(&mut self.lows, k, f.low.0);
        put(&mut self.highs, k, f.high.0);
    }

    // What a frame adds: `s` is the state before it, `count` how many versions its module has before it.
    pub fn keep(&mut self, s: State, last: Last, count: u16, f: Fields)
        requires versions { is_version (fields_told f) ≡ true → count < 65535 }
        requires needs { is_need (fields_told f) ≡ true → last.needs < 65534 }
        ensures { self.new ≡ kept self.old (state_told s) last count (fields_told f) }
    {
        match f.kind {
            Kind::Version => self.keep_version(s, count, f),
            Kind::Need | Kind::Caret => self.keep_need(s, last, f),
            _ => {}
        }
    }
}
