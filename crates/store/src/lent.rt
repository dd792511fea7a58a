// What a checker of sheets is lent of a catalogue: eight of the tables, and how many modules and needs it has.
ghost use Rattle.std.specs.Prelude.{◌≡◌};
ghost use Rattle.store.specs.Lent.{lent_of, lent_by};

use crate::tables::Tables;

// Lists of any lengths: past the end of one stands 0.
#[derive(Clone, Copy)]
pub struct Lent<'a> {
    pub values: &'a [u32],
    pub owners: &'a [u16],
    pub firsts: &'a [u16],
    pub counts: &'a [u16],
    pub needies: &'a [u16],
    pub targets: &'a [u16],
    pub lows: &'a [u32],
    pub highs: &'a [u32],
    pub modules: u16,
    pub needs: u16,
}

impl Tables {
    // Lends the tables of a catalogue of so many modules and needs.
    #[inline]
    pub fn lend(&self, modules: u16, needs: u16) -> Lent<'_>
        ensures lists { lent_of result ≡ lent_by self.now modules }
        ensures needs { result.needs ≡ needs }
    {
        Lent {
            values: &self.values,
            owners: &self.owners,
            firsts: &self.firsts,
            counts: &self.counts,
            needies: &self.needies,
            targets: &self.targets,
            lows: &self.lows,
            highs: &self.highs,
            modules,
            needs,
        }
    }
}
