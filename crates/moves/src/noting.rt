// The lines of a sheet, noted in the work area while it isn't known yet whether there is a selection.
ghost use Rattle.std.specs.Prelude.{◌≡◌, ◌-◌, ◌≤◌, length};
ghost use Rattle.rules.specs.Sheet.{cites, resolves};
ghost use Rattle.moves.specs.Noting.{sheet_of, fresh, Leaves, note_in, entry_bytes};

use frames::kinds::Kind;
use frames::numbers::ModuleNo;
use frames::written;

// How many lines stand in the work area, where they end, and whether one had no room: then the two numbers stay what they were, and are still told.
#[derive(Clone, Copy)]
pub struct Noted {
    pub end: usize,
    pub lines: u16,
    pub over: bool,
}

// The lines of a sheet in the work area, and how many it may have.
#[derive(Drop)]
pub struct Sheet<'a> {
    pub area: &'a mut [u8],
    pub noted: Noted,
    pub allowance: u16,
}

// Bytes of the longest line.
const LINE: usize = 15;

impl<'a> Sheet<'a> {
    // A sheet with no line yet.
    pub fn new(area: &'a mut [u8], allowance: u16) -> Sheet<'a>
        ensures same { result.area.ghost_name ≡ area.entry.ghost_name }
        ensures allowance { result.allowance ≡ allowance }
        ensures sheet { sheet_of result ≡ fresh area.old }
    {
        Sheet {
            area,
            noted: Noted {
                lines: 0,
                end: 0,
                over: false,
            },
            allowance,
        }
    }

    // A frame's line is noted, or it is told that it has no room.
    fn note(&mut self, bytes: &[u8])
        requires { length bytes.now ≤ 6 }
        ensures { Leaves self.old self.new (note_in self.old.allowance bytes.now (sheet_of self.old)) }
    {
        let n = self.noted;
        let room = self.area.len().saturating_sub(n.end);
        let allowance = self.allowance;
        if n.over | (allowance <= n.lines) | (room < LINE) {
            self.noted.over = true;
            return;
        }
        let end = written::write_frame(self.area, n.end, bytes);
        self.noted = Noted {
            lines: n.lines + 1,
            end,
            over: false,
        };
    }

    // A need line.
    pub fn cite(&mut self, k: u32)
        ensures { Leaves self.old self.new (note_in self.old.allowance (entry_bytes (cites k)) (sheet_of self.old)) }
    {
        let [_, _, high, low] = k.to_be_bytes();
        self.note(&[Kind::NeedLine as u8, high, low]);
    }

    // A resolved line, from two lines at a module.
    pub fn resolve(&mut self, a: u16, b: u16, m: ModuleNo)
        ensures { Leaves self.old self.new (note_in self.old.allowance (entry_bytes (resolves a b m.0)) (sheet_of self.old)) }
    {
        let [a_high, a_low] = a.to_be_bytes();
        let [b_high, b_low] = b.to_be_bytes();
        let [_, owner] = m.0.to_be_bytes();
        self.note(&[Kind::Resolved as u8, a_high, a_low, b_high, b_low, owner]);
    }
}
