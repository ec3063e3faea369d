//! The counts of turns, expansions and their cells.
ghost use Rattle.std.specs.Prelude.{◌≡◌, ◌+◌, ◌<◌, ◌^◌, None, Some, if◌then◌else◌, OnOk, IfErr};
ghost use Rattle.rl_world.specs.Counts.{IsOpen, aside_of, begun, cells_bound_at, cells_stop, cells_taken, counts_at_opening, expansion_ended, rejoined, room_stop, roomed, set_aside, tick_stop, ticked};
ghost use Rattle.rl_world.specs.declared.stop.Stop.TheVariants as stop;

use crate::stop::Stop;
use rl_cells::Cells;
use rl_tags::Val;
use std::marker::Model;

/// Ticks of opening.
const OPENING_TICKS: u32 = 1_000_000;

/// Turns of an expansion.
const EXPANSION_TURNS: u32 = 100_000;

/// Cells of opening.
const OPENING_CELLS: u32 = 65_536;

/// Cells of an expansion.
const EXPANSION_CELLS: u64 = 1_000_000;

/// The outermost open expansion: the macro's name, and the turns and cells that it took.
#[derive(Clone, Copy)]
pub struct Expansion {
    pub name: Val,
    pub turns: u32,
    pub cells: u32,
}

/// The counts that are set aside while a compilation expands.
#[derive(Clone, Copy)]
pub struct Aside {
    pub turns: u64,
    pub outermost: Option<Expansion>,
    pub open_count: u32,
}

/// What a run counts but its levels. A contract sees the numbers.
#[derive(Drop)]
pub struct Counts {
    bound: u64,
    cells_bound: u32,
    opening: Option<u32>,
    turns: u64,
    outermost: Option<Expansion>,
    open_count: u32,
    aside: Option<Aside>,
}

impl Model for Counts {
    ghost use Rattle.rl_world.specs.Counts.{WorldCounts, IsAside, IsOpen};

    ghost Value = { WorldCounts };

    ghost view = { λ a. record { bound = a.bound; cells_bound = a.cells_bound; opening = a.opening; turns = a.turns; outermost = a.outermost; open_count = a.open_count; aside = a.aside } };

    ghost invariant = { λ a. IsOpen a.outermost a.open_count × IsAside a.aside };
}

impl Counts {
    pub(crate) fn new(bound: u64, cells_bound: u32) -> Counts
        ensures { result ≡ counts_at_opening bound cells_bound }
    {
        Counts {
            bound,
            cells_bound,
            opening: Some(0),
            turns: 0,
            outermost: None,
            open_count: 0,
            aside: None,
        }
    }

    /// Ends the opening.
    pub(crate) fn opened(&mut self)
        ensures { self.new ≡ record self.old { opening = None } }
    {
        self.opening = None;
    }

    /// Takes a turn. After a stop the counts are as before.
    pub(crate) fn tick(&mut self) -> Result<(), Stop>
        ensures ok { OnOk result (tick_stop self.old ≡ None) }
        ensures counted { OnOk result (self.new ≡ ticked self.old) }
        ensures stop { IfErr result (λ s. tick_stop self.old ≡ Some s) }
        ensures err { IfErr result (λ s. self.new ≡ self.old) }
    {
        match self.opening {
            Some(n) => self.tick_opening(n),
            None => match self.outermost {
                Some(e) => self.tick_expansion(e),
                None => self.tick_run(),
            },
        }
    }

    fn tick_opening(&mut self, n: u32) -> Result<(), Stop>
        requires { self.old.opening ≡ Some n }
        ensures ok { OnOk result (tick_stop self.old ≡ None) }
        ensures counted { OnOk result (self.new ≡ ticked self.old) }
        ensures stop { IfErr result (λ s. tick_stop self.old ≡ Some s) }
        ensures err { IfErr result (λ s. self.new ≡ self.old) }
    {
        if n >= OPENING_TICKS {
            return Err(Stop::Turns);
        }
        self.opening = Some(n + 1);
        Ok(())
    }

    fn tick_expansion(&mut self, e: Expansion) -> Result<(), Stop>
        requires opened { self.old.opening ≡ None }
        requires outermost { self.old.outermost ≡ Some e }
        ensures ok { OnOk result (tick_stop self.old ≡ None) }
        ensures counted { OnOk result (self.new ≡ ticked self.old) }
        ensures stop { IfErr result (λ s. tick_stop self.old ≡ Some s) }
        ensures err { IfErr result (λ s. self.new ≡ self.old) }
    {
        if e.turns >= EXPANSION_TURNS {
            return Err(Stop::Expansion(e.name));
        }
        self.outermost = Some(Expansion {
            turns: e.turns + 1,
            ..e
        });
        Ok(())
    }

    fn tick_run(&mut self) -> Result<(), Stop>
        requires opened { self.old.opening ≡ None }
        requires outermost { self.old.outermost ≡ None }
        ensures ok { OnOk result (tick_stop self.old ≡ None) }
        ensures counted { OnOk result (self.new ≡ ticked self.old) }
        ensures stop { IfErr result (λ s. tick_stop self.old ≡ Some s) }
        ensures err { IfErr result (λ s. self.new ≡ self.old) }
    {
        if self.turns >= self.bound {
            return Err(Stop::Turns);
        }
        self.turns += 1;
        Ok(())
    }

    /// Counts the cells of an object before it is made. After a stop the counts are as before.
    pub(crate) fn room(&mut self, cells: &Cells, cost: u32) -> Result<(), Stop>
        ensures ok { OnOk result (room_stop self.old cells.now cost ≡ None) }
        ensures counted { OnOk result (self.new ≡ roomed self.old cost) }
        ensures stop { IfErr result (λ s. room_stop self.old cells.now cost ≡ Some s) }
        ensures err { IfErr result (λ s. self.new ≡ self.old) }
    {
        let fits = self.fits(cells, cost);
        let Some(e) = self.outermost else {
            return if fits { Ok(()) } else { Err(Stop::Cells) };
        };
        if u64::from(e.cells) + u64::from(cost) > EXPANSION_CELLS {
            return Err(Stop::Expansion(e.name));
        }
        if !fits {
            return Err(Stop::Cells);
        }
        self.outermost = Some(Expansion {
            cells: e.cells + cost,
            ..e
        });
        Ok(())
    }

    /// Whether the cells of opening, or those of the run, have room; while a compilation expands they are not asked.
    fn fits(&self, cells: &Cells, cost: u32) -> bool
        ensures { cells_stop self.now.aside (cells_taken self.now.opening cells.now) cost (cells_bound_at self.now.opening self.now.cells_bound) ≡ (if result then None else Some stop.Cells) }
    {
        let (taken, bound) = match self.opening {
            Some(_) => (cells.places(), OPENING_CELLS),
            None => (cells.used(), self.cells_bound),
        };
        self.aside.is_some() || u64::from(taken) + u64::from(cost) <= u64::from(bound)
    }

    /// Opens an expansion of this macro.
    pub(crate) fn begin(&mut self, name: Val)
        requires { self.old.open_count + 1 < 2 ^ 32 }
        ensures begun { self.new ≡ begun self.old name }
        ensures open { IsOpen self.old.outermost self.old.open_count }
    {
        if self.outermost.is_none() {
            self.outermost = Some(Expansion {
                name,
                turns: 0,
                cells: 0,
            });
        }
        self.open_count += 1;
    }

    /// Ends the newest open expansion.
    pub(crate) fn end(&mut self)
        requires { 0 < self.old.open_count }
        ensures ended { self.new ≡ expansion_ended self.old }
        ensures open { IsOpen self.old.outermost self.old.open_count }
    {
        self.open_count -= 1;
        if self.open_count == 0 {
            self.outermost = None;
        }
    }

    /// How many expansions are open.
    pub(crate) fn open_count(&self) -> u32
        ensures count { result ≡ self.now.open_count }
        ensures open { IsOpen self.now.outermost self.now.open_count }
    {
        self.open_count
    }

    /// The turns that the run took.
    pub(crate) fn turns(&self) -> u64
        ensures { result ≡ self.now.turns }
    {
        self.turns
    }

    /// Sets the counts aside.
    pub(crate) fn set_aside(&mut self) -> Aside
        ensures counts { self.new ≡ set_aside self.old }
        ensures kept { result ≡ aside_of self.old }
    {
        let aside = self.to_set_aside();
        self.aside = Some(self.to_set_aside());
        self.outermost = None;
        self.open_count = 0;
        aside
    }

    fn to_set_aside(&self) -> Aside
        ensures { result ≡ aside_of self.now }
    {
        Aside {
            turns: self.turns,
            outermost: self.outermost,
            open_count: self.open_count,
        }
    }

    /// Brings back the counts that were set aside.
    pub(crate) fn rejoin(&mut self, aside: Aside)
        requires { self.old.aside ≡ Some aside }
        ensures { self.new ≡ rejoined self.old aside }
    {
        self.turns = aside.turns;
        self.outermost = aside.outermost;
        self.open_count = aside.open_count;
        self.aside = None;
    }
}
