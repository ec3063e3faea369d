//! The world of a run.
ghost use Rattle.std.specs.Prelude.{◌≡◌, ◌↔◌, ◌+◌, ◌-◌, ◌^◌, ◌<◌, ◌≤◌, ◌∷◌, ℕ, None, Some, false, [], length, min, IsTrue, IfOk, IfErr, OnOk};
ghost use Rattle.rl_tags.specs.Tagged.{Tagged, IdAt};
ghost use Rattle.rl_tags.specs.Opening.{name_at, place_of};
ghost use Rattle.rl_tags.specs.declared.names.TheConstants.{OPENING_NAMES};
ghost use Rattle.rl_cells.specs.Cell.{bytes_of, is_str};
ghost use Rattle.rl_syms.specs.Table.{IsTable, IsNamed};
ghost use Rattle.rl_syms.specs.Made.{IsOpening};
ghost use Rattle.rl_syms.specs.Opened.{IsOpened};
ghost use Rattle.rl_world.specs.Counts.{IsOpen, aside_of, begun, counts_at_opening, expansion_ended, rejoined, room_stop, roomed, set_aside, tick_stop, ticked};
ghost use Rattle.rl_tree.specs.ErrorTexts.{error_text};
ghost use Rattle.rl_world.specs.Errors.{AreTexts};
ghost use Rattle.rl_world.specs.OpeningCells.{AreOpeningCells};
ghost use Rattle.rl_world.specs.Levels.{AreLevels, enter_stop, levels_below};
ghost use Rattle.rl_world.specs.Walks.{IsSteady, kept_above};

use crate::buffer::Buffer;
use crate::counts::{Aside, Counts};
use crate::errors::make_texts;
use crate::input::Input;
use crate::levels::Levels;
use crate::output::Output;
use crate::stop::{Limits, Stop};
use rl_cells::Cells;
use rl_io::OutOfMemory;
use rl_syms::Syms;
use rl_syms::laws::table_is_kept;
use rl_tags::Val;
use std::alloc::Global;

/// All that a run has but its stacks: the store of objects, the table of names, the counts, and what waits between it and the
/// outside.
#[derive(Drop)]
pub struct World {
    pub cells: Cells,
    pub syms: Syms,
    pub counts: Counts,
    pub levels: Levels,
    pub output: Output,
    pub notes: Buffer,
    pub input: Input,
    pub texts: [Val; 14],
}

/// The counts that are set aside while a compilation expands.
#[derive(Clone, Copy)]
pub struct Apart {
    pub counts: Aside,
    pub level: u32,
}

impl World {
    /// A world in opening, with these bounds: the identifiers that opening makes, then the texts of errors as strings, which
    /// take 35 cells, and nothing else.
    /// `OutOfMemory` if there is no memory for it.
    pub fn open(alloc: Global, limits: Limits) -> Result<World, OutOfMemory>
        requires cells { limits.cells ≤ 64000000 }
        requires nest { limits.nest ≤ 500000 }
        ensures table { IfOk result (λ w. IsTable w.cells.cells w.syms.head) }
        ensures names { IfOk result (λ w. (i : ℕ) → i < OPENING_NAMES → IsNamed w.cells.cells w.syms.head (name_at i) (IdAt (place_of i))) }
        ensures bytes { IfOk result (λ w. (b : ℕ) → b < 256 → (id : Tagged) × IsNamed w.cells.cells w.syms.head (b ∷ []) id) }
        ensures opened { IfOk result (λ w. IsOpened w.cells.cells w.syms.head) }
        ensures made { IfOk result (λ w. w.syms.made ≡ 0) }
        ensures opening { IfOk result (λ w. IsOpening w.cells limits.cells) }
        ensures texts { IfOk result (λ w. AreTexts w.cells.cells w.texts 14) }
        ensures exact { IfOk result (λ w. AreOpeningCells w.cells.cells w.texts w.syms.head) }
        ensures counts { IfOk result (λ w. w.counts ≡ counts_at_opening limits.turns limits.cells) }
        ensures levels { IfOk result (λ w. w.levels ≡ record { bound = limits.nest; level = 0; walk = []; aside = None }) }
        ensures output { IfOk result (λ w. w.output ≡ record { waiting = []; column = 0; line_length = 80 }) }
        ensures notes { IfOk result (λ w. w.notes ≡ []) }
        ensures input { IfOk result (λ w. w.input ≡ record { back = None; given = 0; ended = false }) }
    {
        table_is_kept();
        let mut cells = Cells::new(alloc, limits.cells)?;
        let syms = Syms::open(alloc, &mut cells)?;
        let texts = make_texts(&mut cells);
        Ok(World {
            cells,
            syms,
            counts: Counts::new(limits.turns, limits.cells),
            levels: Levels::new(alloc, limits.nest)?,
            output: Output::new(),
            notes: Buffer::new(),
            input: Input::new(),
            texts,
        })
    }

    /// The string of the text of a system error, from 10 to 23, in a world that has the texts.
    pub fn error_text(&self, n: u8) -> Val
        requires some { 10 ≤ n }
        requires few { n ≤ 23 }
        requires texts { AreTexts self.now.cells.cells self.now.texts 14 }
        ensures string { IsTrue (is_str self.now.cells.cells result) }
        ensures text { bytes_of self.now.cells.cells result ≡ error_text n }
    {
        self.texts[n as usize - 10]
    }

    /// Ends the opening: from here on turns and cells count.
    pub fn opened(&mut self)
        requires { self.old.cells.count ≡ None }
        ensures { self.new ≡ record self.old { cells = record self.old.cells { count = Some 0 }; counts = record self.old.counts { opening = None } } }
    {
        self.cells.settle();
        self.counts.opened();
    }

    /// Takes a turn: of opening, of the outermost open expansion, or of the run. After a stop the world is as before.
    pub fn tick(&mut self) -> Result<(), Stop>
        ensures ok { OnOk result (tick_stop self.old.counts ≡ None) }
        ensures counted { OnOk result (self.new ≡ record self.old { counts = ticked self.old.counts }) }
        ensures stop { IfErr result (λ s. tick_stop self.old.counts ≡ Some s) }
        ensures err { IfErr result (λ s. self.new ≡ self.old) }
    {
        self.counts.tick()
    }

    /// Is called before an object of this cost is made, and counts its cells in the outermost open expansion. Opening has
    /// 65,536 cells, the run as many as its bound says, and an expansion 1,000,000. After a stop the world is as before.
    pub fn room(&mut self, cost: u32) -> Result<(), Stop>
        ensures ok { OnOk result (room_stop self.old.counts self.old.cells cost ≡ None) }
        ensures counted { OnOk result (self.new ≡ record self.old { counts = roomed self.old.counts cost }) }
        ensures stop { IfErr result (λ s. room_stop self.old.counts self.old.cells cost ≡ Some s) }
        ensures err { IfErr result (λ s. self.new ≡ self.old) }
    {
        self.counts.room(&self.cells, cost)
    }

    /// Opens an expansion of this macro; turns and cells count in the outermost one.
    pub fn begin_expansion(&mut self, name: Val)
        requires { self.old.counts.open_count + 1 < 2 ^ 32 }
        ensures begun { self.new ≡ record self.old { counts = begun self.old.counts name } }
        ensures open { IsOpen self.old.counts.outermost self.old.counts.open_count }
    {
        self.counts.begin(name);
    }

    /// Ends the newest open expansion.
    pub fn end_expansion(&mut self)
        requires { 0 < self.old.counts.open_count }
        ensures ended { self.new ≡ record self.old { counts = expansion_ended self.old.counts } }
        ensures open { IsOpen self.old.counts.outermost self.old.counts.open_count }
    {
        self.counts.end();
    }

    /// Whether an expansion is open.
    pub fn in_expansion(&self) -> bool
        ensures some { IsTrue result ↔ (0 < self.now.counts.open_count) }
        ensures open { IsOpen self.now.counts.outermost self.now.counts.open_count }
    {
        self.counts.open_count() > 0
    }

    /// How many expansions are open.
    pub fn expansions(&self) -> u32
        ensures { result ≡ self.now.counts.open_count }
    {
        self.counts.open_count()
    }

    /// Sets the counts aside, for the expansions of a compilation: levels count from 0, and no expansion counts as open.
    pub fn apart(&mut self) -> Apart
        requires walk { self.old.levels.walk ≡ [] }
        requires together { self.old.counts.aside ≡ None }
        ensures world { self.new ≡ record self.old { counts = set_aside self.old.counts; levels = record self.old.levels { level = 0; aside = Some self.old.levels.level } } }
        ensures kept { result ≡ record { counts = aside_of self.old.counts; level = self.old.levels.level } }
    {
        let counts = self.counts.set_aside();
        let level = self.levels.set_aside();
        Apart { counts, level }
    }

    /// Brings back the counts that were set aside, and drops what walks still keep.
    pub fn rejoin(&mut self, a: Apart)
        requires counts { self.old.counts.aside ≡ Some a.counts }
        requires level { self.old.levels.aside ≡ Some a.level }
        ensures { self.new ≡ record self.old { counts = rejoined self.old.counts a.counts; levels = record self.old.levels { level = a.level; walk = []; aside = None } } }
    {
        self.counts.rejoin(a.counts);
        self.levels.rejoin(a.level);
    }

    /// Enters levels. After a stop the world is as before.
    pub fn enter_level(&mut self, n: u32) -> Result<(), Stop>
        ensures ok { OnOk result (enter_stop self.old.levels n ≡ None) }
        ensures entered { OnOk result (self.new ≡ record self.old { levels = record self.old.levels { level = self.old.levels.level + n } }) }
        ensures stop { IfErr result (λ s. enter_stop self.old.levels n ≡ Some s) }
        ensures err { IfErr result (λ s. self.new ≡ self.old) }
    {
        self.levels.enter(n)
    }

    /// Leaves levels that were entered, but none that a walk entered.
    pub fn leave_level(&mut self, n: u32)
        requires { n + length self.old.levels.walk ≤ self.old.levels.level }
        ensures { self.new ≡ record self.old { levels = record self.old.levels { level = self.old.levels.level - n } } }
    {
        self.levels.leave(n);
    }

    /// The levels that are entered: within the bound, and no fewer than walks keep.
    pub fn level(&self) -> u32
        ensures level { result ≡ self.now.levels.level }
        ensures levels { AreLevels self.now.levels }
    {
        self.levels.level()
    }

    /// The turns that the run took.
    pub fn turns(&self) -> u64
        ensures { result ≡ self.now.counts.turns }
    {
        self.counts.turns()
    }

    /// The bytes printed since the last end of line, or 2^59 - 1 where they are more.
    pub fn column(&self) -> u64
        ensures { result ≡ self.now.output.column }
    {
        self.output.column()
    }

    /// How long a line may be, in bytes.
    pub fn line_length(&self) -> u64
        ensures { result ≡ self.now.output.line_length }
    {
        self.output.line_length()
    }

    /// Makes this the line length.
    pub fn set_line_length(&mut self, n: u64)
        requires some { 1 ≤ n }
        requires bounded { n ≤ 1000000 }
        ensures { self.new ≡ record self.old { output = record self.old.output { line_length = n } } }
    {
        self.output.set_line_length(n);
    }

    /// How many bytes of the input were given and not put back, or 2^59 - 1 where they are more.
    pub fn taken(&self) -> u64
        ensures { result ≡ min self.now.input.given (2 ^ 59 - 1) }
    {
        self.input.taken()
    }

    /// Puts back the byte of the input that was given last.
    pub fn input_back(&mut self, b: u8)
        requires none_back { self.old.input.back ≡ None }
        requires given { 1 ≤ self.old.input.given }
        ensures { self.new ≡ record self.old { input = record { back = Some b; given = self.old.input.given - 1; ended = self.old.input.ended } } }
    {
        self.input.put_back(b);
    }

    /// Enters a level and keeps three words of a walk; the levels below the walks stay. After a stop the world is as before.
    pub fn walk_push(&mut self, a: u64, b: u64, c: u64) -> Result<(), Stop>
        ensures ok { OnOk result (enter_stop self.old.levels 1 ≡ None) }
        ensures entered { OnOk result (self.new ≡ record self.old { levels = record self.old.levels { level = self.old.levels.level + 1; walk = (a, b, c) ∷ self.old.levels.walk } }) }
        ensures below { levels_below self.new.levels ≡ levels_below self.old.levels }
        ensures steady { OnOk result ((base : ℕ) → base ≤ length self.old.levels.walk → IsSteady base self.old.levels self.new.levels) }
        ensures above { OnOk result ((base : ℕ) → base ≤ length self.old.levels.walk → kept_above base self.new.levels ≡ (a, b, c) ∷ kept_above base self.old.levels) }
        ensures stop { IfErr result (λ s. enter_stop self.old.levels 1 ≡ Some s) }
        ensures err { IfErr result (λ s. self.new ≡ self.old) }
    {
        self.levels.push(a, b, c)
    }

    /// Gives the three newest words of a walk back, and leaves their level; the levels below the walks stay.
    pub fn walk_pop(&mut self) -> (u64, u64, u64)
        requires { 1 ≤ length self.old.levels.walk }
        ensures popped { self.old.levels.walk ≡ result ∷ self.new.levels.walk }
        ensures within { self.old.levels.level ≤ self.old.levels.bound }
        ensures entered { 1 ≤ self.old.levels.level }
        ensures below { levels_below self.new.levels ≡ levels_below self.old.levels }
        ensures steady { (base : ℕ) → base ≤ length self.new.levels.walk → IsSteady base self.old.levels self.new.levels }
        ensures above { (base : ℕ) → base ≤ length self.new.levels.walk → kept_above base self.old.levels ≡ result ∷ kept_above base self.new.levels }
        ensures left { self.new ≡ record self.old { levels = record self.old.levels { level = self.old.levels.level - 1; walk = self.new.levels.walk } } }
    {
        self.levels.pop()
    }

    /// How many threes of words walks keep.
    pub fn walk_len(&self) -> u64
        ensures { result ≡ length self.now.levels.walk }
    {
        u64::from(self.levels.kept())
    }
}
