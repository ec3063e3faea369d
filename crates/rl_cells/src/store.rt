ghost use Rattle.std.specs.Prelude.{◌≡◌, ◌⊎◌, ℕ, ◌+◌, ◌*◌, ◌/◌, ◌^◌, ◌<◌, ◌≤◌, List, [], ◌∷◌, ◌++◌, length, replicate, slice_index, slice_get, slice_set, IsTrue, IfOk, OnErr, is_ok};
ghost use Rattle.rl_tags.specs.Tagged.{PairAt, StrAt, VectorAt, BigAt, at_tag, index_of};
ghost use Rattle.rl_tags.specs.Ids.{nil_id};
ghost use Rattle.rl_cells.specs.Cell.{CellStore, Cell, PairCell, StrCell, VectorCell, BigCell, BlockCell, block_with, is_block, is_block_tag, words_of, cost_of, cell_at, placed, changed_at, is_live, is_live_word, is_pair, is_str, is_vector, is_big, is_wide, big_of, take_cells, bytes_of, vector_of, car_of, cdr_of, used_of, has_room, grown, more_counted, IsClosed};
ghost use Rattle.rl_cells.specs.Stored.{byte_in, signed128};
ghost use Rattle.rl_cells.specs.Laws.{IsApart};
ghost use Rattle.std.specs.Option.{ForSome};

use crate::objects::{Change, Objects};
use rl_io::OutOfMemory;
use rl_tags::{NIL, Tag, Val};
use rl_words::Words;
use std::alloc::Global;
use std::marker::Model;

/// There is no room left.
#[derive(Clone, Copy, Debug, PartialEq, Eq)]
pub struct Full;

/// Where the spare cells begin. A contract sees the place.
#[derive(Drop)]
pub struct Mark {
    at: u32,
}

impl Model for Mark {
    ghost use Rattle.std.specs.Prelude.{ℕ};

    ghost Value = { ℕ };

    ghost view = { λ a. a.at };
}

/// The objects that were made. A contract sees the list of their cells, so that an object is named by the place of its
/// first cell; the bound on the cells that a run takes; how many it took, None while opening; and where the spare cells
/// begin, None while none are in use. An object stays at its place, and each call changes the one that it names alone.
#[derive(Drop)]
pub struct Cells {
    words: Words,
    objects: Objects,
    taken: u32,
    most: u32,
    counted: Option<u32>,
    mark: Option<u32>,
}

impl Model for Cells {
    ghost use Rattle.rl_cells.specs.Cell.{CellStore};
    ghost use Rattle.rl_cells.specs.Stored.{IsSound};

    ghost Value = { CellStore };

    ghost view = { λ a. record { cells = a.objects.cells; bound = a.most; count = a.counted; mark = a.mark } };

    // All the memory is taken at once, so that no later call can fail for want of it.
    ghost invariant = { λ a. IsSound a.words a.objects.cells a.taken a.most a.counted a.mark };
}

impl Cells {
    /// A store in which opening may take 65,536 cells, the run after it `cells` more, and past a mark 1,000,000 spare
    /// ones. A cell has 16 bytes. `OutOfMemory` if there is no memory for them.
    pub fn new(alloc: Global, cells: u32) -> Result<Cells, OutOfMemory>
        requires { cells ≤ 64000000 }
        ensures { IfOk result (λ c. c ≡ record { cells = []; bound = cells; count = None; mark = None }) }
    {
        let words = Words::new(alloc, 2 * (1_065_536 + cells as usize))?;
        Ok(Cells {
            words,
            objects: Objects::new(),
            taken: 0,
            most: cells,
            counted: None,
            mark: None,
        })
    }

    /// Ends the opening: from here on the cells count.
    pub fn settle(&mut self)
        requires { self.old.count ≡ None }
        ensures { self.new ≡ record self.old { count = Some 0 } }
    {
        self.counted = Some(0);
    }

    /// The cells taken since opening ended, without the spare ones; 0 before.
    pub fn used(&self) -> u32
        ensures { result ≡ used_of self.now }
    {
        match self.counted {
            None => 0,
            Some(n) => n,
        }
    }

    /// The cells taken in all, so also the place of the next object.
    pub fn places(&self) -> u32
        ensures { result ≡ length self.now.cells }
    {
        self.taken
    }

    /// Objects lie apart: in the cells of an object no other begins.
    pub fn lies_apart(&self)
        ensures { IsApart self.now.cells }
    {
        let _words = &self.words;
    }

    /// The values in objects are live.
    pub fn is_closed(&self)
        ensures { IsClosed self.now.cells }
    {
        let _words = &self.words;
    }

    /// The cells taken in all are no more than opening, the run and the spare cells may have, and the run has a bound.
    pub fn is_bounded(&self)
        ensures cells { length self.now.cells ≤ 1065536 + self.now.bound }
        ensures bound { self.now.bound ≤ 64000000 }
    {
        let _words = &self.words;
    }

    /// Whether an object of this cost, in cells, fits.
    pub fn fits(&self, cost: u32) -> bool
        requires { cost ≤ 2147483648 }
        ensures { result ≡ has_room self.now cost }
    {
        match self.mark {
            Some(at) => self.taken + cost <= at + 1_000_000,
            None => match self.counted {
                None => self.taken + cost <= 65536,
                Some(n) => n + cost <= self.most,
            },
        }
    }

    /// A new pair, at the next place. It takes one cell. `Full` if there is no room; the store is then as before.
    pub fn cons(&mut self, car: Val, cdr: Val) -> Result<Val, Full>
        requires car_live { IsTrue (is_live self.old.cells car) }
        requires cdr_live { IsTrue (is_live self.old.cells cdr) }
        ensures full { is_ok result ≡ has_room self.old 1 }
        ensures names { IfOk result (λ v. v ≡ PairAt (length self.old.cells)) }
        ensures ok { IfOk result (λ _. self.new ≡ grown self.old (PairCell car cdr)) }
        ensures err { OnErr result (self.new ≡ self.old) }
        ensures live { IfOk result (λ v. IsTrue (is_live self.new.cells v)) }
        ensures closed { IsClosed self.old.cells }
    {
        if !self.fits(1) {
            return Err(Full);
        }
        let at = self.taken as usize;
        self.words.set(2 * at, car.word());
        self.words.set(2 * at + 1, cdr.word());
        self.objects = self.objects.then(&Change::Pair(car, cdr));
        self.taken += 1;
        self.counted = counted_more(self.counted, self.mark, 1);
        Ok(Val::at(Tag::Pair, at as u64))
    }

    /// The car of a pair.
    pub fn car(&self, p: Val) -> Val
        requires { IsTrue (is_pair self.now.cells p) }
        ensures value { result ≡ car_of self.now.cells p }
        ensures live { IsTrue (is_live self.now.cells result) }
    {
        let at = p.index() as usize;
        Val::read(self.words.get(2 * at)).unwrap()
    }

    /// The cdr of a pair.
    pub fn cdr(&self, p: Val) -> Val
        requires { IsTrue (is_pair self.now.cells p) }
        ensures value { result ≡ cdr_of self.now.cells p }
        ensures live { IsTrue (is_live self.now.cells result) }
    {
        let at = p.index() as usize;
        Val::read(self.words.get(2 * at + 1)).unwrap()
    }

    /// Makes `v` the car of a pair.
    pub fn set_car(&mut self, p: Val, v: Val)
        requires pair { IsTrue (is_pair self.old.cells p) }
        requires value_live { IsTrue (is_live self.old.cells v) }
        ensures changed { self.new ≡ record self.old { cells = changed_at self.old.cells p (PairCell v (cdr_of self.old.cells p)) } }
        ensures closed { IsClosed self.old.cells }
    {
        let at = p.index() as usize;
        self.words.set(2 * at, v.word());
        self.objects = self.objects.then(&Change::SetCar(at, v));
    }

    /// Makes `v` the cdr of a pair.
    pub fn set_cdr(&mut self, p: Val, v: Val)
        requires pair { IsTrue (is_pair self.old.cells p) }
        requires value_live { IsTrue (is_live self.old.cells v) }
        ensures changed { self.new ≡ record self.old { cells = changed_at self.old.cells p (PairCell (car_of self.old.cells p) v) } }
        ensures closed { IsClosed self.old.cells }
    {
        let at = p.index() as usize;
        self.words.set(2 * at + 1, v.word());
        self.objects = self.objects.then(&Change::SetCdr(at, v));
    }

    /// A new string of these bytes, at the next place. It takes one cell, and one for each 16 bytes begun. `Full` if
    /// there is no room; the store is then as before.
    pub fn string(&mut self, bytes: &[u8]) -> Result<Val, Full>
        requires { length bytes.now ≤ 65535 }
        ensures full { is_ok result ≡ has_room self.old (cost_of (StrCell bytes.now)) }
        ensures names { IfOk result (λ v. v ≡ StrAt (length self.old.cells)) }
        ensures ok { IfOk result (λ _. self.new ≡ grown self.old (StrCell bytes.now)) }
        ensures err { OnErr result (self.new ≡ self.old) }
        ensures live { IfOk result (λ v. IsTrue (is_live self.new.cells v)) }
        ensures closed { IsClosed self.old.cells }
    {
        let cost = 1 + (bytes.len() as u32 + 15) / 16;
        if !self.fits(cost) {
            return Err(Full);
        }
        let at = self.taken as usize;
        self.words.set(2 * at, bytes.len() as u64);
        write_bytes(&mut self.words, 2 * at + 2, bytes);
        self.objects = self.objects.then(&Change::Str(bytes));
        self.taken += cost;
        self.counted = counted_more(self.counted, self.mark, cost);
        Ok(Val::at(Tag::Str, at as u64))
    }

    /// How many bytes a string has.
    pub fn string_len(&self, s: Val) -> u32
        requires { IsTrue (is_str self.now.cells s) }
        ensures { result ≡ length (bytes_of self.now.cells s) }
    {
        let at = s.index() as usize;
        self.words.get(2 * at) as u32
    }

    /// The byte `i` of a string.
    pub fn string_byte(&self, s: Val, i: u32) -> u8
        requires string { IsTrue (is_str self.now.cells s) }
        requires within { i < length (bytes_of self.now.cells s) }
        ensures { result ≡ slice_index (bytes_of self.now.cells s) i }
    {
        let at = s.index() as usize;
        let i = i as usize;
        self.words.get(2 * at + 2 + i / 8).to_le_bytes()[i % 8]
    }

    /// A new vector of this many places, each of them NIL. It takes one cell, and one for each two places begun.
    /// `Full` if there is no room; the store is then as before.
    pub fn vector(&mut self, places: u32) -> Result<Val, Full>
        requires short { places ≤ 2147483648 }
        requires nil_live { IsTrue (is_live self.old.cells nil_id) }
        ensures full { is_ok result ≡ has_room self.old (cost_of (VectorCell (replicate places nil_id))) }
        ensures names { IfOk result (λ v. v ≡ VectorAt (length self.old.cells)) }
        ensures ok { IfOk result (λ _. self.new ≡ grown self.old (VectorCell (replicate places nil_id))) }
        ensures err { OnErr result (self.new ≡ self.old) }
        ensures live { IfOk result (λ v. IsTrue (is_live self.new.cells v)) }
        ensures closed { IsClosed self.old.cells }
    {
        let cost = 1 + (places + 1) / 2;
        if !self.fits(cost) {
            return Err(Full);
        }
        let at = self.taken as usize;
        self.words.set(2 * at, places as u64);
        fill_words(&mut self.words, 2 * at + 2, places as usize, NIL.word());
        self.objects = self.objects.then(&Change::Vector(places));
        self.taken += cost;
        self.counted = counted_more(self.counted, self.mark, cost);
        Ok(Val::at(Tag::Vector, at as u64))
    }

    /// How many places a vector has.
    pub fn vector_len(&self, v: Val) -> u32
        requires { IsTrue (is_vector self.now.cells v) }
        ensures { result ≡ length (vector_of self.now.cells v) }
    {
        let at = v.index() as usize;
        self.words.get(2 * at) as u32
    }

    /// The value at the place `i` of a vector.
    pub fn get(&self, v: Val, i: u32) -> Val
        requires vector { IsTrue (is_vector self.now.cells v) }
        requires within { i < length (vector_of self.now.cells v) }
        ensures value { slice_get (vector_of self.now.cells v) i ≡ Some result }
        ensures live { IsTrue (is_live self.now.cells result) }
    {
        let at = v.index() as usize;
        Val::read(self.words.get(2 * at + 2 + i as usize)).unwrap()
    }

    /// Makes `x` the value at the place `i` of a vector.
    pub fn put(&mut self, v: Val, i: u32, x: Val)
        requires vector { IsTrue (is_vector self.old.cells v) }
        requires within { i < length (vector_of self.old.cells v) }
        requires value_live { IsTrue (is_live self.old.cells x) }
        ensures changed { self.new ≡ record self.old { cells = changed_at self.old.cells v (VectorCell (slice_set (vector_of self.old.cells v) i x)) } }
        ensures closed { IsClosed self.old.cells }
    {
        let at = v.index() as usize;
        self.words.set(2 * at + 2 + i as usize, x.word());
        self.objects = self.objects.then(&Change::Put(at, i as usize, x));
    }

    /// A new integer outside 60 bits. It takes one cell. `Full` if there is no room; the store is then as before.
    pub fn big(&mut self, n: i128) -> Result<Val, Full>
        requires wide { IsTrue (is_wide n) }
        ensures full { is_ok result ≡ has_room self.old 1 }
        ensures names { IfOk result (λ v. v ≡ BigAt (length self.old.cells)) }
        ensures ok { IfOk result (λ _. self.new ≡ grown self.old (BigCell n)) }
        ensures err { OnErr result (self.new ≡ self.old) }
        ensures live { IfOk result (λ v. IsTrue (is_live self.new.cells v)) }
        ensures closed { IsClosed self.old.cells }
    {
        if !self.fits(1) {
            return Err(Full);
        }
        let at = self.taken as usize;
        let (low, high) = halves(n);
        self.words.set(2 * at, low);
        self.words.set(2 * at + 1, high);
        self.objects = self.objects.then(&Change::Big(n));
        self.taken += 1;
        self.counted = counted_more(self.counted, self.mark, 1);
        Ok(Val::at(Tag::Big, at as u64))
    }

    /// The integer outside 60 bits that a value names.
    pub fn big_value(&self, b: Val) -> i128
        requires { IsTrue (is_big self.now.cells b) }
        ensures value { result ≡ big_of self.now.cells b }
        ensures wide { IsTrue (is_wide result) }
    {
        let at = b.index() as usize;
        whole(self.words.get(2 * at), self.words.get(2 * at + 1))
    }

    /// A new block of words, each 0, for an identifier or a held function. It takes a cell for each two words begun.
    /// `Full` if there is no room; the store is then as before.
    pub fn block(&mut self, tag: Tag, words: u32) -> Result<Val, Full>
        requires block_tag { IsTrue (is_block_tag tag) }
        requires some { 0 < words }
        requires short { words ≤ 2147483648 }
        ensures full { is_ok result ≡ has_room self.old (cost_of (BlockCell tag (replicate words 0))) }
        ensures names { IfOk result (λ v. v ≡ at_tag tag (length self.old.cells)) }
        ensures ok { IfOk result (λ _. self.new ≡ grown self.old (BlockCell tag (replicate words 0))) }
        ensures err { OnErr result (self.new ≡ self.old) }
        ensures live { IfOk result (λ v. IsTrue (is_live self.new.cells v)) }
        ensures closed { IsClosed self.old.cells }
    {
        let cost = (words + 1) / 2;
        if !self.fits(cost) {
            return Err(Full);
        }
        let at = self.taken as usize;
        fill_words(&mut self.words, 2 * at, words as usize, 0);
        self.objects = self.objects.then(&Change::Block(tag, words));
        self.taken += cost;
        self.counted = counted_more(self.counted, self.mark, cost);
        Ok(Val::at(tag, at as u64))
    }

    /// The word `i` of a block.
    pub fn word(&self, b: Val, i: u32) -> u64
        requires block { IsTrue (is_block self.now.cells b) }
        requires within { i < length (words_of self.now.cells b) }
        ensures value { result ≡ slice_index (words_of self.now.cells b) i }
        ensures live { IsTrue (is_live_word self.now.cells result) }
    {
        let at = b.index() as usize;
        self.words.get(2 * at + i as usize)
    }

    /// Makes `word`, which stands for a live value or for none, the word `i` of a block.
    pub fn set_word(&mut self, b: Val, i: u32, word: u64)
        requires block { IsTrue (is_block self.old.cells b) }
        requires within { i < length (words_of self.old.cells b) }
        requires word_live { IsTrue (is_live_word self.old.cells word) }
        ensures changed { self.new ≡ record self.old { cells = changed_at self.old.cells b (block_with (cell_at self.old.cells (index_of b)) i word) } }
        ensures closed { IsClosed self.old.cells }
    {
        let at = b.index() as usize;
        self.words.set(2 * at + i as usize, word);
        self.objects = self.objects.then(&Change::SetWord(at, i as usize, word));
    }

    /// From here until `release`, objects come from 1,000,000 spare cells, which do not count.
    pub fn spare_begin(&mut self) -> Mark
        requires { self.old.mark ≡ None }
        ensures marks { self.new ≡ record self.old { mark = Some (length self.old.cells) } }
        ensures at { result ≡ length self.old.cells }
    {
        self.mark = Some(self.taken);
        Mark { at: self.taken }
    }

    /// Takes back every object that was made after the mark. What stood before it names none of them.
    pub fn release(&mut self, m: Mark)
        requires begun { self.old.mark ≡ Some m }
        requires closed { IsClosed (take_cells m self.old.cells) }
        ensures { self.new ≡ record self.old { cells = take_cells m self.old.cells; mark = None } }
    {
        self.objects = self.objects.then(&Change::Cut(m.at as usize));
        self.taken = m.at;
        self.mark = None;
    }
}

/// What is counted after another object: it counts if opening has ended and it takes no spare cells.
fn counted_more(counted: Option<u32>, mark: Option<u32>, cost: u32) -> Option<u32>
    requires counted { ForSome counted (λ n. n ≤ 64000000) }
    requires cost { cost ≤ 2147483648 }
    ensures { result ≡ more_counted counted mark cost }
{
    match (mark, counted) {
        (None, Some(n)) => Some(n + cost),
        _ => counted,
    }
}

/// An integer's two halves, the low one first.
fn halves(n: i128) -> (u64, u64)
    ensures { signed128 (result.0 + 2 ^ 64 * result.1) ≡ n }
{
    let bits = if n >= 0 {
        n as u128
    } else {
        (n - i128::MIN) as u128 + (1 << 127)
    };
    ((bits % (1 << 64)) as u64, (bits / (1 << 64)) as u64)
}

/// The integer of these two halves.
fn whole(low: u64, high: u64) -> i128
    ensures { result ≡ signed128 (low + 2 ^ 64 * high) }
{
    let bits = low as u128 + (1 << 64) * high as u128;
    if bits < 1 << 127 {
        bits as i128
    } else {
        (bits - (1 << 127)) as i128 + i128::MIN
    }
}

/// Writes bytes into the words from `at` on, eight to a word.
fn write_bytes(words: &mut Words, at: usize, bytes: &[u8])
    requires within { at + (length bytes.now + 7) / 8 ≤ length words.old }
    requires bounded { length words.old < 2 ^ 63 }
    ensures len { length words.new ≡ length words.old }
    ensures written { (k : ℕ) → k < length bytes.now → slice_index bytes.now k ≡ byte_in words.new at k }
    ensures rest { (k : ℕ) → (k < at) ⊎ (at + (length bytes.now + 7) / 8 ≤ k) → slice_index words.new k ≡ slice_index words.old k }
{
    for (i, b) in bytes.iter().enumerate() {
        let mut parts = words.get(at + i / 8).to_le_bytes();
        parts[i % 8] = *b;
        words.set(at + i / 8, u64::from_le_bytes(parts));
    }
}

/// Writes one word `n` times from `at` on.
fn fill_words(words: &mut Words, at: usize, n: usize, word: u64)
    requires within { at + n ≤ length words.old }
    requires bounded { length words.old < 2 ^ 63 }
    ensures len { length words.new ≡ length words.old }
    ensures written { (k : ℕ) → k < n → slice_index words.new (at + k) ≡ word }
    ensures rest { (k : ℕ) → (k < at) ⊎ (at + n ≤ k) → slice_index words.new k ≡ slice_index words.old k }
{
    for i in 0..n {
        words.set(at + i, word);
    }
}
