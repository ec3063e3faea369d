//! Frames, registers, and the memory of the stack.
ghost use Rattle.std.specs.Prelude.{◌≡◌, ℕ, ◌+◌, ◌-◌, ◌*◌, ◌<◌, ◌≤◌, ◌++◌, [], ◌∷◌, Some, IfOk, length, drop, replicate, slice_get, slice_set, vec_len, vec_capacity, MatchOption};
ghost use Rattle.rl_tags.specs.Ids.{nil_id};
ghost use Rattle.rl_stack.specs.StackState.{HasFrame, MayWait, NewestFits, OnNewest, levels_of_frames, opened_stack, waiting_of, with_newest, with_place, with_slot_value, with_waiting};
ghost use Rattle.rl_stack.specs.Saving.{with_hid};
ghost use Rattle.rl_stack.specs.declared.saved.Saved.TheVariants as saved;

use crate::saved::Saved;
use rl_io::OutOfMemory;
use rl_tags::{NIL, Val};
use std::alloc::Global;
use std::marker::Model;

/// How many words a level has.
const WORDS_A_LEVEL: usize = 64;
/// How many bindings and marks a level has, and how many there may be at the level 0.
const SAVED_A_LEVEL: usize = 16;
/// How many values may wait on none, and more than fit on the newest frame.
const SPARE_WORDS: usize = 32;

/// A frame but for its values: its levels, how many slots it has, whose it is, how far it has come, and how many values
/// wait below it.
#[derive(Clone, Copy)]
pub struct FrameHead {
    levels: u32,
    slots: u32,
    owner: u64,
    place: u64,
    below: u32,
}

/// Frames, bindings and 15 registers. Its memory is taken at opening: no later call takes any. A contract sees lists, the
/// newest first.
#[derive(Drop)]
pub struct Stack {
    nest: u32,
    heads: Vec<FrameHead>,
    words: Vec<Val>,
    waiting: u32,
    saved: Vec<Saved>,
    registers: [Val; 15],
}

impl Model for Stack {
    ghost use Rattle.std.specs.Prelude.{reverse};
    ghost use Rattle.rl_stack.specs.StackState.{StackState};
    ghost use Rattle.rl_stack.specs.StackLayout.{HasStackRoom, frames_laid, unframed_laid};

    ghost Value = { StackState };

    ghost view = { λ a. record {
      nest = a.nest;
      frames = frames_laid a.waiting (reverse a.heads.items) (reverse a.words.items);
      unframed = unframed_laid a.waiting (reverse a.heads.items) (reverse a.words.items);
      saved = reverse a.saved.items;
      registers = a.registers;
    } };

    ghost invariant = { λ a. HasStackRoom a.nest a.waiting a.heads a.words a.saved a.registers };
}

impl Stack {
    /// A stack for a world whose bound on nesting is at most `nest`, which is at most 500,000.
    pub fn open(alloc: Global, nest: u32) -> Result<Stack, OutOfMemory>
        requires { nest ≤ 500000 }
        ensures { IfOk result (λ s. s ≡ opened_stack nest) }
    {
        let levels = nest as usize;
        let heads = Vec::with_capacity(alloc, levels)?;
        let words = Vec::with_capacity(alloc, WORDS_A_LEVEL * levels + SPARE_WORDS)?;
        let saved = Vec::with_capacity(alloc, SAVED_A_LEVEL * levels + SAVED_A_LEVEL)?;
        Ok(Stack {
            nest,
            heads,
            words,
            waiting: 0,
            saved,
            registers: [NIL; 15],
        })
    }

    /// How many frames there are.
    pub fn frames(&self) -> u64
        ensures { result ≡ length self.now.frames }
    {
        self.heads.len() as u64
    }

    /// Whose the newest frame is.
    pub fn owner(&self) -> u64
        requires { HasFrame self.now.frames }
        ensures { OnNewest self.now.frames (λ f. result ≡ f.owner) }
    {
        self.heads[self.heads.len() - 1].owner
    }

    /// How far the newest frame has come.
    pub fn place(&self) -> u64
        requires { HasFrame self.now.frames }
        ensures { OnNewest self.now.frames (λ f. result ≡ f.place) }
    {
        self.heads[self.heads.len() - 1].place
    }

    /// Says how far the newest frame has come.
    pub fn set_place(&mut self, p: u64)
        requires { HasFrame self.old.frames }
        ensures { self.new ≡ record self.old { frames = with_newest (with_place p) self.old.frames } }
    {
        let at = self.heads.len() - 1;
        self.heads[at].place = p;
    }

    /// Slot `i` of the newest frame.
    pub fn slot(&self, i: u32) -> Val
        requires { OnNewest self.now.frames (λ f. i < length f.slots) }
        ensures { OnNewest self.now.frames (λ f. slice_get f.slots i ≡ Some result) }
    {
        self.words[self.words.len() - 1 - (self.waiting as usize + i as usize)]
    }

    /// Gives slot `i` of the newest frame another value.
    pub fn set_slot(&mut self, i: u32, v: Val)
        requires { OnNewest self.old.frames (λ f. i < length f.slots) }
        ensures { self.new ≡ record self.old { frames = with_newest (with_slot_value i v) self.old.frames } }
    {
        let at = self.words.len() - 1 - (self.waiting as usize + i as usize);
        self.words[at] = v;
    }

    /// How many values wait on the newest frame, or on none where there is no frame.
    pub fn waiting(&self) -> u32
        ensures { result ≡ length (waiting_of self.now.frames self.now.unframed) }
    {
        self.waiting
    }

    /// One more value waits there.
    pub fn push(&mut self, v: Val)
        requires { MayWait self.old.frames self.old.unframed }
        ensures { self.new ≡ with_waiting v self.old }
    {
        self.words.push_reserved(v);
        self.waiting += 1;
    }

    /// The newest of the values that wait there waits no longer.
    pub fn pop(&mut self) -> Val
        requires { 1 ≤ length (waiting_of self.old.frames self.old.unframed) }
        ensures { self.old ≡ with_waiting result self.new }
    {
        self.waiting -= 1;
        match self.words.pop() {
            Some(v) => v,
            None => unreachable!(),
        }
    }

    /// Register `r`, from 1 to 15.
    pub fn register(&self, r: u32) -> Val
        requires low { 1 ≤ r }
        requires high { r ≤ 15 }
        ensures { slice_get self.now.registers (r - 1) ≡ Some result }
    {
        self.registers[r as usize - 1]
    }

    /// Gives register `r`, from 1 to 15, another value.
    pub fn set_register(&mut self, r: u32, v: Val)
        requires low { 1 ≤ r }
        requires high { r ≤ 15 }
        ensures { self.new ≡ record self.old { registers = slice_set self.old.registers (r - 1) v } }
    {
        self.registers[r as usize - 1] = v;
    }

    /// A new frame, with slots NIL.
    pub(crate) fn add_frame(&mut self, levels: u32, slots: u32, owner: u64)
        requires fits { slots + 4 ≤ 64 * levels }
        requires newest { NewestFits self.old.frames }
        requires levels { levels + levels_of_frames self.old.frames ≤ self.old.nest }
        ensures { self.new ≡ record self.old { frames = record { levels = levels; owner = owner; place = 0; slots = replicate slots nil_id; waiting = [] } ∷ self.old.frames } }
    {
        let below = self.waiting;
        self.heads.push_reserved(FrameHead {
            levels,
            slots,
            owner,
            place: 0,
            below,
        });
        push_nils(&mut self.words, slots);
        self.waiting = 0;
    }

    /// The newest frame is no longer there; its levels.
    pub(crate) fn take_frame(&mut self) -> u32
        requires { HasFrame self.old.frames }
        ensures levels { OnNewest self.old.frames (λ f. result ≡ f.levels) }
        ensures frames { self.new ≡ record self.old { frames = drop 1 self.old.frames } }
    {
        match self.heads.pop() {
            Some(head) => {
                let own = self.waiting as usize + head.slots as usize;
                let rest = self.words.len() - own;
                self.words.truncate(rest);
                self.waiting = head.below;
                head.levels
            }
            None => unreachable!(),
        }
    }

    /// How many bindings and marks there are.
    pub fn depth(&self) -> u64
        ensures { result ≡ length self.now.saved }
    {
        self.saved.len() as u64
    }

    /// One more binding.
    pub(crate) fn save_binding(&mut self, id: Val, local: bool, hid: Option<Val>, levels: u32)
        requires { length self.old.saved < 16 * self.old.nest + 16 }
        ensures { self.new ≡ record self.old { saved = saved.Binding id local hid levels ∷ self.old.saved } }
    {
        self.saved
            .push_reserved(Saved::Binding(id, local, hid, levels));
    }

    /// One more mark.
    pub(crate) fn save_mark(&mut self, f: Option<Val>)
        requires { length self.old.saved < 16 * self.old.nest + 16 }
        ensures { self.new ≡ record self.old { saved = saved.Mark f ∷ self.old.saved } }
    {
        self.saved.push_reserved(Saved::Mark(f));
    }

    /// The binding or mark `k`, counted from the newest.
    pub(crate) fn saved_at(&self, k: u64) -> Saved
        requires { k < length self.now.saved }
        ensures { slice_get self.now.saved k ≡ Some result }
    {
        self.saved[self.saved.len() - 1 - k as usize]
    }

    /// Says what the binding `k`, counted from the newest, hid.
    pub(crate) fn set_hid(&mut self, k: u64, hid: Option<Val>)
        requires { k < length self.old.saved }
        ensures { self.new ≡ record self.old { saved = with_hid k hid self.old.saved } }
    {
        let at = self.saved.len() - 1 - k as usize;
        match self.saved[at] {
            Saved::Binding(id, local, _old, levels) => {
                self.saved[at] = Saved::Binding(id, local, hid, levels);
            }
            Saved::Mark(_f) => {}
        }
    }

    /// The newest binding or mark is no longer there.
    pub(crate) fn unsave(&mut self) -> Option<Saved>
        ensures { MatchOption result ((self.old.saved ≡ []) × (self.new ≡ self.old)) (λ x. self.old ≡ record self.new { saved = x ∷ self.new.saved }) }
    {
        self.saved.pop()
    }
}

/// So many values more, each NIL.
fn push_nils(words: &mut Vec<Val>, n: u32)
    requires { vec_len words.old + n ≤ vec_capacity words.old }
    ensures items { words.new.items ≡ words.old.items ++ replicate n nil_id }
    ensures capacity { vec_capacity words.new ≡ vec_capacity words.old }
{
    let mut i = 0;
    while i < n {
        words.push_reserved(NIL);
        i += 1;
    }
}
