//! A fixed number of 64-bit words, seen as a list.
#![tactic(auto)]

ghost use Rattle.std.specs.Prelude.{◌≡◌, ◌<◌, ◌≤◌, ◌^◌, ◌-◌, ◌++◌, length, replicate, slice_get, slice_set, vec_len, vec_capacity, Some, IfOk};

use rl_io::OutOfMemory;
use std::alloc::Global;
use std::marker::Model;

/// Words of memory, at most 2^40 of them. A contract sees their list. Those behind the last one that was set are 0, and are
/// not written: so memory that was never used costs no time.
#[derive(Drop)]
pub struct Words {
    written: Vec<u64>,
    many: usize,
}

impl Model for Words {
    ghost use Rattle.std.specs.Prelude.{ℕ, ◌-◌, ◌++◌, List, length, replicate};
    ghost use Rattle.rl_words.specs.Written.{HasRoomForWords};

    ghost Value = { List ℕ };

    ghost view = { λ a. a.written.items ++ replicate (a.many - length a.written.items) 0 };

    ghost invariant = { λ a. HasRoomForWords a.written a.many };
}

impl Words {
    /// `n` words, each 0. `OutOfMemory` if there is no memory for them.
    pub fn new(alloc: Global, n: usize) -> Result<Words, OutOfMemory>
        requires { n ≤ 2 ^ 40 }
        ensures { IfOk result (λ words. words ≡ replicate n 0) }
    {
        Ok(Words {
            written: Vec::with_capacity(alloc, n)?,
            many: n,
        })
    }

    /// How many words there are.
    pub fn len(&self) -> usize
        ensures len { result ≡ length self.now }
        ensures bounded { result ≤ 2 ^ 40 }
    {
        self.many
    }

    /// The word `i`.
    pub fn get(&self, i: usize) -> u64
        requires { i < length self.now }
        ensures { slice_get self.now i ≡ Some result }
    {
        if i < self.written.len() {
            self.written[i]
        } else {
            0
        }
    }

    /// Makes `word` the word `i`, and changes no other.
    pub fn set(&mut self, i: usize, word: u64)
        requires { i < length self.old }
        ensures { self.new ≡ slice_set self.old i word }
    {
        if i < self.written.len() {
            self.written[i] = word;
        } else {
            write_zeros(&mut self.written, i);
            self.written.push_reserved(word);
        }
    }
}

/// Words up to the place `n`, each 0.
fn write_zeros(words: &mut Vec<u64>, n: usize)
    requires within { vec_len words.old ≤ n }
    requires room { n ≤ vec_capacity words.old }
    ensures items { words.new.items ≡ words.old.items ++ replicate (n - length words.old.items) 0 }
    ensures capacity { vec_capacity words.new ≡ vec_capacity words.old }
{
    while words.len() < n {
        words.push_reserved(0);
    }
}
