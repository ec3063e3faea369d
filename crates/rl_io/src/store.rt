//! Files in one piece of memory, which was taken when the store was made.
#![tactic(auto)]

ghost use Rattle.std.specs.Prelude.{◌≡◌, ℕ, ◌+◌, ◌-◌, ◌*◌, ◌<◌, ◌≤◌, ◌++◌, ◌↔◌, ◌==◌, [], ◌∷◌, length, take, drop, None, Some, slice_set, IfOk, IsTrue, MatchOption, vec_len, vec_capacity, if◌then◌else◌};
ghost use Rattle.std.specs.Str.{bytes_eq};
ghost use Rattle.rl_io.specs.Entries.{file_of, put_of, room_used, stored};
ghost use Rattle.rl_io.specs.Layout.{total, files_of, IsFoundAt};

use crate::copies::append;
use crate::errors::OutOfMemory;
use std::alloc::Global;
use std::marker::Model;

/// What a file takes beside its name and its bytes.
const OVERHEAD: usize = 16;

/// How many bytes a file's name and the file have.
#[derive(Clone, Copy)]
struct Size {
    name: usize,
    file: usize,
}

/// Where a file is: its number, where its name lies, and its size.
#[derive(Clone, Copy)]
struct Place {
    index: usize,
    start: usize,
    size: Size,
}

/// Files by name. Each name lies before its file, and the files lie one after another.
#[derive(Drop)]
pub struct FileStore {
    sizes: Vec<Size>,
    bytes: Vec<u8>,
    room: usize,
}

impl Model for FileStore {
    ghost use Rattle.std.specs.Prelude.{◌+◌, ◌*◌, ◌<◌, ◌≤◌, length, vec_capacity};
    ghost use Rattle.rl_io.specs.Entries.{StoredFiles};

    ghost Value = { StoredFiles };

    ghost use Rattle.rl_io.specs.Layout.{files_of, IsLaidOut};

    ghost view = { λ a. record { files = files_of a.sizes.items a.bytes.items; room = a.room } };

    ghost invariant = { λ a. IsLaidOut a.sizes.items a.bytes.items a.room
        × (a.room ≤ vec_capacity a.bytes) × (a.room < 16 * vec_capacity a.sizes) };
}

fn is_same(a: &[u8], b: &[u8]) -> bool
    ensures { result ≡ bytes_eq a.now b.now }
{
    a == b
}

/// Where the first file of that name is.
fn find(sizes: &[Size], bytes: &[u8], name: &[u8]) -> Option<Place>
    requires { length bytes.now ≡ total sizes.now }
    ensures { MatchOption result (file_of (files_of sizes.now bytes.now) name.now ≡ None)
        (λ p. IsFoundAt sizes.now bytes.now name.now p.index p.start p.size) }
{
    let mut start = 0;
    for (index, size) in sizes.iter().enumerate() {
        let file = start + size.name;
        if is_same(&bytes[start..file], name) {
            return Some(Place {
                index,
                start,
                size: *size,
            });
        }
        start = file + size.file;
    }
    None
}

/// Puts a piece in place of the `n` bytes at `start`.
fn splice(bytes: &mut Vec<u8>, start: usize, n: usize, piece: &[u8])
    requires within { start + n ≤ vec_len bytes.old }
    requires room { vec_len bytes.old - n + length piece.now ≤ vec_capacity bytes.old }
    ensures items { bytes.new.items ≡ take start bytes.old.items ++ (piece.now ++ drop (start + n) bytes.old.items) }
    ensures room { vec_capacity bytes.old ≤ vec_capacity bytes.new }
{
    let behind = bytes.len() - (start + n);
    bytes.rotate_left(start + n);
    bytes.truncate(behind + start);
    append(bytes, piece);
    bytes.rotate_left(behind);
}

/// Puts another file in place of the one that was found.
fn replace(sizes: &mut Vec<Size>, bytes: &mut Vec<u8>, place: Place, file: &[u8])
    requires index { place.index < vec_len sizes.old }
    requires within { place.start + (place.size.name + place.size.file) ≤ vec_len bytes.old }
    requires room { vec_len bytes.old - place.size.file + length file.now ≤ vec_capacity bytes.old }
    ensures sizes { sizes.new.items
        ≡ slice_set sizes.old.items place.index (record { name = place.size.name; file = length file.now }) }
    ensures bytes { bytes.new.items ≡ take (place.start + place.size.name) bytes.old.items
        ++ (file.now ++ drop (place.start + place.size.name + place.size.file) bytes.old.items) }
    ensures places { vec_capacity sizes.new ≡ vec_capacity sizes.old }
    ensures room { vec_capacity bytes.old ≤ vec_capacity bytes.new }
{
    let start = place.start + place.size.name;
    splice(bytes, start, place.size.file, file);
    sizes[place.index] = Size {
        name: place.size.name,
        file: file.len(),
    };
}

/// Puts a new file behind the others.
fn add(sizes: &mut Vec<Size>, bytes: &mut Vec<u8>, name: &[u8], file: &[u8])
    requires place { vec_len sizes.old < vec_capacity sizes.old }
    requires room { vec_len bytes.old + (length name.now + length file.now) ≤ vec_capacity bytes.old }
    ensures sizes { sizes.new.items
        ≡ sizes.old.items ++ record { name = length name.now; file = length file.now } ∷ [] }
    ensures bytes { bytes.new.items ≡ bytes.old.items ++ name.now ++ file.now }
    ensures places { vec_capacity sizes.new ≡ vec_capacity sizes.old }
    ensures room { vec_capacity bytes.old ≤ vec_capacity bytes.new }
{
    append(bytes, name);
    append(bytes, file);
    sizes.push_reserved(Size {
        name: name.len(),
        file: file.len(),
    });
}

/// Whether a name and a file of these lengths fit in so many bytes.
fn has_room(free: usize, name: usize, file: usize) -> bool
    ensures { IsTrue result ↔ (16 + name + file ≤ free) }
{
    free >= OVERHEAD && name <= free - OVERHEAD && file <= free - OVERHEAD - name
}

impl FileStore {
    pub fn new(alloc: Global, room: usize) -> Result<FileStore, OutOfMemory>
        ensures { IfOk result (λ store. store ≡ record { files = []; room = room }) }
    {
        let sizes = Vec::with_capacity(alloc, room / OVERHEAD + 1)?;
        let bytes = Vec::with_capacity(alloc, room)?;
        Ok(FileStore { sizes, bytes, room })
    }

    /// The file of that name.
    pub fn get(&self, name: &[u8]) -> Option<&[u8]>
        ensures { MatchOption result (file_of self.now.files name.now ≡ None)
            (λ file. file_of self.now.files name.now ≡ Some file.now) }
    {
        let bytes = self.bytes.as_slice();
        match find(&self.sizes, bytes, name) {
            Some(place) => {
                let start = place.start + place.size.name;
                Some(&bytes[start..start + place.size.file])
            }
            None => None,
        }
    }

    /// Makes `file` the file of that name, where the room suffices, and says whether it does.
    pub fn put(&mut self, name: &[u8], file: &[u8]) -> bool
        ensures room { IsTrue result ↔ (room_used (put_of self.old.files name.now file.now) ≤ self.old.room) }
        ensures after { self.new ≡ (if result then stored self.old name.now file.now else self.old) }
    {
        let free = self.room - self.bytes.len() - OVERHEAD * self.sizes.len();
        match find(&self.sizes, &self.bytes, name) {
            Some(place) => {
                if file.len() > free + place.size.file {
                    return false;
                }
                replace(&mut self.sizes, &mut self.bytes, place, file);
                true
            }
            None => {
                if !has_room(free, name.len(), file.len()) {
                    return false;
                }
                add(&mut self.sizes, &mut self.bytes, name, file);
                true
            }
        }
    }
}
