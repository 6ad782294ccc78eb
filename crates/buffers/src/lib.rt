#![tactic(auto)]

ghost use Rattle.std.specs.Prelude.{◌≡◌, List, cond, ℕ, ◌+◌, ◌<◌, ◌≤◌, length, eqb, is_ok, MatchResult, ⊤};
ghost use Rattle.number.specs.Decides.{Decides};
ghost use Rattle.number.specs.Bytes.{overwrite};
ghost use Rattle.refusal.specs.Refusals.{number_in};
ghost use Rattle.refusal.specs.EnumerantsCode.{Decodes};
ghost use Rattle.refusal.specs.declared.Refusal.{Refusal};
ghost use Rattle.buffers.specs.Live.{FindsNext};
ghost use Rattle.buffers.specs.Objects.{name_at, slot_count, last_name, slot_of, len_at, Bindable, Sound, SoundIs, IsFresh, Answers, bind_answer, AnswersIn};
ghost use Rattle.buffers.specs.Objects.{data_answer, sub_data_answer, padded, delete_name, delete_answer, first_in, Generates};
ghost use Rattle.buffers.specs.ObjectsCode.{FindsSlot, targets, bound_to, FindsBound, SlotFits, MakesName, Steps, live_in};

use refusal::{Refusal, UnknownEnum};

// Limits: slots, bytes of a slot's block, bytes of the store, and the number that no name reaches.
pub const SLOT_COUNT: usize = 16;

pub const SLOT_BYTES: usize = 4096;

pub const STORE_BYTES: usize = 65536;

pub const LAST_NAME: u32 = 0xffff_ffff;

// The numbers of the targets.
pub const ARRAY_BUFFER: u32 = 0x8892;

pub const ELEMENT_ARRAY_BUFFER: u32 = 0x8893;

// What a buffer is bound to.
#[derive(Clone, Copy, Debug, PartialEq, Eq)]
pub enum Target {
    Array,
    Element,
}

impl TryFrom<u32> for Target {
    type Error = UnknownEnum;

    ghost try_from_gives = { λ code r. Decodes targets code r };

    fn try_from(code: u32) -> Result<Self, UnknownEnum> {
        match code {
            ARRAY_BUFFER => Ok(Target::Array),
            ELEMENT_ARRAY_BUFFER => Ok(Target::Element),
            _ => Err(UnknownEnum),
        }
    }
}

// A slot for a live buffer: its name and its length in bytes. Name 0 marks a free slot. Document 01 calls a slot a row.
#[repr(C)]
#[derive(Clone, Copy)]
pub struct Slot {
    pub name: u32,
    pub len: u32,
}

impl Slot {
    // The slot is free, or within the limits.
    fn fits(&self, next: u32) -> bool
        ensures { Decides (SlotFits self.now next) result }
    {
        self.name < next && (self.name == 0 || self.len as usize <= SLOT_BYTES)
    }
}

// The buffer objects. Slot k's bytes are the first `len` of the 4,096 from 4096 * k in the borrowed store.
#[repr(C)]
#[derive(Clone, Copy)]
pub struct Buffers {
    pub slots: [Slot; SLOT_COUNT],
    pub next: u32,
    pub array_buffer: u32,
    pub element_buffer: u32,
}

// Writes the data, then zeroes, `size` bytes in all from `at` on.
fn write_padded(store: &mut [u8], at: usize, size: usize, data: &[u8])
    requires { at + size ≤ length store.old }
    ensures { store.new ≡ overwrite store.old at (padded size «data».now) }
{
    let n = data.len().min(size);
    store[at..at + n].copy_from_slice(&data[..n]);
    store[at + n..at + size].fill(0);
}

// A binding, 0 where it is of the name.
fn cleared(bound: u32, name: u32) -> u32
    ensures { result ≡ cond (eqb bound name) 0 bound }
{
    if bound == name { 0 } else { bound }
}

impl Buffers {
    // No live name, next 1, both bindings 0.
    pub fn new() -> Buffers
        ensures { IsFresh result }
    {
        Buffers {
            slots: [Slot { name: 0, len: 0 }; SLOT_COUNT],
            next: 1,
            array_buffer: 0,
            element_buffer: 0,
        }
    }

    // The first slot with this name.
    pub fn find_slot(&self, name: u32) -> Option<usize>
        ensures { FindsSlot self.now.slots name result }
    {
        self.slots.iter().position(|slot| slot.name == name)
    }

    // The length of slot k's buffer, 0 where there is no slot k.
    pub fn slot_len(&self, k: usize) -> u32
        ensures { result ≡ len_at self.now.slots k }
    {
        self.slots.get(k).map_or(0, |slot| slot.len)
    }

    // The name in slot k, 0 where there is no slot k.
    pub fn slot_name(&self, k: usize) -> u32
        ensures { result ≡ name_at self.now.slots k }
    {
        self.slots.get(k).map_or(0, |slot| slot.name)
    }

    // The name is 0, or slot k the first with it.
    fn is_first(&self, name: u32, k: usize) -> bool
        ensures { Decides (0 < name → (k < slot_count) × (slot_of self.now.slots name ≡ k)) result }
    {
        name == 0 || self.find_slot(name) == Some(k)
    }

    // The name is 0 or live.
    fn is_bindable(&self, name: u32) -> bool
        ensures { Decides (Bindable self.now.slots name) result }
    {
        name == 0 || self.find_slot(name).is_some()
    }

    // Whether the buffers are sound. That next is above 0 follows from any slot's name being below it.
    pub fn is_sound(&self) -> bool
        ensures { SoundIs self.now result }
    {
        for (k, slot) in self.slots.iter().enumerate() {
            if !slot.fits(self.next) || !self.is_first(slot.name, k) {
                return false;
            }
        }
        self.is_bindable(self.array_buffer) && self.is_bindable(self.element_buffer)
    }

    // A nonzero name is live after this, if it has a slot or one is free for it.
    fn make_name(&mut self, name: u32) -> Result<(), Refusal>
        requires { Sound self.old × (name < last_name) }
        ensures made { MakesName self.old name (is_ok result) self.new }
        ensures refused { MatchResult result (λ _. ⊤) (λ r. r ≡ Refusal.NoSlot) }
    {
        if name == 0 {
            return Ok(());
        }
        if self.find_slot(name).is_none() {
            let free = self.find_slot(0).ok_or(Refusal::NoSlot)?;
            self.slots[free] = Slot { name, len: 0 };
        }
        self.next = self.next.max(name + 1);
        Ok(())
    }

    // `glBindBuffer`. A refused target still makes the name.
    pub fn bind(&mut self, target: u32, name: u32) -> Result<(), Refusal>
        ensures { Answers self.old (λ o. bind_answer o target name) (number_in result) self.new }
    {
        if !self.is_sound() {
            return Err(Refusal::Invalid);
        }
        if LAST_NAME <= name {
            return Err(Refusal::NoName);
        }
        self.make_name(name)?;
        match Target::try_from(target)? {
            Target::Array => self.array_buffer = name,
            Target::Element => self.element_buffer = name,
        }
        Ok(())
    }

    // The name bound at a target.
    fn bound(&self, target: Target) -> u32
        ensures { result ≡ bound_to self.now target }
    {
        match target {
            Target::Array => self.array_buffer,
            Target::Element => self.element_buffer,
        }
    }

    // The slot of the buffer that is bound at a target.
    fn bound_slot(&self, target: Target) -> Option<usize>
        requires { Sound self.now }
        ensures { FindsBound self.now target result }
    {
        let name = self.bound(target);
        if name == 0 {
            None
        } else {
            self.find_slot(name)
        }
    }

    // `glBufferData`.
    pub fn set_data(
        &mut self,
        store: &mut [u8],
        target: u32,
        size: usize,
        data: &[u8],
    ) -> Result<(), Refusal>
        ensures { AnswersIn self.old store.old (λ o. data_answer o target size «data».now) (number_in result) self.new store.new }
    {
        if !self.is_sound() || store.len() != STORE_BYTES {
            return Err(Refusal::Invalid);
        }
        let target = Target::try_from(target)?;
        let k = self.bound_slot(target).ok_or(Refusal::InvalidOperation)?;
        if SLOT_BYTES < size {
            return Err(Refusal::TooLarge);
        }
        write_padded(store, SLOT_BYTES * k, size, data);
        self.slots[k].len = size as u32;
        Ok(())
    }

    // `glBufferSubData`.
    pub fn set_sub_data(
        &mut self,
        store: &mut [u8],
        target: u32,
        offset: u32,
        data: &[u8],
    ) -> Result<(), Refusal>
        ensures { AnswersIn self.old store.old (λ o. sub_data_answer o target offset «data».now) (number_in result) self.new store.new }
    {
        if !self.is_sound() || store.len() != STORE_BYTES {
            return Err(Refusal::Invalid);
        }
        // nothing is bound at a number that is no target's
        let Ok(target) = Target::try_from(target) else {
            return Err(Refusal::InvalidOperation);
        };
        let k = self.bound_slot(target).ok_or(Refusal::InvalidOperation)?;
        let len = self.slots[k].len as usize;
        let at = offset as usize;
        if len < at + data.len() {
            return Err(Refusal::InvalidValue);
        }
        write_padded(store, SLOT_BYTES * k + at, data.len(), data);
        Ok(())
    }

    // One name of `glDeleteBuffers`.
    fn delete_name(&mut self, name: u32)
        requires { Sound self.old }
        ensures { Steps self.old (λ o. delete_name o name) self.new }
    {
        if name == 0 {
            return;
        }
        if let Some(k) = self.find_slot(name) {
            self.slots[k] = Slot { name: 0, len: 0 };
            self.array_buffer = cleared(self.array_buffer, name);
            self.element_buffer = cleared(self.element_buffer, name);
        }
    }

    // `glDeleteBuffers`.
    pub fn delete(&mut self, names: &[u32]) -> Result<(), Refusal>
        ensures { Answers self.old (λ o. delete_answer o names.now) (number_in result) self.new }
    {
        if !self.is_sound() {
            return Err(Refusal::Invalid);
        }
        for name in names {
            self.delete_name(*name);
        }
        Ok(())
    }

    // How many slots are in use.
    fn live_count(&self) -> usize
        ensures { (result ≡ live_in self.now.slots) × (result ≤ slot_count) }
    {
        self.slots.iter().filter(|slot| 0 < slot.name).count()
    }

    // `glGenBuffers`: the first of n names, one after the other; 0 for no names.
    pub fn generate(&mut self, n: usize) -> Result<u32, Refusal>
        ensures { Generates self.old n (number_in result) (first_in result) self.new }
    {
        if !self.is_sound() {
            return Err(Refusal::Invalid);
        }
        // any n may come: past 16 it is refused before it is added to anything
        if SLOT_COUNT < n || SLOT_COUNT < self.live_count() + n {
            return Err(Refusal::NoSlot);
        }
        if (LAST_NAME as usize) < self.next as usize + n {
            return Err(Refusal::NoName);
        }
        let first = self.next;
        for _ in 0..n {
            let made = self.make_name(self.next).is_ok();
            prove!(made); // slots and names were counted
        }
        Ok(if n == 0 { 0 } else { first })
    }

    // The slot of those two that has the lesser name above a number.
    fn lesser(&self, above: u32, best: Option<usize>, k: usize) -> Option<usize>
        requires next_live { FindsNext self.now.slots above k best }
        requires k_lt_slot_count { k < slot_count }
        ensures { FindsNext self.now.slots above (k + 1) result }
    {
        let name = self.slot_name(k);
        if name <= above {
            return best;
        }
        match best {
            Some(b) if self.slot_name(b) <= name => best,
            _ => Some(k),
        }
    }

    // The slot of the least live name above a number.
    // A chain of `filter`, `min_by_key` and `map` reads no better, and its proof did not close.
    pub fn next_live(&self, above: u32) -> Option<usize>
        ensures { FindsNext self.now.slots above slot_count result }
    {
        let mut best = None;
        for k in 0..SLOT_COUNT {
            best = self.lesser(above, best, k);
        }
        best
    }
}
