// Client arrays, what a fetch answers, and where bytes lie: in a buffer, or in guest memory.
#![tactic(auto)]

ghost use Rattle.std.specs.Prelude.{◌≡◌, Some, None, cond, List, ℕ, ◌-◌, ◌*◌, ◌<◌, min, eqb, length};
ghost use Rattle.std.proofs.Math.Option.{some, none};
ghost use Rattle.buffers.specs.Objects.{slot_count, slot_bytes, slot_of, contents_of, len_at};
ghost use Rattle.fetch.specs.Fetch.{fresh_array, in_buffer, in_guest, part_of, is_found, bytes_in};
ghost use Rattle.fetch.specs.FetchCode.{part_source, Located, part_in};

use buffers::{Buffers, SLOT_BYTES};

// Four components.
#[derive(Clone, Copy)]
pub struct Vec4 {
    pub x: f32,
    pub y: f32,
    pub z: f32,
    pub w: f32,
}

// Why a fetch fails.
#[derive(Clone, Copy, Debug, PartialEq, Eq)]
pub enum FetchFailure {
    UnknownType,
    Overflow,
    NoBuffer,
    Unreadable,
}

// What a fetch answers.
pub type Fetched = Result<Vec4, FetchFailure>;

// A client array. With a buffer its pointer is an offset into it, else a guest address.
#[repr(C)]
#[derive(Clone, Copy)]
pub struct ArrayPointer {
    pub enabled: bool,
    pub size: u32,
    pub ty: u32,
    pub stride: u32,
    pub pointer: u32,
    pub buffer: u32,
}

impl ArrayPointer {
    // Disabled, of four floats.
    pub fn new() -> ArrayPointer
        ensures { result ≡ fresh_array }
    {
        ArrayPointer {
            enabled: false,
            size: 4,
            ty: 0x1406,
            stride: 0,
            pointer: 0,
            buffer: 0,
        }
    }
}

// Why bytes are not there.
#[derive(Clone, Copy, Debug, PartialEq, Eq)]
pub enum Missing {
    NoBuffer,
    Unreadable,
}

// Where a guest range lies in the guest bytes.
fn find_in_guest(base: u32, guest: &[u8], address: u32, len: usize) -> Result<usize, Missing>
    ensures { Located (in_guest base guest.now address len) guest.now len result }
{
    if address < base {
        return Err(Missing::Unreadable);
    }
    let at = (address - base) as usize;
    if guest.len() < at || guest.len() - at < len {
        return Err(Missing::Unreadable);
    }
    Ok(at)
}

// Whether a range of guest memory can be read.
pub fn can_read(base: u32, guest: &[u8], address: u32, len: usize) -> bool
    ensures { result ≡ is_found (in_guest base guest.now address len) }
{
    find_in_guest(base, guest, address, len).is_ok()
}

// The bytes of such a range, a part of the guest bytes; none where it cannot be read.
// No Option: this read never fails, and callers rely on it. `can_read` tells a range of no bytes from one that cannot be read.
pub fn read<'a>(base: u32, guest: &'a [u8], address: u32, len: usize) -> &'a [u8]
    ensures { result.now ≡ bytes_in (in_guest base guest.now address len) }
{
    match find_in_guest(base, guest, address, len) {
        Ok(at) => &guest[at..][..len],
        Err(_) => &guest[..0],
    }
}

// The bytes that an array's elements are parts of: `room` bytes from `origin` on of the store or of the guest bytes, the first with the address `low`.
#[derive(Clone, Copy)]
pub struct Extent {
    pub low: u32,
    pub origin: usize,
    pub room: usize,
}

// What a fetch reads: the buffers with the bytes of their store, and the guest bytes from the address `base` on.
#[derive(Clone, Copy)]
pub struct Memory<'a> {
    pub buffers: Buffers,
    pub store: &'a [u8],
    pub base: u32,
    pub guest: &'a [u8],
}

impl<'a> Memory<'a> {
    // How many of slot k's bytes the store holds.
    fn bytes_in_slot(&self, k: usize) -> usize
        requires { k < slot_count }
        ensures { result ≡ min (len_at self.now.buffers.slots k) (length self.now.store.now - slot_bytes * k) }
    {
        (self.buffers.slot_len(k) as usize).min(self.store.len().saturating_sub(SLOT_BYTES * k))
    }

    // Where a buffer's bytes lie in the store.
    fn find_in_buffer(&self, buffer: u32, address: u32, len: usize) -> Result<usize, Missing>
        ensures { Located (in_buffer (contents_of self.now.buffers.slots self.now.store.now buffer) address len) self.now.store.now len result }
    {
        if buffer == 0 {
            return Err(Missing::NoBuffer);
        }
        let Some(k) = self.buffers.find_slot(buffer) else {
            return Err(Missing::NoBuffer);
        };
        let held = self.bytes_in_slot(k);
        let at = address as usize;
        if held < at || held - at < len {
            return Err(Missing::Unreadable);
        }
        if len == 0 {
            return Ok(0);
        }
        Ok(SLOT_BYTES * k + at)
    }

    // Where an element's bytes lie: in the guest bytes with buffer 0, else in the store.
    #[tactic(auto, unfolding(crate::specs::Fetch::part_of))]
    fn find_place(&self, buffer: u32, address: u32, len: usize) -> Result<usize, Missing>
        ensures { Located (part_of (contents_of self.now.buffers.slots self.now.store.now) self.now.base self.now.guest.now buffer address len)
            (part_source buffer self.now.store.now self.now.guest.now) len result }
    {
        if buffer == 0 {
            find_in_guest(self.base, self.guest, address, len)
        } else {
            self.find_in_buffer(buffer, address, len)
        }
    }

    // The bytes of a range: in the named buffer, or with buffer 0 in guest memory.
    #[tactic(auto, unfolding(crate::specs::Fetch::part_of))]
    pub fn part(&self, buffer: u32, address: u32, len: usize) -> Result<&'a [u8], Missing>
        ensures { part_in result ≡ part_of (contents_of self.now.buffers.slots self.now.store.now) self.now.base self.now.guest.now buffer address len }
    {
        let at = self.find_place(buffer, address, len)?;
        if buffer == 0 {
            return Ok(read(self.base, self.guest, address, len));
        }
        Ok(&self.store[at..][..len])
    }

    // The same; none where it is not there. No Option: it never fails, and `part` tells why bytes are missing.
    pub fn bytes(&self, buffer: u32, address: u32, len: usize) -> &'a [u8]
        ensures { result.now ≡ bytes_in (part_of (contents_of self.now.buffers.slots self.now.store.now) self.now.base self.now.guest.now buffer address len) }
    {
        self.part(buffer, address, len).unwrap_or(&[])
    }

    // The extent of a buffer, or with buffer 0 of the guest bytes; none where the buffer is absent.
    pub fn find_extent(&self, buffer: u32) -> Option<Extent>
        ensures { (buffer ≡ 0 → result ≡ Some (record { low = self.now.base; origin = 0; room = length self.now.guest.now }))
            × (0 < buffer → contents_of self.now.buffers.slots self.now.store.now buffer ≡ none → result ≡ None)
            × ((held : List ℕ) → contents_of self.now.buffers.slots self.now.store.now buffer ≡ some held
            → result ≡ Some (record { low = 0; origin = cond (eqb (length held) 0) 0 (slot_bytes * slot_of self.now.buffers.slots buffer); room = length held })) }
    {
        if buffer == 0 {
            return Some(Extent {
                low: self.base,
                origin: 0,
                room: self.guest.len(),
            });
        }
        let k = self.buffers.find_slot(buffer)?;
        let room = self.bytes_in_slot(k);
        let origin = if room == 0 { 0 } else { SLOT_BYTES * k };
        Some(Extent {
            low: 0,
            origin,
            room,
        })
    }
}
