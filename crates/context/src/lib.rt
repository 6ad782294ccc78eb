// The context: all state but the bytes of the buffers, whether it is sound, and what a call answers once it has changed a part.
#![tactic(auto)]

ghost use Rattle.std.specs.Prelude.{◌≡◌, ◌<◌, Ok};
ghost use Rattle.number.specs.Decides.{Decides};
ghost use Rattle.refusal.specs.Refusals.{number_in};
ghost use Rattle.refusal.specs.EnumerantsCode.{Decodes};
ghost use Rattle.matrix.specs.Matrix.{product};
ghost use Rattle.stack.specs.Stack as stack;
ghost use Rattle.buffers.specs.Objects.{store_bytes};
ghost use Rattle.draw.specs.DrawCode.{drawn_from};
ghost use Rattle.context.specs.State.{stack_at, Sound, Fresh};
ghost use Rattle.context.specs.Rules.{matrix_modes, mode_code, slot_after};
ghost use Rattle.context.specs.Contract.{put_buffers, noted, draw_reply};
ghost use Rattle.context.specs.ContractCode.{SoundApart, current_at, put_current, currents_of, put_currents, currents_reply, loaded, multiplied};
ghost use Rattle.context.specs.ContractCode.{put_stacks, reply, Settled, inputs_for};

use arrays::{Arrays, Attributes, UNIT_COUNT};
use buffers::{Buffers, STORE_BYTES};
use pipeline::Pipeline;
use refusal::{Refusal, UnknownEnum};
use stack::{Matrix, MatrixStack};
use vertex::DrawInputs;

// The stack that matrix calls go to.
#[derive(Clone, Copy, Debug, PartialEq, Eq)]
pub enum MatrixMode {
    Modelview,
    Projection,
    Texture,
}

impl TryFrom<u32> for MatrixMode {
    type Error = UnknownEnum;

    ghost try_from_gives = { λ code r. Decodes matrix_modes code r };

    fn try_from(code: u32) -> Result<Self, UnknownEnum> {
        match code {
            0x1700 => Ok(MatrixMode::Modelview),
            0x1701 => Ok(MatrixMode::Projection),
            0x1702 => Ok(MatrixMode::Texture),
            _ => Err(UnknownEnum),
        }
    }
}

impl From<MatrixMode> for u32 {
    ghost from_gives = { λ mode code. code ≡ mode_code mode };

    fn from(mode: MatrixMode) -> u32 {
        match mode {
            MatrixMode::Modelview => 0x1700,
            MatrixMode::Projection => 0x1701,
            MatrixMode::Texture => 0x1702,
        }
    }
}

#[repr(C)]
#[derive(Clone, Copy)]
pub struct Stacks {
    pub modelview: MatrixStack,
    pub projection: MatrixStack,
    pub texture: MatrixStack,
}

// All state, in parts by what the calls touch. The bytes of the buffers are in the store, which the caller lends. With the number between stacks and
// buffers the compiler can copy the one without the other.
#[derive(Clone, Copy)]
pub struct Context {
    pub mode: MatrixMode,
    pub stacks: Stacks,
    pub error: u32,
    pub buffers: Buffers,
    pub arrays: Arrays,
    pub attributes: Attributes,
    pub pipeline: Pipeline,
}

// What a call answers: its number, 0 for done, and the context after it.
#[derive(Clone, Copy)]
pub struct Reply {
    pub number: u32,
    pub context: Context,
}

// gen's answer, with the first of the names.
#[derive(Clone, Copy)]
pub struct GenReply {
    pub number: u32,
    pub first: u32,
    pub context: Context,
}

// take_error's answer, with the code that the slot held.
#[derive(Clone, Copy)]
pub struct ErrorReply {
    pub number: u32,
    pub code: u32,
    pub context: Context,
}

// A draw's answer, with the number of its triangles.
#[derive(Clone, Copy)]
pub struct DrawReply {
    pub number: u32,
    pub count: usize,
    pub context: Context,
}

// The error slot after an answer: it keeps the first code, and only codes from 0x0500 enter it.
pub fn slot_after(number: u32, slot: u32) -> u32
    ensures { result ≡ slot_after number slot }
{
    if number >= 0x0500 && slot == 0 {
        number
    } else {
        slot
    }
}

// The current matrices of the three stacks: what a call that updates a matrix changes.
#[derive(Clone, Copy)]
pub struct Currents {
    pub modelview: Matrix,
    pub projection: Matrix,
    pub texture: Matrix,
}

impl Currents {
    // The entries of the matrix of a mode.
    pub fn entries(&self, mode: MatrixMode) -> [f32; 16]
        ensures { result ≡ current_at mode self.now }
    {
        match mode {
            MatrixMode::Modelview => self.modelview.entries,
            MatrixMode::Projection => self.projection.entries,
            MatrixMode::Texture => self.texture.entries,
        }
    }

    // The matrix of a mode replaced.
    pub fn put(self, mode: MatrixMode, entries: [f32; 16]) -> Currents
        ensures { result ≡ put_current mode entries self }
    {
        let matrix = Matrix { entries };
        match mode {
            MatrixMode::Modelview => Currents {
                modelview: matrix,
                ..self
            },
            MatrixMode::Projection => Currents {
                projection: matrix,
                ..self
            },
            MatrixMode::Texture => Currents {
                texture: matrix,
                ..self
            },
        }
    }

    // The matrix of a mode multiplied on the right.
    pub fn multiply(self, mode: MatrixMode, m: [f32; 16]) -> Currents
        ensures { result ≡ put_current mode (product (current_at mode self) m) self }
    {
        self.put(mode, matrix::multiply(self.entries(mode), m))
    }
}

impl Stacks {
    // Whether each stack is sound.
    fn is_sound(&self) -> bool
        ensures { Decides ((m : MatrixMode) → stack.Sound (stack_at m self.now)) result }
    {
        self.modelview.is_sound() && self.projection.is_sound() && self.texture.is_sound()
    }

    // The current matrices.
    fn currents(&self) -> Currents
        ensures { result ≡ currents_of self.now }
    {
        Currents {
            modelview: self.modelview.current,
            projection: self.projection.current,
            texture: self.texture.current,
        }
    }

    // Other current matrices.
    pub fn set_currents(&mut self, m: Currents)
        ensures { self.new ≡ put_currents m self.old }
    {
        stack::replace(&mut self.modelview.current.entries, m.modelview);
        stack::replace(&mut self.projection.current.entries, m.projection);
        stack::replace(&mut self.texture.current.entries, m.texture);
    }
}

impl Context {
    // A fresh context.
    pub fn new() -> Context
        ensures { Fresh result }
    {
        let stack = MatrixStack::new();
        Context {
            mode: MatrixMode::Modelview,
            stacks: Stacks {
                modelview: stack,
                projection: stack,
                texture: stack,
            },
            buffers: Buffers::new(),
            arrays: Arrays::new(),
            attributes: Attributes::new(),
            pipeline: Pipeline::new(),
            error: 0,
        }
    }

    // Whether all but the buffers is sound: these are tested by the functions that take them.
    pub fn is_sound_apart(&self) -> bool
        ensures { Decides (SoundApart self.now) result }
    {
        (self.arrays.client_active_texture as usize) < UNIT_COUNT
            && (self.pipeline.active_texture as usize) < UNIT_COUNT
            && self.stacks.is_sound()
    }

    // Whether the context is sound. The buffers are copied for the question: lent in place, the compiler would keep the whole context in memory.
    pub fn is_sound(&self) -> bool
        ensures { Decides (Sound self.now) result }
    {
        let buffers = self.buffers;
        self.is_sound_apart() && buffers.is_sound()
    }

    // Whether the context is sound and the store has its length.
    pub fn is_ready(&self, len: usize) -> bool
        ensures { Decides (Sound self.now × (len ≡ store_bytes)) result }
    {
        len == STORE_BYTES && self.is_sound()
    }

    // The reply of a context that is not sound, or for a store of another length.
    pub fn refuse(self) -> Reply
        ensures { result ≡ reply 1 self }
    {
        Reply {
            number: u32::from(Refusal::Invalid),
            context: self,
        }
    }

    // The reply of a call that answers this number, with the context after it.
    pub fn note(mut self, number: u32) -> Reply
        ensures { result ≡ reply number (noted number self) }
    {
        self.error = slot_after(number, self.error);
        Reply {
            number,
            context: self,
        }
    }

    // The reply of a call that has changed its part of the context, or was refused.
    pub fn answer(self, done: Result<(), Refusal>) -> Reply
        ensures { result ≡ reply (number_in done) (noted (number_in done) self) }
    {
        self.note(refusal::number_of(done))
    }

    // The reply of a buffer call that answers this number, with the buffers after it.
    #[inline(always)]
    pub fn put_buffers(self, number: u32, buffers: Buffers) -> Reply
        ensures { result ≡ reply number (noted number (put_buffers buffers self)) }
    {
        let mut context = self;
        context.buffers = buffers;
        context.error = slot_after(number, self.error);
        Reply { number, context }
    }

    // The current matrices.
    pub fn currents(&self) -> Currents
        ensures { result ≡ currents_of self.now.stacks }
    {
        self.stacks.currents()
    }

    // The reply of a call that updates a matrix, with the current matrices after it.
    #[inline(always)]
    pub fn answer_currents(mut self, number: u32, m: Currents) -> Reply
        ensures { Settled self (reply number (noted number (put_stacks (put_currents m self.stacks) self))) result }
    {
        if !self.is_sound() {
            return self.refuse();
        }
        self.stacks.set_currents(m);
        self.note(number)
    }

    // The reply of a call that replaces the current matrix of the mode in force.
    #[inline(always)]
    pub fn load(self, entries: [f32; 16]) -> Reply
        ensures { Settled self (currents_reply (Ok (loaded entries self)) self) result }
    {
        let currents = self.currents().put(self.mode, entries);
        self.answer_currents(0, currents)
    }

    // The reply of a call that multiplies it on the right, or refuses to. Number and matrices are made first: at a branch between context and reply
    // the context would be copied.
    #[inline(always)]
    pub fn multiply(self, m: Result<[f32; 16], Refusal>) -> Reply
        ensures { Settled self (currents_reply (multiplied m self) self) result }
    {
        let currents = self.currents();
        let (number, currents) = match m {
            Ok(m) => (0, currents.multiply(self.mode, m)),
            Err(e) => (u32::from(e), currents),
        };
        self.answer_currents(number, currents)
    }

    // What a draw's vertices are made from.
    pub fn draw_inputs(&self, base: u32, stages: u32) -> DrawInputs
        ensures { result ≡ inputs_for self.now base stages }
    {
        let modelview = self.stacks.modelview.current.entries;
        let projection = self.stacks.projection.current.entries;
        DrawInputs {
            transform: matrix::multiply(projection, modelview),
            modelview,
            texture: self.stacks.texture.current.entries,
            buffers: self.buffers,
            arrays: self.arrays,
            attributes: self.attributes,
            base,
            stages,
        }
    }

    // The reply of a draw that answers this number, with the number of its triangles.
    pub fn note_draw(self, number: u32, count: usize) -> DrawReply
        ensures { result ≡ draw_reply number count (noted number self) }
    {
        let error = slot_after(number, self.error);
        DrawReply {
            number,
            count,
            context: Context { error, ..self },
        }
    }

    // The reply of a draw that was made or refused.
    pub fn answer_draw(self, d: Result<usize, Refusal>) -> DrawReply
        ensures { let r = drawn_from d in result ≡ draw_reply r.number r.count (noted r.number self) }
    {
        self.note_draw(refusal::number_of(d), d.unwrap_or(0))
    }
}
