// Calls as records of words (specs/Encoding.antt): which there are, and the functions that make the calls of each group but buffer calls and draws.
#![tactic(auto)]

ghost use Rattle.std.specs.Prelude.{◌≡◌};
ghost use Rattle.stack.specs.Stack.{MatrixCall};
ghost use Rattle.context.specs.Calls.{Call, ObjectCall};
ghost use Rattle.context.specs.Contract.{Does};
ghost use Rattle.list_words.specs.Words.{word_at, four_floats};
ghost use Rattle.list_records.specs.Encoding.{update_of, matrix_of, array_call_of, attribute_of, pipeline_of, is_record};
ghost use Rattle.list_records.specs.Perform.{value_of, reply_of};

use context::{Context, DrawReply, ErrorReply, GenReply, Reply};

// A call as a code and words. The bytes that it borrows lie in an area of bytes, at the place that the words name.
#[derive(Clone, Copy)]
pub struct Record<'a> {
    pub code: u32,
    pub words: &'a [u32],
    pub bytes: &'a [u8],
}

impl<'a> Record<'a> {
    pub fn word(self, i: usize) -> u32
        ensures { result ≡ word_at self.entry.words.now i }
    {
        list_words::word_at(self.words, i)
    }
}

// What a call answers: besides its number the first name of gen_buffers, the code of take_error or the count of a draw, and 0 of any other call.
#[derive(Clone, Copy)]
pub struct CallReply {
    pub number: u32,
    pub value: usize,
    pub context: Context,
}

impl From<Reply> for CallReply {
    ghost from_gives = { λ r a. a ≡ reply_of r.number 0 r.context };

    fn from(r: Reply) -> CallReply {
        CallReply {
            number: r.number,
            value: 0,
            context: r.context,
        }
    }
}

impl From<GenReply> for CallReply {
    ghost from_gives = { λ r a. a ≡ reply_of r.number r.first r.context };

    fn from(r: GenReply) -> CallReply {
        CallReply {
            number: r.number,
            value: r.first as usize,
            context: r.context,
        }
    }
}

impl From<ErrorReply> for CallReply {
    ghost from_gives = { λ r a. a ≡ reply_of r.number r.code r.context };

    fn from(r: ErrorReply) -> CallReply {
        CallReply {
            number: r.number,
            value: r.code as usize,
            context: r.context,
        }
    }
}

impl From<DrawReply> for CallReply {
    ghost from_gives = { λ r a. a ≡ reply_of r.number r.count r.context };

    fn from(r: DrawReply) -> CallReply {
        CallReply {
            number: r.number,
            value: r.count,
            context: r.context,
        }
    }
}

// ---- the calls of a group

// The calls that update a matrix, apart from push and pop, for which a stack is copied.
pub fn make_update(c: Context, code: u32, f: [f32; 16]) -> Reply
    ensures { Does (Call.matrix (MatrixCall.update (update_of code f))) c result.number result.context }
{
    match code {
        0x11 => gles_matrix::load_identity(c),
        0x12 => gles_matrix::load_matrix(c, f),
        0x13 => gles_matrix::mult_matrix(c, f),
        0x16 => gles_matrix::translate(c, f[0], f[1], f[2]),
        0x17 => gles_matrix::scale(c, f[0], f[1], f[2]),
        0x18 => gles_matrix::rotate(c, f[0], f[1], f[2], f[3], f[4]),
        0x1a => gles_matrix::frustum(c, f[0], f[1], f[2], f[3], f[4], f[5]),
        _ => gles_matrix::ortho(c, f[0], f[1], f[2], f[3], f[4], f[5]),
    }
}

pub fn make_matrix(c: Context, code: u32, f: [f32; 16]) -> Reply
    ensures { Does (Call.matrix (matrix_of code f)) c result.number result.context }
{
    match code {
        0x14 => gles_matrix::push_matrix(c),
        0x15 => gles_matrix::pop_matrix(c),
        _ => make_update(c, code, f),
    }
}

// ---- the calls of a record

// Makes the call of a record of an array.
pub fn array_record(c: Context, record: Record<'_>) -> Reply
    ensures { Does
        (Call.object (ObjectCall.array (array_call_of record.entry.code (word_at record.entry.words.now 0) (word_at record.entry.words.now 1)
        (word_at record.entry.words.now 2) (word_at record.entry.words.now 3))))
        c result.number result.context }
{
    let a = record.word(0);
    let b = record.word(1);
    let d = record.word(2);
    let e = record.word(3);
    match record.code {
        0x30 => gles_arrays::set_vertex_pointer(c, a, b, d, e),
        0x31 => gles_arrays::set_color_pointer(c, a, b, d, e),
        0x32 => gles_arrays::set_normal_pointer(c, a, b, d),
        0x33 => gles_arrays::set_texcoord_pointer(c, a, b, d, e),
        0x34 => gles_arrays::set_client_state(c, a, b == 1),
        _ => gles_arrays::set_client_active_texture(c, a),
    }
}

pub fn attribute_record(c: Context, record: Record<'_>) -> Reply
    ensures { Does (Call.attribute (attribute_of record.entry.code (word_at record.entry.words.now 0) (four_floats record.entry.words.now)))
        c result.number result.context }
{
    let f = list_words::four_floats(record.words);
    match record.code {
        0x36 => gles_arrays::set_color(c, f),
        _ => gles_arrays::set_multi_texcoord(c, record.word(0), f[1], f[2]),
    }
}

pub fn pipeline_record(c: Context, record: Record<'_>) -> Reply
    ensures { Does (Call.pipeline (pipeline_of record.entry.code (word_at record.entry.words.now 0) (word_at record.entry.words.now 1)
        (four_floats record.entry.words.now)))
        c result.number result.context }
{
    let a = record.word(0);
    let b = record.word(1);
    let f = list_words::four_floats(record.words);
    match record.code {
        0x40 => gles_pipeline::set_active_texture(c, a),
        0x41 => gles_pipeline::set_capability(c, a, b == 1),
        0x42 => gles_pipeline::tex_env(c, a, b),
        0x43 => gles_pipeline::set_tex_env_color(c, f),
        0x44 => gles_pipeline::set_depth_func(c, a),
        0x45 => gles_pipeline::set_alpha_func(c, a, f[1]),
        0x46 => gles_pipeline::set_blend_func(c, a, b),
        0x47 => gles_pipeline::set_cull_face(c, a),
        0x48 => gles_pipeline::set_front_face(c, a),
        0x49 => gles_pipeline::set_fog(c, a, f[1]),
        _ => gles_pipeline::set_depth_range(c, f[0], f[1]),
    }
}

pub fn make_take_error(c: Context) -> CallReply
    ensures does { Does Call.take_error c result.number result.context }
    ensures value { result.value ≡ value_of Call.take_error c result.number }
{
    gles_pipeline::take_error(c).into()
}

// ---- records

// Whether a record of this code may have n words.
#[tactic(auto, unfolding(crate::specs::Encoding::is_record))]
pub fn is_record(code: u32, n: usize) -> bool
    ensures { result ≡ is_record code n }
{
    match code {
        0x22 => true,
        0x60 => n >= 9,
        0x11 | 0x14 | 0x15 | 0x50 => n == 0,
        0x10 | 0x35 | 0x40 | 0x44 | 0x47 | 0x48 => n == 1,
        0x20 | 0x21 | 0x34 | 0x41 | 0x42 | 0x45 | 0x46 | 0x49 | 0x4a => n == 2,
        0x16 | 0x17 | 0x32 | 0x37 => n == 3,
        0x30 | 0x31 | 0x33 | 0x36 | 0x43 => n == 4,
        0x18 => n == 5,
        0x1a | 0x1b | 0x24 => n == 6,
        0x23 => n == 8,
        0x61 => n == 11,
        0x62 => n == 12,
        0x12 | 0x13 => n == 16,
        _ => false,
    }
}
